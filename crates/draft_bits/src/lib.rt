//! What is known of the bits of a draft's results, kept while the draft changes.
//!
//! Of each instruction that stands in a reached block its bits are those of the table of `known_bits`, by the bits of
//! its operands (`specs/DraftBits`). That is an equation at each instruction, which knows no order: an edit breaks it
//! where it touched something, and there and behind it is set right again. In a function that meets its checks these
//! are the bits that are known at each instruction by those before it (`specs/Laws`).
#![tactic(auto)]

mod bits;
mod laws;
mod rows;
mod updating;
mod waiting;

pub use bits::DraftBits;
pub use laws::draft_bits_are_known_bits;
pub use updating::update;
