//! What is known of the bits of operands inside a block.
//!
//! Each bit of an operand at a place is 0, 1 or unknown, by the instructions that stand before the place in its block
//! (`specs/KnownBits`). In every run that comes to the place the operand holds poison, or a number with these bits
//! (`specs/Laws`).
#![tactic(auto)]

mod bits;
mod facts;
mod instruction;
mod laws;
mod place;
mod words;

pub use facts::Facts;
pub use instruction::result_bits;
pub use laws::operands_have_known_bits;
pub use place::{facts_before, known};
pub use words::Known;
