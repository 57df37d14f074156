//! How often each register of a function is used (LangRef, "Identifiers").
//!
//! The definitions stand in `specs/`: `Uses` says which operands name a register and how many they are, `Tables` when a
//! table has the use counts of a function, and `Laws` what holds of them. `Counting` serves private functions alone.
#![tactic(auto)]

mod counting;
mod laws;
mod uses;

pub use counting::count_uses;
pub use laws::every_register_has_one_use_count;
pub use uses::{Uses, uses_of};
