//! What constant terms give, and whether a precondition holds.
#![tactic(auto)]

mod formula;
mod precondition;
mod values;

pub use precondition::holds;
pub use values::term;
