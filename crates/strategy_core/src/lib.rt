//! The plain strategy: what rules make of a module, function by function, and laws of it.
//!
//! The definitions stand in `specs/`: `Asked` says which verdicts matches ask for, in which order pairs are first
//! asked, and what a table of verdicts says; `PlainStrategy` what the strategy gives for a module by its table, with
//! folding of branches and without; `Decided` that no match is left that should have been rewritten, `Countable` which
//! modules are small enough, and `Laws` that what it gives refines the module. It has no code but the type of what is
//! given.
#![tactic(auto)]

mod done;
mod laws;

pub use done::Done;
pub use laws::{every_match_left_is_decided, every_optimised_module_refines_the_old};
