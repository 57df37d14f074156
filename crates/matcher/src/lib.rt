//! Where rules match in functions: the one binding that a rule can have at an instruction.
//!
//! `Match` of `bindings` says when a rule matches. `Laws` in `specs/` says that it does so with one binding at most,
//! and `Slots` serves the private functions.
#![tactic(auto)]

mod candidate;
mod laws;
mod matching;
mod slots;

pub use laws::every_match_has_one_binding;
pub use matching::{match_at, match_in};
