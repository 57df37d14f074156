//! Where the rules of a file match in a function, in the order in which a search finds the matches.
//!
//! `Matches` of `bindings` says which matches a function has, and in which order. In `specs/`, `Roots` says which rules
//! may match at an instruction, and `Laws` what holds of the order of matches. `Found` serves the private functions.
#![tactic(auto)]

mod laws;
mod matches;
mod roots;

pub use laws::matches_before_stand_first;
pub use matches::{Rules, matches_at, matches_in_any_order};
pub use roots::{Group, RootKind, RulesByRoot};
