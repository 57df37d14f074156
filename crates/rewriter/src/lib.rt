//! Rewriting: the instructions that a rule inserts in the place of a root that it matches, and why the new function
//! refines the old one.
//!
//! In `specs/`, `Put` says which instructions these are, `Applied` what the function is to which a rule is applied, and
//! `Laws` that this refines the old one where the rule is valid. `Ready` serves the private functions.
#![tactic(auto)]

mod applying;
mod insts;
mod laws;
mod operands;

pub use applying::apply;
pub use insts::rewrite_of;
pub use laws::{
    equations_of_statements_hold, rewritten_functions_meet_checks, rewritten_functions_refine,
};
