//! Rewriting a function in one place: other instructions replace one, the root, and an operand is substituted for its
//! register.
//!
//! In `specs/`, `Substitution` says what operations are once operands are substituted for registers, `Rewritten` what a
//! function is once an instruction in it is replaced, `Fits` when the new instructions fit it, `Held` what registers
//! may hold where a run comes to, `Allows` what may stand in whose place, and `Laws` what holds of all these: what is
//! left to show of a rewrite is that the root's effect allows what comes of the instructions that are put. `Room` and
//! `Put` serve private functions alone.
#![tactic(auto)]

mod laws;
mod operands;
mod rewrite;
mod rewriting;

pub use laws::{
    instructions_are_monotone_in_what_they_read, rewritten_functions_meet_checks,
    rewritten_functions_refine, runs_hold_what_is_assigned, substituted_operations_give_the_same,
};
pub use rewrite::Rewrite;
pub use rewriting::rewrite_function;
