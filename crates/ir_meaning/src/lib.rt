//! What a function does when it runs, and laws of what it may do.
//!
//! What a run may do stands in `specs/Run` of `ir_core`, and the laws in `specs/Laws`. `specs/Table`, `specs/Step` and
//! `specs/Taken` describe the state of the interpreter.
//!
//! Beside that stand traces of runs: `specs/Paths` defines paths through a function, instruction by instruction, and
//! `specs/Histories` the moments that a run has passed and what registers hold at each. Their laws stand in
//! `specs/Assignments` (in which order results are assigned), `specs/HistoryLaws` (what registers hold) and
//! `specs/Orders` (refinement is an order).
#![tactic(auto)]

mod block;
mod histories;
mod instruction;
mod laws;
mod noundef;
mod operand;
mod phi;
mod run;
mod table;
mod terminator;

pub use histories::{
    assigned_registers_keep_their_order, equations_hold_where_assigned, outcomes_have_histories,
    refinement_is_an_order, registers_hold_their_widths, registers_hold_what_they_did,
};
pub use laws::{
    every_function_has_outcomes, every_zero_outcome_is_an_outcome, instructions_are_monotone,
};
pub use run::run_zero;
