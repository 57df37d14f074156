//! What `run` writes of a function of the text of a module.
//!
//! The definitions stand in `specs/`: `Arguments` says which values words say for parameters, `OutcomeText` which line
//! an outcome has, `Runs` what a run of a named function writes, `RunFaults` why it is refused, and `OutcomeLaws` that
//! there is always an outcome.
#![tactic(auto)]

mod argument;
mod fault;
mod laws;
mod named;
mod outcome;
mod running;

pub use fault::{RunError, RunFault};
pub use laws::{every_module_read_has_outcomes, every_run_has_its_function_and_arguments};
pub use running::run;
