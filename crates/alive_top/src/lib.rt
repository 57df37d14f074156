//! The program as one call over values: from the words of a command line, the files and the sinks to a status.
//!
//! The definitions stand in `specs/`: `Task` says what the words ask for, `Texts` what is read of its files, `Work` and
//! `Done` what is written for them, and `Ends` when a call ends with which status.
#![tactic(auto)]

mod by_logs;
mod hindrance;
mod laws;
mod loading;
mod optimised;
mod recheck;
mod report;
mod status;
mod top;
mod work;

pub use command_line::OptimiseOptions;
pub use laws::every_module_written_has_outcomes;
pub use load_text::{BUILT_IN, Loaded};
pub use loading::load;
pub use optimised::{Optimised, optimise};
pub use run_text::{
    RunError, RunFault, every_module_read_has_outcomes, every_run_has_its_function_and_arguments,
    run,
};
pub use status::{Ended, Status};
pub use stored_logs::{Refutation, Refutations};
pub use top::alive;
