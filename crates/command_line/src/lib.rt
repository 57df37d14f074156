//! The words of a command line, read as a command.
#![tactic(auto)]

mod command;
mod definition;
mod descriptions;
mod laws;
mod read;
mod widths;

pub use command::{
    Command, CommandError, OptimiseOptions, RecheckOptions, RunOptions, VerifyOptions,
};
pub use descriptions::{DEFAULT_CONFLICTS, DEFAULT_STEPS};
pub use laws::words_say_one_command;
pub use read::read_command;
