//! The lines on the error stream that say why a command failed.
//!
//! The definitions stand in `specs/`: `Lines` says which line there is on a rule file, on a module, on proofs, on a
//! file that could not be read, on arguments and on memory.
#![tactic(auto)]

mod logs;
mod module;
mod place;
mod read_fault;
mod rules;

pub use logs::logs_line;
pub use module::module_line;
pub use read_fault::read_fault_line;
pub use rules::rules_line;
