//! The text of proofs: written and read.
#![tactic(auto)]

mod clause;
mod fault;
mod head;
mod laws;
mod log;
mod number;
mod numbers;
mod proof;
mod read;
mod step;
mod stop;
mod write;

pub use fault::{LogError, LogFault, LogFaultKind};
pub use laws::{texts_have_one_reading, what_is_written_is_read};
pub use proof::Proof;
pub use read::{MOST_BYTES, read_proofs};
pub use write::{push_proof, write_proofs};
