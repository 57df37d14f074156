//! The reader of proofs: the proofs in a text, each of one of some rules at one of its typings.
//!
//! `specs/Faults` says which texts hold proofs of the rules, and what the first fault of any other text is.
#![tactic(auto)]

mod laws;
mod names;
mod proof;
mod reader;

pub use laws::texts_have_proofs_or_a_fault;
pub use proof::RuleProof;
pub use proof_text::{LogError, LogFault, LogFaultKind, MOST_BYTES};
pub use reader::read_logs;
