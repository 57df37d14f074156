//! Stored logs: what `verify --logs` writes of a list of rules, and what `recheck` writes of the proofs in a text.
//!
//! `specs/Proved` and `specs/Rechecked` say what is written, and which verdicts, clause sets and logs come with it.
#![tactic(auto)]

mod proved;
mod rechecked;
mod refutation;
mod stored;
mod words;

pub use proof_reader::{
    LogError, LogFault, LogFaultKind, MOST_BYTES, texts_have_proofs_or_a_fault,
};
pub use proved::{Proved, prove_rules};
pub use rechecked::{Rechecked, recheck};
pub use refutation::{Refutation, Refutations};
pub use stored::read_stored;
