//! Name resolution and type checking: from a function as written to one whose registers and blocks are identified by
//! index, or to its first fault.
//!
//! The definitions stand in `specs/`: `Written` says what names and numbers refer to, `TypedReads` which operands are
//! read and which blocks are named, `Means` which function is meant, `FaultKinds` where a function as written has a
//! fault of which kind, and `Faults` which of these is its first.
#![tactic(auto)]

mod building;
mod cases;
mod laws;
mod least;
mod literal;
mod names;
mod resolution;
mod types;
mod unknown;
mod uses;

pub use laws::every_function_has_one_meaning_or_one_fault;
pub use least::lesser;
pub use resolution::resolve;
