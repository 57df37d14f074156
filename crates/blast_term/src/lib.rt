//! Bit-blasting of the constant terms of a rule, the expressions of its `Wit:` and its precondition, written once for
//! every `Circuit`.
//!
//! The only error of a call is want of memory. A call that is refused for that may leave gates, no more than it may
//! add; the older literals keep their values, and it makes no input.
#![tactic(auto)]

mod facts;
mod formula;
mod function;
mod numbers;
mod pair;
mod power;
mod scope;
mod term;
mod term_gates;
mod width;
mod witness;

pub use facts::blast_facts;
pub use formula::blast_precondition;
pub use numbers::{number, of_word, residue};
pub use scope::{Scope, at, copied, register_held};
pub use term::{blast_terms, numbers_or_zeros};
pub use term_gates::{choices_gates, facts_gates, formulas_gates, numbers_gates, terms_gates};
pub use width::width_of;
pub use witness::blast_witness;
