//! A verdict on a rewrite rule at a typing, by a search over the clauses of its counterexamples, or by the log of an
//! earlier search; and the verdicts on a list of rules. `specs/Honest` says when a verdict is honest.
#![tactic(auto)]

mod decision;
mod laws;
mod reading;
mod verification;

pub use decision::{decide, prove, readmit};
pub use laws::few_bits_are_decided;
pub use verification::{MOST_TYPINGS, Verified, verify};
