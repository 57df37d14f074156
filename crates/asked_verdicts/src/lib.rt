//! The verdicts that matches ask for: each pair of a rule and a typing is decided once, when it is first asked for, by
//! a stored log, if that proves the rule, and else by a search.
//!
//! `specs/Asks` says what one search through matches asks, and what is kept; `Stored` which log is stored for a pair;
//! `AskedAgain` that asking again changes nothing. Which verdicts matches ask for stands in `Asked` of `strategy_core`.
#![tactic(auto)]

mod asked_again;
mod searching;
mod stored;
mod typings;
mod verdicts;

pub use asked_again::pairs_with_rows_change_nothing;
pub use searching::{any_admitted, first_admitted};
pub use stored::StoredLogs;
pub use verdicts::Verdicts;
