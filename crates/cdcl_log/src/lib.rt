//! A search for a model of a clause set that logs the clauses that it learns.
//!
//! With at most twelve different inputs it is a depth-first search through their settings (`depth_first`), and else
//! conflict-driven clause learning (`first_uip`). Either logs each learned clause with its hints (reverse unit
//! propagation), so the log is a refutation where the search ends without a model.
#![tactic(auto)]

mod inputs;
mod search_choice;

pub use depth_first::{Assignment, Found};
pub use search_choice::search;
