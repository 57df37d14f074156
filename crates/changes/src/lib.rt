//! Rules applied to functions, and dead code removed from functions, each with a list of what changed, and with counts
//! of uses that stay exact.
//!
//! These calls are for callers who rewrite functions as lists of instructions and keep counts of uses beside them. Each
//! reads the whole function once more, as `rewriter::apply` does, since instructions move. The program rewrites drafts,
//! whose instructions keep their numbers and whose counts go up and down with the operands that change.
//!
//! In `specs/`, `Changed` says which instructions were removed, inserted and changed, in which lists by `Places`, and
//! `Calls` how instructions move where a rule is applied or a function cleaned. `Listing` serves the private functions.
#![tactic(auto)]

mod applying;
mod changed;
mod cleaning;
mod listing;

pub use applying::apply_at;
pub use changed::Changes;
pub use cleaning::clean_at;
