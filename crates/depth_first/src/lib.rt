//! A search for a model of a clause set, depth first over its inputs, and what both searches share: the trail, and the
//! answer.
//!
//! It is the search of Davis, Putnam, Logemann and Loveland (DPLL) with chronological backtracking. A decision makes
//! the first variable without a value false, inputs before the others. Unit propagation finds clauses by occurrence
//! lists, of all the clauses in which each literal stands. A conflict flips the last decision and keeps those before
//! it.
//!
//! At each conflict it learns the clause of the negated decisions. The log keeps that clause with its hints (reverse
//! unit propagation): the reasons, in the order of the trail, of what the conflict rests on, and then the clause that
//! is false. So the log is a refutation where the search ends without a model. The learned clause is the reason of the
//! flipped decision. It is never propagated: the flipped decision satisfies it, and once that is taken back, an earlier
//! decision that was flipped does. There are no implication points, no backjumping and no restarts.
#![tactic(auto)]

mod depth_first;
mod found;
mod learned;
mod occurrences;
mod propagation;
mod trail;

pub use depth_first::search;
pub use found::{Assignment, Found};
pub use learned::{numbered, refutation};
pub use trail::{Cause, Entry, Trail, code_of};
