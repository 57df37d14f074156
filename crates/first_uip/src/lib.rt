//! A search for a model of a clause set by conflict-driven clause learning (CDCL), which logs the clauses that it
//! learns, with their hints.
#![tactic(auto)]

mod analysis;
mod arena;
mod blocks;
mod learning;
mod look;
mod minimisation;
mod order;
mod policy;
mod propagation;
mod restarts;
mod roles;
mod start;
mod watchers;
mod watches;

pub use learning::search;
