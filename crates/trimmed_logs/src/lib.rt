//! Logs without what their end doesn't need: the backward pass of DRAT-trim (Wetzler, Heule, Hunt). From the empty
//! clause back, it keeps the steps that hints which are kept name, and of a step the hints that lead to its conflict.
//! The hints are there already, so nothing is propagated beyond them. Time and memory grow with the literals of the
//! clauses that hints name, and with the count of the set's variables.
#![tactic(auto)]

mod needed;
mod renumbered;
mod table;
mod trimming;

pub use trimming::trimmed;
