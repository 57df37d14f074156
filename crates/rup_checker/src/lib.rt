//! An exact checker of logs by reverse unit propagation (RUP): it says yes exactly where each step of a log follows
//! from the clauses of a set and the steps before it. It takes one table of the variables and the clauses at the start
//! of a check, and no memory after it.
#![tactic(auto)]

mod checker;
mod hints;
mod open_literals;
mod table;
mod used;

pub use checker::{check, check_refutation};
