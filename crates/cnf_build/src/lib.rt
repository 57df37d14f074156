//! The clauses of a graph of gates (Tseitin's encoding), of those alone that the root needs.
//!
//! The inputs have the first variables. Then come the constant, if it is needed, and the gates that
//! the root needs, in the order in which they were made. `naming` defines each of these by smaller
//! variables, and `tseitin` writes each definition as clauses.
#![tactic(auto)]

mod definition;
mod encoding;
mod naming;
mod needed;
mod tseitin;

pub use encoding::clauses_of;
