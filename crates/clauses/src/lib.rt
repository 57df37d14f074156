//! Clause sets and logs of derived clauses as plain values, the definitions of reverse unit
//! propagation (RUP) and of an encoding in `specs/`, which the checker, the searches and the
//! encoder cite, and laws about these definitions in `laws`.
#![tactic(auto)]

mod cnf;
mod laws;
mod literal;
mod step;

pub use cnf::Cnf;
pub use laws::{model_meets_log, refuted_has_no_model};
pub use literal::{Clause, Lit, is_within};
pub use step::{Log, Step, clause_in};
