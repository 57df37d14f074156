//! What a search answers.

use clauses::Log;
use lists::List;

/// The values of the variables: variable n has the value at place n - 1.
pub type Assignment = List<bool>;

/// What a search found.
#[derive(Drop)]
pub enum Found {
    /// A model of all clauses.
    Sat(Assignment),
    /// A refutation: a log that ends with the empty clause.
    Unsat(Log),
    /// The search gave up at its limit, with exactly as many learned clauses as that says.
    Limit(Log),
}
