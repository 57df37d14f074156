//! Refutations of the counterexamples of rules.

use clauses::{Cnf, Log};
use lists::List;

/// Why a rule is valid at a typing: no setting is a counterexample.
#[derive(Drop)]
pub struct Refutation {
    /// The clauses that stand for the counterexamples of the rule.
    pub set: Cnf,
    /// The steps that refute them.
    pub log: Log,
}

/// Refutations, in the order of the verdicts that they are for.
pub type Refutations = List<Refutation>;
