//! Verdicts on rules at typings, and tables of them.

use clauses::Cnf;
use lists::List;
use packed_log::PackedLog;
use rule_core::{Example, Typing};

/// What is said of a rule at a typing.
#[derive(Drop)]
pub enum Verdict {
    /// The rule is valid.
    Admitted,
    /// The example is a counterexample, and the source has no `undef` and no freeze.
    Refuted(Example),
    /// The example is a counterexample where the `undef`s and the freeze of the source take the numbers that the rule's
    /// `Wit:` gives. With other numbers it might be none.
    WitnessFails(Example),
    /// The search reached its limit. The rule has more than 12 bits of inputs at the typing.
    Budget(Tried),
}

/// What a search has when it reaches its limit.
#[derive(Drop)]
pub struct Tried {
    /// The clauses that stand for the counterexamples of the rule: a model of them is one.
    pub set: Cnf,
    /// The clauses that the search learned.
    pub log: PackedLog,
}

/// The verdict on one rule at one typing.
#[derive(Drop)]
pub struct Row {
    /// The place of the rule in its file, from 0.
    pub rule: u32,
    /// The width of each class of the rule.
    pub typing: Typing,
    /// What is said of the rule at the typing.
    pub verdict: Verdict,
}

/// Verdicts, in the order in which they are given.
pub type Table = List<Row>;
