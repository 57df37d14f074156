//! Proofs of rules.

use clauses::Log;
use rule_core::Typing;

/// A proof that a rule is valid at a typing: a log that refutes its counterexamples.
#[derive(Drop)]
pub struct RuleProof {
    /// The place of the rule in its file, from 0.
    pub rule: u32,
    /// The width of each class of the rule.
    pub typing: Typing,
    /// The steps of the refutation.
    pub log: Log,
}
