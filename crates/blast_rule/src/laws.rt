//! The laws of settings that are read as counterexamples and of gates, each the contract of a function that does
//! nothing.
ghost use Rattle.blast_rule.specs.Laws.{RulesWithoutCounterexampleReadAreValid, GatesAreFew, GatesAreBelow};

/// A rule is valid where no list of as many truth values as there are inputs of its circuit is read as a
/// counterexample.
pub fn rules_without_counterexample_read_are_valid()
    ensures { RulesWithoutCounterexampleReadAreValid }
{
    rule_core::rules_without_counterexample_are_valid();
}

/// The circuit of a rule has at most 64 gates for each bit of the greatest width of each statement and each node, and
/// 64 more for each pair of bits of a product, a quotient or a remainder; so they are fewer than 2^27.
pub fn gates_are_few()
    ensures few { GatesAreFew }
    ensures below { GatesAreBelow }
{}
