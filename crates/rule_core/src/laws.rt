//! The laws of runs and of valid rules, each the contract of a function that does nothing.
ghost use Rattle.rule_core.specs.Laws.{RulesHaveOneOutcome, ValidRulesHaveNoCounterexample, RulesWithoutCounterexampleAreValid, NodesGiveTheirValues, FormulasHoldAsTheyRead};

/// At each setting that fits a rule and its typing, the source has one effect and the target has one.
pub fn every_rule_has_one_outcome()
    ensures { RulesHaveOneOutcome }
{}

/// A valid rule has no counterexample.
pub fn valid_rules_have_no_counterexample()
    ensures { ValidRulesHaveNoCounterexample }
{}

/// A rule without a counterexample is valid.
pub fn rules_without_counterexample_are_valid()
    ensures { RulesWithoutCounterexampleAreValid }
{}

/// Where the operands of each node stand before it, evaluating a node over the values of all nodes gives its value
/// again.
pub fn nodes_give_their_values()
    ensures { NodesGiveTheirValues }
{}

/// The same for the nodes of a formula, and whether they hold.
pub fn formulas_hold_as_they_read()
    ensures { FormulasHoldAsTheyRead }
{}
