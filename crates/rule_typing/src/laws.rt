//! The law of classes, as the contract of a function that does nothing.
ghost use Rattle.rule_typing.specs.Laws.{RulesHaveClasses};

/// Each rule has its classes, and these have a fault or none.
pub fn every_rule_has_classes()
    ensures { RulesHaveClasses }
{}
