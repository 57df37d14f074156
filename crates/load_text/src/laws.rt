//! The law of rule files, as the contract of a function that does nothing.

ghost use Rattle.load_text.specs.Laws.{RuleTextsAreSmall};

/// A text spells no more rules than it has bytes.
pub fn rule_texts_are_small()
    ensures { RuleTextsAreSmall }
{}
