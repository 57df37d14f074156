//! The law of rule files, as the contract of a function that does nothing.
ghost use Rattle.rule_reader.specs.Laws.{TextsHaveOneListOrFault};

/// A text has one list of rules or one fault, and one within the limit never has both.
pub fn every_text_has_one_list_or_one_fault()
    ensures { TextsHaveOneListOrFault }
{
    rule_parse::every_text_has_one_reading_or_one_fault();
    rule_typing::every_rule_has_classes();
}
