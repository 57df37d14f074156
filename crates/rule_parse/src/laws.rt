//! The laws of rule files, each the contract of a function that does nothing.
ghost use Rattle.rule_parse.specs.OneReading.{RulesAreReadAsSpelled, TextsHaveOneReadingOrFault, TokensAreKeptUpToTheLimit, WrittenRulesAreSmall};

/// The parser gives rules exactly where the grammar spells them.
pub fn rules_are_read_as_they_are_spelled()
    ensures { RulesAreReadAsSpelled }
{}

/// A text has one list of rules as written, or one fault, and never both.
pub fn every_text_has_one_reading_or_one_fault()
    ensures { TextsHaveOneReadingOrFault }
{
    scan::every_place_has_one_rule_token();
}

/// No rule of a text as written has more than 256 operands, literals, names, operators and functions.
pub fn written_rules_are_small()
    ensures { WrittenRulesAreSmall }
{}

/// What the parser is given: all tokens, where no rule has more than 256 operands, literals, names, operators and
/// functions, or else those up to and with the first token with which one has.
pub fn tokens_are_kept_up_to_the_limit()
    ensures { TokensAreKeptUpToTheLimit }
{}
