//! The laws of texts of modules. Each is the contract of a function with an empty body.
ghost use Rattle.ir_parse.specs.Laws.{ModulesAreReadAsSpelled, TextsHaveOneReadingOrFault};

/// The parser, which reads from left to right, gives a module exactly where the grammar spells it.
pub fn modules_are_read_as_they_are_spelled()
    ensures { ModulesAreReadAsSpelled }
{}

/// A text has one module as written, or one fault; a text within the limit never has both.
pub fn every_text_has_one_reading_or_one_fault()
    ensures { TextsHaveOneReadingOrFault }
{
    ir_tokens::every_text_has_one_list_of_tokens();
}
