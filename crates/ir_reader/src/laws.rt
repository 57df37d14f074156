//! The law of texts of modules, as the contract of a function with an empty body.
ghost use Rattle.ir_reader.specs.Laws.{TextsHaveOneModuleOrFault};

/// A text spells one module or has one fault; a text within the limit never does both.
pub fn every_text_has_one_module_or_one_fault()
    ensures { TextsHaveOneModuleOrFault }
{
    ir_parse::every_text_has_one_reading_or_one_fault();
    ir_resolve::every_function_has_one_meaning_or_one_fault();
}
