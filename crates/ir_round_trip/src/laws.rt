//! The laws of printing and reading again. Each is the contract of a function with an empty body.

ghost use Rattle.ir_round_trip.specs.Laws.{CanonicalFunctionsMean, CanonicalModulesRead, PrintedTextsRead, ModuleTextsHaveForms, ModuleTextsMeetChecks, CleanedFunctionsHaveForms, CleanedModulesHaveForms, ModuleTextsAreSmall};

/// A function that meets its checks, and is written canonically behind functions of other names, is read as that
/// function.
pub fn canonical_functions_mean()
    ensures { CanonicalFunctionsMean }
{}

/// A module that meets its checks, and is written canonically, is read as that module.
pub fn canonical_modules_read()
    ensures { CanonicalModulesRead }
{}

/// The printed text of a module that meets its checks, and whose parts have their forms, is read as that module.
pub fn printed_texts_read()
    ensures { PrintedTextsRead }
{
    ir_text::printed_texts_spell_their_module();
}

/// The module of a text has its forms.
pub fn module_texts_have_forms()
    ensures { ModuleTextsHaveForms }
{
    ir_text::lexemes_are_tokens();
}

/// The module of a text meets its checks.
pub fn module_texts_meet_checks()
    ensures { ModuleTextsMeetChecks }
{}

/// Dead code elimination (cleaning) of a function or of a module keeps its forms.
pub fn cleaning_keeps_forms()
    ensures functions { CleanedFunctionsHaveForms }
    ensures modules { CleanedModulesHaveForms }
{}

/// Each function of the module of a text has no more parameters, blocks, instructions of a block or entries of a `phi`
/// than the text has bytes.
pub fn module_texts_are_small()
    ensures { ModuleTextsAreSmall }
{}
