//! The laws of dead code elimination (cleaning). Each is the contract of a function with an empty body.

ghost use Rattle.needed.specs.Laws.{CleanedFunctionsRefine, CleanedFunctionsMeetChecks, CleanedNumbersWereThere, CleanedModulesRefine, CleanedModulesMeetChecks};

/// A cleaned function refines the old one, and meets the same checks.
pub fn every_cleaned_function_refines_the_old()
    ensures refines { CleanedFunctionsRefine }
    ensures checks { CleanedFunctionsMeetChecks }
{}

/// Each literal number that a cleaned function reads is one that the old function read. So its numbers are of their
/// widths if the old one's are.
pub fn every_cleaned_number_was_there()
    ensures { CleanedNumbersWereThere }
{}

/// A cleaned module refines the old one, and meets the same checks.
pub fn every_cleaned_module_refines_the_old()
    ensures refines { CleanedModulesRefine }
    ensures checks { CleanedModulesMeetChecks }
{}
