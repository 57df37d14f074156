//! The laws of generated modules. Each is the contract of a function with an empty body.

ghost use Rattle.load_gen.specs.Laws.{GeneratedEntriesAreCounted, GeneratedEntriesAreOfTwenty, GeneratedFunctionsAreSmall, GeneratedModulesMeetChecks, GeneratedNumbersFit};

/// A generated module meets the checks of a module, if the count of its functions fits a `u32`.
pub fn generated_modules_meet_checks()
    ensures { GeneratedModulesMeetChecks }
{}

/// Each number that is written in a generated module is one of its width.
pub fn generated_numbers_fit()
    ensures { GeneratedNumbersFit }
{}

/// The entries of a generated module are functions, as many as are told, each of three blocks with 0, 20 and 0
/// instructions; so no block has more than 20.
pub fn generated_functions_have_twenty_instructions()
    ensures entries { GeneratedEntriesAreOfTwenty }
    ensures count { GeneratedEntriesAreCounted }
    ensures small { GeneratedFunctionsAreSmall }
{}
