//! The law of functions as written, as the contract of a function with an empty body.

ghost use Rattle.ir_resolve.specs.Laws.{FunctionsHaveOneMeaningOrFault};

/// A function as written has one first fault, or it has none and means one function.
pub fn every_function_has_one_meaning_or_one_fault()
    ensures { FunctionsHaveOneMeaningOrFault }
{}
