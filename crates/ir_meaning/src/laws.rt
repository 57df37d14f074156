//! The laws of runs. Each is the contract of a function with an empty body.
ghost use Rattle.ir_meaning.specs.Laws.{FunctionsHaveOutcomes, InstructionsAreMonotone, PhisAreMonotone, ZeroOutcomesAreOutcomes};

/// An outcome in which each number that is left open is 0 is one of the function's outcomes.
pub fn every_zero_outcome_is_an_outcome()
    ensures { ZeroOutcomesAreOutcomes }
{}

/// A function that meets its checks has an outcome at all arguments, for every bound on the blocks entered.
pub fn every_function_has_outcomes()
    ensures { FunctionsHaveOutcomes }
{}

/// Instructions and phis are monotone: where registers hold values that allow others, an instruction or a phi may give
/// what allows what it gives on those.
pub fn instructions_are_monotone()
    ensures instructions { InstructionsAreMonotone }
    ensures phis { PhisAreMonotone }
{}
