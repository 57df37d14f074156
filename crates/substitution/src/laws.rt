//! The laws of substitution and of rewriting. Each is the contract of a function with an empty body.

ghost use Rattle.substitution.specs.Laws.{InstructionsAreMonotoneInReads, RewrittenFunctionsMeetChecks, RewrittenFunctionsRefine, RewrittenFunctionsRefineWherePutIsAllowed, RewrittenNumbersFit, RunsHoldWhatIsAssigned, SubstitutedInstructionsGive, SubstitutedPhisGive, SubstitutedTerminatorsEnd, TerminatorsAreMonotoneInReads};

/// What an instruction, a phi or a terminator gives once operands are substituted for its registers is what it gives
/// where each register holds the value of its substitute.
pub fn substituted_operations_give_the_same()
    ensures instructions { SubstitutedInstructionsGive }
    ensures phis { SubstitutedPhisGive }
    ensures terminators { SubstitutedTerminatorsEnd }
{}

/// Instructions and terminators are monotone in the registers that they read: where these hold values that allow
/// others, an instruction or a terminator may do what allows what it does on those. Other registers may hold anything.
pub fn instructions_are_monotone_in_what_they_read()
    ensures instructions { InstructionsAreMonotoneInReads }
    ensures terminators { TerminatorsAreMonotoneInReads }
{}

/// Wherever a run comes to, registers hold values of their widths, each register that is assigned holds one, and the
/// result of an instruction other than a phi holds one that the instruction gives on what its operands hold there.
pub fn runs_hold_what_is_assigned()
    ensures { RunsHoldWhatIsAssigned }
{}

/// A function that is rewritten in one place by instructions that fit it meets the same checks, and its literal numbers
/// are of their widths.
pub fn rewritten_functions_meet_checks()
    ensures checks { RewrittenFunctionsMeetChecks }
    ensures numbers { RewrittenNumbersFit }
{}

/// A function that is rewritten in one place refines the old one where the effect of the instruction that is replaced,
/// the root, allows what comes of the instructions that are put in its place. That is asked wherever runs of both
/// functions come there, or, which is enough, for whatever the registers may hold there, each register of the old
/// function holding what its substitute holds.
pub fn rewritten_functions_refine()
    ensures refines { RewrittenFunctionsRefine }
    ensures allowed { RewrittenFunctionsRefineWherePutIsAllowed }
{}
