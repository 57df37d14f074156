//! The laws of assignment and of histories. Each is the contract of a function with an empty body.

ghost use Rattle.ir_meaning.specs.Assignments.{AssignedIsPassed, AssignmentIsTransitive, DefinedBeforeStaysSo, NoneIsAssignedBehind, NotBothAreAssigned};
ghost use Rattle.ir_meaning.specs.HistoryLaws.{AssignedHasRun, BlocksAreEnteredFromEnds, EquationsHoldInOneVisit, EquationsHoldWhereAssigned, HeldHaveWidths, HistoriesArePaths, MomentsAreReached, NothingNamedChangesInOneVisit, OperandsAreHeld, OutcomesHaveHistories, ResultsAreHeld};
ghost use Rattle.ir_meaning.specs.Orders.{RefinementIsReflexive, RefinementIsTransitive};

/// Where o is assigned at r's instruction, r isn't assigned at o's nor right behind it, if r's block is reached, and o
/// is assigned wherever r is. So a path that has come to o's instruction since it last came to r's ends where r isn't
/// assigned. A path that ends where a result is assigned has come to its instruction.
pub fn assigned_registers_keep_their_order()
    ensures not_both { NotBothAreAssigned }
    ensures none_behind { NoneIsAssignedBehind }
    ensures transitive { AssignmentIsTransitive }
    ensures passed { AssignedIsPassed }
    ensures order { DefinedBeforeStaysSo }
{}

/// Each outcome of a function comes at the end of some history, that is, of the trace of a run; its places are a path
/// through blocks that are reached.
pub fn outcomes_have_histories()
    ensures outcomes { OutcomesHaveHistories }
    ensures paths { HistoriesArePaths }
    ensures reached { MomentsAreReached }
    ensures entered { BlocksAreEnteredFromEnds }
{}

/// Where a result is assigned, its instruction has run, and the result holds what that gave when it ran last. What is
/// assigned at the instruction holds what it held then.
pub fn registers_hold_what_they_did()
    ensures ran { AssignedHasRun }
    ensures results { ResultsAreHeld }
    ensures operands { OperandsAreHeld }
    ensures one_visit { NothingNamedChangesInOneVisit }
{}

/// Registers hold values of their widths at every moment of a run.
pub fn registers_hold_their_widths()
    ensures { HeldHaveWidths }
{}

/// Where a result is assigned that is no phi's, its equation holds: it holds a value that its instruction may give on
/// what the operands hold there.
pub fn equations_hold_where_assigned()
    ensures assigned { EquationsHoldWhereAssigned }
    ensures one_visit { EquationsHoldInOneVisit }
{}

/// Refinement is reflexive and transitive, so that rewrites may follow one another.
pub fn refinement_is_an_order()
    ensures reflexive { RefinementIsReflexive }
    ensures transitive { RefinementIsTransitive }
{}
