//! The laws of folding, each the contract of a function that does nothing.

ghost use Rattle.fold_branch.specs.Laws.{FoldedFunctionsRefine, FoldedFunctionsMeetChecks, FoldedNumbersWereThere, FoldedTwiceIsFoldedOnce, CleanedFunctionsStayFolded};

/// A folded function may stand in the place of the old one, and meets the same checks.
pub fn every_folded_function_refines_the_old()
    ensures refines { FoldedFunctionsRefine }
    ensures checks { FoldedFunctionsMeetChecks }
{}

/// Each number that a folded function reads is one that the old function read. So its numbers are of their widths if
/// the old one's are.
pub fn every_folded_number_was_there()
    ensures { FoldedNumbersWereThere }
{}

/// A folded function that is folded again is what it was.
pub fn folding_twice_is_folding_once()
    ensures { FoldedTwiceIsFoldedOnce }
{}

/// A folded function that is cleaned has nothing left to fold.
pub fn cleaning_keeps_functions_folded()
    ensures { CleanedFunctionsStayFolded }
{}
