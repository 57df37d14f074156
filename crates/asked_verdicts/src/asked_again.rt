//! The law that asking again changes nothing, as the contract of a function that does nothing.

ghost use Rattle.asked_verdicts.specs.AskedAgain.{PairsWithRowsChangeNothing};

/// Pairs that have rows may be asked once more without a change. So a search that skips matches whose verdicts it knows
/// asks what one asks that doesn't skip them.
pub fn pairs_with_rows_change_nothing()
    ensures { PairsWithRowsChangeNothing }
{}
