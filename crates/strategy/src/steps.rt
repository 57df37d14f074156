//! What is done for a function beside its steps: dead code elimination and folding; and how often it was rewritten.

ghost use Rattle.std.specs.Prelude.{ℕ, OnOk, true};
ghost use Rattle.draft_steps.specs.DeadCode.{AllNeeded};
ghost use Rattle.fold_branch.specs.Folded.{IsFolded};
ghost use Rattle.ir_core.specs.Checks.{MeetsChecks};
ghost use Rattle.ir_meaning.specs.HistoryLaws.{NumbersFit};
ghost use Rattle.needed.specs.Cleaned.{IsCleaned};
ghost use Rattle.strategy.specs.Folding.{HasNothingToFold};
ghost use Rattle.strategy_core.specs.Countable.{IsCountable};
ghost use Rattle.strategy_core.specs.PlainStrategy.{IsTidied};

use fold_branch::{
    cleaning_keeps_functions_folded, every_folded_function_refines_the_old,
    every_folded_number_was_there, fold,
};
use ir_core::Function;
use needed::{clean, every_cleaned_function_refines_the_old, every_cleaned_number_was_there};
use std::alloc::{AllocError, Global};

/// What the strategy is asked for.
#[derive(Clone, Copy)]
pub struct Options {
    /// How many clauses the search for a verdict may learn.
    pub conflicts: u32,
    /// How often a function may be rewritten.
    pub steps: u32,
    /// Whether branches on numbers are folded, and blocks that are not reached emptied.
    pub fold: bool,
    /// Whether what a rule matches may stand in several blocks.
    pub across: bool,
}

/// How often a function was rewritten, and whether it ran out of steps with an admitted match left.
#[derive(Clone, Copy)]
pub(crate) struct Turns {
    pub(crate) count: u32,
    pub(crate) limited: bool,
}

/// Eliminates the dead code of a function that passes its checks; where folding is asked for, folds it first. The
/// result passes the checks, too.
pub(crate) fn tidy_checked(alloc: Global, f: &mut Function, folding: bool) -> Result<(), AllocError>
    requires checks { MeetsChecks f.old }
    requires numbers { NumbersFit f.old }
    requires countable { IsCountable 0 f.old }
    ensures tidied { OnOk result (IsTidied folding f.old f.new) }
    ensures checks { OnOk result (MeetsChecks f.new) }
    ensures numbers { OnOk result (NumbersFit f.new) }
    ensures needed { OnOk result (AllNeeded f.new) }
    ensures folded { OnOk result (HasNothingToFold folding f.new) }
    ensures countable { OnOk result ((steps : ℕ) → IsCountable steps f.old → IsCountable steps f.new) }
{
    if folding {
        return fold_and_clean(alloc, f);
    }
    clean_checked(alloc, f)
}

/// Folds a function, and then eliminates its dead code.
fn fold_and_clean(alloc: Global, f: &mut Function) -> Result<(), AllocError>
    requires checks { MeetsChecks f.old }
    requires numbers { NumbersFit f.old }
    requires countable { IsCountable 0 f.old }
    ensures tidied { OnOk result (IsTidied true f.old f.new) }
    ensures checks { OnOk result (MeetsChecks f.new) }
    ensures numbers { OnOk result (NumbersFit f.new) }
    ensures needed { OnOk result (AllNeeded f.new) }
    ensures folded { OnOk result (IsFolded f.new f.new) }
    ensures countable { OnOk result ((steps : ℕ) → IsCountable steps f.old → IsCountable steps f.new) }
{
    cleaning_keeps_functions_folded();
    fold_checked(alloc, f)?;
    clean_checked(alloc, f)
}

/// Folds a function that passes its checks; the result passes them, too, and has nothing left to fold.
fn fold_checked(alloc: Global, f: &mut Function) -> Result<(), AllocError>
    requires checks { MeetsChecks f.old }
    requires numbers { NumbersFit f.old }
    requires countable { IsCountable 0 f.old }
    ensures folded { OnOk result (IsFolded f.old f.new) }
    ensures again { OnOk result (IsFolded f.new f.new) }
    ensures checks { OnOk result (MeetsChecks f.new) }
    ensures numbers { OnOk result (NumbersFit f.new) }
    ensures countable { OnOk result ((steps : ℕ) → IsCountable steps f.old → IsCountable steps f.new) }
{
    every_folded_function_refines_the_old();
    every_folded_number_was_there();
    fold(alloc, f)
}

/// Eliminates the dead code of a function that passes its checks; the result passes them, too.
fn clean_checked(alloc: Global, f: &mut Function) -> Result<(), AllocError>
    requires checks { MeetsChecks f.old }
    requires numbers { NumbersFit f.old }
    requires countable { IsCountable 0 f.old }
    ensures cleaned { OnOk result (IsCleaned f.old f.new) }
    ensures checks { OnOk result (MeetsChecks f.new) }
    ensures numbers { OnOk result (NumbersFit f.new) }
    ensures needed { OnOk result (AllNeeded f.new) }
    ensures countable { OnOk result ((steps : ℕ) → IsCountable steps f.old → IsCountable steps f.new) }
{
    every_cleaned_function_refines_the_old();
    every_cleaned_number_was_there();
    clean(alloc, f)
}
