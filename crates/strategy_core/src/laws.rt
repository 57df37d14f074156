//! The laws of the plain strategy, each the contract of a function that does nothing.

ghost use Rattle.strategy_core.specs.Laws.{StrategyDecides, StrategyMeetsChecks, StrategyNumbersFit, StrategyRefines};

use fold_branch::{every_folded_function_refines_the_old, every_folded_number_was_there};
use ir_meaning::refinement_is_an_order;
use needed::{every_cleaned_function_refines_the_old, every_cleaned_number_was_there};
use rewriter::{rewritten_functions_meet_checks, rewritten_functions_refine};

/// What the strategy gives for a module, with folding and without, refines it, where only valid rules are admitted, for
/// any number of steps. Whether they are valid or not, it passes the checks of a module, and its literals are numbers
/// of their widths.
pub fn every_optimised_module_refines_the_old()
    ensures refines { StrategyRefines }
    ensures checks { StrategyMeetsChecks }
    ensures numbers { StrategyNumbersFit }
{
    every_cleaned_function_refines_the_old();
    every_cleaned_number_was_there();
    every_folded_function_refines_the_old();
    every_folded_number_was_there();
    rewritten_functions_meet_checks();
    rewritten_functions_refine();
    refinement_is_an_order();
}

/// Every match that the strategy leaves has a verdict in its table, and none is admitted, unless its function ran out
/// of steps.
pub fn every_match_left_is_decided()
    ensures { StrategyDecides }
{}
