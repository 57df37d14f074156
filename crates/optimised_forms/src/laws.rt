//! The laws of the forms of optimised modules, each the contract of a function that does nothing.

ghost use Rattle.optimised_forms.specs.Laws.{FoldedFunctionsHaveForms, FormedModulesNumbersFit, ModuleTextsAreCountable, OptimisedModulesHaveForms, RewrittenFunctionsHaveForms};

use fold_branch::{every_folded_function_refines_the_old, every_folded_number_was_there};
use ir_meaning::refinement_is_an_order;
use ir_round_trip::{cleaning_keeps_forms, module_texts_are_small};
use needed::{every_cleaned_function_refines_the_old, every_cleaned_number_was_there};
use rewriter::{rewritten_functions_meet_checks, rewritten_functions_refine};

/// Rewriting by a rule at a match keeps the forms of a function that a printed text needs.
pub fn rewritten_functions_have_forms()
    ensures { RewrittenFunctionsHaveForms }
{}

/// Folding keeps the forms of a function that a printed text needs.
pub fn folded_functions_have_forms()
    ensures { FoldedFunctionsHaveForms }
{}

/// The plain strategy, with folding and without, keeps the forms of a module, by any rules that were read, whatever
/// their verdicts are, and for any number of steps.
pub fn optimised_modules_have_forms()
    ensures { OptimisedModulesHaveForms }
{
    cleaning_keeps_forms();
    folded_functions_have_forms();
    rewritten_functions_have_forms();
    every_cleaned_function_refines_the_old();
    every_cleaned_number_was_there();
    every_folded_function_refines_the_old();
    every_folded_number_was_there();
    rewritten_functions_meet_checks();
    rewritten_functions_refine();
    refinement_is_an_order();
}

/// In a module with these forms literals are numbers of their widths.
pub fn formed_modules_numbers_fit()
    ensures { FormedModulesNumbersFit }
{}

/// The sizes of a module that is read fit 32 bits, even after 100,000 steps.
pub fn module_texts_are_countable()
    ensures { ModuleTextsAreCountable }
{
    module_texts_are_small();
}
