//! The laws of rewriting, each the contract of a function that does nothing.

ghost use Rattle.rewriter.specs.Laws.{EquationsOfStatementsHold, RewrittenFunctionsMeetChecks, RewrittenFunctionsRefine, RewrittenNumbersFit};

use ir_meaning::equations_hold_where_assigned;

/// Wherever a register is assigned that a statement of a match is bound to, in its block or in any other, it holds what
/// its instruction gives on what its operands hold there, in loops too.
pub fn equations_of_statements_hold()
    ensures { EquationsOfStatementsHold }
{
    equations_hold_where_assigned();
}

/// A function to which a rule is applied where it matches meets the checks of a function, and its numbers are of their
/// widths.
pub fn rewritten_functions_meet_checks()
    ensures checks { RewrittenFunctionsMeetChecks }
    ensures numbers { RewrittenNumbersFit }
{}

/// Where the rule is valid at the widths at which it matches, the new function refines the old one.
pub fn rewritten_functions_refine()
    ensures { RewrittenFunctionsRefine }
{}
