//! Which rewrites may give a branch or a switch a number, and what such a rewrite gives.

ghost use Rattle.std.specs.Prelude.{◌≡◌, ℕ, suc, Bool, All, None, IfOk, IsFalse, IsTrue, slice_index_or};
ghost use Rattle.bindings.specs.Matches.{IsMatchAmong};
ghost use Rattle.bindings.specs.Ready.{AreReady};
ghost use Rattle.draft.specs.Drafts.{HasRoomFor, arena_of, function_of};
ghost use Rattle.draft.specs.Whole.{IsSettled, IsWhole};
ghost use Rattle.draft_steps.specs.MatchLaws.{placed_match};
ghost use Rattle.fold_branch.specs.Choices.{literal};
ghost use Rattle.ir_core.specs.Blocks.{HasInst};
ghost use Rattle.ir_core.specs.Checks.{MeetsChecks};
ghost use Rattle.ir_meaning.specs.HistoryLaws.{NumbersFit};
ghost use Rattle.places.specs.Orders.{none};
ghost use Rattle.readers.specs.Readers.{listed_for};
ghost use Rattle.strategy.specs.Folding.{GivesNoNumber, IsPutAsNoNumber, IsRewrittenAt, KeepsChoices, PutsNoNumber};
ghost use Rattle.strategy_core.specs.Countable.{IsCountable};

use bindings::{Binding, Match};
use draft::Draft;
use ir_core::{Function, Operand, Register};
use places::{END, Place};
use rewriter::rewritten_functions_meet_checks;
use rule_core::{Argument, Op, Register as Name, Rule};
use std::alloc::{AllocError, Global};

/// Whether an operand is a number.
fn is_number(operand: Operand) -> bool
    ensures { IsFalse result → literal operand ≡ None }
{
    match operand {
        Operand::Number(_) => true,
        Operand::Register(_) | Operand::Undef | Operand::Poison => false,
    }
}

/// What an input is bound to.
fn input_of(binding: &Binding, input: u32) -> Operand
    ensures { result ≡ slice_index_or binding.now.inputs input Operand.Poison }
{
    let inputs = binding.inputs.as_slice();
    inputs
        .get(input as usize)
        .copied()
        .unwrap_or(Operand::Poison)
}

/// Whether what a target reads may be put as a number.
fn may_be_number(binding: &Binding, argument: Argument) -> bool
    ensures { IsFalse result → IsPutAsNoNumber binding.now argument }
{
    match argument {
        Argument::Register(Name::Input(input)) => is_number(input_of(binding, input)),
        Argument::Register(Name::Source(_)) | Argument::Undef(_) => false,
        Argument::Register(Name::Target(_))
        | Argument::Literal(_)
        | Argument::Truth(_)
        | Argument::Constant(_)
        | Argument::Term(_) => true,
    }
}

/// Whether a number may be put for the register of a target statement.
fn may_give_number(binding: &Binding, op: &Op) -> bool
    ensures { IsFalse result → GivesNoNumber binding.now op.now }
{
    match op {
        Op::Copy(operand) => may_be_number(binding, operand.value),
        _ => false,
    }
}

/// Whether a rule may put a number in the place of its root's register.
fn may_put_number(rule: &Rule, binding: &Binding) -> bool
    ensures { IsFalse result → PutsNoNumber rule.now binding.now }
{
    let target = rule.target.as_slice();
    if target.is_empty() {
        return true;
    }
    let last = &target[target.len() - 1];
    may_give_number(binding, &last.op)
}

/// Whether no terminator is in the use list of an instruction's register.
fn is_unread_at_ends(draft: &Draft, root: Place) -> bool
    requires whole { IsWhole draft.now }
    requires root { HasInst (arena_of draft.now) root.block root.number }
    ensures { IsTrue result → All (λ place. ¬ (place.number ≡ none)) (listed_for draft.now.readers (Register.Result root.block root.number)) }
{
    draft
        .readers_of(Register::Result(root.block, root.number))
        .iter()
        .all(|place| place.number != END)
}

/// Whether a number may choose where a branch or a switch goes once the function is rewritten at the match. It may
/// where the rule puts a number in the place of its root's register, and a terminator reads that.
pub(crate) fn may_choose(draft: &Draft, rules: &[Rule], chosen: &Match) -> bool
    requires ready { AreReady rules.now }
    requires settled { IsSettled draft.now }
    requires matches { (across : Bool) × IsMatchAmong across rules.now (function_of draft.now) (placed_match draft.now chosen.now) }
    requires checks { MeetsChecks (function_of draft.now) }
    ensures { IsFalse result → KeepsChoices rules.now draft.now chosen.now }
{
    let rule = &rules[chosen.rule as usize];
    if !may_put_number(rule, &chosen.binding) {
        return false;
    }
    let root = Place {
        block: chosen.binding.block,
        number: chosen.binding.place,
    };
    !is_unread_at_ends(draft, root)
}

/// The function of a draft, rewritten at a match. Dead code stays in it, and branches stay on their numbers.
pub(crate) fn rewritten_at(
    alloc: Global,
    draft: Draft,
    rules: &[Rule],
    chosen: &Match,
) -> Result<Function, AllocError>
    requires ready { AreReady rules.now }
    requires settled { IsSettled draft }
    requires matches { (across : Bool) × IsMatchAmong across rules.now (function_of draft) (placed_match draft chosen.now) }
    requires checks { MeetsChecks (function_of draft) }
    requires numbers { NumbersFit (function_of draft) }
    requires room { HasRoomFor 1 draft }
    ensures rewritten { IfOk result (IsRewrittenAt rules.now draft chosen.now) }
    ensures checks { IfOk result MeetsChecks }
    ensures numbers { IfOk result NumbersFit }
    ensures countable { IfOk result (λ f. (steps : ℕ) → IsCountable (suc steps) (function_of draft) → IsCountable steps f) }
{
    rewritten_functions_meet_checks();
    let rule = &rules[chosen.rule as usize];
    let f = draft_steps::apply(alloc, draft, &chosen.binding, rule)?;
    Ok(f)
}
