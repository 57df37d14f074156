//! One step of rewriting.

ghost use Rattle.std.specs.Prelude.{ℕ, suc, All, Bool, Contains, IfOk, OnOk};
ghost use Rattle.ir_core.specs.Checks.{MeetsChecks};
ghost use Rattle.ir_core.specs.declared.function.Function.{Function as Written};
ghost use Rattle.rule_core.specs.Checks.{IsRule};
ghost use Rattle.rule_typing.specs.Faults.{HasNoFault};
ghost use Rattle.bindings.specs.Match.{IsMatch};
ghost use Rattle.rewriter.specs.Applied.{IsRewritten};
ghost use Rattle.needed.specs.Cleaned.{IsCleaned};
ghost use Rattle.ir_meaning.specs.HistoryLaws.{NumbersFit};
ghost use Rattle.use_counts.specs.Uses.{IsUseCount};
ghost use Rattle.draft_steps.specs.DeadCode.{HaveInsts, HasNoDeadCode};
ghost use Rattle.draft.specs.Drafts.{AreTouched, HasRoomFor, arena_of, function_of, orders_of, placed_binding};
ghost use Rattle.draft.specs.KeptOrders.{KeepsOrders};
ghost use Rattle.readers.specs.Readers.{IsPlaceIn};
ghost use Rattle.draft.specs.Whole.{IsSettled, IsWhole};
ghost use Rattle.places.specs.declared.place.Place.{Place as Spot};

use crate::dead_code::eliminate_dead_code;
use crate::rewriting::{Rewritten, rewrite_draft};
use bindings::Binding;
use draft::Draft;
use ir_core::{Function, Register};
use places::Place;
use rewriter::rewritten_functions_meet_checks;
use rule_core::Rule;
use std::alloc::{AllocError, Global};
use use_counts::uses_of;

/// Applies a rule where it matches with this binding to numbers of the arena, and removes the code that this leaves
/// dead. It returns the touched places: the root's, those of inserted instructions, those at which an operand was
/// replaced, and those of instructions with exactly one use left. Some of the instructions were removed. Where memory
/// is refused, the draft is dropped.
///
/// Its time is linear in the size of the rule, the uses of the root, and the instructions that are removed; and where a
/// register that lost a use may be read by a cycle alone, in the size of the arena.
pub fn step(
    alloc: Global,
    draft: Draft,
    binding: &Binding,
    rule: &Rule,
) -> Result<(Draft, Vec<Place>), AllocError>
    requires settled { IsSettled draft }
    requires clean { HasNoDeadCode draft }
    requires checks { MeetsChecks (function_of draft) }
    requires numbers { NumbersFit (function_of draft) }
    requires rule { IsRule rule.now }
    requires typed { HasNoFault rule.now }
    requires matches { let m = placed_binding draft binding.now in (across : Bool) × IsMatch across (function_of draft) m.block m.place rule.now m }
    requires room { HasRoomFor 1 draft }
    ensures settled { IfOk result (λ stepped. IsSettled stepped.0) }
    ensures clean { IfOk result (λ stepped. HasNoDeadCode stepped.0) }
    ensures steps { IfOk result (λ stepped. (f : Written) × IsRewritten (function_of draft) (placed_binding draft binding.now) rule.now f
        × IsCleaned f (function_of stepped.0)) }
    ensures room { IfOk result (λ stepped. (steps : ℕ) → HasRoomFor (suc steps) draft → HasRoomFor steps stepped.0) }
    ensures orders { IfOk result (λ stepped. KeepsOrders (orders_of draft) (orders_of stepped.0)) }
    ensures touched { IfOk result (λ stepped. AreTouched draft stepped.0 stepped.1.items) }
    ensures root { IfOk result (λ stepped. Contains stepped.1.items (record { block = binding.now.block; number = binding.now.place })) }
    ensures places { IfOk result (λ stepped. All (IsPlaceIn (arena_of stepped.0)) stepped.1.items) }
{
    let mut stepped = draft;
    let places = step_in(alloc, &mut stepped, binding, rule)?;
    Ok((stepped, places))
}

/// The function to which a rule is applied where it matches with this binding to numbers of the arena; dead code stays
/// in it. It is linear in the size of the arena and of the rule.
pub fn apply(
    alloc: Global,
    draft: Draft,
    binding: &Binding,
    rule: &Rule,
) -> Result<Function, AllocError>
    requires settled { IsSettled draft }
    requires checks { MeetsChecks (function_of draft) }
    requires rule { IsRule rule.now }
    requires matches { let m = placed_binding draft binding.now in (across : Bool) × IsMatch across (function_of draft) m.block m.place rule.now m }
    requires room { HasRoomFor 1 draft }
    ensures { IfOk result (λ f. IsRewritten (function_of draft) (placed_binding draft binding.now) rule.now f) }
{
    let applied = applied_draft(alloc, draft, binding, rule)?;
    let f = draft::function_of(alloc, applied)?;
    Ok(f)
}

/// The draft of that function.
fn applied_draft(
    alloc: Global,
    draft: Draft,
    binding: &Binding,
    rule: &Rule,
) -> Result<Draft, AllocError>
    requires settled { IsSettled draft }
    requires checks { MeetsChecks (function_of draft) }
    requires rule { IsRule rule.now }
    requires matches { let m = placed_binding draft binding.now in (across : Bool) × IsMatch across (function_of draft) m.block m.place rule.now m }
    requires room { HasRoomFor 1 draft }
    ensures settled { IfOk result IsSettled }
    ensures applied { IfOk result (λ made. IsRewritten (function_of draft) (placed_binding draft binding.now) rule.now (function_of made)) }
{
    let mut applied = draft;
    let told = rewrite_draft(alloc, &mut applied, binding, rule)?;

    // what lost a use is not looked at: the draft ends here
    let none = Vec::new(alloc);
    applied.dead_candidates = none;
    Ok(applied)
}

/// The same in place.
fn step_in(
    alloc: Global,
    draft: &mut Draft,
    binding: &Binding,
    rule: &Rule,
) -> Result<Vec<Place>, AllocError>
    requires settled { IsSettled draft.old }
    requires clean { HasNoDeadCode draft.old }
    requires checks { MeetsChecks (function_of draft.old) }
    requires numbers { NumbersFit (function_of draft.old) }
    requires rule { IsRule rule.now }
    requires typed { HasNoFault rule.now }
    requires matches { let m = placed_binding draft.old binding.now in (across : Bool) × IsMatch across (function_of draft.old) m.block m.place rule.now m }
    requires room { HasRoomFor 1 draft.old }
    ensures settled { OnOk result (IsSettled draft.new) }
    ensures clean { OnOk result (HasNoDeadCode draft.new) }
    ensures steps { OnOk result ((f : Written) × IsRewritten (function_of draft.old) (placed_binding draft.old binding.now) rule.now f
        × IsCleaned f (function_of draft.new)) }
    ensures room { OnOk result ((steps : ℕ) → HasRoomFor (suc steps) draft.old → HasRoomFor steps draft.new) }
    ensures orders { OnOk result (KeepsOrders (orders_of draft.old) (orders_of draft.new)) }
    ensures touched { IfOk result (λ places. AreTouched draft.old draft.new places.items) }
    ensures root { IfOk result (λ places. Contains places.items (record { block = binding.now.block; number = binding.now.place })) }
    ensures places { IfOk result (λ places. All (IsPlaceIn (arena_of draft.new)) places.items) }
{
    rewritten_functions_meet_checks();
    let rewritten = rewrite_draft(alloc, draft, binding, rule)?;
    let used = eliminate_dead_code(alloc, draft, &rewritten)?;
    let Rewritten { put, replaced, .. } = rewritten;
    let mut touched = put;
    touched.push(Place {
        block: binding.block,
        number: binding.place,
    })?;
    touched.extend_from_slice(replaced.as_slice())?;
    push_used(draft, &mut touched, used.as_slice())?;
    Ok(touched)
}

/// Appends the places of those registers that have exactly one use.
fn push_used(draft: &Draft, places: &mut Vec<Place>, used: &[Register]) -> Result<(), AllocError>
    requires whole { IsWhole draft.now }
    requires used { HaveInsts draft.now used.now }
    ensures others { OnOk result ((p : Spot) → Contains places.old.items p → Contains places.new.items p) }
    ensures used { OnOk result ((b n : ℕ) → Contains used.now (Register.Result b n) → IsUseCount draft.now.arena (Register.Result b n) 1
        → Contains places.new.items (record { block = b; number = n })) }
    ensures places { OnOk result (All (IsPlaceIn draft.now.arena) places.old.items → All (IsPlaceIn draft.now.arena) places.new.items) }
{
    for register in used {
        if let Register::Result(block, number) = *register {
            if uses_of(&draft.facts.uses, Register::Result(block, number)) == 1 {
                places.push(Place { block, number })?;
            }
        }
    }
    Ok(())
}
