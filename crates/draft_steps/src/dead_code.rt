//! Dead code elimination in drafts.

ghost use Rattle.std.specs.Prelude.{◌≡◌, ◌+◌, ◌++◌, ◌∷◌, [], ◌↔◌, ◌⊎◌, ◌<◌, ℕ, List as Seq, length, Contains, IsTrue, IsFalse, false, slice_index_or, IfSome, IfNone, IfOk, OnOk};
ghost use Rattle.ir_core.specs.Checks.{MeetsChecks};
ghost use Rattle.ir_core.specs.declared.function.Function.{Function};
ghost use Rattle.ir_core.specs.declared.operand.Operand.TheVariants as operands;
ghost use Rattle.ir_core.specs.declared.operand.Register.{Register as Named};
ghost use Rattle.needed.specs.Needed.{IsNeeded};
ghost use Rattle.draft_steps.specs.DeadCode.{AreRead, HaveInsts, IsEliminating, IsNeededWith, KeepsUses, ReadsStand, registers_read};
ghost use Rattle.draft.specs.Drafts.{Stands, function_of, numbers_of, orders_of};
ghost use Rattle.draft.specs.Whole.{IsWhole};

use crate::leading::leads_to_a_terminator;
use crate::removing::remove_inst;
use crate::rewriting::Rewritten;
use draft::Draft;
use ir_core::Register;
use needed::unneeded_insts;
use places::Place;
use readers::is;
use std::alloc::{AllocError, Global};
use use_counts::uses_of;

/// Removes what a rewrite left dead, and returns those registers of the worklist that are still used.
///
/// An instruction without uses is removed, and then each whose last use that was. Where def-use chains have no cycles,
/// all others are live (needed): a chain of users leads from each to a terminator. Where they may have cycles, the
/// instructions of a cycle may have only one another as users. There a mark phase from the terminators finds what is
/// live, unless each register that lost a use is seen to be live without it.
pub(crate) fn eliminate_dead_code(
    alloc: Global,
    draft: &mut Draft,
    rewritten: &Rewritten,
) -> Result<Vec<Register>, AllocError>
    requires whole { IsWhole draft.old }
    requires waits { (b n : ℕ) → Stands draft.old b n → IsNeededWith draft.old.arena draft.old.dead_candidates.items (Register.Result b n) }
    requires result { (r : Named) → rewritten.now.result ≡ operands.Register r → IsNeeded draft.old.arena r }
    requires read { AreRead draft.old draft.old.dead_candidates.items }
    requires reads_stand { ReadsStand draft.old }
    requires checks { MeetsChecks (function_of draft.old) }
    ensures whole { OnOk result (IsWhole draft.new) }
    ensures orders { OnOk result (orders_of draft.new ≡ orders_of draft.old) }
    ensures none_fell { OnOk result (draft.new.dead_candidates.items ≡ []) }
    ensures cleaned { OnOk result (IsEliminating draft.old.arena (numbers_of draft.old) draft.new.arena (numbers_of draft.new) []) }
    ensures used { IfOk result (λ used. HaveInsts draft.new used.items) }
    ensures reads { IfOk result (λ used. (was : Draft) → KeepsUses was draft.old draft.old.dead_candidates.items → KeepsUses was draft.new used.items) }
{
    let mut used = Vec::new(alloc);
    remove_unused(draft, &mut used)?;
    if draft.has_cycles && !are_needed(draft, rewritten, used.as_slice()) {
        remove_dead(alloc, draft)?;
        remove_unused(draft, &mut used)?;
    }
    Ok(used)
}

/// Takes the last register off the worklist.
fn next_candidate(draft: &mut Draft) -> Option<Register>
    requires { IsWhole draft.old }
    ensures whole { IsWhole draft.new }
    ensures arena { draft.new.arena ≡ draft.old.arena }
    ensures numbers { numbers_of draft.new ≡ numbers_of draft.old }
    ensures orders { orders_of draft.new ≡ orders_of draft.old }
    ensures some { IfSome result (λ register. draft.old.dead_candidates.items ≡ draft.new.dead_candidates.items ++ register ∷ []) }
    ensures none { IfNone result ((draft.old.dead_candidates.items ≡ []) × (draft.new.dead_candidates.items ≡ [])) }
{
    draft.dead_candidates.pop()
}

/// Works off the worklist: removes the instructions without uses, and lists the registers that have some.
fn remove_unused(draft: &mut Draft, used: &mut Vec<Register>) -> Result<(), AllocError>
    requires { IsWhole draft.old }
    ensures whole { OnOk result (IsWhole draft.new) }
    ensures orders { OnOk result (orders_of draft.new ≡ orders_of draft.old) }
    ensures none_fell { OnOk result (draft.new.dead_candidates.items ≡ []) }
    ensures cleaning { OnOk result ((f : Function) (rows : Seq (Seq ℕ))
        → IsEliminating f rows draft.old.arena (numbers_of draft.old) (draft.old.dead_candidates.items ++ used.old.items)
        → IsEliminating f rows draft.new.arena (numbers_of draft.new) used.new.items) }
    ensures used { OnOk result (HaveInsts draft.old used.old.items → HaveInsts draft.new used.new.items) }
    ensures reads { OnOk result ((was : Draft) → KeepsUses was draft.old (draft.old.dead_candidates.items ++ used.old.items)
        → KeepsUses was draft.new used.new.items) }
    ensures read { OnOk result (AreRead draft.old draft.old.dead_candidates.items → AreRead draft.new []) }
{
    while let Some(register) = next_candidate(draft) {
        take_or_list(draft, used, register)?;
    }
    Ok(())
}

/// Removes the instruction of a register from the worklist where the register has no uses, and else lists the register.
/// For a parameter, and where the instruction was removed before, there is nothing to do.
fn take_or_list(
    draft: &mut Draft,
    used: &mut Vec<Register>,
    register: Register,
) -> Result<(), AllocError>
    requires { IsWhole draft.old }
    ensures whole { OnOk result (IsWhole draft.new) }
    ensures orders { OnOk result (orders_of draft.new ≡ orders_of draft.old) }
    ensures cleaning { OnOk result ((f : Function) (rows : Seq (Seq ℕ)) (roots : Seq Named)
        → ((r : Named) → Contains roots r → Contains (draft.old.dead_candidates.items ++ used.old.items) r ⊎ (r ≡ register))
        → IsEliminating f rows draft.old.arena (numbers_of draft.old) roots
        → IsEliminating f rows draft.new.arena (numbers_of draft.new) (draft.new.dead_candidates.items ++ used.new.items)) }
    ensures used { OnOk result (HaveInsts draft.old used.old.items → HaveInsts draft.new used.new.items) }
    ensures reads { OnOk result ((was : Draft) (roots : Seq Named)
        → ((r : Named) → Contains roots r → Contains (draft.old.dead_candidates.items ++ used.old.items) r ⊎ (r ≡ register))
        → KeepsUses was draft.old roots → KeepsUses was draft.new (draft.new.dead_candidates.items ++ used.new.items)) }
    ensures read { OnOk result ((roots : Seq Named) → ((r : Named) → Contains roots r → Contains draft.old.dead_candidates.items r ⊎ (r ≡ register))
        → AreRead draft.old roots → AreRead draft.new draft.new.dead_candidates.items) }
    ensures as_many { OnOk result (registers_read draft.new.arena + length draft.new.dead_candidates.items
        ≡ registers_read draft.old.arena + length draft.old.dead_candidates.items) }
{
    if let Register::Result(block, number) = register {
        if is_standing(draft, register) {
            if uses_of(&draft.facts.uses, register) > 0 {
                used.push(register)?;
            } else {
                remove_inst(draft, Place { block, number })?;
            }
        }
    }
    Ok(())
}

/// Whether each of these registers whose instruction stands is seen to be live.
fn are_needed(draft: &Draft, rewritten: &Rewritten, used: &[Register]) -> bool
    requires whole { IsWhole draft.now }
    requires result { (r : Named) → rewritten.now.result ≡ operands.Register r → IsNeeded draft.now.arena r }
    ensures { IsTrue result → (b n : ℕ) → Contains used.now (Register.Result b n) → Stands draft.now b n → IsNeeded draft.now.arena (Register.Result b n) }
{
    for register in used {
        if !is_seen_needed(draft, rewritten, *register) {
            return false;
        }
    }
    true
}

/// Whether a register's instruction was removed, or is seen to be live: a chain of inserted instructions leads from it
/// to the operand that replaced the root's register, or a short chain of users to a terminator.
fn is_seen_needed(draft: &Draft, rewritten: &Rewritten, register: Register) -> bool
    requires whole { IsWhole draft.now }
    requires result { (r : Named) → rewritten.now.result ≡ operands.Register r → IsNeeded draft.now.arena r }
    ensures { IsTrue result → (b n : ℕ) → register ≡ Register.Result b n → Stands draft.now b n → IsNeeded draft.now.arena register }
{
    if !is_standing(draft, register) {
        return true;
    }
    let mut here = register;
    for place in &rewritten.put {
        if is(rewritten.result, here) {
            return true;
        }
        if draft.reads(*place, here) {
            here = Register::Result(place.block, place.number);
        }
    }
    if is(rewritten.result, here) {
        return true;
    }
    leads_to_a_terminator(draft, register)
}

/// Whether the register is the result of an instruction that stands.
fn is_standing(draft: &Draft, register: Register) -> bool
    requires { IsWhole draft.now }
    ensures result { (b n : ℕ) → register ≡ Register.Result b n → IsTrue result ↔ Stands draft.now b n }
    ensures parameter { (p : ℕ) → register ≡ Register.Parameter p → IsFalse result }
{
    match register {
        Register::Result(block, number) => match draft.stand.get(block as usize) {
            Some(row) => is_marked(row.as_slice(), number),
            None => false,
        },
        Register::Parameter(_) => false,
    }
}

/// Whether a number is marked in a row.
fn is_marked(row: &[bool], number: u32) -> bool
    ensures { result ≡ slice_index_or row.now number false }
{
    match row.get(number as usize) {
        Some(mark) => *mark,
        None => false,
    }
}

/// Removes all dead instructions: those that a mark phase from the terminators doesn't reach.
fn remove_dead(alloc: Global, draft: &mut Draft) -> Result<(), AllocError>
    requires { IsWhole draft.old }
    ensures whole { OnOk result (IsWhole draft.new) }
    ensures orders { OnOk result (orders_of draft.new ≡ orders_of draft.old) }
    ensures cleaning { OnOk result ((f : Function) (rows : Seq (Seq ℕ)) (waits : Seq Named)
        → IsEliminating f rows draft.old.arena (numbers_of draft.old) waits
        → IsEliminating f rows draft.new.arena (numbers_of draft.new) []) }
    ensures reads { OnOk result ((was : Draft) (fell : Seq Named) → KeepsUses was draft.old (draft.old.dead_candidates.items ++ fell)
        → KeepsUses was draft.new (draft.new.dead_candidates.items ++ fell)) }
{
    let unneeded = unneeded_insts(alloc, draft.arena())?;
    take_all(draft, unneeded.as_slice())?;
    Ok(())
}

/// Removes these dead instructions, as far as they stand.
fn take_all(draft: &mut Draft, unneeded: &[(u32, u32)]) -> Result<(), AllocError>
    requires whole { IsWhole draft.old }
    requires unneeded { (b n : ℕ) → Contains unneeded.now (b, n) → ¬ IsNeeded draft.old.arena (Register.Result b n) }
    ensures whole { OnOk result (IsWhole draft.new) }
    ensures orders { OnOk result (orders_of draft.new ≡ orders_of draft.old) }
    ensures needed { OnOk result ((r : Named) → IsNeeded draft.old.arena r → IsNeeded draft.new.arena r) }
    ensures stood { OnOk result ((b n : ℕ) → Stands draft.new b n → Stands draft.old b n) }
    ensures gone { OnOk result ((b n : ℕ) → Contains unneeded.now (b, n) → ¬ Stands draft.new b n) }
    ensures cleaning { OnOk result ((f : Function) (rows : Seq (Seq ℕ)) (fell : Seq Named)
        → IsEliminating f rows draft.old.arena (numbers_of draft.old) (draft.old.dead_candidates.items ++ fell)
        → IsEliminating f rows draft.new.arena (numbers_of draft.new) (draft.new.dead_candidates.items ++ fell)) }
    ensures reads { OnOk result ((was : Draft) (fell : Seq Named) → KeepsUses was draft.old (draft.old.dead_candidates.items ++ fell)
        → KeepsUses was draft.new (draft.new.dead_candidates.items ++ fell)) }
{
    for (block, number) in unneeded {
        if is_standing(draft, Register::Result(*block, *number)) {
            let place = Place {
                block: *block,
                number: *number,
            };
            remove_inst(draft, place)?;
        }
    }
    Ok(())
}
