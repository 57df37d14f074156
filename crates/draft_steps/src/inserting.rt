//! Instructions inserted into drafts.

ghost use Rattle.std.specs.Prelude.{◌≡◌, ◌+◌, ◌<◌, ◌≤◌, ◌++◌, ◌∷◌, [], ◌↔◌, length, true, All, Contains, IsFalse, IfOk, OnOk, slice_index_or, slice_set};
ghost use Rattle.ir_core.specs.Blocks.{IsBlock};
ghost use Rattle.ir_core.specs.Checks.{IsKnown, IsPhi};
ghost use Rattle.ir_core.specs.Reads.{end_of};
ghost use Rattle.ir_core.specs.declared.function.Block.{Block as Written};
ghost use Rattle.needed.specs.Operands.{operands_of};
ghost use Rattle.readers.specs.Changes.{changed_at, inst_put, put_in};
ghost use Rattle.draft.specs.Drafts.{Stands, numbers_of, orders_of};
ghost use Rattle.draft.specs.KeptOrders.{KeepsOrders};
ghost use Rattle.places.specs.Orders.{none};
ghost use Rattle.places.specs.Orders as numbers;
ghost use Rattle.draft.specs.Whole.{IsWhole};

use draft::Draft;
use ir_core::{Block, Inst, Op, Register};
use lists::List;
use places::{Order, Place};
use readers::{count_reads, list_reads};
use std::alloc::{AllocError, Global};
use use_counts::Uses;

/// Inserts an instruction before another, and returns its place. Its register goes on the worklist of dead code
/// elimination.
pub(crate) fn put_before(
    alloc: Global,
    draft: &mut Draft,
    at: Place,
    inst: Inst,
) -> Result<Place, AllocError>
    requires whole { IsWhole draft.old }
    requires at { Stands draft.old at.block at.number }
    requires room { (block : Written) → IsBlock draft.old.arena at.block block → length block.insts + 1 ≤ none }
    requires known { All (IsKnown draft.old.arena) (operands_of inst.op) }
    ensures whole { OnOk result (IsWhole draft.new) }
    ensures arena { OnOk result (draft.new.arena ≡ put_in draft.old.arena at.block inst) }
    ensures place { IfOk result (λ place. (place.block ≡ at.block) × (place.number ≡ end_of draft.old.arena at.block)) }
    ensures numbers { OnOk result (numbers_of draft.new
        ≡ changed_at at.block (λ row. numbers.put_before row at.number (end_of draft.old.arena at.block)) (numbers_of draft.old)) }
    ensures orders { OnOk result (KeepsOrders (orders_of draft.old) (orders_of draft.new)) }
    ensures dead_candidates { OnOk result (draft.new.dead_candidates.items
        ≡ draft.old.dead_candidates.items ++ Register.Result at.block (end_of draft.old.arena at.block) ∷ []) }
{
    note_phi(&mut draft.has_cycles, &inst);
    push_inst(&mut draft.arena.blocks, at.block, inst)?;
    let number = put_in_order(&mut draft.orders, at)?;
    let place = Place {
        block: at.block,
        number,
    };
    push_mark(&mut draft.stand, at.block)?;
    push_count(&mut draft.facts.uses, at.block)?;
    draft.readers.push_list(alloc, at.block)?;
    count_reads(&draft.arena, &mut draft.facts.uses, place)?;
    list_reads(&draft.arena, &mut draft.readers, place)?;
    draft
        .dead_candidates
        .push(Register::Result(at.block, number))?;
    Ok(place)
}

/// Inserts the next number before another in the order of its block, and returns it.
fn put_in_order(orders: &mut Vec<Order>, at: Place) -> Result<u32, AllocError>
    requires block { at.block < length orders.old.items }
    requires at { Contains (slice_index_or orders.old.items at.block []) at.number }
    requires few { length (slice_index_or orders.old.items at.block []) + 1 ≤ none }
    ensures number { IfOk result (λ number. number ≡ length (slice_index_or orders.old.items at.block [])) }
    ensures orders { IfOk result (λ number. orders.new.items ≡ slice_set orders.old.items at.block
        (numbers.put_before (slice_index_or orders.old.items at.block []) at.number number)) }
{
    orders[at.block as usize].put_before(at.number)
}

/// Notes that def-use chains may have cycles, where the instruction is a phi.
fn note_phi(has_cycles: &mut bool, inst: &Inst)
    ensures { IsFalse has_cycles.new ↔ (IsFalse has_cycles.old × ¬ IsPhi inst.now.op) }
{
    if matches!(inst.op, Op::Phi(_)) {
        *has_cycles = true;
    }
}

/// Appends an instruction to those that the arena has of a block.
fn push_inst(blocks: &mut List<Block>, block: u32, inst: Inst) -> Result<(), AllocError>
    requires { block < length blocks.old }
    ensures { OnOk result (blocks.new ≡ changed_at block (inst_put inst) blocks.old) }
{
    blocks.get_mut(block as usize).insts.push(inst)
}

/// Appends a flag for one more instruction of a block, which stands.
fn push_mark(stand: &mut Vec<List<bool>>, block: u32) -> Result<(), AllocError>
    requires { block < length stand.old.items }
    ensures { OnOk result (stand.new.items ≡ slice_set stand.old.items block (slice_index_or stand.old.items block [] ++ true ∷ [])) }
{
    stand[block as usize].push(true)
}

/// Appends a count for one more instruction of a block, which has no uses.
fn push_count(uses: &mut Uses, block: u32) -> Result<(), AllocError>
    requires { block < length uses.old.results.items }
    ensures parameters { OnOk result (uses.new.parameters ≡ uses.old.parameters) }
    ensures results { OnOk result (uses.new.results.items
        ≡ slice_set uses.old.results.items block (slice_index_or uses.old.results.items block [] ++ 0 ∷ [])) }
{
    uses.results[block as usize].push(0)
}
