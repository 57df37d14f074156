//! Instructions removed from drafts.

ghost use Rattle.std.specs.Prelude.{◌≡◌, ◌<◌, ◌++◌, [], false, length, OnOk, Some, slice_get, slice_index_or, slice_set};
ghost use Rattle.std.specs.List.{filter_map};
ghost use Rattle.ir_core.specs.Blocks.{HasInst};
ghost use Rattle.ir_core.specs.declared.function.Block.{Block as Written};
ghost use Rattle.readers.specs.Changes.{changed_at, gone, inst_changed, with_inst_removed, without};
ghost use Rattle.readers.specs.Counts.{operands_at, register_of};
ghost use Rattle.draft.specs.Drafts.{numbers_of, orders_of};
ghost use Rattle.draft.specs.Whole.{IsWhole};

use draft::Draft;
use ir_core::{Block, Op, Operand};
use lists::List;
use places::Place;
use readers::{forget_reads, push_reads};
use std::alloc::AllocError;

/// Removes an instruction. The registers that it read go on the worklist of dead code elimination.
pub(crate) fn remove_inst(draft: &mut Draft, at: Place) -> Result<(), AllocError>
    requires whole { IsWhole draft.old }
    requires at { HasInst draft.old.arena at.block at.number }
    ensures whole { OnOk result (IsWhole draft.new) }
    ensures arena { OnOk result (draft.new.arena ≡ with_inst_removed draft.old.arena at.block at.number) }
    ensures numbers { OnOk result (numbers_of draft.new ≡ changed_at at.block (without at.number) (numbers_of draft.old)) }
    ensures orders { OnOk result (orders_of draft.new ≡ orders_of draft.old) }
    ensures dead_candidates { OnOk result (draft.new.dead_candidates.items
        ≡ draft.old.dead_candidates.items ++ filter_map register_of (operands_at draft.old.arena at)) }
{
    push_reads(&draft.arena, &mut draft.dead_candidates, at)?;
    forget_reads(&draft.arena, &mut draft.facts.uses, at);
    empty_inst(&mut draft.arena.blocks, at);
    clear_mark(&mut draft.stand, at);
    Ok(())
}

/// Overwrites an instruction of the arena with `freeze poison`, which reads no register.
fn empty_inst(blocks: &mut List<Block>, at: Place)
    requires { (block : Written) × (slice_get blocks.old at.block ≡ Some block) × (at.number < length block.insts) }
    ensures { blocks.new ≡ changed_at at.block (inst_changed at.number gone) blocks.old }
{
    let inst = blocks
        .get_mut(at.block as usize)
        .insts
        .get_mut(at.number as usize);
    inst.name = None;
    inst.op = Op::Freeze(Operand::Poison);
}

/// Marks an instruction as removed.
fn clear_mark(stand: &mut Vec<List<bool>>, at: Place)
    requires block { at.block < length stand.old.items }
    requires number { at.number < length (slice_index_or stand.old.items at.block []) }
    ensures { stand.new.items ≡ slice_set stand.old.items at.block (slice_set (slice_index_or stand.old.items at.block []) at.number false) }
{
    *stand[at.block as usize].get_mut(at.number as usize) = false;
}
