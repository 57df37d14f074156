//! Passes through blocks.

ghost use Rattle.std.specs.Prelude.{◌<◌, ◌≤◌, ℕ, IfOk, drop, length};
ghost use Rattle.ir_core.specs.Blocks.{IsBlock};
ghost use Rattle.ir_core.specs.Checks.{IsFormed, IsInst, IsPhi};
ghost use Rattle.ir_core.specs.Run.{Follows, OnlyZero, Passes};
ghost use Rattle.ir_core.specs.declared.function.Block.{Block};
ghost use Rattle.ir_core.specs.declared.instruction.Inst.{Inst};
ghost use Rattle.ir_meaning.specs.Step.{GoesFrom, IsEntered, ending_of};
ghost use Rattle.ir_meaning.specs.Table.{IsTable, held_of};

use crate::instruction::instruction;
use crate::phi::{hold_phis, take_phis};
use crate::table::Table;
use crate::terminator::{Step, end};
use ir_core::Function;
use ops::{Effect, Value};
use std::alloc::AllocError;

/// One pass through the block, where control comes from a block, or from none at the function's entry. `taken` is a
/// buffer for the values of the phis, which is used again for each block. The only error is want of memory.
pub(crate) fn pass(
    f: &Function,
    table: &mut Table,
    taken: &mut Vec<Value>,
    from: Option<u32>,
    b: u32,
) -> Result<Step, AllocError>
    requires formed { IsFormed f.now }
    requires table { IsTable f.now table.old.firsts.items table.old.values.items }
    requires block { b < length f.now.blocks }
    requires from { IsEntered f.now from b }
    ensures passes { IfOk result (λ step. Passes OnlyZero f.now from b (held_of f.now table.old.values.items) (ending_of (held_of f.now table.new.values.items) step)) }
    ensures table { IfOk result (λ step. IsTable f.now table.new.firsts.items table.new.values.items) }
    ensures goes { IfOk result (GoesFrom f.now b) }
{
    take_phis(f, table, taken, from, b)?;
    hold_phis(f, table, b, taken);
    Ok(follow(f, table, b, taken.len()))
}

/// Runs the instructions of the block from this one on, and then its terminator.
fn follow(f: &Function, table: &mut Table, b: u32, first: usize) -> Step
    requires formed { IsFormed f.now }
    requires table { IsTable f.now table.old.firsts.items table.old.values.items }
    requires block { b < length f.now.blocks }
    requires no_phi { (k : ℕ) (inst : Inst) → first ≤ k → IsInst f.now b k inst → ¬ IsPhi inst.op }
    ensures follows { (block : Block) → IsBlock f.now b block → Follows OnlyZero f.now b first (drop first block.insts) block.end (held_of f.now table.old.values.items) (ending_of (held_of f.now table.new.values.items) result) }
    ensures table { IsTable f.now table.new.firsts.items table.new.values.items }
    ensures goes { GoesFrom f.now b result }
{
    let block = &f.blocks.as_slice()[b as usize];
    let insts = block.insts.as_slice();
    for k in first..insts.len() {
        let inst = &insts[k];
        match instruction(f, table, inst.width, &inst.op) {
            Effect::Undefined => return Step::Undefined,
            Effect::Gives(value) => table.set(f, b, k, value),
        }
    }
    end(f, table, &block.end)
}
