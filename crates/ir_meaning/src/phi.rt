//! The values that phis take when their block is entered.

ghost use Rattle.std.specs.Prelude.{◌≡◌, ◌<◌, ℕ, Contains, IfOk, Some, length, slice_get};
ghost use Rattle.ir_core.specs.Blocks.{IsBlock};
ghost use Rattle.ir_core.specs.Checks.{IsFormed};
ghost use Rattle.ir_core.specs.declared.function.Block.{Block};
ghost use Rattle.ir_meaning.specs.Step.{IsEntered};
ghost use Rattle.ir_meaning.specs.Table.{Fits, IsTable, held_of};
ghost use Rattle.ir_meaning.specs.Taken.{AreTaken, holding_all};

use crate::operand::operand;
use crate::table::Table;
use ir_core::{Function, Op, Operand, Register};
use ops::Value;
use std::alloc::AllocError;

/// Puts into `taken` the values of the phis at the head of the block, where control comes from a block, or from none at
/// the function's entry. The entries of a phi are searched in order for that block. The only error is want of memory.
pub(crate) fn take_phis(
    f: &Function,
    table: &Table,
    taken: &mut Vec<Value>,
    from: Option<u32>,
    b: u32,
) -> Result<(), AllocError>
    requires formed { IsFormed f.now }
    requires table { IsTable f.now table.now.firsts.items table.now.values.items }
    requires block { b < length f.now.blocks }
    requires from { IsEntered f.now from b }
    ensures { IfOk result (λ u. (block : Block) → IsBlock f.now b block → AreTaken (held_of f.now table.now.values.items) from block.insts taken.new.items) }
{
    taken.clear();
    let Some(from) = from else {
        return Ok(());
    };
    let block = &f.blocks.as_slice()[b as usize];
    let insts = block.insts.as_slice();
    for inst in insts {
        let Op::Phi(entries) = &inst.op else {
            break;
        };
        let read = entry(entries.as_slice(), from);
        let value = operand(f, table, inst.width, read);
        taken.push(value)?;
    }
    Ok(())
}

/// The operand of a phi for the block that control comes from.
fn entry(entries: &[(Operand, u32)], from: u32) -> Operand
    requires { (a : Operand) × Contains entries.now (a, from) }
    ensures { Contains entries.now (result, from) }
{
    for (read, block) in entries {
        if *block == from {
            return *read;
        }
    }
    unreachable!()
}

/// Stores these values as the results of the first instructions of a block of the function.
pub(crate) fn hold_phis(f: &Function, table: &mut Table, b: u32, taken: &[Value])
    requires table { IsTable f.now table.old.firsts.items table.old.values.items }
    requires fits { (k : ℕ) (v : Value) → slice_get taken.now k ≡ Some v → Fits f.now (Register.Result b k) v }
    ensures table { IsTable f.now table.new.firsts.items table.new.values.items }
    ensures held { held_of f.now table.new.values.items ≡ holding_all (held_of f.now table.old.values.items) b 0 taken.now }
{
    for (k, value) in taken.iter().enumerate() {
        table.set(f, b, k, *value);
    }
}
