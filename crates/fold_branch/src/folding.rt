//! Folding a function in place.

ghost use Rattle.std.specs.Prelude.{◌≡◌, ◌<◌, ◌≤◌, ◌^◌, length, map, All, OnOk, OnErr};
ghost use Rattle.ir_core.specs.Checks.{IsFormed};
ghost use Rattle.fold_branch.specs.Folded.{folded_op, folded_inst, folded_block, folded_blocks, IsFolded};
ghost use Rattle.fold_branch.specs.Marks.{NoneIsMarked, EntriesAreBelow, AllAreBelow};

use crate::choice::decide;
use crate::entries::staying_entries;
use crate::plan::Plan;
use ir_core::{Block, Function, Inst, Op, Operand, Terminator};
use lists::List;
use std::alloc::{AllocError, Global};
use std::mem;

/// The operation, of a phi with the entries that stay.
fn fold_op(plan: &Plan, block: u32, op: Op, marks: &mut [bool]) -> Op
    requires choices { length plan.now.choices.items ≡ length marks.old }
    requires reached { length plan.now.reached.items ≡ length marks.old }
    requires entries { EntriesAreBelow (length marks.old) op }
    requires unmarked { NoneIsMarked marks.old }
    ensures op { result ≡ folded_op plan.now.choices.items plan.now.reached.items block op }
    ensures unmarked { NoneIsMarked marks.new }
{
    match op {
        Op::Phi(entries) => Op::Phi(staying_entries(plan, block, entries, marks)),
        other => other,
    }
}

/// Keeps of an instruction, where it is a phi, the entries that stay.
fn fold_inst(plan: &Plan, block: u32, inst: &mut Inst, marks: &mut [bool])
    requires choices { length plan.now.choices.items ≡ length marks.old }
    requires reached { length plan.now.reached.items ≡ length marks.old }
    requires entries { EntriesAreBelow (length marks.old) inst.old.op }
    requires unmarked { NoneIsMarked marks.old }
    ensures inst { inst.new ≡ folded_inst plan.now.choices.items plan.now.reached.items block inst.old }
    ensures unmarked { NoneIsMarked marks.new }
{
    let op = mem::replace(&mut inst.op, Op::Freeze(Operand::Poison));
    inst.op = fold_op(plan, block, op, marks);
}

/// The instructions of a block, of each phi with the entries that stay. It takes no memory.
fn fold_insts(plan: &Plan, block: u32, insts: List<Inst>, marks: &mut [bool]) -> List<Inst>
    requires choices { length plan.now.choices.items ≡ length marks.old }
    requires reached { length plan.now.reached.items ≡ length marks.old }
    requires entries { AllAreBelow (length marks.old) insts }
    requires unmarked { NoneIsMarked marks.old }
    ensures insts { result ≡ map (folded_inst plan.now.choices.items plan.now.reached.items block) insts }
    ensures unmarked { NoneIsMarked marks.new }
{
    let mut insts = insts.into_vec();
    for inst in insts.iter_mut() {
        fold_inst(plan, block, inst, marks);
    }
    List::from_vec(insts)
}

/// Folds a block, or empties it where it is not reached.
fn fold_block(alloc: Global, plan: &Plan, index: u32, block: &mut Block, marks: &mut [bool])
    requires index { index < length marks.old }
    requires choices { length plan.now.choices.items ≡ length marks.old }
    requires reached { length plan.now.reached.items ≡ length marks.old }
    requires entries { AllAreBelow (length marks.old) block.old.insts }
    requires unmarked { NoneIsMarked marks.old }
    ensures block { block.new ≡ folded_block plan.now.choices.items plan.now.reached.items index block.old }
    ensures unmarked { NoneIsMarked marks.new }
{
    let insts = mem::replace(&mut block.insts, List::new(alloc));
    if plan.reached[index as usize] {
        block.insts = fold_insts(plan, index, insts, marks);
        decide(&mut block.end);
    } else {
        block.end = Terminator::Unreachable;
    }
}

/// The blocks of a function, each folded or emptied. It takes no memory.
fn fold_blocks(alloc: Global, plan: &Plan, blocks: List<Block>, marks: &mut [bool]) -> List<Block>
    requires few { length blocks < 2 ^ 32 }
    requires count { length blocks ≤ length marks.old }
    requires choices { length plan.now.choices.items ≡ length marks.old }
    requires reached { length plan.now.reached.items ≡ length marks.old }
    requires entries { All (λ block. AllAreBelow (length marks.old) block.insts) blocks }
    requires unmarked { NoneIsMarked marks.old }
    ensures { result ≡ folded_blocks plan.now.choices.items plan.now.reached.items 0 blocks }
{
    let mut blocks = blocks.into_vec();
    for (index, block) in blocks.iter_mut().enumerate() {
        fold_block(alloc, plan, index as u32, block, marks);
    }
    List::from_vec(blocks)
}

/// Folds a function: each branch and each switch on a number becomes a jump to the block that the number chooses, and
/// each block that is not reached then is emptied and ends by `unreachable`. Phis lose their entries for blocks that no
/// longer lead to theirs; where a branch or a switch became a jump, the first entry for its block stays alone. All else
/// stays: blocks with their names and numbers, phis of one entry, conditions that are `undef` or `poison`.
///
/// It takes its memory before it changes the function, which stays as it was where that is refused. It is linear in the
/// function's size: the walk to what is reached comes to each block once, and each entry is looked at once.
pub fn fold(alloc: Global, f: &mut Function) -> Result<(), AllocError>
    requires formed { IsFormed f.old }

    // Blocks are counted in 32 bits.
    requires blocks { length f.old.blocks < 2 ^ 32 }
    ensures ok { OnOk result (IsFolded f.old f.new) }
    ensures err { OnErr result (f.new ≡ f.old) }
{
    let plan = Plan::new(alloc, f)?;
    let mut marks = vec![in alloc; false; f.blocks.len()]?;
    let blocks = mem::replace(&mut f.blocks, List::new(alloc));
    f.blocks = fold_blocks(alloc, &plan, blocks, &mut marks);
    Ok(())
}
