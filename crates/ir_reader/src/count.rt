//! Whether the sizes of a function fit 32 bits.

ghost use Rattle.std.specs.Prelude.{◌<◌, ◌^◌, length, All, IsTrue};
ghost use Rattle.assigned_flow.specs.FewEntries.{HasFewEntries};
ghost use Rattle.ir_reader.specs.Counts.{IsCountable};

use ir_core::{Block, Function, Inst, Op};

/// The greatest size.
const MOST: usize = 0xffff_ffff;

/// Whether a phi has few enough entries.
fn has_few_entries(op: &Op) -> bool
    ensures { IsTrue result → HasFewEntries op.now }
{
    match op {
        Op::Phi(entries) => entries.len() <= MOST,
        Op::Binary(_, _, _, _)
        | Op::Compare(_, _, _, _, _)
        | Op::Unary(_, _, _)
        | Op::Select(_, _, _)
        | Op::Convert(_, _, _, _)
        | Op::Freeze(_) => true,
    }
}

/// Whether all phis among these instructions have few enough entries.
fn have_few_entries(insts: &[Inst]) -> bool
    ensures { IsTrue result → All (λ i. HasFewEntries i.op) insts.now }
{
    insts.iter().all(|inst| has_few_entries(&inst.op))
}

/// Whether each of these blocks has few enough instructions.
fn have_few_insts(blocks: &[Block]) -> bool
    ensures { IsTrue result → All (λ b. length b.insts < 2 ^ 32) blocks.now }
{
    blocks.iter().all(|block| block.insts.len() <= MOST)
}

/// Whether all phis in these blocks have few enough entries.
fn have_few_entries_in_blocks(blocks: &[Block]) -> bool
    ensures { IsTrue result → All (λ b. All (λ i. HasFewEntries i.op) b.insts) blocks.now }
{
    blocks
        .iter()
        .all(|block| have_few_entries(block.insts.as_slice()))
}

/// Whether the numbers of blocks, of instructions in each, and of entries of each phi fit 32 bits.
pub(crate) fn is_countable(f: &Function) -> bool
    ensures { IsTrue result → IsCountable f.now }
{
    let blocks = f.blocks.as_slice();
    blocks.len() <= MOST && have_few_insts(blocks) && have_few_entries_in_blocks(blocks)
}
