//! How large a function is. Nothing but time and memory depends on it.

use ir_core::{Block, Function, Op, Terminator};

/// How many parameters, blocks, instructions, entries of phis and cases of switches a function has.
pub(crate) fn size_of(f: &Function) -> usize {
    let mut size = f.parameters.len();
    for block in f.blocks.as_slice() {
        size = size.saturating_add(size_of_block(block));
    }
    size
}

/// The same of a block, which counts itself.
fn size_of_block(block: &Block) -> usize {
    let mut size = size_of_end(&block.end);
    for inst in block.insts.as_slice() {
        size = size.saturating_add(size_of_op(&inst.op));
    }
    size
}

/// An instruction, and the entries of a phi.
fn size_of_op(op: &Op) -> usize {
    match op {
        Op::Phi(entries) => entries.len().saturating_add(1),
        _ => 1,
    }
}

/// A block, and the cases of its switch.
fn size_of_end(end: &Terminator) -> usize {
    match end {
        Terminator::Switch(_, _, _, cases) => cases.len().saturating_add(1),
        _ => 1,
    }
}
