//! The control-flow graph of a function.

ghost use Rattle.std.specs.Prelude.{◌≡◌, IfOk};
ghost use Rattle.ir_core.specs.Blocks.{targets_of};
ghost use Rattle.assigned_flow.specs.Successors.{successors_of};

use dominator_tree::Graph;
use ir_core::{Function, Terminator};
use lists::{List, ShortList};
use std::alloc::{AllocError, Global};

/// The control-flow graph: from each block an edge to each block that its terminator names.
pub(crate) fn flow_graph(alloc: Global, f: &Function) -> Result<Graph, AllocError>
    ensures { IfOk result (λ graph. graph.successors ≡ successors_of f.now) }
{
    let mut successors = List::new(alloc);
    for block in f.blocks.as_slice() {
        successors.push(targets(alloc, &block.end)?)?;
    }
    Ok(Graph { successors })
}

/// The blocks that a terminator names.
fn targets(alloc: Global, end: &Terminator) -> Result<ShortList<u32, 2>, AllocError>
    ensures { IfOk result (λ blocks. blocks ≡ targets_of end.now) }
{
    match end {
        Terminator::Return(_) | Terminator::Unreachable => Ok(ShortList::new(alloc)),
        Terminator::Jump(to) => ShortList::from_slice(alloc, &[*to]),
        Terminator::Branch(_, to, other) => ShortList::from_slice(alloc, &[*to, *other]),
        Terminator::Switch(_, _, other, cases) => {
            let mut blocks = ShortList::from_slice(alloc, &[*other])?;
            for (_, to) in cases.as_slice() {
                blocks.push(*to)?;
            }
            Ok(blocks)
        }
    }
}
