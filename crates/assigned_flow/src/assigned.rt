//! Where the registers of a function are assigned.

ghost use Rattle.std.specs.Prelude.{◌≡◌, ◌<◌, ◌^◌, ◌↔◌, ℕ, length, IfOk, IsTrue};
ghost use Rattle.dominator_tree.specs.Walks.{IsReached as IsReachedIn};
ghost use Rattle.ir_core.specs.Assigned.{IsAssigned};
ghost use Rattle.ir_core.specs.Blocks.{Names};
ghost use Rattle.ir_core.specs.Walks.{IsReached};
ghost use Rattle.ir_core.specs.declared.function.Function.{Function};
ghost use Rattle.assigned_flow.specs.Passed.{IsPassed};
ghost use Rattle.assigned_flow.specs.Successors.{successors_of, HasRegister};

use crate::graph::flow_graph;
use dominator_tree::{DominatorTree, dominators};
use ir_core::{Function, Register};
use std::alloc::{AllocError, Global};
use std::marker::Model;

/// Which blocks of a function are reached, and where its registers are assigned. Contracts see it as the lists of
/// successors of all blocks.
#[derive(Drop)]
pub struct Assigned {
    dominators: DominatorTree,
    /// How many blocks there are.
    blocks: u32,
}

impl Model for Assigned {
    ghost use Rattle.std.specs.Prelude.{◌≡◌, ℕ, List as Seq, length};
    ghost use Rattle.assigned_flow.specs.Passed.{IsClosed};

    ghost Value = { Seq (Seq ℕ) };

    ghost view = { λ a. a.dominators };

    ghost invariant = { λ a. (a.blocks ≡ length a.dominators) × IsClosed a.dominators };
}

impl Assigned {
    /// Finds where the registers of a function are assigned, and which blocks are reached, without checking its reads.
    /// The only error is want of memory.
    pub fn new(alloc: Global, f: &Function) -> Result<Self, AllocError>
        requires some_block { 0 < length f.now.blocks }
        requires blocks { length f.now.blocks < 2 ^ 32 }
        requires targets { (b c : ℕ) → Names f.now b c → c < length f.now.blocks }
        ensures { IfOk result (λ assigned. assigned ≡ successors_of f.now) }
    {
        let graph = flow_graph(alloc, f)?;
        let blocks = f.blocks.len() as u32;
        let dominators = dominators(alloc, graph)?;
        Ok(Assigned { dominators, blocks })
    }

    /// Whether some walk from the first block ends in the block.
    pub fn reached(&self, block: u32) -> bool
        ensures { (f : Function) → successors_of f ≡ self.now → IsTrue result ↔ IsReached f block }
    {
        self.has_walk_to(block)
    }

    /// Whether a register of the function is assigned at the head of a block, before its first instruction.
    pub fn at_head(&self, block: u32, register: Register) -> bool
        ensures { (f : Function) → successors_of f ≡ self.now → HasRegister f register →
            IsTrue result ↔ IsAssigned f register block 0 }
    {
        match register {
            Register::Parameter(_) => true,
            Register::Result(definition, place) => self.has_passed(definition, place, block, 0),
        }
    }

    /// Whether some walk through the graph from the first block ends in the block.
    fn has_walk_to(&self, block: u32) -> bool
        ensures { IsTrue result ↔ IsReachedIn self.now block }
    {
        block < self.blocks && self.dominators.reached(block)
    }

    /// Whether every walk to a place of a block has passed an earlier place: one in an earlier block of the walk, or
    /// one before it in its own block.
    pub(crate) fn has_passed(
        &self,
        earlier: u32,
        earlier_place: u32,
        block: u32,
        place: u32,
    ) -> bool
        ensures { IsTrue result ↔ IsPassed self.now earlier earlier_place block place }
    {
        if !self.has_walk_to(block) {
            return true;
        }
        if earlier == block {
            return earlier_place < place;
        }
        earlier < self.blocks && self.dominators.dominates(earlier, block)
    }
}
