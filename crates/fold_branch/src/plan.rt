//! What is to become of the blocks of a function.

ghost use Rattle.std.specs.Prelude.{◌≡◌, ◌<◌, ◌&&◌, ℕ, false, None, length, IfOk, slice_index_or};
ghost use Rattle.ir_core.specs.Blocks.{Names};
ghost use Rattle.fold_branch.specs.Choices.{decided};
ghost use Rattle.fold_branch.specs.Folded.{AreReached, choices_of, stays_by};

use crate::choice::choices;
use crate::walk::reached_blocks;
use ir_core::Function;
use std::alloc::{AllocError, Global};

/// What folding asks of each block.
#[derive(Drop)]
pub(crate) struct Plan {
    /// For each block, the one that a number chooses at its end.
    pub(crate) choices: Vec<Option<u32>>,
    /// For each block, whether it is reached once these choices are jumps.
    pub(crate) reached: Vec<bool>,
}

impl Plan {
    /// What folding a function asks of its blocks.
    pub(crate) fn new(alloc: Global, f: &Function) -> Result<Plan, AllocError>
        requires some_block { 0 < length f.now.blocks }
        requires targets { (b c : ℕ) → Names f.now b c → c < length f.now.blocks }
        ensures choices { IfOk result (λ plan. plan.choices.items ≡ choices_of f.now) }
        ensures reached { IfOk result (λ plan. AreReached (decided f.now) plan.reached.items) }
    {
        Ok(Plan {
            choices: choices(alloc, f)?,
            reached: reached_blocks(alloc, f)?,
        })
    }

    /// Whether the entry for a block, `from`, stays in a phi of another; `before` where one for that block stays before
    /// it.
    pub(crate) fn stays(&self, block: u32, from: u32, before: bool) -> bool
        requires choices { from < length self.now.choices.items }
        requires reached { from < length self.now.reached.items }
        ensures { result ≡ (slice_index_or self.now.reached.items from false
            && stays_by block before (slice_index_or self.now.choices.items from None)) }
    {
        self.reached[from as usize]
            && match self.choices[from as usize] {
                Some(to) => to == block && !before,
                None => true,
            }
    }
}
