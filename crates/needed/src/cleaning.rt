//! Dead code elimination in place.

ghost use Rattle.std.specs.Prelude.{◌≡◌, ◌+◌, ◌<◌, ◌≤◌, ◌^◌, ℕ, length, All, OnOk, OnErr, slice_index_or};
ghost use Rattle.ir_core.specs.Checks.{IsKnown};
ghost use Rattle.ir_core.specs.Reads.{Read, IsRead};
ghost use Rattle.needed.specs.KeptFunction.{kept_block, kept_blocks};
ghost use Rattle.needed.specs.Cleaned.{IsCleaned};
ghost use Rattle.needed.specs.KeptTables.{marks_of};
ghost use Rattle.needed.specs.InstNumbers.{AreNumbers, BlockIsNumbered};

use crate::kept::Kept;
use crate::moving::{kept_insts, moved_end};
use ir_core::{Block, Function, Terminator};
use lists::List;
use std::alloc::{AllocError, Global};
use std::mem;

/// Removes the instructions of a block that are not kept. It takes no memory.
fn clean_block(alloc: Global, kept: &Kept, index: usize, block: &mut Block)
    requires block { index < length kept.now.firsts.items }
    requires numbers { slice_index_or kept.now.firsts.items index 0 + length block.old.insts
        ≤ length kept.now.marks.items }
    requires operands { BlockIsNumbered kept.now.firsts.items (length kept.now.marks.items) block.old }
    ensures { block.new ≡ kept_block (marks_of kept.now) index block.old }
{
    let insts = mem::replace(&mut block.insts, List::new(alloc));
    block.insts = kept_insts(kept, index, insts);
    let end = mem::replace(&mut block.end, Terminator::Unreachable);
    block.end = moved_end(kept, end);
}

/// Removes the instructions of all blocks that are not kept. It takes no memory.
fn cleaned_blocks(alloc: Global, kept: &Kept, blocks: List<Block>) -> List<Block>
    requires numbers { AreNumbers blocks kept.now.firsts.items (length kept.now.marks.items) }
    requires operands { All (BlockIsNumbered kept.now.firsts.items (length kept.now.marks.items)) blocks }
    ensures { result ≡ kept_blocks (marks_of kept.now) 0 blocks }
{
    let mut blocks = blocks.into_vec();
    for (index, block) in blocks.iter_mut().enumerate() {
        clean_block(alloc, kept, index, block);
    }
    List::from_vec(blocks)
}

/// Dead code elimination: keeps exactly those instructions of a function whose results are needed (live), and all else
/// as it was.
///
/// It takes its memory before it changes the function, which stays as it was where that is refused. It is linear in the
/// function's size: live instructions are found from the terminators by a worklist, on which each stands at most once.
pub fn clean(alloc: Global, f: &mut Function) -> Result<(), AllocError>
    // Blocks, and the instructions of each, are counted in 32 bits.
    requires blocks { length f.old.blocks < 2 ^ 32 }
    requires insts { All (λ b. length b.insts < 2 ^ 32) f.old.blocks }

    // A register that is read is one of the function.
    requires registers { (b k i : ℕ) (r : Read) → IsRead f.old b k i r → IsKnown f.old r.operand }
    ensures ok { OnOk result (IsCleaned f.old f.new) }
    ensures err { OnErr result (f.new ≡ f.old) }
{
    let kept = Kept::needed(alloc, f)?;
    let blocks = mem::replace(&mut f.blocks, List::new(alloc));
    f.blocks = cleaned_blocks(alloc, &kept, blocks);
    Ok(())
}
