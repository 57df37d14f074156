//! Functions rewritten in one place.

ghost use Rattle.std.specs.Prelude.{◌≡◌, ◌+◌, ◌<◌, ◌≤◌, ◌^◌, ◌++◌, ℕ, length, map, take, drop, All, Some, slice_get, slice_set, OnOk, OnErr, vec_len, vec_capacity};
ghost use Rattle.ir_core.specs.Blocks.{HasInst, IsBlock};
ghost use Rattle.ir_core.specs.Checks.{IsKnown};
ghost use Rattle.ir_core.specs.Reads.{Read, IsRead};
ghost use Rattle.ir_core.specs.declared.function.Block.{Block};
ghost use Rattle.substitution.specs.Put.{block_with};
ghost use Rattle.substitution.specs.Rewritten.{rewritten_function, stands_for};
ghost use Rattle.substitution.specs.Room.{BlockHasRoom};
ghost use Rattle.substitution.specs.Substitution.{substituted_block};

use crate::operands::substitute_block;
use crate::rewrite::Rewrite;
use ir_core::{Block, Function, Inst};
use lists::List;
use std::alloc::{AllocError, Global};
use std::mem;

/// The instructions of a block with others in the place of one. It takes no memory: `room` has capacity for all.
fn with_put(insts: List<Inst>, place: usize, put: List<Inst>, room: Vec<Inst>) -> List<Inst>
    requires place { place < length insts }
    requires empty { vec_len room ≡ 0 }
    requires room { length put + length insts ≤ vec_capacity room }
    ensures { result ≡ take place insts ++ put ++ drop (place + 1) insts }
{
    let mut insts = insts.into_vec();
    let mut put = put.into_vec();
    let mut room = room;
    let count = put.len();

    // Rotations and appends alone, so that no memory is taken: those from the place on come first, then those before
    // it; all of them go behind what is put, and those before the place to the front.
    insts.rotate_left(place);
    let _ = room.append(&mut put);
    let _ = room.append(&mut insts);
    room.rotate_right(place);
    let _ = room.remove(place + count);
    List::from_vec(room)
}

/// The blocks with the substitutes for all registers that they read. It takes no memory.
fn substituted_blocks(alloc: Global, rewrite: &Rewrite, blocks: List<Block>) -> List<Block>
    requires { All (BlockHasRoom rewrite.now) blocks }
    ensures { result ≡ map (substituted_block (stands_for rewrite.now)) blocks }
{
    let mut blocks = blocks.into_vec();
    for block in blocks.iter_mut() {
        substitute_block(alloc, rewrite, block);
    }
    List::from_vec(blocks)
}

/// Puts instructions in the place of one of a block. It takes no memory: `room` has capacity for all.
fn put_in_block(alloc: Global, block: &mut Block, place: usize, put: List<Inst>, room: Vec<Inst>)
    requires place { place < length block.old.insts }
    requires empty { vec_len room ≡ 0 }
    requires room { length put + length block.old.insts ≤ vec_capacity room }
    ensures { block.new ≡ block_with place put block.old }
{
    let insts = mem::replace(&mut block.insts, List::new(alloc));
    block.insts = with_put(insts, place, put, room);
}

/// The blocks with the instructions that are put in the root's place. It takes no memory: `room` has capacity for those
/// of the root's block.
fn blocks_with_put(
    alloc: Global,
    rewrite: Rewrite,
    room: Vec<Inst>,
    blocks: List<Block>,
) -> List<Block>
    requires root { (block : Block) × (slice_get blocks rewrite.block ≡ Some block) × (rewrite.place < length block.insts)
        × (length rewrite.put + length block.insts ≤ vec_capacity room) }
    requires empty { vec_len room ≡ 0 }
    ensures { (block : Block) → slice_get blocks rewrite.block ≡ Some block
        → result ≡ slice_set blocks rewrite.block (block_with rewrite.place rewrite.put block) }
{
    let mut blocks = blocks.into_vec();
    let Rewrite {
        block,
        place,
        put,
        ..
    } = rewrite;
    put_in_block(
        alloc,
        &mut blocks[block as usize],
        place as usize,
        put,
        room,
    );
    List::from_vec(blocks)
}

/// Rewrites a function: other instructions replace one, the root, and the substitutes replace the registers that are
/// read, in unreached blocks, phis and terminators too.
///
/// It takes its memory before it changes the function, which stays as it was where that is refused. It takes time
/// linear in the function's length, since the registers behind the root get new indices.
pub fn rewrite_function(alloc: Global, f: &mut Function, rewrite: Rewrite) -> Result<(), AllocError>
    requires root { HasInst f.old rewrite.block rewrite.place }

    // A register that is read is one of the function, and places are counted in 32 bits.
    requires registers { (b k i : ℕ) (r : Read) → IsRead f.old b k i r → IsKnown f.old r.operand }
    requires places { (block : Block) → IsBlock f.old rewrite.block block
        → length block.insts + length rewrite.put ≤ 2 ^ 32 }
    ensures ok { OnOk result (f.new ≡ rewritten_function rewrite f.old) }
    ensures err { OnErr result (f.new ≡ f.old) }
{
    let count = f.blocks.as_slice()[rewrite.block as usize].insts.len();
    let room = Vec::with_capacity(alloc, rewrite.put.len() + count)?;
    let blocks = mem::replace(&mut f.blocks, List::new(alloc));
    let blocks = substituted_blocks(alloc, &rewrite, blocks);
    f.blocks = blocks_with_put(alloc, rewrite, room, blocks);
    Ok(())
}
