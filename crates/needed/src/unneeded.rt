//! The dead instructions of a function.

ghost use Rattle.std.specs.Prelude.{◌≡◌, ◌+◌, ◌<◌, ◌^◌, ◌↔◌, ◌⊎◌, ℕ, length, false, All, Contains, IfOk, OnOk, slice_index_or};
ghost use Rattle.ir_core.specs.Blocks.{HasInst};
ghost use Rattle.ir_core.specs.Checks.{IsKnown};
ghost use Rattle.ir_core.specs.Reads.{Read, IsRead};
ghost use Rattle.ir_core.specs.declared.operand.Register.TheVariants as registers;
ghost use Rattle.needed.specs.InstNumbers.{marks_by};
ghost use Rattle.needed.specs.Needed.{IsNeeded};

use crate::numbers::Numbers;
use crate::search::needed;
use ir_core::Function;
use std::alloc::{AllocError, Global};

/// Appends to `places` those of the first `count` instructions of a block that are not marked.
fn push_unmarked(
    numbers: &Numbers,
    marks: &[bool],
    block: u32,
    count: u32,
    places: &mut Vec<(u32, u32)>,
) -> Result<(), AllocError>
    requires block { block < length numbers.now.firsts.items }
    requires marks { slice_index_or numbers.now.firsts.items block 0 + count < length marks.now + 1 }
    ensures { OnOk result ((b k : ℕ) → Contains places.new.items (b, k)
        ↔ (Contains places.old.items (b, k) ⊎ ((b ≡ block) × (k < count) × (marks_by numbers.now.firsts.items marks.now b k ≡ false)))) }
{
    let first = numbers.firsts[block as usize];
    for place in 0..count {
        if !marks[first + place as usize] {
            places.push((block, place))?;
        }
    }
    Ok(())
}

/// The dead instructions of a function, whose results are not needed, by block and place.
pub fn unneeded_insts(alloc: Global, f: &Function) -> Result<Vec<(u32, u32)>, AllocError>
    requires blocks { length f.now.blocks < 2 ^ 32 }
    requires insts { All (λ b. length b.insts < 2 ^ 32) f.now.blocks }
    requires registers { (b k i : ℕ) (r : Read) → IsRead f.now b k i r → IsKnown f.now r.operand }
    ensures unneeded { IfOk result (λ places. (b k : ℕ) → Contains places.items (b, k)
        ↔ (HasInst f.now b k × ¬ IsNeeded f.now (registers.Result b k))) }
    ensures others { IfOk result (λ places. (b k : ℕ) → HasInst f.now b k
        → Contains places.items (b, k) ⊎ IsNeeded f.now (registers.Result b k)) }
{
    let numbers = Numbers::new(alloc, f)?;
    let marks = needed(alloc, f, &numbers)?;
    let mut places = Vec::new(alloc);
    for (index, block) in f.blocks.as_slice().iter().enumerate() {
        let count = block.insts.len() as u32;
        push_unmarked(&numbers, marks.as_slice(), index as u32, count, &mut places)?;
    }
    Ok(places)
}
