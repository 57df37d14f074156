//! The instructions that are kept by dead code elimination.

ghost use Rattle.std.specs.Prelude.{◌<◌, ◌^◌, ℕ, length, All, IfOk};
ghost use Rattle.ir_core.specs.Checks.{IsKnown};
ghost use Rattle.ir_core.specs.Reads.{Read, IsRead};
ghost use Rattle.needed.specs.Cleaned.{KeepsNeeded};
ghost use Rattle.needed.specs.NeededMarks.{AreCounts};
ghost use Rattle.needed.specs.InstNumbers.{AreNumbers, marks_by};

use crate::numbers::Numbers;
use crate::search::needed;
use ir_core::Function;
use std::alloc::{AllocError, Global};

/// Which instructions of a function are kept, and where they will stand.
#[derive(Drop)]
pub(crate) struct Kept {
    /// For each block, the number of its first instruction.
    pub(crate) firsts: Vec<usize>,
    /// For each instruction by its number, whether it is kept.
    pub(crate) marks: Vec<bool>,
    /// For each instruction by its number, how many kept ones have smaller numbers.
    pub(crate) counts: Vec<usize>,
    ghost counted: { AreCounts marks.items counts.items },
}

/// For each number, how many smaller ones are marked.
fn counts(alloc: Global, marks: &[bool]) -> Result<Vec<usize>, AllocError>
    ensures { IfOk result (λ counts. AreCounts marks.now counts.items) }
{
    let mut counts = Vec::new(alloc);
    let mut count = 0;
    for mark in marks {
        counts.push(count)?;
        if *mark {
            count += 1;
        }
    }
    Ok(counts)
}

impl Kept {
    /// Keeps the instructions of a function that are needed (live).
    pub(crate) fn needed(alloc: Global, f: &Function) -> Result<Kept, AllocError>
        requires blocks { length f.now.blocks < 2 ^ 32 }
        requires insts { All (λ b. length b.insts < 2 ^ 32) f.now.blocks }
        requires registers { (b k i : ℕ) (r : Read) →
            IsRead f.now b k i r → IsKnown f.now r.operand }
        ensures numbers { IfOk result (λ kept.
            AreNumbers f.now.blocks kept.firsts.items (length kept.marks.items)) }
        ensures exact { IfOk result (λ kept.
            KeepsNeeded f.now (marks_by kept.firsts.items kept.marks.items)) }
    {
        let numbers = Numbers::new(alloc, f)?;
        let marks = needed(alloc, f, &numbers)?;
        let counts = counts(alloc, marks.as_slice())?;
        let Numbers { firsts, .. } = numbers;
        Ok(Kept {
            firsts,
            marks,
            counts,
        })
    }
}
