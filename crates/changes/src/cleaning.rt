//! Dead code elimination in functions, with the instructions that were removed.

ghost use Rattle.std.specs.Prelude.{◌≡◌, ◌<◌, ◌^◌, ℕ, length, All, IfOk, OnOk, OnErr};
ghost use Rattle.ir_core.specs.Blocks.{HasInst};
ghost use Rattle.ir_core.specs.Checks.{IsKnown, MeetsChecks};
ghost use Rattle.ir_core.specs.Reads.{Read, IsRead};
ghost use Rattle.ir_core.specs.declared.operand.Register.TheVariants as registers;
ghost use Rattle.needed.specs.Cleaned.{IsCleaned};
ghost use Rattle.needed.specs.Needed.{IsNeeded};
ghost use Rattle.use_counts.specs.Tables.{AreCounts};
ghost use Rattle.changes.specs.Calls.{AreChangesOfCleaning};
ghost use Rattle.changes.specs.Places.{AreAscending};

use crate::changed::Changes;
use crate::listing::{marked, set_of};
use ir_core::{Function, copy_function};
use lists::List;
use needed::{clean, unneeded_insts};
use std::alloc::{AllocError, Global};
use use_counts::{Uses, count_uses};

/// Keeps exactly the live instructions of a function, whose results are needed, as `clean` does, brings its counts of
/// uses up to date, and returns which instructions were removed. None is inserted or changed: a live instruction reads
/// only results of live ones.
///
/// It takes its memory before it changes anything, so function and counts stay as they were where that is refused. It
/// is linear in the function's size.
pub fn clean_at(alloc: Global, f: &mut Function, uses: &mut Uses) -> Result<Changes, AllocError>
    // Blocks, and the instructions of each, are counted in 32 bits.
    requires blocks { length f.old.blocks < 2 ^ 32 }
    requires insts { All (λ b. length b.insts < 2 ^ 32) f.old.blocks }
    requires checks { MeetsChecks f.old }
    requires uses { AreCounts f.old uses.old }
    ensures ok { OnOk result (IsCleaned f.old f.new) }
    ensures uses { OnOk result (AreCounts f.new uses.new) }
    ensures lists { IfOk result (AreChangesOfCleaning f.old f.new) }
    ensures err_function { OnErr result (f.new ≡ f.old) }
    ensures err_uses { OnErr result (uses.new ≡ uses.old) }
{
    let went = unneeded(alloc, f)?;
    let mut new = copy_function(alloc, f)?;
    clean(alloc, &mut new)?;
    let counts = count_uses(alloc, &new)?;
    *f = new;
    *uses = counts;
    let came = List::new(alloc);
    let changed = List::new(alloc);
    Ok(Changes {
        went,
        came,
        changed,
    })
}

/// The places of the dead instructions.
fn unneeded(alloc: Global, f: &Function) -> Result<List<(u32, u32)>, AllocError>
    requires blocks { length f.now.blocks < 2 ^ 32 }
    requires insts { All (λ b. length b.insts < 2 ^ 32) f.now.blocks }
    requires registers { (b k i : ℕ) (r : Read) → IsRead f.now b k i r → IsKnown f.now r.operand }
    ensures { IfOk result (AreAscending (λ b k. HasInst f.now b k × ¬ IsNeeded f.now (registers.Result b k))) }
{
    let places = unneeded_insts(alloc, f)?;
    let marks = set_of(alloc, f.blocks.len() as u32, places.as_slice())?;
    marked(alloc, f, &marks)
}
