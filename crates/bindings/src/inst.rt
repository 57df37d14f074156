//! Instructions by block and index.

ghost use Rattle.std.specs.Prelude.{IfSome, IfNone};
ghost use Rattle.ir_core.specs.Blocks.{HasInst};
ghost use Rattle.ir_core.specs.Checks.{IsInst};

use ir_core::{Function, Inst};

/// An instruction of the function, if it is there.
pub fn inst_at(f: &Function, block: u32, place: u32) -> Option<&Inst>
    ensures some { IfSome result (λ inst. IsInst f.now block place inst.now) }
    ensures none { IfNone result (¬ HasInst f.now block place) }
{
    let written_in = f.blocks.as_slice().get(block as usize)?;
    written_in.insts.as_slice().get(place as usize)
}
