//! What matching needs to know of a whole function.

ghost use Rattle.std.specs.Prelude.{◌<◌, ◌^◌, length, All, IfOk};
ghost use Rattle.ir_core.specs.Checks.{MeetsChecks};
ghost use Rattle.bindings.specs.Facts.{AreFactsOf};

use assigned_flow::Assigned;
use ir_core::Function;
use std::alloc::{AllocError, Global};
use use_counts::{Uses, count_uses};

/// Which blocks of a function are reached, and each register's count of uses.
#[derive(Drop)]
pub struct FunctionFacts {
    pub flow: Assigned,
    pub uses: Uses,
}

impl FunctionFacts {
    /// The facts of a function, from one pass over it and the search for reached blocks. The only error is want of
    /// memory.
    pub fn of(alloc: Global, f: &Function) -> Result<FunctionFacts, AllocError>
        requires checks { MeetsChecks f.now }
        requires blocks { length f.now.blocks < 2 ^ 32 }
        requires insts { All (λ b. length b.insts < 2 ^ 32) f.now.blocks }
        ensures { IfOk result (AreFactsOf f.now) }
    {
        Ok(FunctionFacts {
            flow: Assigned::new(alloc, f)?,
            uses: count_uses(alloc, f)?,
        })
    }
}
