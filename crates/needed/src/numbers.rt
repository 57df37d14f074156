//! The instructions of a function, numbered block after block.

ghost use Rattle.std.specs.Prelude.{◌<◌, ◌^◌, length, All, IfOk};
ghost use Rattle.needed.specs.InstNumbers.{AreNumbers};

use ir_core::Function;
use std::alloc::{AllocError, Global};

/// The numbers of a function's instructions, counted up from 0 block after block.
#[derive(Drop)]
pub(crate) struct Numbers {
    /// For each block, the number of its first instruction.
    pub(crate) firsts: Vec<usize>,
    /// How many instructions there are.
    pub(crate) count: usize,
}

impl Numbers {
    /// The numbers of the instructions of a function.
    pub(crate) fn new(alloc: Global, f: &Function) -> Result<Numbers, AllocError>
        requires blocks { length f.now.blocks < 2 ^ 32 }
        requires insts { All (λ b. length b.insts < 2 ^ 32) f.now.blocks }
        ensures { IfOk result (λ numbers.
            AreNumbers f.now.blocks numbers.firsts.items numbers.count) }
    {
        let mut firsts = Vec::new(alloc);
        let mut count = 0;
        for block in f.blocks.as_slice() {
            firsts.push(count)?;
            count += block.insts.len();
        }
        Ok(Numbers { firsts, count })
    }
}
