//! The module that a number, the seed, stands for.

ghost use Rattle.std.specs.Prelude.{◌≡◌, IfOk};
ghost use Rattle.load_gen.specs.Generated.{generated};

use crate::draws::Draws;
use crate::shape::function;
use ir_core::{Entry, Module};
use lists::List;
use std::alloc::{AllocError, Global};

/// The module that the number stands for, with so many functions, `@f0` and so on: each a loop of 20 instructions, 16
/// of which are drawn.
///
/// The only error is want of memory.
#[tactic(auto, unfolding(crate::specs::Generated::functions, crate::specs::Generated::state_before))]
pub fn generate(alloc: Global, number: u32, functions: u32) -> Result<Module, AllocError>
    ensures { IfOk result (λ made. made ≡ generated number functions) }
{
    let mut draws = Draws {
        state: u64::from(number),
    };
    let mut entries = List::new(alloc);
    for place in 0..functions {
        entries.push(Entry::Function(function(alloc, &mut draws, place)?))?;
    }
    Ok(Module { entries })
}
