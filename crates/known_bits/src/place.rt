//! What is known at a place of a block.
ghost use Rattle.std.specs.Prelude.{◌≡◌, ◌<◌, ◌≤◌, ℕ, All, IfOk, length, take};
ghost use Rattle.ir_core.specs.Checks.{IsFormed};
ghost use Rattle.ir_core.specs.Reads.{end_of};
ghost use Rattle.known_bits.specs.KnownBits.{insts_of, known_at, known_results};
ghost use Rattle.known_bits.specs.Words.{known_of};

use crate::facts::Facts;
use crate::instruction::result_bits;
use crate::words::Known;
use ir_core::{Function, Operand};
use lists::List;
use ops::Width;
use std::alloc::{AllocError, Global};

/// What is known of the results of a block before a place. Each instruction is gone through once. The only error is
/// want of memory.
pub fn facts_before(
    alloc: Global,
    f: &Function,
    block: u32,
    place: u32,
) -> Result<Facts, AllocError>
    requires formed { IsFormed f.now }
    requires block { block < length f.now.blocks }
    requires place { place ≤ end_of f.now block }
    ensures block { IfOk result (λ facts. facts.block ≡ block) }
    ensures results { IfOk result (λ facts. facts.results ≡ known_results block (take place (insts_of f.now block))) }
    ensures few { IfOk result (λ facts. All (λ bits. length bits ≤ 64) facts.results) }
{
    let written_in = &f.blocks.as_slice()[block as usize];
    let insts = &written_in.insts.as_slice()[..place as usize];
    let mut facts = Facts {
        block,
        results: List::new(alloc),
    };
    for inst in insts {
        let bits = result_bits(alloc, &facts, inst.width, &inst.op)?;
        facts.results.push(bits)?;
    }
    Ok(facts)
}

/// What is known of the bits of an operand at a place of a block, by the instructions before the place there. The only
/// error is want of memory.
pub fn known(
    alloc: Global,
    f: &Function,
    block: u32,
    place: u32,
    operand: Operand,
) -> Result<Known, AllocError>
    requires formed { IsFormed f.now }
    requires block { block < length f.now.blocks }
    requires place { place ≤ end_of f.now block }
    ensures { IfOk result (λ known. (width : ℕ) → known ≡ known_of (known_at f.now block place width operand)) }
{
    let facts = facts_before(alloc, f, block, place)?;

    // Where nothing is known the width makes no difference.
    let bits = facts.operand(alloc, Width::ONE, operand)?;
    Ok(Known::of_bits(bits.as_slice()))
}
