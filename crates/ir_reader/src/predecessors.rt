//! The predecessors of each block, whether a run comes to them or not.

ghost use Rattle.std.specs.Prelude.{◌≡◌, ◌<◌, ◌^◌, ℕ, [], ◌∷◌, All, length, map, IfOk, OnOk};
ghost use Rattle.ir_core.specs.Blocks.{targets_of, Names};
ghost use Rattle.ir_reader.specs.Predecessors.{AddsTo, AddsOf, ArePredecessors, Holds};

use indexmap::IndexSet;
use ir_core::{Block, Function, Terminator};
use ops::Word;
use std::alloc::{AllocError, Global};

/// So many empty sets.
fn empty_sets(alloc: Global, count: usize) -> Result<Vec<IndexSet<u32>>, AllocError>
    ensures count { IfOk result (λ sets. length sets.items ≡ count) }
    ensures empty { IfOk result (λ sets. (c b : ℕ) → ¬ Holds sets.items c b) }
{
    let mut sets = Vec::new(alloc);
    for _block in 0..count {
        sets.push(IndexSet::new(alloc))?;
    }
    Ok(sets)
}

/// Adds a block to the predecessors of another.
fn add(sets: &mut [IndexSet<u32>], block: u32, target: u32) -> Result<(), AllocError>
    requires { target < length sets.old }
    ensures { OnOk result (AddsTo sets.old sets.new block (target ∷ [])) }
{
    let set = &mut sets[target as usize];
    set.insert(block)?;
    Ok(())
}

/// Adds a block to the predecessors of those that the cases of its switch name.
fn add_cases(
    sets: &mut [IndexSet<u32>],
    block: u32,
    cases: &[(Word, u32)],
) -> Result<(), AllocError>
    requires { All (λ case. case.1 < length sets.old) cases.now }
    ensures { OnOk result (AddsTo sets.old sets.new block (map (λ case. case.1) cases.now)) }
{
    for (_, target) in cases {
        add(sets, block, *target)?;
    }
    Ok(())
}

/// Adds a block to the predecessors of those that its terminator names.
fn add_end(sets: &mut [IndexSet<u32>], block: u32, end: &Terminator) -> Result<(), AllocError>
    requires { All (λ c. c < length sets.old) (targets_of end.now) }
    ensures { OnOk result (AddsTo sets.old sets.new block (targets_of end.now)) }
{
    match end {
        Terminator::Return(_) | Terminator::Unreachable => Ok(()),
        Terminator::Jump(target) => add(sets, block, *target),
        Terminator::Branch(_, target, other) => {
            add(sets, block, *target)?;
            add(sets, block, *other)
        }
        Terminator::Switch(_, _, other, cases) => {
            add(sets, block, *other)?;
            add_cases(sets, block, cases.as_slice())
        }
    }
}

/// Adds each block to the predecessors of those that its terminator names.
fn add_blocks(sets: &mut [IndexSet<u32>], blocks: &[Block]) -> Result<(), AllocError>
    requires blocks { length blocks.now < 2 ^ 32 }
    requires targets { All (λ block. All (λ c. c < length sets.old) (targets_of block.end)) blocks.now }
    ensures { OnOk result (AddsOf sets.old sets.new blocks.now) }
{
    for (place, block) in blocks.iter().enumerate() {
        add_end(sets, place as u32, &block.end)?;
    }
    Ok(())
}

/// The predecessors of each block: the blocks whose terminators name it.
pub(crate) fn predecessors(alloc: Global, f: &Function) -> Result<Vec<IndexSet<u32>>, AllocError>
    requires blocks { length f.now.blocks < 2 ^ 32 }
    requires targets { (b c : ℕ) → Names f.now b c → c < length f.now.blocks }
    ensures { IfOk result (λ sets. ArePredecessors f.now sets.items) }
{
    let blocks = f.blocks.as_slice();
    let mut sets = empty_sets(alloc, blocks.len())?;
    add_blocks(sets.as_mut_slice(), blocks)?;
    Ok(sets)
}
