//! Lists of places, ascending.

ghost use Rattle.std.specs.Prelude.{◌≡◌, ◌+◌, ◌<◌, ◌≤◌, ◌^◌, ◌↔◌, ℕ, length, All, Contains, IfOk, OnOk};
ghost use Rattle.places.specs.Sets.{Has};
ghost use Rattle.changes.specs.Listing.{IsIn, Listed, ListedTo};
ghost use Rattle.changes.specs.Places.{AreAscending};

use ir_core::{Function, end_of};
use lists::List;
use places::{Marks, Place};
use std::alloc::{AllocError, Global};

/// One place alone.
pub(crate) fn one(alloc: Global, block: u32, place: u32) -> Result<List<(u32, u32)>, AllocError>
    ensures { IfOk result (AreAscending (λ b k. (b ≡ block) × (k ≡ place))) }
{
    let mut places = List::new(alloc);
    places.push((block, place))?;
    Ok(places)
}

/// So many places of a block from one on.
pub(crate) fn run(
    alloc: Global,
    block: u32,
    first: u32,
    count: u32,
) -> Result<List<(u32, u32)>, AllocError>
    requires { first + count ≤ 2 ^ 32 }
    ensures { IfOk result (AreAscending (λ b k. (b ≡ block) × (first ≤ k) × (k < first + count))) }
{
    let mut places = List::new(alloc);
    for index in 0..count {
        places.push((block, first + index))?;
    }
    Ok(places)
}

/// The places of a function that are in a set.
pub(crate) fn marked(
    alloc: Global,
    f: &Function,
    marks: &Marks,
) -> Result<List<(u32, u32)>, AllocError>
    requires blocks { length marks.now ≡ length f.now.blocks }
    requires few { length f.now.blocks < 2 ^ 32 }
    requires insts { All (λ b. length b.insts < 2 ^ 32) f.now.blocks }
    ensures { IfOk result (AreAscending (Listed f.now (IsIn marks.now))) }
{
    let mut places = List::new(alloc);
    for block in 0..f.blocks.len() as u32 {
        push_marked(f, marks, block, &mut places)?;
    }
    Ok(places)
}

/// Appends the places of a block that are in a set to those of the blocks before it.
fn push_marked(
    f: &Function,
    marks: &Marks,
    block: u32,
    places: &mut List<(u32, u32)>,
) -> Result<(), AllocError>
    requires block { block < length marks.now }
    requires insts { All (λ b. length b.insts < 2 ^ 32) f.now.blocks }
    requires before { AreAscending (ListedTo f.now (IsIn marks.now) block 0) places.old }
    ensures { OnOk result (AreAscending (ListedTo f.now (IsIn marks.now) (block + 1) 0) places.new) }
{
    for number in 0..end_of(f, block) {
        if marks.has(Place { block, number }) {
            places.push((block, number))?;
        }
    }
    Ok(())
}

/// The set of these places, of a function of so many blocks.
pub(crate) fn set_of(alloc: Global, blocks: u32, places: &[(u32, u32)]) -> Result<Marks, AllocError>
    requires { (b k : ℕ) → Contains places.now (b, k) → b < blocks }
    ensures blocks { IfOk result (λ marks. length marks ≡ blocks) }
    ensures has { IfOk result (λ marks. (b k : ℕ) → Has marks b k ↔ Contains places.now (b, k)) }
{
    let mut marks = Marks::none(alloc, blocks)?;
    for place in places {
        let (block, number) = *place;
        marks.insert(Place { block, number })?;
    }
    Ok(marks)
}
