//! Rows of what is known of the results of blocks, and the instructions of an arena.

ghost use Rattle.std.specs.Prelude.{◌≡◌, ◌<◌, Some, length, IsFalse, IsTrue, OnOk, slice_get, slice_set};
ghost use Rattle.ir_core.specs.Blocks.{HasInst};
ghost use Rattle.ir_core.specs.Checks.{IsInst};
ghost use Rattle.known_bits.specs.declared.facts.Facts.{Facts as KnownFacts};
ghost use Rattle.draft_bits.specs.Updates.{IsLonger, IsPut, IsReplaced};

use circuits::{Bits, KnownBit};
use ir_core::{Function, Inst};
use known_bits::Facts;
use lists::List;
use places::Place;
use std::alloc::{AllocError, Global};
use std::mem;

/// The instruction at a place.
pub(crate) fn inst_at(f: &Function, block: u32, place: u32) -> &Inst
    requires { HasInst f.now block place }
    ensures { IsInst f.now block place result.now }
{
    let written_in = &f.blocks.as_slice()[block as usize];
    &written_in.insts.as_slice()[place as usize]
}

/// Makes the row of a block as long as this.
pub(crate) fn lengthen_at(
    alloc: Global,
    blocks: &mut Vec<Facts>,
    block: u32,
    count: u32,
) -> Result<(), AllocError>
    requires { block < length blocks.old.items }
    ensures { OnOk result ((was : KnownFacts) × (now : KnownFacts) × IsReplaced block was now blocks.old.items blocks.new.items × IsLonger count was now) }
{
    lengthen(alloc, &mut blocks[block as usize], count)
}

/// Appends entries of which nothing is known.
fn lengthen(alloc: Global, facts: &mut Facts, count: u32) -> Result<(), AllocError>
    ensures { OnOk result (IsLonger count facts.old facts.new) }
{
    let had = facts.results.len();
    for _new in had..count as usize {
        facts.results.push(List::new(alloc))?;
    }
    Ok(())
}

/// Writes what is known of one result.
pub(crate) fn put_at(blocks: &mut Vec<Facts>, place: Place, word: Bits<KnownBit>)
    requires block { place.block < length blocks.old.items }
    requires number { (was : KnownFacts) → slice_get blocks.old.items place.block ≡ Some was → place.number < length was.results }
    ensures { (was : KnownFacts) × (now : KnownFacts) × IsReplaced place.block was now blocks.old.items blocks.new.items × IsPut place.number word was now }
{
    put_in(&mut blocks[place.block as usize], place.number, word);
}

/// The same in the row of its block.
fn put_in(facts: &mut Facts, number: u32, word: Bits<KnownBit>)
    requires { number < length facts.old.results }
    ensures { IsPut number word facts.old facts.new }
{
    put_word(&mut facts.results, number, word);
}

/// Writes one word.
fn put_word(words: &mut List<Bits<KnownBit>>, number: u32, word: Bits<KnownBit>)
    requires { number < length words.old }
    ensures { words.new ≡ slice_set words.old number word }
{
    let _ = mem::replace(words.get_mut(number as usize), word);
}

/// Whether this is another word than what is known of a result.
pub(crate) fn is_other(facts: &Facts, number: u32, word: &[KnownBit]) -> bool
    requires { number < length facts.now.results }
    ensures { IsFalse result → slice_get facts.now.results number ≡ Some word.now }
{
    let kept = &facts.results.as_slice()[number as usize];
    differ(kept.as_slice(), word)
}

/// Whether two words differ.
fn differ(one: &[KnownBit], other: &[KnownBit]) -> bool
    ensures { IsFalse result → one.now ≡ other.now }
{
    if one.len() != other.len() {
        return true;
    }
    for place in 0..one.len() {
        if !is_same(one[place], other[place]) {
            return true;
        }
    }
    false
}

fn is_same(one: KnownBit, other: KnownBit) -> bool
    ensures { IsTrue result → one ≡ other }
{
    one == other
}
