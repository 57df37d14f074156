//! What is known of a draft set right after an edit.

ghost use Rattle.std.specs.Prelude.{◌≡◌, ◌⊎◌, [], ◌<◌, ◌≤◌, ℕ, Some, length, All, Contains, IfOk, IfSome, IsFalse, OnOk, slice_get};
ghost use Rattle.ir_core.specs.Checks.{IsInst, MeetsChecks};
ghost use Rattle.ir_core.specs.declared.instruction.Inst.{Inst as Instruction};
ghost use Rattle.places.specs.Heaps.{ComesBefore};
ghost use Rattle.places.specs.Orders.{place_in};
ghost use Rattle.places.specs.Sets.{Has, IsRemoved, Rows};
ghost use Rattle.places.specs.Worklist.{IsFirst, IsWorklist};
ghost use Rattle.places.specs.declared.place.Place.{Place as Spot};
ghost use Rattle.readers.specs.Readers.{IsPlaceIn};
ghost use Rattle.known_bits.specs.KnownBits.{known_operand, known_result};
ghost use Rattle.draft.specs.Drafts.{Stands, arena_of, function_of, numbers_in, orders_of};
ghost use Rattle.draft.specs.Whole.{IsSettled, IsWhole};
ghost use Rattle.draft_bits.specs.DraftBits.{AreBitsBefore, AreBitsOf, HasFewBits, HasSameBits, IsIdle, IsRight, StandsReached, facts_at, results_at};
ghost use Rattle.draft_bits.specs.Updates.{AreGrown, HasEntries, IsUpdating};

use crate::bits::DraftBits;
use crate::rows::{inst_at, is_other, lengthen_at, put_at};
use crate::waiting::{wait_for, wait_for_readers};
use bindings::reads_of_a_block_stand_before;
use circuits::{Bits, KnownBit};
use draft::Draft;
use known_bits::result_bits;
use places::{Place, Worklist};
use std::alloc::{AllocError, Global};

/// Sets right what is known of a draft after an edit that touched these places, and returns them with those whose bits
/// changed. Where nothing is kept, these alone.
///
/// From these places on, in the order of each block, what the table says is compared with what is kept; where it
/// differs, the instructions of the block that read the result are looked at too. An instruction stands behind what it
/// reads, so each is looked at once at most.
pub fn update(
    alloc: Global,
    bits: DraftBits,
    draft: &Draft,
    touched: Vec<Place>,
) -> Result<(DraftBits, Vec<Place>), AllocError>
    requires settled { IsSettled draft.now }
    requires checks { MeetsChecks (function_of draft.now) }
    requires places { All (IsPlaceIn (arena_of draft.now)) touched.items }
    requires bits { AreBitsBefore draft.now touched.items bits ⊎ (bits.blocks.items ≡ []) }
    requires few { HasFewBits bits }
    ensures bits { IfOk result (λ made. AreBitsBefore draft.now touched.items bits → AreBitsOf draft.now made.0) }
    ensures none { IfOk result (λ made. bits.blocks.items ≡ [] → made.0.blocks.items ≡ []) }
    ensures few { IfOk result (λ made. HasFewBits made.0) }
    ensures touched { IfOk result (λ made. (p : Spot) → Contains touched.items p → Contains made.1.items p) }
    ensures places { IfOk result (λ made. All (IsPlaceIn (arena_of draft.now)) made.1.items) }
    ensures same { IfOk result (λ made. (b n : ℕ) → n < length (results_at bits b) → ¬ Contains made.1.items (record { block = b; number = n })
        → HasSameBits bits made.0 b n) }
{
    if bits.blocks.is_empty() {
        return Ok((bits, touched));
    }
    let mut bits = bits;
    let mut changed = touched;
    let waiting = begin(alloc, &mut bits, draft, changed.as_slice())?;
    follow(alloc, &mut bits, draft, waiting, &mut changed)?;
    Ok((bits, changed))
}

/// Makes room for what an edit inserted, and gives the worklist of what it touched.
fn begin(
    alloc: Global,
    bits: &mut DraftBits,
    draft: &Draft,
    touched: &[Place],
) -> Result<Worklist, AllocError>
    requires whole { IsWhole draft.now }
    requires places { All (IsPlaceIn (arena_of draft.now)) touched.now }
    requires before { AreBitsBefore draft.now touched.now bits.old }
    ensures grown { OnOk result (AreGrown bits.old bits.new) }
    ensures worklist { IfOk result (IsWorklist (orders_of draft.now)) }
    ensures updating { IfOk result (λ waiting. IsUpdating draft.now waiting.marks bits.new) }
{
    let mut waiting = idle_worklist(alloc, &mut bits.waiting, draft.blocks())?;
    for place in touched {
        grow(alloc, bits, draft, place.block)?;
        wait_for(draft, &mut waiting, *place)?;
    }
    Ok(waiting)
}

/// The worklist of the last update, or a new one, on which nothing waits.
fn idle_worklist(
    alloc: Global,
    kept: &mut Option<Worklist>,
    blocks: u32,
) -> Result<Worklist, AllocError>
    requires { IfSome kept.old (IsIdle blocks) }
    ensures { IfOk result (IsIdle blocks) }
{
    if let Some(waiting) = kept.take() {
        return Ok(waiting);
    }
    let waiting = Worklist::none(alloc, blocks)?;
    Ok(waiting)
}

/// Makes room for what is known of each instruction of a block. Of new ones nothing is known so far.
fn grow(alloc: Global, bits: &mut DraftBits, draft: &Draft, block: u32) -> Result<(), AllocError>
    requires whole { IsWhole draft.now }
    requires block { block < length (arena_of draft.now).blocks }
    requires known { block < length bits.old.blocks.items }
    ensures grown { OnOk result (AreGrown bits.old bits.new) }
    ensures room { OnOk result (HasEntries draft.now bits.new block) }
{
    let count = draft.count_in(block);
    lengthen_at(alloc, &mut bits.blocks, block, count)
}

/// Sets right what waits, in order, and what reads results whose bits change. The places of these are told.
fn follow(
    alloc: Global,
    bits: &mut DraftBits,
    draft: &Draft,
    waiting: Worklist,
    changed: &mut Vec<Place>,
) -> Result<(), AllocError>
    requires settled { IsSettled draft.now }
    requires checks { MeetsChecks (function_of draft.now) }
    requires worklist { IsWorklist (orders_of draft.now) waiting }
    requires updating { IsUpdating draft.now waiting.marks bits.old }
    requires few { HasFewBits bits.old }
    requires places { All (IsPlaceIn (arena_of draft.now)) changed.old.items }
    ensures bits { OnOk result (AreBitsOf draft.now bits.new) }
    ensures few { OnOk result (HasFewBits bits.new) }
    ensures more { OnOk result ((p : Spot) → Contains changed.old.items p → Contains changed.new.items p) }
    ensures places { OnOk result (All (IsPlaceIn (arena_of draft.now)) changed.new.items) }
    ensures same { OnOk result ((b n : ℕ) → ¬ Contains changed.new.items (record { block = b; number = n }) → HasSameBits bits.old bits.new b n) }
{
    let mut waiting = waiting;
    while let Some(place) = waiting.take_first(draft.orders.as_slice()) {
        set_right(alloc, bits, draft, &mut waiting, changed, place)?;
    }
    bits.waiting = Some(waiting);
    Ok(())
}

/// Sets right what is known of the result at the place that was taken off the worklist, before which nothing waits. If
/// that is another thing than was known, the place is told, and what reads the result waits.
fn set_right(
    alloc: Global,
    bits: &mut DraftBits,
    draft: &Draft,
    waiting: &mut Worklist,
    changed: &mut Vec<Place>,
    place: Place,
) -> Result<(), AllocError>
    requires settled { IsSettled draft.now }
    requires checks { MeetsChecks (function_of draft.now) }
    requires worklist { IsWorklist (orders_of draft.now) waiting.old }
    requires taken { (marks : Rows) × IsFirst (orders_of draft.now) marks place × IsRemoved marks waiting.old.marks place × IsUpdating draft.now marks bits.old }
    requires few { HasFewBits bits.old }
    requires places { All (IsPlaceIn (arena_of draft.now)) changed.old.items }
    ensures worklist { OnOk result (IsWorklist (orders_of draft.now) waiting.new) }
    ensures behind { OnOk result ((b n : ℕ) → Has waiting.new.marks b n
        → Has waiting.old.marks b n ⊎ ComesBefore (orders_of draft.now) place (record { block = b; number = n })) }
    ensures updating { OnOk result (IsUpdating draft.now waiting.new.marks bits.new) }
    ensures few { OnOk result (HasFewBits bits.new) }
    ensures more { OnOk result ((p : Spot) → Contains changed.old.items p → Contains changed.new.items p) }
    ensures places { OnOk result (All (IsPlaceIn (arena_of draft.now)) changed.new.items) }
    ensures same { OnOk result ((b n : ℕ) → ¬ Contains changed.new.items (record { block = b; number = n }) → HasSameBits bits.old bits.new b n) }
{
    reads_of_a_block_stand_before();
    let differs = write_result(alloc, bits, draft, place)?;
    if !differs {
        return Ok(());
    }
    changed.push(place)?;
    wait_for_readers(draft, waiting, place)?;
    Ok(())
}

/// Writes what the table says of an instruction, and returns whether that is another thing than was known.
///
/// What is known of the instructions that stand before it is right.
fn write_result(
    alloc: Global,
    bits: &mut DraftBits,
    draft: &Draft,
    place: Place,
) -> Result<bool, AllocError>
    requires settled { IsSettled draft.now }
    requires checks { MeetsChecks (function_of draft.now) }
    requires stands { StandsReached draft.now place.block place.number }
    requires block { (facts_at bits.old place.block).block ≡ place.block }
    requires known { place.block < length bits.old.blocks.items }
    requires room { place.number < length (results_at bits.old place.block) }
    requires before { (n : ℕ) (inst : Instruction) → Stands draft.now place.block n
        → place_in (numbers_in draft.now place.block) n < place_in (numbers_in draft.now place.block) place.number
        → IsInst (arena_of draft.now) place.block n inst → IsRight place.block (results_at bits.old place.block) n inst }
    requires few { HasFewBits bits.old }
    ensures few { OnOk result (HasFewBits bits.new) }
    ensures as_many { OnOk result (length bits.new.blocks.items ≡ length bits.old.blocks.items) }
    ensures blocks { OnOk result ((b : ℕ) → (facts_at bits.new b).block ≡ (facts_at bits.old b).block) }
    ensures rows { OnOk result ((b : ℕ) → length (results_at bits.new b) ≡ length (results_at bits.old b)) }
    ensures others { OnOk result ((b n : ℕ) → ¬ ((b ≡ place.block) × (n ≡ place.number)) → HasSameBits bits.old bits.new b n) }
    ensures right { OnOk result ((inst : Instruction) → IsInst (arena_of draft.now) place.block place.number inst
        → slice_get (results_at bits.new place.block) place.number
        ≡ Some (known_result (known_operand place.block (results_at bits.old place.block)) inst.width inst.op)) }
    ensures same { IfOk result (λ differs. IsFalse differs → HasSameBits bits.old bits.new place.block place.number) }
{
    let word = word_at(alloc, bits, draft, place)?;
    let differs = is_other(bits.at(place.block), place.number, word.as_slice());
    put_at(&mut bits.blocks, place, word);
    Ok(differs)
}

/// What the table says of an instruction that stands in a reached block.
fn word_at(
    alloc: Global,
    bits: &DraftBits,
    draft: &Draft,
    place: Place,
) -> Result<Bits<KnownBit>, AllocError>
    requires settled { IsSettled draft.now }
    requires checks { MeetsChecks (function_of draft.now) }
    requires stands { StandsReached draft.now place.block place.number }
    requires block { (facts_at bits.now place.block).block ≡ place.block }
    requires before { (n : ℕ) (inst : Instruction) → Stands draft.now place.block n
        → place_in (numbers_in draft.now place.block) n < place_in (numbers_in draft.now place.block) place.number
        → IsInst (arena_of draft.now) place.block n inst → IsRight place.block (results_at bits.now place.block) n inst }
    ensures few { IfOk result (λ word. length word ≤ 64) }
    ensures table { IfOk result (λ word. (inst : Instruction) → IsInst (arena_of draft.now) place.block place.number inst
        → word ≡ known_result (known_operand place.block (results_at bits.now place.block)) inst.width inst.op) }
{
    reads_of_a_block_stand_before();
    let inst = inst_at(&draft.arena, place.block, place.number);
    let word = result_bits(alloc, bits.at(place.block), inst.width, &inst.op)?;
    Ok(word)
}
