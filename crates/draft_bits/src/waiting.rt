//! What waits to be set right.

ghost use Rattle.std.specs.Prelude.{◌≡◌, ◌↔◌, ◌⊎◌, ℕ, IsTrue, OnOk};
ghost use Rattle.ir_core.specs.Blocks.{HasInst};
ghost use Rattle.ir_core.specs.Checks.{IsPhi};
ghost use Rattle.places.specs.Sets.{Has};
ghost use Rattle.places.specs.Worklist.{IsWorklist};
ghost use Rattle.readers.specs.Readers.{IsPlaceIn};
ghost use Rattle.draft.specs.Drafts.{arena_of, orders_of};
ghost use Rattle.draft.specs.Whole.{IsWhole};
ghost use Rattle.draft_bits.specs.DraftBits.{StandsReached};
ghost use Rattle.draft_bits.specs.Updates.{Takes};

use crate::rows::inst_at;
use draft::Draft;
use ir_core::{Op, Register};
use places::{END, Place, Worklist};
use std::alloc::AllocError;

/// Adds the place of an instruction that stands in a reached block to a worklist.
pub(crate) fn wait_for(
    draft: &Draft,
    waiting: &mut Worklist,
    place: Place,
) -> Result<(), AllocError>
    requires whole { IsWhole draft.now }
    requires place { IsPlaceIn (arena_of draft.now) place }
    requires worklist { IsWorklist (orders_of draft.now) waiting.old }
    ensures worklist { OnOk result (IsWorklist (orders_of draft.now) waiting.new) }
    ensures stay { OnOk result ((b n : ℕ) → Has waiting.old.marks b n → Has waiting.new.marks b n) }
    ensures added { OnOk result (StandsReached draft.now place.block place.number → Has waiting.new.marks place.block place.number) }
    ensures only { OnOk result ((b n : ℕ) → Has waiting.new.marks b n
        → Has waiting.old.marks b n ⊎ (StandsReached draft.now b n × (place ≡ record { block = b; number = n }))) }
{
    if !stands_reached(draft, place) {
        return Ok(());
    }
    waiting.insert(draft.orders.as_slice(), place)?;
    Ok(())
}

/// Adds the instructions of the block that read a result and are no phis, of which nothing is known.
pub(crate) fn wait_for_readers(
    draft: &Draft,
    waiting: &mut Worklist,
    place: Place,
) -> Result<(), AllocError>
    requires whole { IsWhole draft.now }
    requires place { HasInst (arena_of draft.now) place.block place.number }
    requires worklist { IsWorklist (orders_of draft.now) waiting.old }
    ensures worklist { OnOk result (IsWorklist (orders_of draft.now) waiting.new) }
    ensures stay { OnOk result ((b n : ℕ) → Has waiting.old.marks b n → Has waiting.new.marks b n) }
    ensures readers { OnOk result ((n : ℕ) → StandsReached draft.now place.block n → Takes (arena_of draft.now) place place.block n → Has waiting.new.marks place.block n) }
    ensures only { OnOk result ((b n : ℕ) → Has waiting.new.marks b n
        → Has waiting.old.marks b n ⊎ (StandsReached draft.now b n × Takes (arena_of draft.now) place b n)) }
{
    for reader in draft.readers_of(Register::Result(place.block, place.number)) {
        if takes(draft, *reader, place) {
            wait_for(draft, waiting, *reader)?;
        }
    }
    Ok(())
}

/// Whether an instruction that takes the result at a place stands at another. Use lists may have places that ceased to
/// read it.
fn takes(draft: &Draft, reader: Place, place: Place) -> bool
    requires whole { IsWhole draft.now }
    requires reader { IsPlaceIn (arena_of draft.now) reader }
    ensures { IsTrue result ↔ (StandsReached draft.now reader.block reader.number × Takes (arena_of draft.now) place reader.block reader.number) }
{
    if reader.block != place.block {
        return false;
    }
    if !stands_reached(draft, reader) {
        return false;
    }
    let inst = inst_at(&draft.arena, reader.block, reader.number);
    if is_phi(&inst.op) {
        return false;
    }
    draft.reads(reader, Register::Result(place.block, place.number))
}

/// Whether an instruction stands at a place of a reached block.
fn stands_reached(draft: &Draft, place: Place) -> bool
    requires whole { IsWhole draft.now }
    requires place { IsPlaceIn (arena_of draft.now) place }
    ensures { IsTrue result ↔ StandsReached draft.now place.block place.number }
{
    if place.number == END {
        return false;
    }
    if !draft.facts.flow.reached(place.block) {
        return false;
    }
    draft.stands(place)
}

fn is_phi(op: &Op) -> bool
    ensures { IsTrue result ↔ IsPhi op.now }
{
    matches!(op, Op::Phi(_))
}
