//! Searches along def-use chains, from instructions to their users in the same block or across blocks, level by level.

ghost use Rattle.std.specs.Prelude.{◌<◌, ◌≤◌, ◌↔◌, ℕ, length, All, Contains, IfOk, IsTrue, OnOk};
ghost use Rattle.bindings.specs.Match.{IsInScope};
ghost use Rattle.ir_core.specs.Blocks.{HasInst};
ghost use Rattle.draft.specs.Drafts.{Stands, Reaches};
ghost use Rattle.places.specs.Heaps.{place_at};
ghost use Rattle.readers.specs.Readers.{IsPlaceIn};
ghost use Rattle.places.specs.Sets.{Has};
ghost use Rattle.draft_steps.specs.Walks.{IsIdle, IsWalk, IsFurther, IsSameDraft, Came, CameOnlyTo, ReachesOneOf, ReadersCame, ReadsHere, ReadsOneOf, StandsAt, StandsAtOneOf};
ghost use Rattle.draft.specs.Whole.{IsWhole, IsSettled};
ghost use Rattle.places.specs.declared.place.Place.{Place as Spot};

use draft::Draft;
use ir_core::Register;
use places::{END, Marks, Place};
use std::alloc::{AllocError, Global};

/// The instructions that a search found, each once.
#[derive(Drop)]
pub(crate) struct Walk {
    reached: Marks,
    pub(crate) found: Vec<Place>,
}

impl Walk {
    /// A search over so many blocks, which found nothing yet.
    pub(crate) fn none(alloc: Global, blocks: u32) -> Result<Walk, AllocError>
        ensures { IfOk result (IsIdle blocks) }
    {
        let reached = Marks::none(alloc, blocks)?;
        let found = Vec::new(alloc);
        Ok(Walk { reached, found })
    }

    /// Finds these instructions and those that read from them through chains of at most so many operands, in their
    /// block or across blocks, as far as they stand.
    pub(crate) fn reach(
        &mut self,
        alloc: Global,
        draft: &mut Draft,
        places: &[Place],
        depth: usize,
        across: bool,
    ) -> Result<(), AllocError>
        requires settled { IsSettled draft.old }
        requires idle { IsIdle (length draft.old.arena.blocks) self.old }
        requires places { All (IsPlaceIn draft.old.arena) places.now }
        ensures draft { OnOk result (IsSameDraft draft.old draft.new) }
        ensures walk { OnOk result (IsWalk draft.new self.new) }
        ensures reached { OnOk result ((p : Spot) (b n : ℕ) → Contains places.now p → Stands draft.old b n
            → Reaches across draft.old depth b n p.block p.number → Came self.new b n) }
        ensures only { OnOk result ((b n : ℕ) → Came self.new b n → ReachesOneOf across draft.old depth places.now b n) }
    {
        self.come_to_all(draft, places)?;
        let mut next = 0;
        for _level in 0..depth {
            let end = self.found.len();
            self.follow(alloc, draft, next, end, across)?;
            next = end;
        }
        Ok(())
    }

    /// Forgets what was found.
    pub(crate) fn clear(&mut self)
        requires marked { (b n : ℕ) → Has self.old.reached b n → Came self.old b n }
        requires blocks { All (λ p. p.block < length self.old.reached) self.old.found.items }
        ensures { IsIdle (length self.old.reached) self.new }
    {
        while let Some(place) = self.found.pop() {
            self.reached.remove(place);
        }
    }

    fn come_to_all(&mut self, draft: &Draft, places: &[Place]) -> Result<(), AllocError>
        requires whole { IsWhole draft.now }
        requires walk { IsWalk draft.now self.old }
        requires places { All (IsPlaceIn draft.now.arena) places.now }
        ensures walk { OnOk result (IsWalk draft.now self.new) }
        ensures further { OnOk result (IsFurther self.old self.new) }
        ensures came { OnOk result ((p : Spot) → Contains places.now p → Stands draft.now p.block p.number → Came self.new p.block p.number) }
        ensures only { OnOk result (CameOnlyTo (StandsAtOneOf draft.now places.now) self.old self.new) }
    {
        for place in places {
            self.come_to(draft, *place)?;
        }
        Ok(())
    }

    /// Finds the users of one level: of what was found from one index up to another.
    fn follow(
        &mut self,
        alloc: Global,
        draft: &mut Draft,
        from: usize,
        end: usize,
        across: bool,
    ) -> Result<(), AllocError>
        requires whole { IsWhole draft.old }
        requires walk { IsWalk draft.old self.old }
        requires end { end ≤ length self.old.found.items }
        ensures draft { OnOk result (IsSameDraft draft.old draft.new) }
        ensures walk { OnOk result (IsWalk draft.new self.new) }
        ensures further { OnOk result (IsFurther self.old self.new) }
        ensures came { OnOk result ((k : ℕ) → from ≤ k → k < end → ReadersCame across draft.old self.new (place_at self.old.found.items k)) }
        ensures only { OnOk result (CameOnlyTo (ReadsOneOf across draft.old self.old.found.items) self.old self.new) }
    {
        for index in from..end {
            let place = self.found[index];
            self.come_to_readers(alloc, draft, place, across)?;
        }
        Ok(())
    }

    /// Finds the users of an instruction that are in its block, or in any block.
    fn come_to_readers(
        &mut self,
        alloc: Global,
        draft: &mut Draft,
        place: Place,
        across: bool,
    ) -> Result<(), AllocError>
        requires whole { IsWhole draft.old }
        requires walk { IsWalk draft.old self.old }
        requires inst { HasInst draft.old.arena place.block place.number }
        ensures draft { OnOk result (IsSameDraft draft.old draft.new) }
        ensures walk { OnOk result (IsWalk draft.new self.new) }
        ensures further { OnOk result (IsFurther self.old self.new) }
        ensures came { OnOk result (ReadersCame across draft.old self.new place) }
        ensures only { OnOk result (CameOnlyTo (ReadsHere across draft.old place) self.old self.new) }
    {
        let register = Register::Result(place.block, place.number);
        draft.trim_readers(alloc, register);
        for reader in draft.readers_of(register) {
            if is_in_scope(across, place, *reader) {
                self.come_to(draft, *reader)?;
            }
        }
        Ok(())
    }

    /// Finds a place, if an instruction stands there and it wasn't found before.
    fn come_to(&mut self, draft: &Draft, place: Place) -> Result<(), AllocError>
        requires whole { IsWhole draft.now }
        requires walk { IsWalk draft.now self.old }
        requires place { IsPlaceIn draft.now.arena place }
        ensures walk { OnOk result (IsWalk draft.now self.new) }
        ensures further { OnOk result (IsFurther self.old self.new) }
        ensures came { OnOk result (Stands draft.now place.block place.number → Came self.new place.block place.number) }
        ensures only { OnOk result (CameOnlyTo (StandsAt draft.now place) self.old self.new) }
    {
        if place.number != END && draft.stands(place) && !self.reached.has(place) {
            self.reached.insert(place)?;
            self.found.push(place)?;
        }
        Ok(())
    }
}

/// Whether a chain may go from an instruction to a user of its result: one of its block, or of any.
fn is_in_scope(across: bool, place: Place, reader: Place) -> bool
    ensures { IsTrue result ↔ IsInScope across place.block place.number reader.block reader.number }
{
    across || place.block == reader.block
}
