//! The worklist of rewriting: the places at which a match may have come or gone, by their order.

ghost use Rattle.std.specs.Prelude.{◌≡◌, ◌↔◌, ◌<◌, ◌⊎◌, ℕ, length, All, Contains, IfOk, OnOk, IfSome, IfNone};
ghost use Rattle.ir_core.specs.Walks.{IsReached};
ghost use Rattle.draft.specs.Drafts.{Stands, Reaches, orders_of};
ghost use Rattle.places.specs.Heaps.{IsNumbered};
ghost use Rattle.draft_steps.specs.DraftWorklists.{ComesNext, IsWorklistOf, IsOnWorklist, size_of, members_of};
ghost use Rattle.places.specs.Sets.{Has, IsAdded, IsRemoved};
ghost use Rattle.places.specs.Worklist.{IsWorklist};
ghost use Rattle.readers.specs.Readers.{IsPlaceIn};
ghost use Rattle.draft_steps.specs.Walks.{IsSameDraft, ReachesOneOf};
ghost use Rattle.draft.specs.Whole.{IsWhole, IsSettled};
ghost use Rattle.places.specs.declared.place.Place.{Place as Spot};

use crate::walk::Walk;
use draft::Draft;
use places::{Order, Place, Worklist};
use std::alloc::{AllocError, Global};
use std::marker::Model;

/// A worklist of places, each once, from which the first in the order of a draft is taken first.
#[derive(Drop)]
pub struct DraftWorklist {
    waiting: Worklist,
    /// A search that found nothing, kept so that the next one uses its memory again.
    walk: Walk,
}

impl Model for DraftWorklist {
    ghost use Rattle.std.specs.Prelude.{length};
    ghost use Rattle.places.specs.Worklist.{WorklistView};
    ghost use Rattle.draft_steps.specs.Walks.{IsIdle};

    ghost Value = { WorklistView };

    ghost view = { λ q. q.waiting };

    ghost invariant = { λ q. IsIdle (length q.waiting.marks) q.walk };
}

impl DraftWorklist {
    /// All instructions that stand in a draft's reached blocks.
    pub fn all(alloc: Global, draft: &Draft) -> Result<DraftWorklist, AllocError>
        requires { IsWhole draft.now }
        ensures worklist { IfOk result (IsWorklistOf draft.now) }
        ensures all { IfOk result (λ worklist. (b n : ℕ) → IsOnWorklist worklist b n ↔ (IsReached draft.now.arena b × Stands draft.now b n)) }
    {
        let mut worklist = DraftWorklist {
            waiting: Worklist::none(alloc, draft.blocks())?,
            walk: Walk::none(alloc, draft.blocks())?,
        };
        for block in 0..draft.blocks() {
            if draft.facts.flow.reached(block) {
                worklist.insert_block(draft, block)?;
            }
        }
        Ok(worklist)
    }

    /// Adds the instructions of a block that stand.
    fn insert_block(&mut self, draft: &Draft, block: u32) -> Result<(), AllocError>
        requires whole { IsWhole draft.now }
        requires block { block < length draft.now.arena.blocks }
        requires worklist { IsWorklistOf draft.now self.old }
        ensures worklist { OnOk result (IsWorklistOf draft.now self.new) }
        ensures added { OnOk result ((b n : ℕ) → IsOnWorklist self.new b n ↔ (IsOnWorklist self.old b n ⊎ ((b ≡ block) × Stands draft.now b n))) }
    {
        for number in 0..draft.count_in(block) {
            let place = Place { block, number };
            if draft.stands(place) {
                self.insert(draft, place)?;
            }
        }
        Ok(())
    }

    /// Adds a place, where it isn't on the worklist already.
    fn insert(&mut self, draft: &Draft, place: Place) -> Result<(), AllocError>
        requires worklist { IsWorklistOf draft.now self.old }
        requires place { IsNumbered (orders_of draft.now) place }
        ensures worklist { OnOk result (IsWorklistOf draft.now self.new) }
        ensures added { OnOk result (IsAdded (members_of self.old) (members_of self.new) place) }
    {
        self.waiting.insert(draft.orders.as_slice(), place)?;
        Ok(())
    }

    /// Takes the first place off the worklist. Its instruction may have been removed since it was added.
    pub fn take_first(&mut self, draft: &Draft) -> Option<Place>
        requires whole { IsWhole draft.now }
        requires worklist { IsWorklistOf draft.now self.old }
        ensures worklist { IsWorklistOf draft.now self.new }
        ensures first { IfSome result (ComesNext draft.now self.old) }
        ensures removed { IfSome result (IsRemoved (members_of self.old) (members_of self.new)) }
        ensures fewer { IfSome result (λ place. size_of self.new < size_of self.old) }
        ensures none { IfNone result ((b n : ℕ) → ¬ IsOnWorklist self.old b n) }
        ensures kept { IfNone result (members_of self.new ≡ members_of self.old) }
    {
        self.waiting.take_first(draft.orders.as_slice())
    }

    /// Adds these instructions and those that read from them through chains of at most so many operands, in their block
    /// or across blocks, as far as they stand. Of the draft only use lists change, which are trimmed. Where memory is
    /// refused, both are dropped.
    pub fn insert_reaching(
        self,
        alloc: Global,
        draft: Draft,
        places: &[Place],
        depth: usize,
        across: bool,
    ) -> Result<(DraftWorklist, Draft), AllocError>
        requires settled { IsSettled draft }
        requires worklist { IsWorklistOf draft self }
        requires places { All (IsPlaceIn draft.arena) places.now }
        ensures draft { IfOk result (λ now. IsSameDraft draft now.1) }
        ensures worklist { IfOk result (λ now. IsWorklistOf now.1 now.0) }
        ensures stay { IfOk result (λ now. (b n : ℕ) → IsOnWorklist self b n → IsOnWorklist now.0 b n) }
        ensures reaching { IfOk result (λ now. (p : Spot) (b n : ℕ) → Contains places.now p → Stands draft b n
            → Reaches across draft depth b n p.block p.number → IsOnWorklist now.0 b n) }
        ensures only { IfOk result (λ now. (b n : ℕ) → IsOnWorklist now.0 b n → IsOnWorklist self b n ⊎ ReachesOneOf across draft depth places.now b n) }
    {
        let DraftWorklist {
            mut waiting,
            mut walk,
        } = self;
        let mut draft = draft;
        walk.reach(alloc, &mut draft, places, depth, across)?;
        insert_all(&mut waiting, draft.orders.as_slice(), walk.found.as_slice())?;
        walk.clear();
        Ok((DraftWorklist { waiting, walk }, draft))
    }
}

/// Adds places to a worklist.
fn insert_all(waiting: &mut Worklist, orders: &[Order], places: &[Place]) -> Result<(), AllocError>
    requires arranged { IsWorklist orders.now waiting.old }
    requires places { All (IsNumbered orders.now) places.now }
    ensures arranged { OnOk result (IsWorklist orders.now waiting.new) }
    ensures stay { OnOk result ((b n : ℕ) → Has waiting.old.marks b n → Has waiting.new.marks b n) }
    ensures places { OnOk result (All (λ p. Has waiting.new.marks p.block p.number) places.now) }
    ensures only { OnOk result ((b n : ℕ) → Has waiting.new.marks b n
        → Has waiting.old.marks b n ⊎ Contains places.now (record { block = b; number = n })) }
{
    for place in places {
        waiting.insert(orders, *place)?;
    }
    Ok(())
}
