//! Worklists of places, which give the first in order first.

ghost use Rattle.std.specs.Prelude.{◌≡◌, ◌<◌, ℕ, [], length, IfOk, OnOk, OnErr, IfSome, IfNone};
ghost use Rattle.places.specs.Heaps.{IsNumbered};
ghost use Rattle.places.specs.Sets.{Has, IsAdded, IsRemoved, IsSameSet};
ghost use Rattle.places.specs.Worklist.{IsWorklist, IsFirst};

use crate::heap;
use crate::marks::Marks;
use crate::order::Order;
use crate::place::Place;
use std::alloc::{AllocError, Global};
use std::marker::Model;

/// A worklist of places, each once: a set of them, and a priority queue of the same places.
#[derive(Drop)]
pub struct Worklist {
    /// The places that are on the worklist.
    marks: Marks,
    /// The same places as a binary heap, by their order.
    heap: Vec<Place>,
}

impl Model for Worklist {
    ghost use Rattle.places.specs.Worklist.{WorklistView};

    ghost Value = { WorklistView };

    ghost view = { λ w. record { marks = w.marks; heap = w.heap.items } };
}

impl Worklist {
    /// The empty worklist, over so many blocks.
    pub fn none(alloc: Global, blocks: u32) -> Result<Worklist, AllocError>
        ensures blocks { IfOk result (λ waiting. length waiting.marks ≡ blocks) }
        ensures marks { IfOk result (λ waiting. (b n : ℕ) → ¬ Has waiting.marks b n) }
        ensures heap { IfOk result (λ waiting. waiting.heap ≡ []) }
    {
        Ok(Worklist {
            marks: Marks::none(alloc, blocks)?,
            heap: Vec::new(alloc),
        })
    }

    /// Adds a place, where it isn't on the worklist already. It takes its memory first: where that is refused, the same
    /// places are on the worklist.
    pub fn insert(&mut self, orders: &[Order], place: Place) -> Result<(), AllocError>
        requires arranged { IsWorklist orders.now self.old }
        requires place { IsNumbered orders.now place }
        ensures arranged { IsWorklist orders.now self.new }
        ensures added { OnOk result (IsAdded self.old.marks self.new.marks place) }
        ensures marks { OnErr result (IsSameSet self.old.marks self.new.marks) }
        ensures heap { OnErr result (self.new.heap ≡ self.old.heap) }
    {
        if self.marks.has(place) {
            return Ok(());
        }
        self.heap.reserve(1)?;
        self.marks.insert(place)?;
        heap::push(orders, &mut self.heap, place);
        Ok(())
    }

    /// Takes the first place off the worklist, before which no other on it comes.
    pub fn take_first(&mut self, orders: &[Order]) -> Option<Place>
        requires { IsWorklist orders.now self.old }
        ensures arranged { IsWorklist orders.now self.new }
        ensures first { IfSome result (IsFirst orders.now self.old.marks) }
        ensures removed { IfSome result (IsRemoved self.old.marks self.new.marks) }
        ensures fewer { IfSome result (λ place. length self.new.heap < length self.old.heap) }
        ensures none { IfNone result ((b n : ℕ) → ¬ Has self.old.marks b n) }
        ensures kept { IfNone result (self.new.marks ≡ self.old.marks) }
    {
        let first = heap::pop(orders, &mut self.heap)?;
        self.marks.remove(first);
        Some(first)
    }
}
