//! The decision order: which variable to decide next, the most active one (VSIDS of Chaff, by a binary heap as in
//! MiniSat).
//!
//! No contract speaks of the order itself, only of the variables that it may have.

ghost use Rattle.std.specs.Prelude.{◌≡◌, ◌+◌, ◌<◌, ◌^◌, length, IfOk, IfSome};
ghost use Rattle.first_uip.specs.Order.{NamesBelow};

use std::alloc::{AllocError, Global};

/// All activities are scaled down once one is greater than this.
const GREATEST: u64 = 1 << 50;

/// The variables by activity.
#[derive(Drop)]
pub(crate) struct Order {
    /// The variables of the heap. One at place i is at least as active as its children at 2 i + 1 and 2 i + 2.
    heap: Vec<u32>,
    /// Where each variable stands in the heap, if it does.
    places: Vec<usize>,
    pub(crate) activities: Vec<u64>,
    /// By how much a conflict bumps a variable's activity.
    gain: u64,
    ghost sizes: { length places.items ≡ length activities.items },
    ghost variables: { NamesBelow (length activities.items) heap.items },
}

impl Order {
    ghost use Rattle.std.specs.Prelude.{◌≡◌, ◌+◌, ◌<◌, ◌^◌, length, IfOk, IfSome};

    /// The order of the variables from 1 to `count`, none of them active.
    pub(crate) fn new(alloc: Global, count: u32) -> Result<Order, AllocError>
        requires { count + 1 < 2 ^ 32 }
        ensures { IfOk result (λ order. length order.activities.items ≡ count + 1) }
    {
        let mut order = Order {
            heap: Vec::new(alloc),
            places: vec![in alloc; 0; count as usize + 1]?,
            activities: vec![in alloc; 0; count as usize + 1]?,
            gain: 1 << 20,
        };
        for variable in 1..count + 1 {
            order.insert(variable)?;
        }
        Ok(order)
    }

    /// The activity of the variable at a place of the heap.
    fn activity_at(&self, place: usize) -> u64
        requires { place < length self.now.heap.items }
    {
        self.activities[self.heap[place] as usize]
    }

    /// Where the variable stands in the heap, if it does.
    fn place_of(&self, variable: u32) -> Option<usize>
        requires { variable < length self.now.activities.items }
        ensures { IfSome result (λ place. place < length self.now.heap.items) }
    {
        let place = self.places[variable as usize];
        if place < self.heap.len() && self.heap[place] == variable {
            Some(place)
        } else {
            None
        }
    }

    /// Swaps the variables at two places of the heap.
    fn swap(&mut self, one: usize, other: usize)
        requires one { one < length self.old.heap.items }
        requires other { other < length self.old.heap.items }
        ensures heap { length self.new.heap.items ≡ length self.old.heap.items }
        ensures variables { length self.new.activities.items ≡ length self.old.activities.items }
    {
        let (first, second) = (self.heap[one], self.heap[other]);
        self.heap[one] = second;
        self.heap[other] = first;
        self.places[second as usize] = one;
        self.places[first as usize] = other;
    }

    /// Moves the variable at a place of the heap up to where it belongs.
    fn rise(&mut self, mut place: usize)
        requires { place < length self.old.heap.items }
        ensures variables { length self.new.activities.items ≡ length self.old.activities.items }
    {
        while place > 0 {
            let parent = (place - 1) / 2;
            if self.activity_at(parent) >= self.activity_at(place) {
                return;
            }
            self.swap(parent, place);
            place = parent;
        }
    }

    /// The more active one of the children of a place of the heap, if it has any.
    fn child(&self, place: usize) -> Option<usize>
        requires { place < length self.now.heap.items }
        ensures below { IfSome result (λ child. place < child) }
        ensures within { IfSome result (λ child. child < length self.now.heap.items) }
    {
        let left = 2 * place + 1;
        if left >= self.heap.len() {
            return None;
        }
        let right = left + 1;
        if right < self.heap.len() && self.activity_at(right) > self.activity_at(left) {
            Some(right)
        } else {
            Some(left)
        }
    }

    /// Moves the variable at a place of the heap down to where it belongs.
    fn sink(&mut self, mut place: usize)
        requires { place < length self.old.heap.items }
        ensures heap { length self.new.heap.items ≡ length self.old.heap.items }
        ensures variables { length self.new.activities.items ≡ length self.old.activities.items }
    {
        while let Some(child) = self.child(place) {
            if self.activity_at(place) >= self.activity_at(child) {
                return;
            }
            self.swap(place, child);
            place = child;
        }
    }

    /// Puts the variable into the heap, if it isn't there.
    pub(crate) fn insert(&mut self, variable: u32) -> Result<(), AllocError>
        requires first { 0 < variable }
        requires last { variable < length self.old.activities.items }
        ensures variables { length self.new.activities.items ≡ length self.old.activities.items }
    {
        if self.place_of(variable).is_some() {
            return Ok(());
        }
        let place = self.heap.len();
        self.heap.push(variable)?;
        self.places[variable as usize] = place;
        self.rise(place);
        Ok(())
    }

    /// The most active variable of the heap.
    pub(crate) fn first(&self) -> Option<u32>
        ensures some { IfSome result (λ _. 0 < length self.now.heap.items) }
        ensures first { IfSome result (λ variable. 0 < variable) }
        ensures last { IfSome result (λ variable. variable < length self.now.activities.items) }
    {
        if self.heap.is_empty() {
            return None;
        }
        Some(self.heap[0])
    }

    /// Takes the most active variable out of the heap.
    pub(crate) fn drop_first(&mut self)
        requires { 0 < length self.old.heap.items }
        ensures variables { length self.new.activities.items ≡ length self.old.activities.items }
        ensures shorter { length self.new.heap.items + 1 ≡ length self.old.heap.items }
    {
        let _ = self.heap.swap_remove(0);
        if !self.heap.is_empty() {
            let moved = self.heap[0];
            self.places[moved as usize] = 0;
            self.sink(0);
        }
    }

    /// Takes the most active variable out of the heap. The answer is that variable.
    pub(crate) fn pop(&mut self) -> Option<u32>
        ensures variables { length self.new.activities.items ≡ length self.old.activities.items }
        ensures first { IfSome result (λ variable. 0 < variable) }
        ensures last { IfSome result (λ variable. variable < length self.old.activities.items) }
        ensures shorter { IfSome result (λ _. length self.new.heap.items + 1 ≡ length self.old.heap.items) }
    {
        let first = self.first()?;
        self.drop_first();
        Some(first)
    }

    /// Whether the first variable is less active than the second.
    pub(crate) fn is_less_active(&self, one: u32, other: u32) -> bool
        requires one { one < length self.now.activities.items }
        requires other { other < length self.now.activities.items }
    {
        self.activities[one as usize] < self.activities[other as usize]
    }

    /// Bumps the variable's activity.
    pub(crate) fn bump(&mut self, variable: u32)
        requires { variable < length self.old.activities.items }
        ensures { length self.new.activities.items ≡ length self.old.activities.items }
    {
        let activity = self.activities[variable as usize].saturating_add(self.gain);
        self.activities[variable as usize] = activity;
        if activity > GREATEST {
            self.scale_down();
        }
        if let Some(place) = self.place_of(variable) {
            self.rise(place);
        }
    }

    /// Later bumps are greater by an eleventh, so that earlier ones count for less (decay).
    pub(crate) fn decay(&mut self)
        ensures { length self.new.activities.items ≡ length self.old.activities.items }
    {
        self.gain = self.gain.saturating_add(self.gain / 11);
        if self.gain > GREATEST {
            self.scale_down();
        }
    }

    /// Scales all activities and later bumps down by the same factor.
    fn scale_down(&mut self)
        ensures heap { self.new.heap.items ≡ self.old.heap.items }
        ensures places { self.new.places.items ≡ self.old.places.items }
        ensures variables { length self.new.activities.items ≡ length self.old.activities.items }
    {
        for activity in self.activities.iter_mut() {
            *activity >>= 30;
        }
        self.gain = (self.gain >> 30).max(1);
    }
}
