//! The order of the instructions in a block.

ghost use Rattle.std.specs.Prelude.{◌≡◌, ◌+◌, ◌<◌, ◌≤◌, ◌↔◌, suc, length, Contains, IsTrue, IfOk, OnErr, slice_get};
ghost use Rattle.std.specs.List.{range_with_len};
ghost use Rattle.places.specs.Orders.{none, place_in};
ghost use Rattle.places.specs.Orders as numbers;

use crate::links::Links;
use std::alloc::{AllocError, Global};
use std::marker::Model;

/// The numbers of a block's instructions, in the order of the block. Those of removed instructions stay in it.
#[derive(Drop)]
pub struct Order {
    links: Links,
}

impl Model for Order {
    ghost use Rattle.std.specs.Prelude.{ℕ, List as Seq};
    ghost use Rattle.places.specs.Links.{IsListing};
    ghost use Rattle.places.specs.Numbers.{numbers_in};

    ghost Value = { Seq ℕ };

    ghost view = { λ o. numbers_in o.links };

    ghost invariant = { λ o. IsListing o.links.nodes.items 0 o.links.first (numbers_in o.links) };
}

impl Order {
    /// So many instructions, in the order of their numbers.
    pub fn new(alloc: Global, count: u32) -> Result<Order, AllocError>
        ensures { IfOk result (λ order. order ≡ range_with_len 0 count) }
    {
        let links = Links::new(alloc, count)?;
        Ok(Order { links })
    }

    /// The first instruction, if there is one.
    pub fn first(&self) -> Option<u32>
        ensures { result ≡ slice_get self.now 0 }
    {
        self.links.first()
    }

    /// The instruction after this one, unless it is the last.
    pub fn next(&self, number: u32) -> Option<u32>
        requires { Contains self.now number }
        ensures { result ≡ slice_get self.now (suc (place_in self.now number)) }
    {
        self.links.next(number)
    }

    /// Whether the first stands before the second.
    pub(crate) fn is_before(&self, one: u32, other: u32) -> bool
        requires one { Contains self.now one }
        requires other { Contains self.now other }
        ensures { IsTrue result ↔ (place_in self.now one < place_in self.now other) }
    {
        self.links.is_before(one, other)
    }

    /// Inserts one more instruction before another, and returns its number: how many there were.
    pub fn put_before(&mut self, at: u32) -> Result<u32, AllocError>
        requires at { Contains self.old at }
        requires few { length self.old + 1 ≤ none }
        ensures number { IfOk result (λ number. number ≡ length self.old) }
        ensures ok { IfOk result (λ number. self.new ≡ numbers.put_before self.old at number) }
        ensures err { OnErr result (self.new ≡ self.old) }
    {
        let number = self.links.put_before(at)?;
        Ok(number)
    }
}
