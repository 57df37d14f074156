//! A doubly linked list of numbers with labels that increase along it: which of two numbers stands first is told by
//! comparing their labels (order maintenance).

ghost use Rattle.std.specs.Prelude.{◌≡◌, ◌==◌, ◌+◌, ◌*◌, ◌<◌, ◌≤◌, ◌↔◌, if◌then◌else◌, suc, length, Contains, IsTrue, IfOk, OnErr, slice_get};
ghost use Rattle.std.specs.List.{range_with_len};
ghost use Rattle.places.specs.Orders.{none, place_in};
ghost use Rattle.places.specs.Orders as numbers;
ghost use Rattle.places.specs.Links.{IsListing, node_of, first_node_at, linked_in};
ghost use Rattle.places.specs.Numbers.{numbers_in};

use crate::node::{NONE, Node, label_of, node_at, set_after, set_before};
use crate::room::gap_of;
use std::alloc::{AllocError, Global};

/// A linked list of numbers, with a node for each at its index.
#[derive(Drop)]
pub(crate) struct Links {
    pub(crate) nodes: Vec<Node>,
    pub(crate) first: u32,
}

impl Links {
    /// The numbers below a count, in ascending order.
    pub(crate) fn new(alloc: Global, count: u32) -> Result<Links, AllocError>
        ensures { IfOk result (λ links. IsListing links.nodes.items 0 links.first (range_with_len 0 count)) }
    {
        let gap = gap_of(count);
        let mut nodes = Vec::new(alloc);
        for number in 0..count {
            nodes.push(first_node(number, count, gap))?;
        }
        let first = if_none(count, 0);
        Ok(Links { nodes, first })
    }

    /// The first number, if there is one.
    pub(crate) fn first(&self) -> Option<u32>
        requires { IsListing self.now.nodes.items 0 self.now.first (numbers_in self.now) }
        ensures { result ≡ slice_get (numbers_in self.now) 0 }
    {
        some(self.first)
    }

    /// The number after this one, unless it is the last.
    pub(crate) fn next(&self, number: u32) -> Option<u32>
        requires listing { IsListing self.now.nodes.items 0 self.now.first (numbers_in self.now) }
        requires number { Contains (numbers_in self.now) number }
        ensures { result ≡ slice_get (numbers_in self.now) (suc (place_in (numbers_in self.now) number)) }
    {
        let node = node_at(self.nodes.as_slice(), number);
        some(node.after)
    }

    /// Whether the first stands before the second.
    pub(crate) fn is_before(&self, one: u32, other: u32) -> bool
        requires listing { IsListing self.now.nodes.items 0 self.now.first (numbers_in self.now) }
        requires one { Contains (numbers_in self.now) one }
        requires other { Contains (numbers_in self.now) other }
        ensures { IsTrue result ↔ (place_in (numbers_in self.now) one < place_in (numbers_in self.now) other) }
    {
        let low = label_of(self.nodes.as_slice(), one);
        let high = label_of(self.nodes.as_slice(), other);
        low < high
    }

    /// Inserts a new number before another, and returns it: how many there were.
    pub(crate) fn put_before(&mut self, at: u32) -> Result<u32, AllocError>
        requires listing { IsListing self.old.nodes.items 0 self.old.first (numbers_in self.old) }
        requires at { Contains (numbers_in self.old) at }
        requires few { length (numbers_in self.old) + 1 ≤ none }
        ensures number { IfOk result (λ number. number ≡ length (numbers_in self.old)) }
        ensures ok { IfOk result (λ number. IsListing self.new.nodes.items 0 self.new.first (numbers.put_before (numbers_in self.old) at number)) }
        ensures err { OnErr result (IsListing self.new.nodes.items 0 self.new.first (numbers_in self.old)) }
    {
        self.make_room(at);
        let number = self.push_before(at)?;
        Ok(number)
    }

    /// The same where there is a free label between that of `at` and its predecessor's.
    fn push_before(&mut self, at: u32) -> Result<u32, AllocError>
        requires listing { IsListing self.old.nodes.items 0 self.old.first (numbers_in self.old) }
        requires at { at < length self.old.nodes.items }
        requires few { length self.old.nodes.items + 1 ≤ none }
        requires room { (node_of self.old.nodes.items (node_of self.old.nodes.items at).before).label + 1 < (node_of self.old.nodes.items at).label }
        ensures number { IfOk result (λ number. number ≡ length self.old.nodes.items) }
        ensures ok { IfOk result (λ number. IsListing self.new.nodes.items 0 self.new.first (numbers.put_before (numbers_in self.old) at number)) }
        ensures err { OnErr result (IsListing self.new.nodes.items 0 self.new.first (numbers_in self.old)) }
    {
        let node = node_at(self.nodes.as_slice(), at);
        let low = label_of(self.nodes.as_slice(), node.before);
        let label = between(low, node.label);
        let number = self.nodes.len() as u32;
        self.nodes.push(Node {
            label,
            before: node.before,
            after: at,
        })?;
        link_in(self.nodes.as_mut_slice(), at, node.before, number);
        self.first = if_first(node.before, number, self.first);
        Ok(number)
    }
}

/// None where there are no numbers, else the first.
fn if_none(count: u32, first: u32) -> u32
    ensures { result ≡ (if count == 0 then none else first) }
{
    if count == 0 { NONE } else { first }
}

/// The head of the list once a number is inserted behind `before`, which is `NONE` where it becomes the first.
fn if_first(before: u32, number: u32, first: u32) -> u32
    ensures { result ≡ (if before == none then number else first) }
{
    if before == NONE { number } else { first }
}

/// The number, unless it stands for none.
fn some(number: u32) -> Option<u32>
    ensures { result ≡ (if number == none then None else Some number) }
{
    if number == NONE { None } else { Some(number) }
}

/// Links a number in between two neighbours: writes the backward link of `at` and the forward link of `before`.
fn link_in(nodes: &mut [Node], at: u32, before: u32, number: u32)
    requires { at < length nodes.old }
    ensures { nodes.new ≡ linked_in nodes.old at before number }
{
    set_before(nodes, at, number);
    set_after(nodes, before, number);
}

/// A label between two, nearer to the lower one: where the next number is inserted before the same one, it goes above
/// this label and finds more room there.
fn between(low: u64, high: u64) -> u64
    requires { low + 1 < high }
    ensures above { low < result }
    ensures below { result < high }
{
    low + 1 + (high - low - 2) / 4
}

/// The node of a number in a new list of so many, in ascending order.
fn first_node(number: u32, count: u32, gap: u64) -> Node
    requires number { number < count }
    requires gap { (count + 1) * gap ≤ u64.MAX }
    ensures { result ≡ first_node_at count gap number }
{
    Node {
        label: (u64::from(number) + 1) * gap,
        before: if number == 0 { NONE } else { number - 1 },
        after: if number + 1 == count {
            NONE
        } else {
            number + 1
        },
    }
}
