//! Sets of places, by a flag for each number of each block.

ghost use Rattle.std.specs.Prelude.{◌≡◌, ◌<◌, ◌↔◌, ℕ, length, IsTrue, IfOk, OnOk, OnErr};
ghost use Rattle.places.specs.Sets.{AreSameMarks, Has, IsAdded, IsRemoved, IsMarkedIn, IsSameSet};

use crate::place::Place;
use lists::List;
use std::alloc::{AllocError, Global};
use std::marker::Model;

/// A set of places.
#[derive(Drop)]
pub struct Marks {
    /// For each block a row of flags; numbers past its end are not in the set.
    rows: Vec<List<bool>>,
}

impl Model for Marks {
    ghost use Rattle.places.specs.Sets.{Rows};

    ghost Value = { Rows };

    ghost view = { λ m. m.rows.items };
}

impl Marks {
    /// The empty set, over so many blocks.
    pub fn none(alloc: Global, blocks: u32) -> Result<Marks, AllocError>
        ensures blocks { IfOk result (λ marks. length marks ≡ blocks) }
        ensures none { IfOk result (λ marks. (b n : ℕ) → ¬ Has marks b n) }
    {
        let mut rows = Vec::new(alloc);
        for _block in 0..blocks {
            let row = List::new(alloc);
            rows.push(row)?;
        }
        Ok(Marks { rows })
    }

    /// Whether a place is in the set.
    pub fn has(&self, place: Place) -> bool
        requires { place.block < length self.now }
        ensures { IsTrue result ↔ Has self.now place.block place.number }
    {
        match self.rows[place.block as usize]
            .as_slice()
            .get(place.number as usize)
        {
            Some(there) => *there,
            None => false,
        }
    }

    /// Adds a place to the set. Where memory is refused the set is as it was.
    pub fn insert(&mut self, place: Place) -> Result<(), AllocError>
        requires { place.block < length self.old }
        ensures blocks { length self.new ≡ length self.old }
        ensures added { OnOk result (IsAdded self.old self.new place) }
        ensures refused { OnErr result (IsSameSet self.old self.new) }
    {
        mark_in(&mut self.rows[place.block as usize], place.number)
    }

    /// Removes a place from the set.
    pub fn remove(&mut self, place: Place)
        requires { place.block < length self.old }
        ensures blocks { length self.new ≡ length self.old }
        ensures removed { IsRemoved self.old self.new place }
    {
        if self.has(place) {
            *self.rows[place.block as usize].get_mut(place.number as usize) = false;
        }
    }
}

/// Marks a number in a row.
fn mark_in(row: &mut List<bool>, number: u32) -> Result<(), AllocError>
    ensures marked { OnOk result (IsMarkedIn row.old row.new number) }
    ensures refused { OnErr result (AreSameMarks row.old row.new) }
{
    while row.len() <= number as usize {
        row.push(false)?;
    }
    *row.get_mut(number as usize) = true;
    Ok(())
}
