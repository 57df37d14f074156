//! The use lists of a draft.

ghost use Rattle.std.specs.Prelude.{◌≡◌, ◌↔◌, Contains, IsTrue};
ghost use Rattle.ir_core.specs.Checks.{IsKnown};
ghost use Rattle.ir_core.specs.declared.operand.Register.{Register as Named};
ghost use Rattle.readers.specs.Readers.{IsReader, IsPlaceIn, listed_for};
ghost use Rattle.draft.specs.Whole.{IsWhole};
ghost use Rattle.places.specs.declared.place.Place.{Place as Spot};

use crate::draft::Draft;
use ir_core::{Operand, Register};
use lists::List;
use places::Place;
use readers::{readers_among, reads};
use std::alloc::Global;

impl Draft {
    /// Whether the instruction or terminator at a place reads the register.
    pub fn reads(&self, place: Place, register: Register) -> bool
        requires { IsWhole self.now }
        ensures { IsTrue result ↔ IsReader self.now.arena register place }
    {
        reads(&self.arena, place, register)
    }

    /// Trims a register's use list: what ceased to read the register is dropped, so the list has exactly the places
    /// that read it. All else of the draft stays.
    pub fn trim_readers(&mut self, alloc: Global, register: Register)
        requires whole { IsWhole self.old }
        requires known { IsKnown self.old.arena (Operand.Register register) }
        ensures whole { IsWhole self.new }
        ensures arena { self.new.arena ≡ self.old.arena }
        ensures orders { self.new.orders.items ≡ self.old.orders.items }
        ensures stand { self.new.stand.items ≡ self.old.stand.items }
        ensures dead_candidates { self.new.dead_candidates.items ≡ self.old.dead_candidates.items }
        ensures facts { self.new.facts ≡ self.old.facts }
        ensures others { (r : Named) → ¬ (r ≡ register) → listed_for self.new.readers r ≡ listed_for self.old.readers r }
        ensures exact { (p : Spot) → Contains (listed_for self.new.readers register) p
            ↔ (IsPlaceIn self.new.arena p × IsReader self.new.arena register p) }
    {
        let listed = self.readers.exchange(register, List::new(alloc));
        let listed = readers_among(&self.arena, listed, register);
        let _ = self.readers.exchange(register, listed);
    }

    /// A register's use list: all places that read it, and no others once it is trimmed.
    pub fn readers_of(&self, register: Register) -> &[Place]
        requires whole { IsWhole self.now }
        requires known { IsKnown self.now.arena (Operand.Register register) }
        ensures listed { result.now ≡ listed_for self.now.readers register }
        ensures readers { (p : Spot) → IsPlaceIn self.now.arena p → IsReader self.now.arena register p → Contains result.now p }
        ensures places { (p : Spot) → Contains result.now p → IsPlaceIn self.now.arena p }
    {
        match register {
            Register::Parameter(k) => self.readers.parameters.as_slice()[k as usize].as_slice(),
            Register::Result(block, number) => {
                self.readers.results[block as usize].as_slice()[number as usize].as_slice()
            }
        }
    }
}
