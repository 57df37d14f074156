//! Two watched literals a clause, and for each literal a watch list (Chaff).

ghost use Rattle.std.specs.Prelude.{◌≡◌, [], replicate, IfOk};

use crate::arena::{Arena, Watched};
use crate::watchers::{Watcher, Watchers};
use clauses::Lit;
use depth_first::code_of;
use std::alloc::{AllocError, Global};

/// The clauses with the literals that each watches, and the watch lists. A clause may still be in the watch list of a
/// literal that it doesn't watch any more.
#[derive(Drop)]
pub(crate) struct Watches {
    pub(crate) arena: Arena,
    /// The watch lists, by the codes of the literals.
    lists: Vec<Watchers>,
}

impl Watches {
    ghost use Rattle.std.specs.Prelude.{◌≡◌, ◌≢◌, ◌+◌, ◌<◌, ◌^◌, ◌++◌, ◌∷◌, [], Some, true, false, length, slice_get, slice_set, All, IfOk, OnOk};
    ghost use Rattle.std.specs.List.{swap_remove};
    ghost use Rattle.clauses.specs.Literal.{Lit, code_of, is_same};
    ghost use Rattle.clauses.specs.Propagation.{is_held};
    ghost use Rattle.first_uip.specs.declared.arena.Watched.TheVariants.{Two};
    ghost use Rattle.first_uip.specs.Clauses.{IsPair, clauses_in, watched_in};
    ghost use Rattle.first_uip.specs.Watching.{numbers_of, watchers_of, watched_literals, CoversBelow, AddsNumber, AddsNumbers, KeepsOnly};

    /// No clauses, over the variables from 1 to `count`.
    pub(crate) fn new(alloc: Global, count: u32) -> Result<Watches, AllocError>
        ensures covers { IfOk result (CoversBelow (count + 1)) }
        ensures none { IfOk result (λ watches. (l : Lit) → watchers_of watches l ≡ []) }
        ensures clauses { IfOk result (λ watches. clauses_in watches.arena ≡ []) }
        ensures watched { IfOk result (λ watches. watched_in watches.arena ≡ []) }
    {
        Ok(Watches {
            arena: Arena::new(alloc),
            lists: no_watchers(alloc, 2 * (count as usize + 1))?,
        })
    }

    /// The watch list of a literal: the clauses to look at when it becomes false.
    pub(crate) fn of(&self, literal: Lit) -> &[Watcher]
        requires { code_of literal < length self.now.lists.items }
        ensures { result.now ≡ watchers_of self.now literal }
    {
        self.lists[code_of(literal)].as_slice()
    }

    /// Adds the next clause with the literals that it watches, to whose watch lists it is added.
    pub(crate) fn add(&mut self, clause: &[Lit], watched: Watched) -> Result<(), AllocError>
        requires within { All (λ l. code_of l < length self.old.lists.items) (watched_literals watched) }
        requires pair { IsPair watched }
        requires few { length (watched_in self.old.arena) < 2 ^ 32 }
        ensures count { length self.new.lists.items ≡ length self.old.lists.items }
        ensures clauses { OnOk result (clauses_in self.new.arena ≡ clauses_in self.old.arena ++ clause.now ∷ []) }
        ensures watched { OnOk result (watched_in self.new.arena ≡ watched_in self.old.arena ++ watched ∷ []) }
        ensures listed { OnOk result (AddsNumbers self.old self.new (watched_literals watched) (length (watched_in self.old.arena))) }
        ensures only { OnOk result (KeepsOnly self.old self.new (λ w. (w.number ≡ length (watched_in self.old.arena)) × (is_held (watched_literals watched) w.blocker ≡ true))) }
    {
        let number = self.arena.len() as u32;
        if let Watched::Two(first, second) = watched {
            self.add_number(first, number, second)?;
            self.add_number(second, number, first)?;
        }
        self.arena.push(clause, watched)?;
        Ok(())
    }

    /// The clause of a number watches these two literals, of which the first is new, and is added to the watch list of
    /// that.
    pub(crate) fn rewatch(&mut self, number: u32, new: Lit, other: Lit) -> Result<(), AllocError>
        requires within { code_of new < length self.old.lists.items }
        requires known { number < length (watched_in self.old.arena) }
        requires differ { new ≢ other }
        ensures count { length self.new.lists.items ≡ length self.old.lists.items }
        ensures clauses { clauses_in self.new.arena ≡ clauses_in self.old.arena }
        ensures watched { OnOk result (watched_in self.new.arena ≡ slice_set (watched_in self.old.arena) number (Watched.Two new other)) }
        ensures adds { OnOk result (AddsNumber self.old self.new new number) }
        ensures only { OnOk result (KeepsOnly self.old self.new (λ w. (w.number ≡ number) × (w.blocker ≡ other))) }
    {
        self.add_number(new, number, other)?;
        self.arena.rewatch(number, new, other);
        Ok(())
    }

    /// Adds a clause, with another literal of it as its blocker, to the watch list of a literal.
    fn add_number(&mut self, literal: Lit, number: u32, blocker: Lit) -> Result<(), AllocError>
        requires within { code_of literal < length self.old.lists.items }
        ensures count { length self.new.lists.items ≡ length self.old.lists.items }
        ensures arena { self.new.arena ≡ self.old.arena }
        ensures adds { OnOk result (AddsNumber self.old self.new literal number) }
        ensures only { OnOk result (KeepsOnly self.old self.new (λ w. (w.number ≡ number) × (w.blocker ≡ blocker))) }
    {
        self.lists[code_of(literal)].push(Watcher { number, blocker })
    }

    /// Drops the clause at a place of a literal's watch list; the last one of the list comes to that place.
    pub(crate) fn drop_number(&mut self, literal: Lit, place: usize)
        requires within { code_of literal < length self.old.lists.items }
        requires place { place < length (numbers_of self.old literal) }
        ensures count { length self.new.lists.items ≡ length self.old.lists.items }
        ensures arena { self.new.arena ≡ self.old.arena }
        ensures here { numbers_of self.new literal ≡ swap_remove (numbers_of self.old literal) place 0 }
        ensures others { (m : Lit) → is_same m literal ≡ false → numbers_of self.new m ≡ numbers_of self.old m }
        ensures only { KeepsOnly self.old self.new (λ w. ⊥) }
    {
        self.lists[code_of(literal)].drop_at(place);
    }

    /// Gives the clause at a place of a literal's watch list another blocker.
    pub(crate) fn block(&mut self, literal: Lit, place: usize, blocker: Lit)
        requires within { code_of literal < length self.old.lists.items }
        requires place { place < length (numbers_of self.old literal) }
        ensures count { length self.new.lists.items ≡ length self.old.lists.items }
        ensures arena { self.new.arena ≡ self.old.arena }
        ensures numbers { (m : Lit) → numbers_of self.new m ≡ numbers_of self.old m }
        ensures only { KeepsOnly self.old self.new (λ w. (slice_get (numbers_of self.old literal) place ≡ Some w.number) × (w.blocker ≡ blocker)) }
    {
        self.lists[code_of(literal)].block_at(place, blocker);
    }
}

/// So many empty watch lists.
fn no_watchers(alloc: Global, count: usize) -> Result<Vec<Watchers>, AllocError>
    ensures { IfOk result (λ lists. lists.items ≡ replicate count []) }
{
    let mut lists = Vec::new(alloc);
    for _i in 0..count {
        lists.push(Watchers::new(alloc))?;
    }
    Ok(lists)
}
