//! Watch lists, from which a clause is dropped in constant time.

ghost use Rattle.std.specs.Prelude.{◌≡◌, ◌<◌, ◌⊎◌, [], ◌∷◌, ◌++◌, Some, length, slice_get, OnOk, Contains};
ghost use Rattle.std.specs.List.{swap_remove};

use clauses::Lit;
use std::alloc::{AllocError, Global};
use std::marker::Model;

/// A clause in the watch list of a literal.
#[derive(Clone, Copy)]
pub(crate) struct Watcher {
    /// The number of the clause.
    pub(crate) number: u32,
    /// Another literal of the clause: where it is held, the clause is satisfied, and nothing is to
    /// be done (MiniSat).
    pub(crate) blocker: Lit,
}

/// The watch list of a literal: the clauses that are to be looked at when it becomes false.
#[derive(Drop)]
pub(crate) struct Watchers {
    items: Vec<Watcher>,
}

impl Model for Watchers {
    ghost use Rattle.std.specs.Prelude.{List};
    ghost use Rattle.first_uip.specs.declared.watchers.Watcher.{Watcher};

    ghost Value = { List Watcher };

    ghost view = { λ w. w.items.items };
}

impl Watchers {
    ghost use Rattle.first_uip.specs.declared.watchers.Watcher.{Watcher};
    ghost use Rattle.first_uip.specs.Clauses.{numbers_in};

    /// No clauses.
    pub(crate) fn new(alloc: Global) -> Watchers
        ensures { result ≡ [] }
    {
        Watchers {
            items: Vec::new(alloc),
        }
    }

    /// The clauses in order.
    pub(crate) fn as_slice(&self) -> &[Watcher]
        ensures { result.now ≡ self.now }
    {
        self.items.as_slice()
    }

    /// Adds a clause at the end.
    pub(crate) fn push(&mut self, watcher: Watcher) -> Result<(), AllocError>
        ensures { OnOk result (self.new ≡ self.old ++ watcher ∷ []) }
    {
        self.items.push(watcher)?;
        Ok(())
    }

    /// Drops the clause at a place; the last one of the list comes to that place.
    pub(crate) fn drop_at(&mut self, place: usize)
        requires { place < length self.old }
        ensures numbers { numbers_in self.new ≡ swap_remove (numbers_in self.old) place 0 }
        ensures only { (w : Watcher) → Contains self.new w → Contains self.old w }
    {
        let _ = self.items.swap_remove(place);
    }

    /// Gives the clause at a place another blocker.
    pub(crate) fn block_at(&mut self, place: usize, blocker: Lit)
        requires { place < length self.old }
        ensures numbers { numbers_in self.new ≡ numbers_in self.old }
        ensures only { (w : Watcher) → Contains self.new w → Contains self.old w ⊎ ((slice_get (numbers_in self.old) place ≡ Some w.number) × (w.blocker ≡ blocker)) }
    {
        self.items[place].blocker = blocker;
    }
}
