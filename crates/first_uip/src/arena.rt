//! All clauses, given and learned, in one arena: their literals one after another, and which two of them each watches.

ghost use Rattle.std.specs.Prelude.{◌≤◌, All, length};

use clauses::Lit;
use std::alloc::{AllocError, Global};

/// The literals that a clause watches.
#[derive(Clone, Copy)]
pub(crate) enum Watched {
    /// None: the clause has only one literal, and that is held before any decision.
    Alone,
    /// Two different literals of the clause.
    Two(Lit, Lit),
}

/// A clause of the arena: the two literals that it watches, the same one twice where it watches none, and where its
/// literals begin and end.
#[derive(Clone, Copy)]
pub(crate) struct Header {
    first: Lit,
    second: Lit,
    start: u32,
    end: u32,
}

/// Clauses by number.
#[derive(Drop)]
pub(crate) struct Arena {
    literals: Vec<Lit>,
    headers: Vec<Header>,
    ghost bounds: { All (λ h. (h.start ≤ h.end) × (h.end ≤ length literals.items)) headers.items },
}

impl Arena {
    ghost use Rattle.std.specs.Prelude.{◌≡◌, ◌≢◌, ◌<◌, ◌++◌, ◌∷◌, [], Some, length, slice_get, slice_set, OnOk};
    ghost use Rattle.first_uip.specs.Clauses.{IsPair, clauses_in, watched_in};

    /// No clauses.
    pub(crate) fn new(alloc: Global) -> Arena
        ensures clauses { clauses_in result ≡ [] }
        ensures watched { watched_in result ≡ [] }
    {
        Arena {
            literals: Vec::new(alloc),
            headers: Vec::new(alloc),
        }
    }

    /// How many clauses there are.
    pub(crate) fn len(&self) -> usize
        ensures clauses { result ≡ length (clauses_in self.now) }
        ensures watched { result ≡ length (watched_in self.now) }
    {
        self.headers.len()
    }

    /// The literals of the clause of a number.
    pub(crate) fn clause(&self, number: u32) -> &[Lit]
        requires { number < length (watched_in self.now) }
        ensures { slice_get (clauses_in self.now) number ≡ Some result.now }
    {
        let header = self.headers[number as usize];
        &self.literals[header.start as usize..header.end as usize]
    }

    /// What the clause of a number watches.
    pub(crate) fn watched(&self, number: u32) -> Watched
        requires { number < length (watched_in self.now) }
        ensures { slice_get (watched_in self.now) number ≡ Some result }
    {
        let header = self.headers[number as usize];
        if header.first == header.second {
            Watched::Alone
        } else {
            Watched::Two(header.first, header.second)
        }
    }

    /// Adds the next clause with the literals that it watches. There is memory for less than 2^32 literals.
    pub(crate) fn push(&mut self, clause: &[Lit], watched: Watched) -> Result<(), AllocError>
        requires { IsPair watched }
        ensures clauses { OnOk result (clauses_in self.new ≡ clauses_in self.old ++ clause.now ∷ []) }
        ensures watched { OnOk result (watched_in self.new ≡ watched_in self.old ++ watched ∷ []) }
    {
        let Ok(start) = u32::try_from(self.literals.len()) else {
            return Err(AllocError);
        };
        self.literals.extend_from_slice(clause)?;
        let Ok(end) = u32::try_from(self.literals.len()) else {
            return Err(AllocError);
        };
        let (first, second) = match watched {
            Watched::Alone => (Lit::default(), Lit::default()),
            Watched::Two(first, second) => (first, second),
        };
        self.headers.push(Header {
            first,
            second,
            start,
            end,
        })?;
        Ok(())
    }

    /// The clause of a number watches these two literals from now on.
    pub(crate) fn rewatch(&mut self, number: u32, first: Lit, second: Lit)
        requires known { number < length (watched_in self.old) }
        requires differ { first ≢ second }
        ensures clauses { clauses_in self.new ≡ clauses_in self.old }
        ensures watched { watched_in self.new ≡ slice_set (watched_in self.old) number (Watched.Two first second) }
    {
        let header = &mut self.headers[number as usize];
        header.first = first;
        header.second = second;
    }
}
