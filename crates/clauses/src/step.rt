//! Derived clauses, and the numbers by which hints name clauses.

ghost use Rattle.std.specs.Prelude.{◌≡◌, slice_get};
ghost use Rattle.std.specs.Option.{option_copied};
ghost use Rattle.clauses.specs.ClauseSet.{clauses_with};

use crate::{Clause, Cnf};
use lists::List;

/// A clause derived by reverse unit propagation (RUP). Clauses are numbered from 0: those of the
/// set first, then those of the steps.
#[derive(Drop)]
pub struct Step {
    /// The clause that is derived.
    pub clause: Clause,
    /// The numbers of the earlier clauses by which unit propagation shows the clause, in the order
    /// of use; the last one is false then.
    pub hints: List<u32>,
}

/// Derived clauses in order, each by unit propagation over the set and the clauses before it.
pub type Log = List<Step>;

/// The clause with this number, of the set or of the steps behind it; `None` where no clause has
/// the number.
pub fn clause_in<'a>(set: &'a Cnf, steps: &'a [Step], number: u32) -> Option<&'a Clause>
    ensures { option_copied result ≡ slice_get (clauses_with set.now steps.now) number }
{
    let count = set.clause_count();
    if number < count {
        return Some(set.clause(number));
    }
    let place = (number - count) as usize;
    if place < steps.len() {
        Some(&steps[place].clause)
    } else {
        None
    }
}
