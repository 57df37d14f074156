//! Unit propagation, clause by clause: those in which a literal became false are looked at.

ghost use Rattle.std.specs.Prelude.{◌≡◌, ◌+◌, ◌-◌, ◌<◌, length, All, IfOk, IfSome, IfNone};
ghost use Rattle.std.specs.Bool.{OnTrue, OnFalse};
ghost use Rattle.clauses.specs.Literal.{IsWithin};
ghost use Rattle.clauses.specs.Propagation.{NamesFalse};
ghost use Rattle.clauses.specs.ClauseSet.{all_clauses};
ghost use Rattle.depth_first.specs.TrailEntries.{literals, Grows};
ghost use Rattle.depth_first.specs.Propagated.{IsStatus, AllPropagated, IsPropagatedUpTo, PropagatesClause, PropagatesClauses};
ghost use Rattle.depth_first.specs.OccurrenceLists.{IsIndexOf};

use crate::occurrences::Occurrences;
use crate::trail::{Cause, Entry, Trail};
use clauses::{Cnf, Lit};
use std::alloc::AllocError;

/// What unit propagation has to do at a clause.
enum Status {
    /// Nothing: the clause is satisfied, by a literal that is held, or unresolved, with two different
    /// literals that aren't false.
    Propagated,
    /// The clause is unit: this literal has no value, and all others are false, so it is to be held.
    Forces(Lit),
    /// All literals are false.
    Falsified,
}

/// What unit propagation has to do at the clause, by what the trail holds.
fn status_of(trail: &Trail, clause: &[Lit]) -> Status
    requires { IsWithin (length trail.now.values.items - 1) clause.now }
    ensures { IsStatus (literals trail.now.entries.items) clause.now result }
{
    let mut open = None;
    for &literal in clause {
        if trail.holds(literal) {
            return Status::Propagated;
        }
        if trail.holds(literal.negation()) {
            continue;
        }
        match open {
            Some(other) if other != literal => return Status::Propagated,
            _ => open = Some(literal),
        }
    }
    match open {
        Some(literal) => Status::Forces(literal),
        None => Status::Falsified,
    }
}

/// Propagates the clause of a number: where it is unit, its literal is pushed. The answer is false where all its
/// literals are false, a conflict.
fn propagate_clause(cnf: &Cnf, number: u32, trail: &mut Trail) -> Result<bool, AllocError>
    requires known { number < length (all_clauses cnf.now) }
    requires variables { length trail.old.values.items ≡ cnf.now.count + 1 }
    ensures grows { Grows (all_clauses cnf.now) trail.old.entries.items trail.new.entries.items }
    ensures same_variables { length trail.new.values.items ≡ length trail.old.values.items }
    ensures propagates { IfOk result (λ good. OnTrue good (PropagatesClause (all_clauses cnf.now) number trail.old.entries.items trail.new.entries.items)) }
    ensures falsified { IfOk result (λ good. OnFalse good (NamesFalse (all_clauses cnf.now) (literals trail.new.entries.items) number)) }
{
    match status_of(trail, cnf.clause(number).as_slice()) {
        Status::Propagated => Ok(true),
        Status::Forces(literal) => {
            trail.push(Entry {
                literal,
                cause: Cause::Reason(number),
            })?;
            Ok(true)
        }
        Status::Falsified => Ok(false),
    }
}

/// Propagates the clauses of these numbers in order, up to the first that is false. The answer is its number.
pub(crate) fn propagate_clauses(
    cnf: &Cnf,
    numbers: &[u32],
    trail: &mut Trail,
) -> Result<Option<u32>, AllocError>
    requires known { All (λ n. n < length (all_clauses cnf.now)) numbers.now }
    requires variables { length trail.old.values.items ≡ cnf.now.count + 1 }
    ensures grows { Grows (all_clauses cnf.now) trail.old.entries.items trail.new.entries.items }
    ensures same_variables { length trail.new.values.items ≡ length trail.old.values.items }
    ensures propagates { IfOk result (λ conflict. IfNone conflict (PropagatesClauses (all_clauses cnf.now) numbers.now trail.old.entries.items trail.new.entries.items)) }
    ensures falsified { IfOk result (λ conflict. IfSome conflict (NamesFalse (all_clauses cnf.now) (literals trail.new.entries.items))) }
{
    for &number in numbers {
        if !propagate_clause(cnf, number, trail)? {
            return Ok(Some(number));
        }
    }
    Ok(None)
}

/// Propagates the entries from `head` on, which are the propagation queue, and those that are pushed meanwhile, up to
/// the first clause that is false.
pub(crate) fn propagate(
    cnf: &Cnf,
    occurrences: &Occurrences,
    trail: &mut Trail,
    mut head: usize,
) -> Result<Option<u32>, AllocError>
    requires index { IsIndexOf cnf.now occurrences.now }
    requires variables { length trail.old.values.items ≡ cnf.now.count + 1 }
    requires up_to_head { IsPropagatedUpTo (all_clauses cnf.now) trail.old.entries.items head }
    ensures grows { Grows (all_clauses cnf.now) trail.old.entries.items trail.new.entries.items }
    ensures same_variables { length trail.new.values.items ≡ length trail.old.values.items }
    ensures propagated { IfOk result (λ conflict. IfNone conflict (AllPropagated (all_clauses cnf.now) (literals trail.new.entries.items))) }
    ensures falsified { IfOk result (λ conflict. IfSome conflict (NamesFalse (all_clauses cnf.now) (literals trail.new.entries.items))) }
{
    while head < trail.entries.len() {
        let falsified = trail.entries[head].literal.negation();
        head += 1;
        let conflict = propagate_clauses(cnf, occurrences.of(falsified), trail)?;
        if conflict.is_some() {
            return Ok(conflict);
        }
    }
    Ok(None)
}
