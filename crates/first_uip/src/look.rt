//! Looking at a clause of which a watched literal became false.

ghost use Rattle.std.specs.Prelude.{◌≡◌, ◌≢◌, ◌-◌, ◌<◌, true, false, length, All, IfOk, IfSome, IfNone, MatchOption};
ghost use Rattle.clauses.specs.Literal.{IsWithin, VariablesWithin};
ghost use Rattle.clauses.specs.Propagation.{is_held, is_false};
ghost use Rattle.depth_first.specs.TrailEntries.{literals, Grows};
ghost use Rattle.first_uip.specs.Clauses.{clauses_in, watched_in};
ghost use Rattle.first_uip.specs.Watching.{CoversBelow, EachBlocked, EachIsWatch, IsListed, watched_literals, numbers_of};
ghost use Rattle.first_uip.specs.Looks.{WatchesBoth, IsLook};

use crate::arena::Watched;
use crate::watches::Watches;
use clauses::Lit;
use depth_first::{Cause, Entry, Trail};
use std::alloc::AllocError;

/// What looking at a clause came to.
pub(crate) enum Look {
    /// It stays in the watch list of the literal: its other watched literal, this one, is held.
    Stays(Lit),
    /// It is dropped from the watch list: it doesn't watch the literal.
    Leaves,
    /// All its literals are false: a conflict.
    Falsified,
}

/// A literal of the clause that isn't false, other than the watched one that is given.
fn other_open(trail: &Trail, clause: &[Lit], other: Lit) -> Option<Lit>
    requires { IsWithin (length trail.now.values.items - 1) clause.now }
    ensures stands { IfSome result (λ l. is_held clause.now l ≡ true) }
    ensures differs { IfSome result (λ l. l ≢ other) }
    ensures not_false { IfSome result (λ l. is_false (literals trail.now.entries.items) l ≡ false) }
    ensures none { IfNone result (All (λ l. l ≢ other → is_false (literals trail.now.entries.items) l ≡ true) clause.now) }
{
    for &literal in clause {
        if literal != other && !trail.holds(literal.negation()) {
            return Some(literal);
        }
    }
    None
}

/// The other literal that a clause watches beside this one, if it watches this one.
fn watched_beside(watched: Watched, literal: Lit) -> Option<Lit>
    ensures { MatchOption result (is_held (watched_literals watched) literal ≡ false) (WatchesBoth watched literal) }
{
    match watched {
        Watched::Alone => None,
        Watched::Two(first, second) => {
            let (one, other) = if first == literal {
                (first, second)
            } else {
                (second, first)
            };
            if one == literal { Some(other) } else { None }
        }
    }
}

/// Looks at the clause of a number, which is in the watch list of this literal, which became false: it is satisfied by
/// its other watched literal, watches another literal in place of this one, is unit and forces its other watched
/// literal, or all its literals are false.
pub(crate) fn look_at(
    watches: &mut Watches,
    trail: &mut Trail,
    number: u32,
    falsified: Lit,
) -> Result<Look, AllocError>
    requires covers { CoversBelow (length trail.old.values.items) watches.old }
    requires variables { VariablesWithin (length trail.old.values.items - 1) (clauses_in watches.old.arena) }
    requires count { length (watched_in watches.old.arena) ≡ length (clauses_in watches.old.arena) }
    requires each { EachIsWatch (clauses_in watches.old.arena) (watched_in watches.old.arena) }
    requires listed { IsListed watches.old }
    requires blocked { EachBlocked (clauses_in watches.old.arena) watches.old }
    requires known { number < length (watched_in watches.old.arena) }
    requires falsified { is_false (literals trail.old.entries.items) falsified ≡ true }
    ensures same_variables { length trail.new.values.items ≡ length trail.old.values.items }
    ensures same_clauses { clauses_in watches.new.arena ≡ clauses_in watches.old.arena }
    ensures covers { CoversBelow (length trail.old.values.items) watches.new }
    ensures grows { Grows (clauses_in watches.old.arena) trail.old.entries.items trail.new.entries.items }
    ensures look { IfOk result (IsLook (clauses_in watches.old.arena) (watched_in watches.old.arena) (watched_in watches.new.arena) trail.old.entries.items trail.new.entries.items number falsified) }
    ensures listed { IfOk result (λ _. IsListed watches.new) }
    ensures blocked { IfOk result (λ _. EachBlocked (clauses_in watches.old.arena) watches.new) }
    ensures same_numbers { IfOk result (λ _. numbers_of watches.new falsified ≡ numbers_of watches.old falsified) }
{
    let Some(other) = watched_beside(watches.arena.watched(number), falsified) else {
        return Ok(Look::Leaves);
    };
    if trail.holds(other) {
        return Ok(Look::Stays(other));
    }
    if let Some(open) = other_open(trail, watches.arena.clause(number), other) {
        watches.rewatch(number, open, other)?;
        return Ok(Look::Leaves);
    }
    if trail.holds(other.negation()) {
        return Ok(Look::Falsified);
    }
    trail.push(Entry {
        literal: other,
        cause: Cause::Reason(number),
    })?;
    Ok(Look::Stays(other))
}
