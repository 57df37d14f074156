//! The clauses of the set are added to the arena, before any decision.

ghost use Rattle.std.specs.Prelude.{◌≡◌, ◌+◌, ◌<◌, [], length, take, slice_get, IfOk, IfSome, IfNone};
ghost use Rattle.std.specs.Bool.{OnTrue, OnFalse};
ghost use Rattle.clauses.specs.Propagation.{NamesFalse};
ghost use Rattle.clauses.specs.ClauseSet.{all_clauses};
ghost use Rattle.depth_first.specs.TrailEntries.{literals, Grows};
ghost use Rattle.first_uip.specs.Watching.{CoversBelow, IsWatchingUpTo};
ghost use Rattle.first_uip.specs.Shapes.{IsShape};

use crate::arena::Watched;
use crate::watches::Watches;
use clauses::{Cnf, Lit};
use depth_first::{Cause, Entry, Trail};
use std::alloc::AllocError;

/// How many different literals a clause has, as far as watching asks.
#[derive(Clone, Copy)]
pub(crate) enum Shape {
    Empty,
    One(Lit),
    /// Two different literals of several.
    Several(Lit, Lit),
}

/// How many different literals the clause has: none, one or several.
fn shape_of(clause: &[Lit]) -> Shape
    ensures { IsShape clause.now result }
{
    let mut first = None;
    for &literal in clause {
        match first {
            None => first = Some(literal),
            Some(other) => {
                if other != literal {
                    return Shape::Several(other, literal);
                }
            }
        }
    }
    match first {
        None => Shape::Empty,
        Some(literal) => Shape::One(literal),
    }
}

/// Adds the clause of a number to the arena. The literal of a clause with only one is held. The answer is false where
/// all literals of the clause are false.
fn add_clause(
    cnf: &Cnf,
    number: u32,
    watches: &mut Watches,
    trail: &mut Trail,
) -> Result<bool, AllocError>
    requires known { number < length (all_clauses cnf.now) }
    requires variables { length trail.old.values.items ≡ cnf.now.count + 1 }
    requires covers { CoversBelow (cnf.now.count + 1) watches.old }
    requires grown { Grows (all_clauses cnf.now) [] trail.old.entries.items }
    requires watching { IsWatchingUpTo (take number (all_clauses cnf.now)) watches.old trail.old.entries.items 0 }
    ensures same_variables { length trail.new.values.items ≡ length trail.old.values.items }
    ensures covers { CoversBelow (cnf.now.count + 1) watches.new }
    ensures grown { Grows (all_clauses cnf.now) [] trail.new.entries.items }
    ensures watching { IfOk result (λ good. OnTrue good (IsWatchingUpTo (take (number + 1) (all_clauses cnf.now)) watches.new trail.new.entries.items 0)) }
    ensures falsified { IfOk result (λ good. OnFalse good (NamesFalse (all_clauses cnf.now) (literals trail.new.entries.items) number)) }
{
    let clause = cnf.clause(number).as_slice();
    match shape_of(clause) {
        Shape::Empty => Ok(false),
        Shape::Several(first, second) => {
            watches.add(clause, Watched::Two(first, second))?;
            Ok(true)
        }
        Shape::One(literal) => hold(cnf, number, literal, watches, trail),
    }
}

/// Adds the clause of a number, which has this literal and no other one, and holds the literal. The answer is false
/// where the literal is false.
fn hold(
    cnf: &Cnf,
    number: u32,
    literal: Lit,
    watches: &mut Watches,
    trail: &mut Trail,
) -> Result<bool, AllocError>
    requires alone { IfSome (slice_get (all_clauses cnf.now) number) (λ clause. IsShape clause (Shape.One literal)) }
    requires known { number < length (all_clauses cnf.now) }
    requires variables { length trail.old.values.items ≡ cnf.now.count + 1 }
    requires covers { CoversBelow (cnf.now.count + 1) watches.old }
    requires grown { Grows (all_clauses cnf.now) [] trail.old.entries.items }
    requires watching { IsWatchingUpTo (take number (all_clauses cnf.now)) watches.old trail.old.entries.items 0 }
    ensures same_variables { length trail.new.values.items ≡ length trail.old.values.items }
    ensures covers { CoversBelow (cnf.now.count + 1) watches.new }
    ensures grown { Grows (all_clauses cnf.now) [] trail.new.entries.items }
    ensures watching { IfOk result (λ good. OnTrue good (IsWatchingUpTo (take (number + 1) (all_clauses cnf.now)) watches.new trail.new.entries.items 0)) }
    ensures falsified { IfOk result (λ good. OnFalse good (NamesFalse (all_clauses cnf.now) (literals trail.new.entries.items) number)) }
{
    if trail.holds(literal.negation()) {
        return Ok(false);
    }
    watches.add(cnf.clause(number).as_slice(), Watched::Alone)?;
    if !trail.holds(literal) {
        trail.push(Entry {
            literal,
            cause: Cause::Reason(number),
        })?;
    }
    Ok(true)
}

/// Adds all clauses of the set, up to the first that is false. The answer is its number.
pub(crate) fn add_clauses(
    cnf: &Cnf,
    watches: &mut Watches,
    trail: &mut Trail,
) -> Result<Option<u32>, AllocError>
    requires variables { length trail.old.values.items ≡ cnf.now.count + 1 }
    requires covers { CoversBelow (cnf.now.count + 1) watches.old }
    requires grown { Grows (all_clauses cnf.now) [] trail.old.entries.items }
    requires watching { IsWatchingUpTo [] watches.old trail.old.entries.items 0 }
    ensures same_variables { length trail.new.values.items ≡ length trail.old.values.items }
    ensures covers { CoversBelow (cnf.now.count + 1) watches.new }
    ensures grown { Grows (all_clauses cnf.now) [] trail.new.entries.items }
    ensures watching { IfOk result (λ conflict. IfNone conflict (IsWatchingUpTo (all_clauses cnf.now) watches.new trail.new.entries.items 0)) }
    ensures falsified { IfOk result (λ conflict. IfSome conflict (NamesFalse (all_clauses cnf.now) (literals trail.new.entries.items))) }
{
    for number in 0..cnf.clause_count() {
        if !add_clause(cnf, number, watches, trail)? {
            return Ok(Some(number));
        }
    }
    Ok(None)
}
