//! The search itself: propagation, decisions, and at a conflict a learned clause and a flip.

ghost use Rattle.std.specs.Prelude.{◌≡◌, ◌+◌, ◌^◌, ◌<◌, ◌≤◌, ◌↔◌, ℕ, [], Contains, length, IfOk, OnOk, IfSome, IfNone, IsTrue};
ghost use Rattle.clauses.specs.Literal.{IsVariable};
ghost use Rattle.clauses.specs.Propagation.{NamesFalse};
ghost use Rattle.clauses.specs.ClauseSet.{LogFollows, all_clauses, clauses_with};
ghost use Rattle.depth_first.specs.Found.{IsFound, distinct_count, most_conflicts};
ghost use Rattle.depth_first.specs.TrailEntries.{literals, Grows, IsFlipped, IsOpen, IsSet};
ghost use Rattle.depth_first.specs.Propagated.{IsPropagatedUpTo};
ghost use Rattle.depth_first.specs.DepthFirst.{EachCaused, InputsSet, IsNext};
ghost use Rattle.depth_first.specs.Learned.{Learns};
ghost use Rattle.depth_first.specs.OccurrenceLists.{IsIndexOf};

use crate::Found;
use crate::learned::{learned, refutation};
use crate::occurrences::Occurrences;
use crate::propagation::{propagate, propagate_clauses};
use crate::trail::{Cause, Entry, Trail};
use clauses::{Cnf, Lit, Step};
use lists::List;
use std::alloc::{AllocError, Global};

/// Propagates each clause of the set once. The answer is the number of the clause of a conflict, if there is one.
fn propagate_all_clauses(
    alloc: Global,
    cnf: &Cnf,
    trail: &mut Trail,
) -> Result<Option<u32>, AllocError>
    requires variables { length trail.old.values.items ≡ cnf.now.count + 1 }
    ensures grows { Grows (all_clauses cnf.now) trail.old.entries.items trail.new.entries.items }
    ensures same_variables { length trail.new.values.items ≡ length trail.old.values.items }
    ensures up_to_head { IfOk result (λ conflict. IfNone conflict (IsPropagatedUpTo (all_clauses cnf.now) trail.new.entries.items 0)) }
    ensures falsified { IfOk result (λ conflict. IfSome conflict (NamesFalse (all_clauses cnf.now) (literals trail.new.entries.items))) }
{
    let mut numbers = Vec::new(alloc);
    for number in 0..cnf.clause_count() {
        numbers.push(number)?;
    }
    propagate_clauses(cnf, &numbers, trail)
}

/// The first input without a value.
fn open_input(cnf: &Cnf, trail: &Trail) -> Option<u32>
    requires { length trail.now.values.items ≡ cnf.now.count + 1 }
    ensures found { IfSome result (λ n. Contains cnf.now.inputs n × IsOpen (literals trail.now.entries.items) n) }
    ensures none { IfNone result (InputsSet cnf.now (literals trail.now.entries.items)) }
{
    for &variable in cnf.inputs.as_slice() {
        if trail.value(variable).is_none() {
            return Some(variable);
        }
    }
    None
}

/// The first variable without a value.
fn open_variable(cnf: &Cnf, trail: &Trail) -> Option<u32>
    requires { length trail.now.values.items ≡ cnf.now.count + 1 }
    ensures found { IfSome result (λ n. IsVariable cnf.now.count n × IsOpen (literals trail.now.entries.items) n) }
    ensures none { IfNone result ((n : ℕ) → IsVariable cnf.now.count n → IsSet (literals trail.now.entries.items) n) }
{
    for variable in 1..cnf.count + 1 {
        if trail.value(variable).is_none() {
            return Some(variable);
        }
    }
    None
}

/// The next decision: the first variable without a value, inputs before the others, is false.
fn next_decision(cnf: &Cnf, trail: &Trail) -> Option<Entry>
    requires { length trail.now.values.items ≡ cnf.now.count + 1 }
    ensures found { IfSome result (IsNext cnf.now (literals trail.now.entries.items)) }
    ensures none { IfNone result ((n : ℕ) → IsVariable cnf.now.count n → IsSet (literals trail.now.entries.items) n) }
{
    if let Some(variable) = open_input(cnf, trail) {
        return Some(decision(variable, Cause::InputDecision));
    }
    if let Some(variable) = open_variable(cnf, trail) {
        return Some(decision(variable, Cause::NonInputDecision));
    }
    None
}

/// The entry of a variable that is decided to be false.
fn decision(variable: u32, cause: Cause) -> Entry
    requires { variable < 2 ^ 31 }
    ensures variable { result.literal.variable ≡ variable }
    ensures cause { result.cause ≡ cause }
{
    Entry {
        literal: Lit::new(variable, true),
        cause,
    }
}

/// Whether the search may give up at a conflict below this last decision. It may where the decision is on no input: all
/// inputs were set then, and unit propagation didn't determine the rest.
fn may_give_up(last: Entry) -> bool
    ensures { IsTrue result ↔ (last.cause ≡ Cause.NonInputDecision) }
{
    match last.cause {
        Cause::NonInputDecision => true,
        Cause::InputDecision | Cause::Reason(_) => false,
    }
}

/// Learns from the conflict at the clause of a number, and flips the last decision, which stands at `place` of the
/// trail.
fn learn_and_flip(
    alloc: Global,
    cnf: &Cnf,
    log: &mut Vec<Step>,
    trail: &mut Trail,
    conflict: u32,
    place: usize,
) -> Result<(), AllocError>
    requires variables { length trail.old.values.items ≡ cnf.now.count + 1 }
    requires few { length (clauses_with cnf.now log.old.items) < 2 ^ 32 }
    requires follows { LogFollows cnf.now log.old.items }
    requires caused { EachCaused cnf.now log.old.items trail.old.entries.items }
    requires falsified { NamesFalse (clauses_with cnf.now log.old.items) (literals trail.old.entries.items) conflict }
    requires within { place < length trail.old.entries.items }
    ensures same_variables { length trail.new.values.items ≡ length trail.old.values.items }
    ensures learns { OnOk result (Learns cnf.now trail.old.entries.items log.old.items log.new.items) }
    ensures flipped { OnOk result (IsFlipped trail.old.entries.items place (length (clauses_with cnf.now log.old.items)) trail.new.entries.items) }
{
    let number = cnf.clause_count() + log.len() as u32;
    let step = learned(alloc, cnf, log, trail, conflict)?;
    log.push(step)?;
    trail.flip_decision(place, number)?;
    Ok(())
}

/// The loop of the search: propagates, decides, and learns at conflicts. At first the propagation queue is the whole
/// trail, the entries that clauses alone forced.
fn decide_and_flip(
    alloc: Global,
    cnf: &Cnf,
    limit: u32,
    occurrences: &Occurrences,
    trail: &mut Trail,
) -> Result<Found, AllocError>
    requires limit { limit ≤ most_conflicts }
    requires few { distinct_count cnf.now.inputs ≤ 12 }
    requires index { IsIndexOf cnf.now occurrences.now }
    requires variables { length trail.old.values.items ≡ cnf.now.count + 1 }
    requires grown { Grows (all_clauses cnf.now) [] trail.old.entries.items }
    requires up_to_head { IsPropagatedUpTo (all_clauses cnf.now) trail.old.entries.items 0 }
    ensures { IfOk result (IsFound cnf.now limit) }
{
    let mut log = Vec::new(alloc);
    let mut head = 0;
    loop {
        let Some(conflict) = propagate(cnf, occurrences, trail, head)? else {
            let Some(entry) = next_decision(cnf, trail) else {
                return Ok(Found::Sat(trail.assignment(alloc)?));
            };
            head = trail.entries.len();
            trail.push(entry)?;
            continue;
        };
        let Some(place) = trail.last_decision() else {
            return Ok(Found::Unsat(refutation(alloc, cnf, trail, log, conflict)?));
        };
        if log.len() >= limit as usize && may_give_up(trail.entries[place]) {
            log.truncate(limit as usize);
            return Ok(Found::Limit(List::from_vec(log)));
        }
        learn_and_flip(alloc, cnf, &mut log, trail, conflict, place)?;
        head = place;
    }
}

/// Searches with an empty trail.
fn search_in(
    alloc: Global,
    cnf: &Cnf,
    limit: u32,
    occurrences: &Occurrences,
    trail: &mut Trail,
) -> Result<Found, AllocError>
    requires limit { limit ≤ most_conflicts }
    requires few { distinct_count cnf.now.inputs ≤ 12 }
    requires index { IsIndexOf cnf.now occurrences.now }
    requires variables { length trail.old.values.items ≡ cnf.now.count + 1 }
    requires empty { trail.old.entries.items ≡ [] }
    ensures { IfOk result (IsFound cnf.now limit) }
{
    if let Some(conflict) = propagate_all_clauses(alloc, cnf, trail)? {
        let log = Vec::new(alloc);
        return Ok(Found::Unsat(refutation(alloc, cnf, trail, log, conflict)?));
    }
    decide_and_flip(alloc, cnf, limit, occurrences, trail)
}

/// Searches for a model of all clauses, and gives up after `limit` learned clauses. The empty clause that ends a
/// refutation isn't counted. A limit is at most 1,000,000, so that clause numbers fit a `u32`.
///
/// At most twelve different inputs are named. The search goes on past the limit as long as all its decisions are on
/// inputs, so that it gives up on no set in which the inputs determine the rest by unit propagation.
///
/// A decision costs a pass over the variables, and a conflict one over the trail: the learned clause may be as long as
/// that anyway.
///
/// The only error is want of memory.
pub fn search(alloc: Global, cnf: &Cnf, limit: u32) -> Result<Found, AllocError>
    requires limit { limit ≤ most_conflicts }
    requires few { distinct_count cnf.now.inputs ≤ 12 }
    ensures { IfOk result (IsFound cnf.now limit) }
{
    let occurrences = Occurrences::new(alloc, cnf)?;
    let mut trail = Trail::new(alloc, cnf.count)?;
    search_in(alloc, cnf, limit, &occurrences, &mut trail)
}
