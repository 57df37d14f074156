//! The search by conflict-driven clause learning (CDCL).

ghost use Rattle.std.specs.Prelude.{◌≡◌, ◌+◌, ◌^◌, ◌<◌, ◌≤◌, [], length, take, IfOk, MatchOption, OnOk};
ghost use Rattle.clauses.specs.ClauseSet.{IsNew, StepFollows, all_clauses, clauses_with};
ghost use Rattle.clauses.specs.Propagation.{NamesFalse};
ghost use Rattle.depth_first.specs.Found.{IsFound, distinct_count, most_conflicts};
ghost use Rattle.depth_first.specs.DepthFirst.{IsLearned};
ghost use Rattle.depth_first.specs.TrailEntries.{EachForced, Grows, literals};
ghost use Rattle.first_uip.specs.Watching.{CoversBelow, IsWatching, IsWatchingUpTo};
ghost use Rattle.first_uip.specs.Conflict.{DecidedAt, IsAsserting, IsLastLevel, IsOther};
ghost use Rattle.first_uip.specs.Marks.{IsPlaced};
ghost use Rattle.first_uip.specs.Searching.{IsSearching};
ghost use Rattle.first_uip.specs.Shown.{VariablesBelow};

use crate::analysis::{Learned, analyse, last_decision};
use crate::arena::Watched;
use crate::blocks::note_places;
use crate::policy::Policy;
use crate::propagation::propagate;
use crate::restarts::levels_of;
use crate::start::add_clauses;
use crate::watches::Watches;
use clauses::{Cnf, Lit, Step};
use depth_first::{Cause, Entry, Found, Trail, refutation};
use lists::List;
use std::alloc::{AllocError, Global};

/// What a learned clause watches: the asserting literal and another one, or nothing where it has no other.
fn watch_of(asserted: Lit, other: Option<Lit>) -> Watched
    ensures { MatchOption other (result ≡ Watched.Alone) (λ l. result ≡ Watched.Two asserted l) }
{
    match other {
        None => Watched::Alone,
        Some(other) => Watched::Two(asserted, other),
    }
}

/// Pops all entries from the decision at a place on, and adds what was learned. If that is the place of the backjump,
/// the clause is unit then, and its asserting literal is pushed.
fn learn(
    cnf: &Cnf,
    log: &mut Vec<Step>,
    watches: &mut Watches,
    trail: &mut Trail,
    learned: Learned,
    place: usize,
) -> Result<(), AllocError>
    requires variables { length trail.old.values.items ≡ cnf.now.count + 1 }
    requires covers { CoversBelow (cnf.now.count + 1) watches.old }
    requires few { length (clauses_with cnf.now log.old.items) < 2 ^ 32 }
    requires log_learned { IsLearned cnf.now log.old.items }
    requires forced { EachForced (clauses_with cnf.now log.old.items) trail.old.entries.items }
    requires watching { IsWatching (clauses_with cnf.now log.old.items) watches.old trail.old.entries.items }
    requires follows { StepFollows cnf.now (clauses_with cnf.now log.old.items) learned.step }
    requires new { IsNew (clauses_with cnf.now log.old.items) learned.step.clause }
    requires not_empty { learned.step.clause ≡ [] → ⊥ }
    requires asserting { IsAsserting trail.old.entries.items learned.jump learned.step.clause learned.asserted }
    requires other { IsOther trail.old.entries.items learned.jump learned.step.clause learned.asserted learned.other }
    requires decided { DecidedAt trail.old.entries.items place }
    requires within { place ≤ learned.jump }
    ensures same_variables { length trail.new.values.items ≡ length trail.old.values.items }
    ensures covers { CoversBelow (cnf.now.count + 1) watches.new }
    ensures kept { OnOk result (take place trail.new.entries.items ≡ take place trail.old.entries.items) }
    ensures longer { OnOk result (length log.new.items ≡ length log.old.items + 1) }
    ensures log_learned { OnOk result (IsLearned cnf.now log.new.items) }
    ensures forced { OnOk result (EachForced (clauses_with cnf.now log.new.items) trail.new.entries.items) }
    ensures watching { OnOk result (IsWatchingUpTo (clauses_with cnf.now log.new.items) watches.new trail.new.entries.items place) }
{
    let Learned {
        step,
        asserted,
        other,
        jump,
    } = learned;
    let number = watches.arena.len() as u32;
    trail.cut(place);
    watches.add(step.clause.as_slice(), watch_of(asserted, other))?;
    log.push(step)?;
    if place == jump {
        trail.push(Entry {
            literal: asserted,
            cause: Cause::Reason(number),
        })?;
    }
    Ok(())
}

/// The place of the decision to which the search goes back once it has learned a clause that spans so many levels:
/// `jump`, the place of the backjump, or an earlier one at a restart.
fn place_after(
    policy: &mut Policy,
    trail: &Trail,
    places: &[usize],
    shown: &[Entry],
    spanned: u32,
    jump: usize,
) -> Result<usize, AllocError>
    requires variables { length trail.now.values.items ≡ length policy.old.negated.items }
    requires places { length places.now ≡ length policy.old.negated.items }
    requires shown { VariablesBelow (length policy.old.negated.items) shown.now }
    requires decided { DecidedAt trail.now.entries.items jump }
    ensures sizes { length policy.new.negated.items ≡ length policy.old.negated.items }
    ensures decided { IfOk result (DecidedAt trail.now.entries.items) }
    ensures within { IfOk result (λ place. place ≤ jump) }
{
    if !policy.count_conflict(shown, spanned) {
        policy.release(trail, jump)?;
        return Ok(jump);
    }
    let place = policy.restart_place(trail, places, jump)?;
    policy.release(trail, place)?;
    Ok(place)
}

/// Learns from the conflict at a clause, where the last level begins at `start`, and goes back to the place of a
/// decision. The entries from there on are the propagation queue.
fn learn_from(
    alloc: Global,
    cnf: &Cnf,
    log: &mut Vec<Step>,
    watches: &mut Watches,
    trail: &mut Trail,
    policy: &mut Policy,
    places: &[usize],
    levels: &[u32],
    conflict: u32,
    start: usize,
) -> Result<usize, AllocError>
    requires variables { length trail.old.values.items ≡ cnf.now.count + 1 }
    requires covers { CoversBelow (cnf.now.count + 1) watches.old }
    requires few { length (clauses_with cnf.now log.old.items) < 2 ^ 32 }
    requires log_learned { IsLearned cnf.now log.old.items }
    requires forced { EachForced (clauses_with cnf.now log.old.items) trail.old.entries.items }
    requires watching { IsWatching (clauses_with cnf.now log.old.items) watches.old trail.old.entries.items }
    requires sizes { length policy.old.negated.items ≡ cnf.now.count + 1 }
    requires places { length places.now ≡ cnf.now.count + 1 }
    requires placed { IsPlaced places.now trail.old.entries.items (length trail.old.entries.items) }
    requires falsified { NamesFalse (clauses_with cnf.now log.old.items) (literals trail.old.entries.items) conflict }
    requires last { IsLastLevel trail.old.entries.items start }
    ensures same_variables { length trail.new.values.items ≡ length trail.old.values.items }
    ensures covers { CoversBelow (cnf.now.count + 1) watches.new }
    ensures sizes { length policy.new.negated.items ≡ length policy.old.negated.items }
    ensures decided { IfOk result (DecidedAt trail.old.entries.items) }
    ensures kept { IfOk result (λ place. take place trail.new.entries.items ≡ take place trail.old.entries.items) }
    ensures longer { OnOk result (length log.new.items ≡ length log.old.items + 1) }
    ensures state { IfOk result (IsSearching cnf.now log.new.items watches.new trail.new.entries.items) }
{
    let (learned, shown) = analyse(alloc, cnf, log, trail, places, conflict, start)?;
    let spanned = levels_of(learned.step.clause.as_slice(), levels);
    let place = place_after(policy, trail, places, &shown, spanned, learned.jump)?;
    learn(cnf, log, watches, trail, learned, place)?;
    Ok(place)
}

/// The loop of the search: propagates, decides, and learns at conflicts. At first the propagation queue is the whole
/// trail, the entries that clauses alone forced.
fn decide_and_learn(
    alloc: Global,
    cnf: &Cnf,
    limit: u32,
    watches: &mut Watches,
    trail: &mut Trail,
    policy: &mut Policy,
    places: &mut [usize],
    levels: &mut [u32],
) -> Result<Found, AllocError>
    requires limit { limit ≤ most_conflicts }
    requires many { 12 < distinct_count cnf.now.inputs }
    requires variables { length trail.old.values.items ≡ cnf.now.count + 1 }
    requires covers { CoversBelow (cnf.now.count + 1) watches.old }
    requires sizes { length policy.old.negated.items ≡ cnf.now.count + 1 }
    requires places { length places.old ≡ cnf.now.count + 1 }
    requires levels { length levels.old ≡ cnf.now.count + 1 }
    requires grown { Grows (all_clauses cnf.now) [] trail.old.entries.items }
    requires watching { IsWatchingUpTo (all_clauses cnf.now) watches.old trail.old.entries.items 0 }
    ensures { IfOk result (IsFound cnf.now limit) }
{
    let mut log = Vec::new(alloc);
    let mut noted = 0;
    let mut head = 0;
    loop {
        let Some(conflict) = propagate(watches, trail, head)? else {
            let Some(literal) = policy.decision(cnf, trail) else {
                return Ok(Found::Sat(trail.assignment(alloc)?));
            };
            head = trail.entries.len();
            trail.push(Entry {
                literal,
                cause: Cause::InputDecision,
            })?;
            continue;
        };
        let Some(start) = last_decision(trail) else {
            return Ok(Found::Unsat(refutation(alloc, cnf, trail, log, conflict)?));
        };
        if log.len() >= limit as usize {
            return Ok(Found::Limit(List::from_vec(log)));
        }
        note_places(trail, noted, places, levels);
        let place = learn_from(
            alloc, cnf, &mut log, watches, trail, policy, places, levels, conflict, start,
        )?;
        noted = place;
        head = place;
    }
}

/// Searches with a trail and watches that are still empty.
fn search_in(
    alloc: Global,
    cnf: &Cnf,
    limit: u32,
    watches: &mut Watches,
    trail: &mut Trail,
) -> Result<Found, AllocError>
    requires limit { limit ≤ most_conflicts }
    requires many { 12 < distinct_count cnf.now.inputs }
    requires variables { length trail.old.values.items ≡ cnf.now.count + 1 }
    requires covers { CoversBelow (cnf.now.count + 1) watches.old }
    requires grown { Grows (all_clauses cnf.now) [] trail.old.entries.items }
    requires watching { IsWatchingUpTo [] watches.old trail.old.entries.items 0 }
    ensures { IfOk result (IsFound cnf.now limit) }
{
    if let Some(conflict) = add_clauses(cnf, watches, trail)? {
        let log = Vec::new(alloc);
        return Ok(Found::Unsat(refutation(alloc, cnf, trail, log, conflict)?));
    }
    let mut levels = vec![in alloc; 0u32; cnf.count as usize + 1]?;
    let mut places = vec![in alloc; 0; cnf.count as usize + 1]?;
    let mut policy = Policy::new(alloc, cnf)?;
    decide_and_learn(
        alloc,
        cnf,
        limit,
        watches,
        trail,
        &mut policy,
        &mut places,
        &mut levels,
    )
}

/// Searches for a model of all clauses, and gives up after `limit` learned clauses. The empty clause that ends a
/// refutation isn't counted. A limit is at most 1,000,000, so that clause numbers fit a `u32`.
///
/// The only error is want of memory.
pub fn search(alloc: Global, cnf: &Cnf, limit: u32) -> Result<Found, AllocError>
    requires limit { limit ≤ most_conflicts }
    requires many { 12 < distinct_count cnf.now.inputs }
    ensures { IfOk result (IsFound cnf.now limit) }
{
    let mut watches = Watches::new(alloc, cnf.count)?;
    let mut trail = Trail::new(alloc, cnf.count)?;
    search_in(alloc, cnf, limit, &mut watches, &mut trail)
}
