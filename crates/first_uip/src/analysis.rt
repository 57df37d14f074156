//! Conflict analysis: from a conflict to the clause of its first unique implication point (GRASP, Chaff).

ghost use Rattle.std.specs.Prelude.{◌≡◌, ◌+◌, ◌<◌, ◌≤◌, ◌++◌, ◌∷◌, [], ℕ, false, length, replicate, take, IfOk, IfSome, IfNone};
ghost use Rattle.clauses.specs.Propagation.{NamesFalse, negations_of};
ghost use Rattle.clauses.specs.ClauseSet.{IsNew, LogFollows, StepFollows, clauses_with};
ghost use Rattle.clauses.proofs.Closed.{IsClosed};
ghost use Rattle.depth_first.specs.TrailEntries.{literals, reasons};
ghost use Rattle.depth_first.specs.TrailEntries.{EachForced};
ghost use Rattle.first_uip.specs.Conflict.{DecidedAt, IsAnalysis, IsAsserting, IsJump, IsLastLevel, IsOther, NoneDecided, NoneSeen, Resolves, SeenAt, is_kept, kept_entries, resolved_entries, role_of};
ghost use Rattle.first_uip.specs.Marks.{EachMarked, IsMarked, IsPlaced};
ghost use Rattle.first_uip.specs.Shown.{VariablesBelow, shown_entries};

use crate::blocks::{BLOCK, seen_from};
use crate::minimisation::settle_earlier;
use crate::roles::{Role, resolve, see};
use clauses::{Clause, Cnf, Lit, Step};
use depth_first::{Entry, Trail, numbered};
use lists::List;
use std::alloc::{AllocError, Global};

/// What is learned of a conflict.
#[derive(Drop)]
pub(crate) struct Learned {
    pub(crate) step: Step,
    /// The asserting literal: after the backjump it has no value, and all others of the clause are false.
    pub(crate) asserted: Lit,
    /// Of the others the one whose variable was assigned last; it is watched beside the asserting literal.
    pub(crate) other: Option<Lit>,
    /// Where to jump back to: the place of the earliest decision before which all other literals are false.
    pub(crate) jump: usize,
}

/// The last place from `start` on and before `end` of an entry on which the conflict rests.
fn last_seen(trail: &Trail, roles: &[Role], start: usize, end: usize) -> Option<usize>
    requires size { length roles.now ≡ length trail.now.values.items }
    requires within { end ≤ length trail.now.entries.items }
    ensures first { IfSome result (λ place. start ≤ place) }
    ensures last { IfSome result (λ place. place < end) }
    ensures seen { IfSome result (SeenAt trail.now.entries.items roles.now) }
    ensures none { IfNone result (NoneSeen trail.now.entries.items roles.now start end) }
{
    let mut place = end;
    while place > start {
        place -= 1;
        if roles[trail.entries[place].literal.variable() as usize] != Role::Unseen {
            return Some(place);
        }
    }
    None
}

/// Resolves the entries of the last level, which begins at `start`, from its end back to the first unique implication
/// point. The answer is that point's place.
fn resolve_level(
    cnf: &Cnf,
    log: &[Step],
    trail: &Trail,
    places: &[usize],
    start: usize,
    blocks: &mut [bool],
    roles: &mut [Role],
) -> usize
    requires variables { length trail.now.values.items ≡ cnf.now.count + 1 }
    requires places { length places.now ≡ cnf.now.count + 1 }
    requires marked { EachMarked blocks.old places.now roles.old }
    requires size { length roles.old ≡ cnf.now.count + 1 }
    requires follows { LogFollows cnf.now log.now }
    requires forced { EachForced (clauses_with cnf.now log.now) trail.now.entries.items }
    requires later { NoneDecided trail.now.entries.items (start + 1) (length trail.now.entries.items) }
    requires rests { NoneSeen trail.now.entries.items roles.old start (length trail.now.entries.items) → ⊥ }
    ensures first { start ≤ result }
    ensures last { result < length trail.now.entries.items }
    ensures seen { SeenAt trail.now.entries.items roles.new result }
    ensures none_between { NoneSeen trail.now.entries.items roles.new start result }
    ensures resolves { Resolves (clauses_with cnf.now log.now) trail.now.entries.items (length trail.now.entries.items) roles.old (result + 1) roles.new }
    ensures same_kept { (n : ℕ) → is_kept (role_of roles.new n) ≡ is_kept (role_of roles.old n) }
    ensures marked { EachMarked blocks.new places.now roles.new }
{
    let mut place = trail.entries.len();
    // the last entry before `place` on which the conflict rests
    let mut lower = last_seen(trail, roles, start, place).unwrap();
    loop {
        place -= 1;
        if place == lower {
            match last_seen(trail, roles, start, place) {
                None => return place,
                Some(next) => lower = next,
            }
        }
        resolve(cnf, log, trail, places, place, blocks, roles);
    }
}

/// The place of the first decision.
pub(crate) fn first_decision(trail: &Trail) -> Option<usize>
    ensures none { IfNone result (NoneDecided trail.now.entries.items 0 (length trail.now.entries.items)) }
    ensures earlier { IfSome result (NoneDecided trail.now.entries.items 0) }
    ensures decided { IfSome result (DecidedAt trail.now.entries.items) }
{
    for (place, entry) in trail.entries.iter().enumerate() {
        if entry.cause.is_decision() {
            return Some(place);
        }
    }
    None
}

/// The place of the last decision.
pub(crate) fn last_decision(trail: &Trail) -> Option<usize>
    ensures none { IfNone result (NoneDecided trail.now.entries.items 0 (length trail.now.entries.items)) }
    ensures last { IfSome result (IsLastLevel trail.now.entries.items) }
{
    let mut place = trail.entries.len();
    while place > 0 {
        place -= 1;
        if trail.entries[place].cause.is_decision() {
            return Some(place);
        }
    }
    None
}

/// Where to jump back to (backjumping).
#[derive(Clone, Copy)]
pub(crate) struct Jump {
    /// The place of the earliest decision behind all kept entries that stand before the last level.
    pub(crate) place: usize,
    /// The place of the last of these kept entries.
    pub(crate) below: Option<usize>,
}

/// Where to jump back to from the last level, which begins at `start`.
fn jump_from(trail: &Trail, roles: &[Role], start: usize) -> Jump
    requires size { length roles.now ≡ length trail.now.values.items }
    requires decided { DecidedAt trail.now.entries.items start }
    ensures { IsJump trail.now.entries.items roles.now start result.place result.below }
{
    let mut earliest = start;
    let mut place = start;
    while place > 0 {
        place -= 1;
        let entry = trail.entries[place];
        if roles[entry.literal.variable() as usize] == Role::Kept {
            return Jump {
                place: earliest,
                below: Some(place),
            };
        }
        if entry.cause.is_decision() {
            earliest = place;
        }
    }
    Jump {
        place: earliest,
        below: None,
    }
}

/// The entries on which the conflict rests, in the order of the trail.
fn shown_entries(
    alloc: Global,
    trail: &Trail,
    blocks: &[bool],
    roles: &[Role],
) -> Result<Vec<Entry>, AllocError>
    requires size { length roles.now ≡ length trail.now.values.items }
    requires marked { IsMarked trail.now.entries.items roles.now blocks.now }
    ensures shown { IfOk result (λ shown. shown.items ≡ shown_entries roles.now trail.now.entries.items) }
    ensures within { IfOk result (λ shown. VariablesBelow (length roles.now) shown.items) }
{
    let mut shown = Vec::new(alloc);
    let mut next = 0;
    while let Some(place) = seen_from(trail, roles, blocks, next, trail.entries.len()) {
        shown.push(trail.entries[place])?;
        next = place + 1;
    }
    Ok(shown)
}

/// The clause of the negations of the kept ones of these entries. It takes no more room than its literals, since the
/// log keeps it.
fn clause_of(alloc: Global, shown: &[Entry], roles: &[Role]) -> Result<Clause, AllocError>
    requires { VariablesBelow (length roles.now) shown.now }
    ensures { IfOk result (λ clause. clause ≡ negations_of (literals (kept_entries roles.now shown.now))) }
{
    let mut clause = Clause::new(alloc);
    for entry in shown {
        if roles[entry.literal.variable() as usize] == Role::Kept {
            clause.push(entry.literal.negation())?;
        }
    }
    Clause::from_slice(alloc, clause.as_slice())
}

/// The reasons of the resolved ones of these entries, in order, and then the number of the clause that is false. They
/// take no more room than they need.
fn hints_of(
    alloc: Global,
    shown: &[Entry],
    roles: &[Role],
    conflict: u32,
) -> Result<List<u32>, AllocError>
    requires { VariablesBelow (length roles.now) shown.now }
    ensures { IfOk result (λ hints. hints ≡ reasons (resolved_entries roles.now shown.now) ++ conflict ∷ []) }
{
    let mut hints = List::new(alloc);
    for entry in shown {
        if roles[entry.literal.variable() as usize] == Role::Resolved {
            if let Some(number) = entry.cause.reason() {
                hints.push(number)?;
            }
        }
    }
    hints.push(conflict)?;
    let mut kept = hints.into_vec();
    kept.shrink_to_fit();
    Ok(List::from_vec(kept))
}

/// The variables up to `count` without a role.
fn no_parts(alloc: Global, count: u32) -> Result<Vec<Role>, AllocError>
    ensures { IfOk result (λ roles. roles.items ≡ replicate (count + 1) Role.Unseen) }
{
    vec![in alloc; Role::Unseen; count as usize + 1]
}

/// Gives each variable its role in the conflict at a clause, where the last level begins at `start`. The answer is the
/// place of the first unique implication point.
fn give_parts(
    cnf: &Cnf,
    log: &[Step],
    trail: &Trail,
    places: &[usize],
    conflict: u32,
    start: usize,
    implied: &mut [Option<bool>],
    blocks: &mut [bool],
    roles: &mut [Role],
) -> usize
    requires variables { length trail.now.values.items ≡ cnf.now.count + 1 }
    requires places { length places.now ≡ cnf.now.count + 1 }
    requires placed { IsPlaced places.now trail.now.entries.items (length trail.now.entries.items) }
    requires implied { length implied.old ≡ cnf.now.count + 1 }
    requires size { length roles.old ≡ cnf.now.count + 1 }
    requires unseen { (n : ℕ) → role_of roles.old n ≡ Role.Unseen }
    requires follows { LogFollows cnf.now log.now }
    requires forced { EachForced (clauses_with cnf.now log.now) trail.now.entries.items }
    requires falsified { NamesFalse (clauses_with cnf.now log.now) (literals trail.now.entries.items) conflict }
    requires last { IsLastLevel trail.now.entries.items start }
    requires closed { IsClosed (clauses_with cnf.now log.now) (literals (take start trail.now.entries.items)) }
    ensures analysis { IsAnalysis (clauses_with cnf.now log.now) trail.now.entries.items roles.new conflict start result }
    ensures marked { IsMarked trail.now.entries.items roles.new blocks.new }
{
    see(numbered(cnf, log, conflict), places, blocks, roles);
    let point = resolve_level(cnf, log, trail, places, start, blocks, roles);
    roles[trail.entries[point].literal.variable() as usize] = Role::Kept;
    let root = first_decision(trail).unwrap_or(start);
    settle_earlier(cnf, log, trail, places, root, start, implied, blocks, roles);
    point
}

/// What is learned of a conflict, once each variable has its role.
fn learned_of(
    alloc: Global,
    cnf: &Cnf,
    log: &[Step],
    trail: &Trail,
    shown: &[Entry],
    roles: &[Role],
    conflict: u32,
    start: usize,
    point: usize,
) -> Result<Learned, AllocError>
    requires variables { length trail.now.values.items ≡ cnf.now.count + 1 }
    requires size { length roles.now ≡ cnf.now.count + 1 }
    requires forced { EachForced (clauses_with cnf.now log.now) trail.now.entries.items }
    requires falsified { NamesFalse (clauses_with cnf.now log.now) (literals trail.now.entries.items) conflict }
    requires decided { DecidedAt trail.now.entries.items start }
    requires closed { IsClosed (clauses_with cnf.now log.now) (literals (take start trail.now.entries.items)) }
    requires analysis { IsAnalysis (clauses_with cnf.now log.now) trail.now.entries.items roles.now conflict start point }
    requires shown { shown.now ≡ shown_entries roles.now trail.now.entries.items }
    requires within { VariablesBelow (length roles.now) shown.now }
    ensures follows { IfOk result (λ learned. StepFollows cnf.now (clauses_with cnf.now log.now) learned.step) }
    ensures new { IfOk result (λ learned. IsNew (clauses_with cnf.now log.now) learned.step.clause) }
    ensures not_empty { IfOk result (λ learned. learned.step.clause ≡ [] → ⊥) }
    ensures asserting { IfOk result (λ learned. IsAsserting trail.now.entries.items learned.jump learned.step.clause learned.asserted) }
    ensures other { IfOk result (λ learned. IsOther trail.now.entries.items learned.jump learned.step.clause learned.asserted learned.other) }
{
    let asserted = trail.entries[point].literal.negation();
    let clause = clause_of(alloc, shown, roles)?;
    let hints = hints_of(alloc, shown, roles, conflict)?;
    let jump = jump_from(trail, roles, start);
    let other = match jump.below {
        Some(below) => Some(trail.entries[below].literal.negation()),
        None => None,
    };
    Ok(Learned {
        step: Step { clause, hints },
        asserted,
        other,
        jump: jump.place,
    })
}

/// What is learned of the conflict at a clause, and the entries on which it rests, by tables that are still empty.
fn analyse_in(
    alloc: Global,
    cnf: &Cnf,
    log: &[Step],
    trail: &Trail,
    places: &[usize],
    conflict: u32,
    start: usize,
    implied: &mut [Option<bool>],
    blocks: &mut [bool],
    roles: &mut [Role],
) -> Result<(Learned, Vec<Entry>), AllocError>
    requires variables { length trail.now.values.items ≡ cnf.now.count + 1 }
    requires places { length places.now ≡ cnf.now.count + 1 }
    requires placed { IsPlaced places.now trail.now.entries.items (length trail.now.entries.items) }
    requires implied { length implied.old ≡ cnf.now.count + 1 }
    requires size { length roles.old ≡ cnf.now.count + 1 }
    requires unseen { (n : ℕ) → role_of roles.old n ≡ Role.Unseen }
    requires follows { LogFollows cnf.now log.now }
    requires forced { EachForced (clauses_with cnf.now log.now) trail.now.entries.items }
    requires falsified { NamesFalse (clauses_with cnf.now log.now) (literals trail.now.entries.items) conflict }
    requires last { IsLastLevel trail.now.entries.items start }
    requires closed { IsClosed (clauses_with cnf.now log.now) (literals (take start trail.now.entries.items)) }
    ensures follows { IfOk result (λ all. StepFollows cnf.now (clauses_with cnf.now log.now) all.0.step) }
    ensures new { IfOk result (λ all. IsNew (clauses_with cnf.now log.now) all.0.step.clause) }
    ensures not_empty { IfOk result (λ all. all.0.step.clause ≡ [] → ⊥) }
    ensures asserting { IfOk result (λ all. IsAsserting trail.now.entries.items all.0.jump all.0.step.clause all.0.asserted) }
    ensures other { IfOk result (λ all. IsOther trail.now.entries.items all.0.jump all.0.step.clause all.0.asserted all.0.other) }
    ensures within { IfOk result (λ all. VariablesBelow (cnf.now.count + 1) all.1.items) }
{
    let point = give_parts(
        cnf, log, trail, places, conflict, start, implied, blocks, roles,
    );
    let shown = shown_entries(alloc, trail, blocks, roles)?;
    let learned = learned_of(
        alloc, cnf, log, trail, &shown, roles, conflict, start, point,
    )?;
    Ok((learned, shown))
}

/// What is learned of the conflict at a clause, where the last level begins at `start`, and the entries on which the
/// conflict rests.
pub(crate) fn analyse(
    alloc: Global,
    cnf: &Cnf,
    log: &[Step],
    trail: &Trail,
    places: &[usize],
    conflict: u32,
    start: usize,
) -> Result<(Learned, Vec<Entry>), AllocError>
    requires variables { length trail.now.values.items ≡ cnf.now.count + 1 }
    requires places { length places.now ≡ cnf.now.count + 1 }
    requires placed { IsPlaced places.now trail.now.entries.items (length trail.now.entries.items) }
    requires follows { LogFollows cnf.now log.now }
    requires forced { EachForced (clauses_with cnf.now log.now) trail.now.entries.items }
    requires falsified { NamesFalse (clauses_with cnf.now log.now) (literals trail.now.entries.items) conflict }
    requires last { IsLastLevel trail.now.entries.items start }
    requires closed { IsClosed (clauses_with cnf.now log.now) (literals (take start trail.now.entries.items)) }
    ensures follows { IfOk result (λ all. StepFollows cnf.now (clauses_with cnf.now log.now) all.0.step) }
    ensures new { IfOk result (λ all. IsNew (clauses_with cnf.now log.now) all.0.step.clause) }
    ensures not_empty { IfOk result (λ all. all.0.step.clause ≡ [] → ⊥) }
    ensures asserting { IfOk result (λ all. IsAsserting trail.now.entries.items all.0.jump all.0.step.clause all.0.asserted) }
    ensures other { IfOk result (λ all. IsOther trail.now.entries.items all.0.jump all.0.step.clause all.0.asserted all.0.other) }
    ensures within { IfOk result (λ all. VariablesBelow (cnf.now.count + 1) all.1.items) }
{
    let mut roles = no_parts(alloc, cnf.count)?;
    let mut implied = vec![in alloc; None; cnf.count as usize + 1]?;
    let mut blocks = vec![in alloc; false; cnf.count as usize / BLOCK + 1]?;
    analyse_in(
        alloc,
        cnf,
        log,
        trail,
        places,
        conflict,
        start,
        &mut implied,
        &mut blocks,
        &mut roles,
    )
}
