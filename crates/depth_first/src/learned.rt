//! The clause that is learned of a conflict.

ghost use Rattle.std.specs.Prelude.{◌≡◌, ◌+◌, ◌<◌, ◌++◌, ◌∷◌, [], length, All, Some, slice_get, IfOk, OnOk};
ghost use Rattle.clauses.specs.Propagation.{NamesFalse, negations_of};
ghost use Rattle.clauses.specs.ClauseSet.{LogFollows, StepFollows, IsRefutation, clauses_with};
ghost use Rattle.depth_first.specs.TrailEntries.{literals, decisions, reasons};
ghost use Rattle.depth_first.specs.DepthFirst.{EachCaused};
ghost use Rattle.depth_first.specs.Learned.{Marks, IsInvolved, IsLearnedStep, marked_entries};

use crate::trail::{Entry, Trail};
use clauses::{Clause, Cnf, Lit, Log, Step, clause_in};
use lists::List;
use std::alloc::{AllocError, Global};

/// The clause of the negated decisions of a trail. Its hints are the reasons, in the order of the trail, of what the
/// conflict rests on, and then the number of the clause that is false.
pub(crate) fn learned(
    alloc: Global,
    cnf: &Cnf,
    log: &[Step],
    trail: &Trail,
    conflict: u32,
) -> Result<Step, AllocError>
    requires variables { length trail.now.values.items ≡ cnf.now.count + 1 }
    requires follows { LogFollows cnf.now log.now }
    requires caused { EachCaused cnf.now log.now trail.now.entries.items }
    requires falsified { NamesFalse (clauses_with cnf.now log.now) (literals trail.now.entries.items) conflict }
    ensures shown { IfOk result (IsLearnedStep (clauses_with cnf.now log.now) trail.now.entries.items conflict) }
    ensures follows { IfOk result (StepFollows cnf.now (clauses_with cnf.now log.now)) }
{
    let involved = involved(alloc, cnf, log, trail, conflict)?;
    step_of(alloc, trail, &involved, conflict)
}

/// Adds to a step what an entry gives it: the negation of a decision, or the reason of a marked entry.
fn add_entry(entry: &Entry, marked: &[bool], step: &mut Step) -> Result<(), AllocError>
    requires { entry.now.literal.variable < length marked.now }
    ensures clause { OnOk result (step.new.clause ≡ step.old.clause ++ negations_of (decisions (entry.now ∷ []))) }
    ensures hints { OnOk result (step.new.hints ≡ step.old.hints ++ reasons (marked_entries marked.now (entry.now ∷ []))) }
{
    let Some(number) = entry.cause.reason() else {
        step.clause.push(entry.literal.negation())?;
        return Ok(());
    };
    let is_marked = marked[entry.literal.variable() as usize];
    if is_marked {
        step.hints.push(number)?;
    }
    Ok(())
}

/// The clause of the negated decisions, whose hints are the reasons of the marked entries, in the order of the trail,
/// and then the number of the clause that is false.
fn step_of(alloc: Global, trail: &Trail, marked: &[bool], conflict: u32) -> Result<Step, AllocError>
    requires { length marked.now ≡ length trail.now.values.items }
    ensures clause { IfOk result (λ step. step.clause ≡ negations_of (decisions trail.now.entries.items)) }
    ensures hints { IfOk result (λ step. step.hints ≡ reasons (marked_entries marked.now trail.now.entries.items) ++ conflict ∷ []) }
{
    let mut step = Step {
        clause: Clause::new(alloc),
        hints: List::new(alloc),
    };
    for entry in &trail.entries {
        add_entry(entry, marked, &mut step)?;
    }
    step.hints.push(conflict)?;
    Ok(step)
}

/// The refutation where a conflict rests on no decision: the log, ended by the empty clause.
pub fn refutation(
    alloc: Global,
    cnf: &Cnf,
    trail: &Trail,
    mut log: Vec<Step>,
    conflict: u32,
) -> Result<Log, AllocError>
    requires variables { length trail.now.values.items ≡ cnf.now.count + 1 }
    requires follows { LogFollows cnf.now log.items }
    requires caused { EachCaused cnf.now log.items trail.now.entries.items }
    requires falsified { NamesFalse (clauses_with cnf.now log.items) (literals trail.now.entries.items) conflict }
    requires no_decisions { decisions trail.now.entries.items ≡ [] }
    ensures { IfOk result (IsRefutation cnf.now) }
{
    let step = learned(alloc, cnf, &log, trail, conflict)?;
    log.push(step)?;
    Ok(List::from_vec(log))
}

/// Which variables a conflict rests on: those of the clause that is false, and, from the end of the trail back, those
/// of the reason of each entry whose variable is one of them.
fn involved(
    alloc: Global,
    cnf: &Cnf,
    log: &[Step],
    trail: &Trail,
    conflict: u32,
) -> Result<Vec<bool>, AllocError>
    requires variables { length trail.now.values.items ≡ cnf.now.count + 1 }
    requires follows { LogFollows cnf.now log.now }
    requires caused { EachCaused cnf.now log.now trail.now.entries.items }
    requires falsified { NamesFalse (clauses_with cnf.now log.now) (literals trail.now.entries.items) conflict }
    ensures size { IfOk result (λ marked. length marked.items ≡ cnf.now.count + 1) }
    ensures marks { IfOk result (λ marked. IsInvolved (clauses_with cnf.now log.now) trail.now.entries.items conflict 0 marked.items) }
{
    let mut marked = vec![in alloc; false; cnf.count as usize + 1]?;
    mark(numbered(cnf, log, conflict), &mut marked);
    let mut place = trail.entries.len();
    while place > 0 {
        place -= 1;
        let entry = trail.entries[place];
        if marked[entry.literal.variable() as usize] {
            if let Some(number) = entry.cause.reason() {
                mark(numbered(cnf, log, number), &mut marked);
            }
        }
    }
    Ok(marked)
}

/// The clause of a number of the set and the log.
pub fn numbered<'a>(cnf: &'a Cnf, log: &'a [Step], number: u32) -> &'a [Lit]
    requires { number < length (clauses_with cnf.now log.now) }
    ensures { slice_get (clauses_with cnf.now log.now) number ≡ Some result.now }
{
    clause_in(cnf, log, number).unwrap().as_slice()
}

/// Marks the variables of a clause.
fn mark(clause: &[Lit], marked: &mut Vec<bool>)
    requires { All (λ l. l.variable < length marked.old.items) clause.now }
    ensures size { length marked.new.items ≡ length marked.old.items }
    ensures marks { Marks clause.now marked.old.items marked.new.items }
{
    for literal in clause {
        marked[literal.variable() as usize] = true;
    }
}
