//! Clauses that repeat a literal, which counts once.

ghost use Rattle.std.specs.Prelude.{◌≤◌};
ghost use Rattle.cdcl_log.specs.Found.{most_conflicts};

use cdcl_log::{Found, search};
use clauses::{Clause, Cnf, Lit, Log, Step};
use lists::List;
use rup_checker::check_refutation;
use std::alloc::{AllocError, Global};
use std::test::Fail;

/// Clauses, each literal by the number of its variable, negative where it is negated.
pub(super) type Clauses = &'static [&'static [i16]];

/// The literal of a number.
pub(super) fn literal(number: i16) -> Lit {
    Lit::new(u32::from(number.unsigned_abs()), number < 0)
}

/// The clause of some literals.
pub(super) fn clause(alloc: Global, literals: &[i16]) -> Result<Clause, AllocError> {
    let mut clause = Clause::new(alloc);
    for number in literals {
        clause.push(literal(*number))?;
    }
    Ok(clause)
}

/// The clauses of some literals each.
fn clauses(alloc: Global, all: &[&[i16]]) -> Result<List<Clause>, AllocError> {
    let mut clauses = List::new(alloc);
    for literals in all {
        clauses.push(clause(alloc, literals)?)?;
    }
    Ok(clauses)
}

/// The set of these clauses over the variables up to `count`, which are all inputs, if none is above it.
pub(super) fn set_of(
    alloc: Global,
    clauses: List<Clause>,
    count: u32,
) -> Result<Option<Cnf>, AllocError> {
    let mut inputs = List::new(alloc);
    for variable in 1..=count {
        inputs.push(variable)?;
    }
    Ok(Cnf::new(List::new(alloc), clauses, inputs, count))
}

/// The set of some clauses over the variables up to `count`, which are all inputs, if none is above it.
pub(super) fn set(alloc: Global, all: &[&[i16]], count: u32) -> Result<Option<Cnf>, AllocError> {
    set_of(alloc, clauses(alloc, all)?, count)
}

/// The log of the empty clause alone, with these hints.
fn log(alloc: Global, hints: &[u32]) -> Result<Log, AllocError> {
    let step = Step {
        clause: Clause::new(alloc),
        hints: List::from_vec(hints.to_vec(alloc)?),
    };
    let mut log = List::new(alloc);
    log.push(step)?;
    Ok(log)
}

/// Clauses, hints for the empty clause, and whether it follows by them.
static CHECKED: [(Clauses, &[u32], bool); 7] = [
    (&[&[1, 1], &[-1, -1]], &[0, 1], true),
    (&[&[1, 1], &[-1, -1]], &[1, 0], true),
    (&[&[1, 1], &[-1, -1]], &[0, 0], false),
    (&[&[1, 2], &[-1, -1]], &[0, 1], false),
    (&[&[1, 2], &[-1, -1]], &[1, 0], false),
    (&[&[1], &[-1, 2, 2], &[-2, -1, -2]], &[0, 1, 2], true),
    (&[&[1], &[-1, 2, 3], &[-2, -1, -3]], &[0, 1, 2], false),
];

/// Whether the log of the empty clause with these hints refutes a set.
fn hints_refute(alloc: Global, set: &Cnf, hints: &[u32]) -> Result<bool, AllocError> {
    let log = log(alloc, hints)?;
    check_refutation(alloc, set, &log)
}

/// Whether the checker's answer is the expected one.
fn is_checked_so(
    alloc: Global,
    set: &Cnf,
    hints: &[u32],
    refutes: bool,
) -> Result<bool, AllocError> {
    let found = hints_refute(alloc, set, hints)?;
    Ok(found == refutes)
}

/// The same for clauses over three variables.
fn are_checked_so(
    alloc: Global,
    clauses: Clauses,
    hints: &[u32],
    refutes: bool,
) -> Result<bool, AllocError> {
    match set(alloc, clauses, 3)? {
        Some(set) => is_checked_so(alloc, &set, hints, refutes),
        None => Ok(false),
    }
}

#[test]
fn the_checker_counts_a_literal_once(rt: HostRuntime) -> Result<(), Fail> {
    for (row, (clauses, hints, refutes)) in CHECKED.iter().enumerate() {
        let is_so = are_checked_so(rt.alloc(), clauses, hints, *refutes)?;
        assert!(rt; is_so, "row {row}");
    }
    Ok(())
}

/// Sets that unit propagation alone refutes, in any order of their clauses.
static SEARCHED: [Clauses; 3] = [
    &[&[1, 1], &[-1, -1]],
    &[&[1], &[-1, 2, 2], &[-2, -1, -2]],
    &[&[-2, -1, -2], &[-1, 2, 2], &[1]],
];

/// Whether the search refutes a set by a log that the checker takes.
pub(super) fn is_refuted(alloc: Global, set: &Cnf, conflicts: u32) -> Result<bool, AllocError>
    requires { conflicts ≤ most_conflicts }
{
    match search(alloc, set, conflicts)? {
        Found::Unsat(log) => check_refutation(alloc, set, &log),
        _ => Ok(false),
    }
}

/// Whether the search refutes clauses over so many variables.
fn are_refuted(alloc: Global, clauses: Clauses, count: u32) -> Result<bool, AllocError> {
    match set(alloc, clauses, count)? {
        Some(set) => is_refuted(alloc, &set, 0),
        None => Ok(false),
    }
}

#[test]
fn the_search_counts_a_literal_once(rt: HostRuntime) -> Result<(), Fail> {
    for (row, clauses) in SEARCHED.iter().enumerate() {
        assert!(rt; are_refuted(rt.alloc(), clauses, 2)?, "row {row}");
        assert!(rt; are_refuted(rt.alloc(), clauses, 13)?, "row {row}");
    }
    Ok(())
}

/// Both variables are equal, and one is true, so the first decision, which is false, leads to a conflict.
const EQUAL: Clauses = &[&[-2, 1], &[2, -1], &[1, 2]];

/// The set of these clauses, which names its first variable as an input 13 times.
fn equal_set(alloc: Global) -> Result<Option<Cnf>, AllocError> {
    let clauses = clauses(alloc, EQUAL)?;
    let inputs = [1u32; 13].to_vec(alloc)?;
    Ok(Cnf::new(List::new(alloc), clauses, List::from_vec(inputs), 2))
}

/// Whether the search finds this model without a conflict.
fn has_model(alloc: Global, set: &Cnf, model: &[bool]) -> Result<bool, AllocError> {
    match search(alloc, set, 0)? {
        Found::Sat(values) => Ok(values.as_slice() == model),
        _ => Ok(false),
    }
}

/// Whether the search finds this model of that set.
fn equal_has_model(alloc: Global, model: &[bool]) -> Result<bool, AllocError> {
    match equal_set(alloc)? {
        Some(set) => has_model(alloc, &set, model),
        None => Ok(false),
    }
}

#[test]
fn an_input_that_is_named_again_counts_once(rt: HostRuntime) -> Result<(), Fail> {
    assert!(rt; equal_has_model(rt.alloc(), &[true, true])?);
    Ok(())
}
