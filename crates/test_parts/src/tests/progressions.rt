//! Colourings of numbers in two colours without one-coloured arithmetic progressions, with more than twelve inputs.

use super::repeated::{is_refuted, literal, set_of};
use cdcl_log::{Found, search};
use clauses::{Clause, Cnf};
use lists::List;
use std::alloc::{AllocError, Global};
use std::test::Fail;

/// The numbers from 1 on, in red and blue, with no red progression of `red` terms and no blue one of `blue` terms.
#[derive(Clone, Copy)]
struct Colouring {
    numbers: i16,
    red: i16,
    blue: i16,
}

/// The terms of the progression as literals of this sign.
fn progression(
    alloc: Global,
    first: i16,
    step: i16,
    terms: i16,
    sign: i16,
) -> Result<Clause, AllocError> {
    let mut clause = Clause::new(alloc);
    for term in 0..terms {
        let number = first.wrapping_add(step.wrapping_mul(term));
        clause.push(literal(sign.wrapping_mul(number)))?;
    }
    Ok(clause)
}

/// Appends for each progression of so many terms the clause that not all its terms have the colour.
fn add_progressions(
    alloc: Global,
    numbers: i16,
    terms: i16,
    sign: i16,
    clauses: &mut List<Clause>,
) -> Result<(), AllocError> {
    for first in 1..=numbers {
        for step in 1..=numbers {
            let last = first.wrapping_add(step.wrapping_mul(terms.wrapping_sub(1)));
            if last <= numbers {
                clauses.push(progression(alloc, first, step, terms, sign)?)?;
            }
        }
    }
    Ok(())
}

/// The set of a colouring: a number's variable is true where it is red. It is `None` where a variable is above the
/// count.
fn colouring_set(alloc: Global, colouring: Colouring) -> Result<Option<Cnf>, AllocError> {
    let mut clauses = List::new(alloc);
    add_progressions(alloc, colouring.numbers, colouring.red, -1, &mut clauses)?;
    add_progressions(alloc, colouring.numbers, colouring.blue, 1, &mut clauses)?;
    set_of(alloc, clauses, u32::from(colouring.numbers.unsigned_abs()))
}

/// Whether one of the literals is true.
fn has_true_literal(clause: &Clause, values: &[bool]) -> bool {
    for literal in clause.as_slice() {
        let place = literal.variable().wrapping_sub(1) as usize;
        if values.get(place) == Some(&!literal.is_negated()) {
            return true;
        }
    }
    false
}

/// Whether each clause has a literal that is true.
fn is_met(set: &Cnf, values: &[bool]) -> bool {
    for clause in set.roots.as_slice() {
        if !has_true_literal(clause, values) {
            return false;
        }
    }
    true
}

/// Whether the search finds a model, which meets the set.
fn is_modelled(alloc: Global, set: &Cnf) -> Result<bool, AllocError> {
    match search(alloc, set, 20000)? {
        Found::Sat(values) => Ok(is_met(set, values.as_slice())),
        _ => Ok(false),
    }
}

/// Whether the search finds such a colouring.
fn is_coloured(alloc: Global, colouring: Colouring) -> Result<bool, AllocError> {
    match colouring_set(alloc, colouring)? {
        Some(set) => is_modelled(alloc, &set),
        None => Ok(false),
    }
}

/// Whether the search finds that there is no such colouring, by a log that the checker takes.
fn is_excluded(alloc: Global, colouring: Colouring) -> Result<bool, AllocError> {
    match colouring_set(alloc, colouring)? {
        Some(set) => is_refuted(alloc, &set, 20000),
        None => Ok(false),
    }
}

/// The lengths of red and blue progressions, and the fewest numbers that have no such colouring (van der Waerden
/// numbers).
static FEWEST: [(i16, i16, i16); 4] = [(3, 4, 18), (3, 5, 22), (3, 6, 32), (4, 4, 35)];

#[test]
fn so_many_numbers_are_refuted_and_one_fewer_is_coloured(rt: HostRuntime) -> Result<(), Fail> {
    for (red, blue, fewest) in &FEWEST {
        let all = Colouring {
            numbers: *fewest,
            red: *red,
            blue: *blue,
        };
        let fewer = Colouring {
            numbers: fewest.wrapping_sub(1),
            ..all
        };
        assert!(rt; is_coloured(rt.alloc(), fewer)?, "{red} {blue}");
        assert!(rt; is_excluded(rt.alloc(), all)?, "{red} {blue}");
    }
    Ok(())
}
