//! Which hints of a step are needed. Forwards the hints are propagated up to the conflict, a clause that is false;
//! backwards from it are kept those that gave a value on which the conflict rests (conflict analysis).

use crate::table::{Known, forget, hold, hold_negations, is_needed, need, value_of};
use clauses::{Cnf, Lit, Step, clause_in};
use std::alloc::{AllocError, Global};

/// A hint that propagates a literal or is the conflict.
#[derive(Clone, Copy)]
struct Move {
    number: u32,
    /// The literal that the clause propagates; none where the clause is false.
    literal: Option<Lit>,
}

/// The hints of a step that are needed, in order. The table has no value of any variable, before and after: only
/// variables of the step's clause and of its hints' clauses are written, so these alone are cleared again.
pub(crate) fn needed_hints(
    alloc: Global,
    set: &Cnf,
    earlier: &[Step],
    step: &Step,
    table: &mut [Known],
) -> Result<Vec<u32>, AllocError> {
    let clause = step.clause.as_slice();
    let hints = step.hints.as_slice();
    hold_negations(table, clause);
    let moves = moves_of(alloc, set, earlier, hints, table)?;
    let needed = needed_numbers(alloc, set, earlier, &moves, table)?;
    forget_named(set, earlier, hints, table);
    forget(table, clause);
    Ok(needed)
}

/// The propagations that the hints are, up to the first clause that is false. A hint whose literal is true already is
/// left out, so no two give the same variable a value.
fn moves_of(
    alloc: Global,
    set: &Cnf,
    earlier: &[Step],
    hints: &[u32],
    table: &mut [Known],
) -> Result<Vec<Move>, AllocError> {
    let mut moves = Vec::new(alloc);
    for &number in hints {
        let Some(clause) = clause_in(set, earlier, number) else {
            return Ok(moves);
        };
        let literal = open_literal(table, clause.as_slice());
        match literal {
            None => {
                moves.push(Move { number, literal })?;
                return Ok(moves);
            }
            Some(open) => {
                if value_of(table, open).is_none() {
                    hold(table, open);
                    moves.push(Move { number, literal })?;
                }
            }
        }
    }
    Ok(moves)
}

/// The first literal of the clause that isn't false.
fn open_literal(table: &[Known], clause: &[Lit]) -> Option<Lit> {
    for &literal in clause {
        if value_of(table, literal) != Some(false) {
            return Some(literal);
        }
    }
    None
}

/// The numbers of the clauses that lead to the last of the moves, the conflict, in order.
fn needed_numbers(
    alloc: Global,
    set: &Cnf,
    earlier: &[Step],
    moves: &[Move],
    table: &mut [Known],
) -> Result<Vec<u32>, AllocError> {
    let mut numbers = Vec::new(alloc);
    for made in moves.iter().rev() {
        let kept = match made.literal {
            None => true,
            Some(literal) => is_needed(table, literal),
        };
        if kept {
            numbers.push(made.number)?;
            if let Some(clause) = clause_in(set, earlier, made.number) {
                need(table, clause.as_slice());
            }
        }
    }
    numbers.reverse();
    Ok(numbers)
}

/// Clears what the table has of the variables of the hints' clauses.
fn forget_named(set: &Cnf, earlier: &[Step], hints: &[u32], table: &mut [Known]) {
    for number in hints {
        if let Some(clause) = clause_in(set, earlier, *number) {
            forget(table, clause.as_slice());
        }
    }
}
