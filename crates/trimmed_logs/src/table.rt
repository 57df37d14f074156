//! The table of the variables: the value of each, and whether it is needed. The entry of a variable is at the place of
//! its number.

use clauses::Lit;

/// What is known of one variable.
#[derive(Clone, Copy)]
pub(crate) struct Known {
    /// Its value: one of its literals is held, that is, assigned true.
    value: Option<bool>,
    /// Whether a clause that is kept rests on the value.
    needed: bool,
}

impl Known {
    pub(crate) const NOTHING: Known = Known {
        value: None,
        needed: false,
    };
}

/// Whether the literal is true, where its variable has a value.
pub(crate) fn value_of(table: &[Known], literal: Lit) -> Option<bool> {
    let value = table.get(literal.variable() as usize)?.value?;
    Some(value != literal.is_negated())
}

/// Whether a clause that is kept rests on the value of the literal's variable.
pub(crate) fn is_needed(table: &[Known], literal: Lit) -> bool {
    match table.get(literal.variable() as usize) {
        None => false,
        Some(known) => known.needed,
    }
}

/// Holds a literal: its variable has the value that makes it true.
pub(crate) fn hold(table: &mut [Known], literal: Lit) {
    if let Some(known) = table.get_mut(literal.variable() as usize) {
        known.value = Some(!literal.is_negated());
    }
}

/// Holds the negation of each literal of a clause.
pub(crate) fn hold_negations(table: &mut [Known], clause: &[Lit]) {
    for literal in clause {
        hold(table, literal.negation());
    }
}

/// The values of the clause's variables are needed.
pub(crate) fn need(table: &mut [Known], clause: &[Lit]) {
    for literal in clause {
        if let Some(known) = table.get_mut(literal.variable() as usize) {
            known.needed = true;
        }
    }
}

/// Clears what the table has of the clause's variables.
pub(crate) fn forget(table: &mut [Known], clause: &[Lit]) {
    for literal in clause {
        if let Some(known) = table.get_mut(literal.variable() as usize) {
            *known = Known::NOTHING;
        }
    }
}
