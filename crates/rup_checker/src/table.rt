//! The table: which literals are held, that is, assigned true. The entry of a variable is at the
//! place of its number. A second table, `used`, has an entry for each clause.
ghost use Rattle.std.specs.Prelude.{◌≡◌, ◌&&◌, ◌||◌, ◌<◌, not, [], length, All};
ghost use Rattle.clauses.specs.Literal.{Lit as Literal, is_same, negation_of};
ghost use Rattle.clauses.specs.Propagation.{negations_of};
ghost use Rattle.rup_checker.specs.Table.{Represents, table_holds, stands_in};

use clauses::Lit;

/// What is known of one variable or of one clause.
#[derive(Clone, Copy)]
pub(crate) struct Entry {
    /// Whether the variable itself is held, and whether its negation is. Both are where a clause
    /// that has both is negated.
    pub(crate) positive: bool,
    pub(crate) negative: bool,
    /// Whether the clause is marked: a hint of the step has named it, and it propagated a literal.
    pub(crate) used: bool,
}

impl Entry {
    /// Neither literal of the variable is held, and the clause isn't marked.
    pub(crate) const BLANK: Entry = Entry {
        positive: false,
        negative: false,
        used: false,
    };
}

/// Whether the literal is false, that is, its negation is held.
pub(crate) fn is_false(table: &[Entry], literal: Lit) -> bool
    requires { literal.variable < length table.now }
    ensures { result ≡ table_holds table.now (negation_of literal) }
{
    let entry = table[literal.variable() as usize];
    if literal.is_negated() {
        entry.positive
    } else {
        entry.negative
    }
}

/// Holds a literal: it is assigned true.
pub(crate) fn hold(table: &mut [Entry], literal: Lit)
    requires { literal.variable < length table.old }
    ensures { (l : Literal) → table_holds table.new l ≡ (is_same l literal || table_holds table.old l) }
{
    let place = literal.variable() as usize;
    if literal.is_negated() {
        table[place].negative = true;
    } else {
        table[place].positive = true;
    }
}

/// Holds the negation of each literal of a clause, in a table that holds nothing.
pub(crate) fn hold_negations(table: &mut [Entry], clause: &[Lit])
    requires blank { Represents table.old [] }
    requires room { All (λ l. l.variable < length table.old) clause.now }
    ensures { Represents table.new (negations_of clause.now) }
{
    for literal in clause {
        hold(table, literal.negation());
    }
}

/// Releases the variables of the clause: no literal of them is held any more.
pub(crate) fn release(table: &mut [Entry], clause: &[Lit])
    requires { All (λ l. l.variable < length table.old) clause.now }
    ensures { (l : Literal) → table_holds table.new l
        ≡ (table_holds table.old l && not (stands_in l.variable clause.now)) }
{
    for literal in clause {
        table[literal.variable() as usize] = Entry::BLANK;
    }
}
