//! The test of a step's hints: all but the last name clauses with a unit literal, which is
//! propagated, and the last names a clause that is then false, the conflict.
ghost use Rattle.std.specs.Prelude.{◌≡◌, ◌==◌, ◌↔◌, ◌&&◌, ◌<◌, ◌≤◌, ℕ, IsTrue, List, [], true, false, not, length, slice_index_or, Contains, MatchOption};
ghost use Rattle.clauses.specs.Literal.{Lit as Literal, VariablesWithin};
ghost use Rattle.clauses.specs.Propagation.{HintsRefute, NamesFalse, NamesUnit, negations_of};
ghost use Rattle.clauses.specs.ClauseSet.{clauses_with};
ghost use Rattle.rup_checker.specs.Table.{Accounted, Represents, stands_in, table_holds, used_in};

use crate::open_literals::{OpenLiterals, open_literals_of};
use crate::table::{Entry, hold, release};
use crate::used::{is_used, mark, take_mark};
use clauses::{Cnf, Lit, Step, clause_in};

/// The unit literal of the clause of the number.
fn unit_named(cnf: &Cnf, earlier: &[Step], number: u32, table: &[Entry]) -> Option<Lit>
    requires within { VariablesWithin cnf.now.count (clauses_with cnf.now earlier.now) }
    requires room { cnf.now.count < length table.now }
    ensures { (held : List Literal) → Represents table.now held
        → MatchOption result
        ((l : Literal) → ¬ (NamesUnit (clauses_with cnf.now earlier.now) held number l))
        (λ l. NamesUnit (clauses_with cnf.now earlier.now) held number l) }
{
    match open_literals_of(table, clause_in(cnf, earlier, number)?.as_slice()) {
        OpenLiterals::OneOpen(literal) => Some(literal),
        _ => None,
    }
}

/// Whether the number names a clause with all literals false.
fn names_false(cnf: &Cnf, earlier: &[Step], number: u32, table: &[Entry]) -> bool
    requires within { VariablesWithin cnf.now.count (clauses_with cnf.now earlier.now) }
    requires room { cnf.now.count < length table.now }
    ensures { (held : List Literal) → Represents table.now held
        → (IsTrue result ↔ NamesFalse (clauses_with cnf.now earlier.now) held number) }
{
    match clause_in(cnf, earlier, number) {
        None => false,
        Some(clause) => matches!(
            open_literals_of(table, clause.as_slice()),
            OpenLiterals::NoneOpen
        ),
    }
}

/// Whether the hints of a step refute the state in which the negations of its clause's literals are
/// held. Each literal that they propagate is held then, and the clause that propagates it is
/// marked.
pub(crate) fn hints_refute(
    cnf: &Cnf,
    earlier: &[Step],
    step: &Step,
    table: &mut [Entry],
    used: &mut [Entry],
) -> bool
    requires within { VariablesWithin cnf.now.count (clauses_with cnf.now earlier.now) }
    requires room { cnf.now.count < length table.old }
    requires clause_room { length (clauses_with cnf.now earlier.now) ≤ length used.old }
    requires negated { Represents table.old (negations_of step.now.clause) }
    requires unused { (number : ℕ) → used_in used.old number ≡ false }
    ensures refute { IsTrue result
        ↔ HintsRefute (clauses_with cnf.now earlier.now) (negations_of step.now.clause) step.now.hints }
    ensures accounted { Accounted (clauses_with cnf.now earlier.now) step.now.clause table.new used.new }
    ensures marked { (number : ℕ) → used_in used.new number ≡ true → Contains step.now.hints number }
{
    let Some((last, moves)) = step.hints.as_slice().split_last() else {
        return false;
    };
    for number in moves {
        if is_used(used, *number) {
            continue;
        }
        let Some(literal) = unit_named(cnf, earlier, *number, table) else {
            return false;
        };
        hold(table, literal);
        mark(used, *number);
    }
    names_false(cnf, earlier, *last, table)
}

/// Takes away the mark of the clause of the number. Where it had one, releases the variables of the
/// clause: no literal of them is held any more.
fn release_marked(cnf: &Cnf, earlier: &[Step], number: u32, table: &mut [Entry], used: &mut [Entry])
    requires within { VariablesWithin cnf.now.count (clauses_with cnf.now earlier.now) }
    requires room { cnf.now.count < length table.old }
    ensures taken { (n : ℕ) → used_in used.new n ≡ (used_in used.old n && not (n == number)) }
    ensures released { (l : Literal) → table_holds table.new l
        ≡ (table_holds table.old l && not (used_in used.old number
        && stands_in l.variable (slice_index_or (clauses_with cnf.now earlier.now) number []))) }
{
    if !take_mark(used, number) {
        return;
    }
    if let Some(clause) = clause_in(cnf, earlier, number) {
        release(table, clause.as_slice());
    }
}

/// Takes away the marks of the clauses that the step's hints name, and releases the variables of
/// these clauses. What may be held then are literals of the step's clause's variables.
pub(crate) fn release_hinted(
    cnf: &Cnf,
    earlier: &[Step],
    step: &Step,
    table: &mut [Entry],
    used: &mut [Entry],
)
    requires within { VariablesWithin cnf.now.count (clauses_with cnf.now earlier.now) }
    requires room { cnf.now.count < length table.old }
    requires accounted { Accounted (clauses_with cnf.now earlier.now) step.now.clause table.old used.old }
    requires marked { (number : ℕ) → used_in used.old number ≡ true → Contains step.now.hints number }
    ensures own { (l : Literal) → table_holds table.new l ≡ true → stands_in l.variable step.now.clause ≡ true }
    ensures unused { (number : ℕ) → used_in used.new number ≡ false }
{
    for number in step.hints.as_slice() {
        release_marked(cnf, earlier, *number, table, used);
    }
}
