//! How many literals of a clause are open, that is, aren't false.
ghost use Rattle.std.specs.Prelude.{◌<◌, List, length, All};
ghost use Rattle.clauses.specs.Literal.{Lit as Literal};
ghost use Rattle.rup_checker.specs.Table.{Represents};
ghost use Rattle.rup_checker.specs.OpenLiterals.{Counts};

use crate::table::{Entry, is_false};
use clauses::Lit;

/// The open literals of a clause, as far as unit propagation asks: none in a conflict, one that is
/// unit, or several. A literal that stands in the clause twice is counted once.
#[derive(Clone, Copy)]
pub(crate) enum OpenLiterals {
    NoneOpen,
    OneOpen(Lit),
    SeveralOpen,
}

/// Counts the open literals of a clause, up to a second one that differs from the first.
pub(crate) fn open_literals_of(table: &[Entry], clause: &[Lit]) -> OpenLiterals
    requires { All (λ l. l.variable < length table.now) clause.now }
    ensures { (held : List Literal) → Represents table.now held → Counts result held clause.now }
{
    let mut found = None;
    for literal in clause {
        if is_false(table, *literal) {
            continue;
        }
        match found {
            Some(other) if other != *literal => return OpenLiterals::SeveralOpen,
            _ => found = Some(*literal),
        }
    }
    match found {
        None => OpenLiterals::NoneOpen,
        Some(literal) => OpenLiterals::OneOpen(literal),
    }
}
