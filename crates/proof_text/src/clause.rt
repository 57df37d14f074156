//! Clauses in text.

ghost use Rattle.std.specs.Prelude.{◌≡◌, ◌++◌, codes, IfOk, IfErr};
ghost use Rattle.std.specs.List.{AllByRecursion};
ghost use Rattle.proof_text.specs.Texts.{literal_text, clause_text};
ghost use Rattle.proof_text.specs.WellFormed.{IsLiteral};
ghost use Rattle.proof_text.specs.Reading.{Literals, Clauses, StopsIn};

use crate::number::{Form, number};
use crate::stop::{Stopped, takes};
use clauses::{Clause, Lit};
use std::alloc::Global;

/// The greatest variable.
const MOST_VARIABLE: u64 = 2_147_483_647;

/// A literal, and the space behind it.
fn literal(rest: &mut &[u8]) -> Result<Lit, Stopped>
    ensures ok { IfOk result (λ l. IsLiteral l × (rest.old.now ≡ literal_text l ++ codes " " ++ rest.new.now)) }
    ensures stop { IfErr result (λ e. StopsIn Literals e rest.old.now rest.new.now) }
{
    let negated = takes(rest, b'-');
    let form = Form {
        least: 1,
        most: MOST_VARIABLE,
        ends: (b' ', b' '),
    };
    let (variable, _) = number(rest, form)?;
    Ok(Lit::new(variable as u32, negated))
}

/// A clause: literals, and `:`.
pub(crate) fn clause(alloc: Global, rest: &mut &[u8]) -> Result<Clause, Stopped>
    ensures ok { IfOk result (λ c. AllByRecursion IsLiteral c × (rest.old.now ≡ clause_text c ++ rest.new.now)) }
    ensures stop { IfErr result (λ e. StopsIn Clauses e rest.old.now rest.new.now) }
{
    let mut clause = Clause::new(alloc);
    while !takes(rest, b':') {
        clause.push(literal(rest)?)?;
    }
    Ok(clause)
}
