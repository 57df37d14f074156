//! Casts: the width of one class has to be below that of another.

ghost use Rattle.std.specs.Prelude.{◌≡◌, ◌↔◌, Some, IsTrue, IfSome, IfNone, Contains};
ghost use Rattle.rule_core.specs.declared.rule.Statement.{Statement};
ghost use Rattle.rule_core.specs.Positions.{Smaller};
ghost use Rattle.rule_typing.specs.FixedWidths.{smaller_line, IsBelow, IsBroken, MeetsCastLine};
ghost use Rattle.rule_typing.specs.Solutions.{MeetsSmaller};

use ops::{Cast, Width};
use rule_core::{Op, Rule, Statement};

/// Whether these widths, the one at place c being that of class c, meet the constraint of each cast.
pub(crate) fn casts_fit(rule: &Rule, widths: &[Width]) -> bool
    ensures { IsTrue result ↔ MeetsSmaller rule.now widths.now }
{
    broken_line(rule, widths).is_none()
}

/// The classes of a cast that these widths break, the one that has to be narrower first; or `None` where they break
/// none.
pub(crate) fn broken_line(rule: &Rule, widths: &[Width]) -> Option<(u32, u32)>
    ensures some { IfSome result (λ line. Smaller rule.now line.0 line.1 × IsBroken widths.now line.0 line.1) }
    ensures none { IfNone result (MeetsSmaller rule.now widths.now) }
{
    match broken_by_statements(rule.source.as_slice(), widths) {
        Some(line) => Some(line),
        None => broken_by_statements(rule.target.as_slice(), widths),
    }
}

/// The same for casts among these statements.
fn broken_by_statements(statements: &[Statement], widths: &[Width]) -> Option<(u32, u32)>
    ensures some { IfSome result (λ line. ((s : Statement) × Contains statements.now s × (smaller_line s.class s.op ≡ Some line)) × IsBroken widths.now line.0 line.1) }
    ensures none { IfNone result ((s : Statement) → Contains statements.now s → MeetsCastLine widths.now s) }
{
    for statement in statements {
        if let Some(line) = broken_by_statement(statement, widths) {
            return Some(line);
        }
    }
    None
}

/// The same for one statement.
fn broken_by_statement(statement: &Statement, widths: &[Width]) -> Option<(u32, u32)>
    ensures some { IfSome result (λ line. (smaller_line statement.now.class statement.now.op ≡ Some line) × IsBroken widths.now line.0 line.1) }
    ensures none { IfNone result (MeetsCastLine widths.now statement.now) }
{
    let (smaller, greater) = match smaller_line(statement.class, statement.op) {
        None => return None,
        Some(line) => line,
    };
    if is_below(widths, smaller, greater) {
        None
    } else {
        Some((smaller, greater))
    }
}

/// The classes of a cast, the one that has to be narrower first; the result has the class given.
fn smaller_line(result_class: u32, op: Op) -> Option<(u32, u32)>
    ensures { result ≡ smaller_line result_class op }
{
    match op {
        Op::Convert(cast, _, operand, _) => match cast {
            Cast::Trunc => Some((result_class, operand.class)),
            Cast::ZExt => Some((operand.class, result_class)),
            Cast::SExt => Some((operand.class, result_class)),
        },
        Op::Binary(_, _, _, _) => None,
        Op::Compare(_, _, _, _) => None,
        Op::Unary(_, _, _) => None,
        Op::Select(_, _, _) => None,
        Op::Freeze(_, _) | Op::Copy(_) => None,
    }
}

/// Whether the one width is below the other, if both classes have one.
fn is_below(widths: &[Width], smaller: u32, greater: u32) -> bool
    ensures { IsTrue result ↔ IsBelow widths.now smaller greater }
{
    match (widths.get(smaller as usize), widths.get(greater as usize)) {
        (Some(smaller), Some(greater)) => smaller.bits() < greater.bits(),
        _ => true,
    }
}
