//! Widths that lines of the table of types fix.

ghost use Rattle.std.specs.Prelude.{◌≡◌, ◌≢◌, ◌↔◌, ℕ, Bool, Some, IfSome, IfNone, Contains};
ghost use Rattle.rule_core.specs.declared.rule.Statement.{Statement};
ghost use Rattle.rule_core.specs.declared.rule.Argument.TheVariants as arguments;
ghost use Rattle.rule_core.specs.Positions.{Fixed};
ghost use Rattle.rule_typing.specs.FixedWidths.{fixed_line, FixesWidth, OperandFixes, StatementFixes};

use crate::operands::Operands;
use ops::Width;
use rule_core::{Argument, Op, Operand, Rule, Statement};

/// The first width that a line of the table of types fixes for the class, in the order of the rule's text. It takes as
/// many steps as there are operands.
pub fn fixed_width(rule: &Rule, class: usize) -> Option<Width>
    ensures some { IfSome result (λ N. Fixed rule.now class N) }
    ensures none { IfNone result ((N : ℕ) → ¬ Fixed rule.now class N) }
{
    other_fixed_width(rule, class, &None)
}

/// The first such width other than `but`.
pub(crate) fn other_fixed_width(rule: &Rule, class: usize, but: &Option<Width>) -> Option<Width>
    ensures some { IfSome result (λ N. Fixed rule.now class N × (but.now ≢ Some N)) }
    ensures none { IfNone result ((N : ℕ) → Fixed rule.now class N → but.now ≡ Some N) }
{
    match fixed_by_statements(rule.source.as_slice(), class, but) {
        Some(width) => Some(width),
        None => fixed_by_statements(rule.target.as_slice(), class, but),
    }
}

/// The same for these statements.
fn fixed_by_statements(statements: &[Statement], class: usize, but: &Option<Width>) -> Option<Width>
    ensures some { IfSome result (λ N. ((s : Statement) × Contains statements.now s × StatementFixes class N s) × (but.now ≢ Some N)) }
    ensures none { IfNone result ((s : Statement) (N : ℕ) → Contains statements.now s → StatementFixes class N s → but.now ≡ Some N) }
{
    for statement in statements {
        if let Some(width) = fixed_by_statement(statement, class, but) {
            return Some(width);
        }
    }
    None
}

/// The same for one statement.
fn fixed_by_statement(statement: &Statement, class: usize, but: &Option<Width>) -> Option<Width>
    ensures some { IfSome result (λ N. StatementFixes class N statement.now × (but.now ≢ Some N)) }
    ensures none { IfNone result ((N : ℕ) → StatementFixes class N statement.now → but.now ≡ Some N) }
{
    match unless(fixed_by_line(statement, class), but) {
        Some(width) => Some(width),
        None => {
            let operands = Operands::of(statement.op);
            fixed_by_operands(operands.as_slice(), class, but)
        }
    }
}

/// The width that the operation of a statement fixes for the class, if it fixes one.
fn fixed_by_line(statement: &Statement, class: usize) -> Option<Width>
    ensures { (N : ℕ) → (result ≡ Some N) ↔ (fixed_line statement.now.class statement.now.op ≡ Some (class, N)) }
{
    match fixed_line(statement.class, statement.op) {
        Some((fixed, width)) if fixed as usize == class => Some(width),
        _ => None,
    }
}

/// The class whose width an operation fixes, and that width, if it fixes one. The result has the class given.
fn fixed_line(result_class: u32, op: Op) -> Option<(u32, Width)>
    ensures { result ≡ fixed_line result_class op }
{
    match op {
        Op::Binary(_, _, _, _) => None,
        Op::Compare(_, _, _, _) => Some((result_class, Width::ONE)),
        Op::Unary(_, _, _) => None,
        Op::Select(condition, _, _) => Some((condition.class, Width::ONE)),
        Op::Convert(_, _, _, None) => None,
        Op::Convert(_, _, _, Some(width)) => Some((result_class, width)),
        Op::Freeze(_, _) | Op::Copy(_) => None,
    }
}

/// The same for these operands.
fn fixed_by_operands(operands: &[Operand], class: usize, but: &Option<Width>) -> Option<Width>
    ensures some { IfSome result (λ N. OperandFixes operands.now class N × (but.now ≢ Some N)) }
    ensures none { IfNone result ((N : ℕ) → OperandFixes operands.now class N → but.now ≡ Some N) }
{
    for operand in operands {
        if let Some(width) = fixed_by(*operand, class, but) {
            return Some(width);
        }
    }
    None
}

/// The same for one operand: by the type before it, or as `true` or `false`.
fn fixed_by(operand: Operand, class: usize, but: &Option<Width>) -> Option<Width>
    ensures some { IfSome result (λ N. FixesWidth class N operand × (but.now ≢ Some N)) }
    ensures none { IfNone result ((N : ℕ) → FixesWidth class N operand → but.now ≡ Some N) }
{
    if operand.class as usize != class {
        return None;
    }
    match unless(operand.written, but) {
        Some(width) => Some(width),
        None => unless(fixed_by_value(operand.value), but),
    }
}

/// The width of `true` and `false`: 1.
fn fixed_by_value(value: Argument) -> Option<Width>
    ensures { (N : ℕ) → (result ≡ Some N) ↔ (((b : Bool) × (value ≡ arguments.Truth b)) × (N ≡ 1)) }
{
    match value {
        Argument::Truth(_) => Some(Width::ONE),
        Argument::Register(_) | Argument::Constant(_) | Argument::Undef(_) => None,
        Argument::Literal(_) | Argument::Term(_) => None,
    }
}

/// The width, unless it is `but`.
fn unless(width: Option<Width>, but: &Option<Width>) -> Option<Width>
    ensures some { IfSome result (λ N. (width ≡ Some N) × (but.now ≢ Some N)) }
    ensures none { IfNone result ((N : ℕ) → width ≡ Some N → but.now ≡ Some N) }
{
    if width == *but { None } else { width }
}
