//! Constraints that ask two different classes of a rule to have one width.

ghost use Rattle.std.specs.Prelude.{◌≡◌, ◌≢◌, ◌⊎◌, ℕ, [], ◌∷◌, IfSome, IfNone};
ghost use Rattle.rule_core.specs.Checks.{IsRule};
ghost use Rattle.rule_core.specs.Positions.{Line, operands_of, choices_of};
ghost use Rattle.rule_typing.specs.Splits.{paired, op_pairs, IsPairIn, OperandsLine, ChoicesLine, StatementLine, StatementsLine, RootLine, Splits};

use crate::choice_lines::split_by_choices;
use crate::half::Half;
use crate::names::{assigned_class, root_class};
use crate::operand_lines::split_by_operands;
use crate::operands::Operands;
use crate::term_lines::{split_by_formulas, split_by_terms};
use rule_core::{Choices, Name, Op, Register, Rule, Statement};

/// Two different classes that one constraint asks to have one width, or `None` where there are none.
pub(crate) fn split_line(rule: &Rule) -> Option<(u32, u32)>
    requires { IsRule rule.now }
    ensures split { IfSome result (λ pair. Line rule.now pair.0 pair.1 × (pair.0 ≢ pair.1)) }
    ensures none { IfNone result ((c d : ℕ) → Line rule.now c d → c ≡ d) }
{
    if let Some(pair) = split_by_half(rule, Half::Source, rule.source.as_slice()) {
        return Some(pair);
    }
    if let Some(pair) = split_by_half(rule, Half::Target, rule.target.as_slice()) {
        return Some(pair);
    }
    if let Some(pair) = split_by_terms(rule, rule.terms.as_slice()) {
        return Some(pair);
    }
    if let Some(pair) = split_by_terms(rule, rule.witness_terms.as_slice()) {
        return Some(pair);
    }
    if let Some(pair) = split_by_formulas(
        rule,
        rule.terms.as_slice(),
        rule.precondition.as_slice(),
    ) {
        return Some(pair);
    }
    split_by_root(rule)
}

/// The same for the statements of a half.
fn split_by_half(rule: &Rule, half: Half, statements: &[Statement]) -> Option<(u32, u32)>
    ensures { Splits (StatementsLine rule.now half statements.now) result }
{
    for statement in statements {
        if let Some(pair) = split_by_statement(rule, half, statement) {
            return Some(pair);
        }
    }
    None
}

/// The same for one statement: for its operation, its operands and its choices.
fn split_by_statement(rule: &Rule, half: Half, statement: &Statement) -> Option<(u32, u32)>
    ensures { Splits (StatementLine rule.now half statement.now) result }
{
    match split_by_op(statement.class, statement.op) {
        Some(pair) => Some(pair),
        None => split_behind_op(rule, half, statement),
    }
}

/// The same for its operands and its choices.
fn split_behind_op(rule: &Rule, half: Half, statement: &Statement) -> Option<(u32, u32)>
    ensures { Splits (λ c d. OperandsLine rule.now (operands_of statement.now.op) c d ⊎ ChoicesLine rule.now half (choices_of statement.now) c d) result }
{
    let operands = Operands::of(statement.op);
    match split_by_operands(rule, operands.as_slice()) {
        Some(pair) => Some(pair),
        None => {
            let choices = Choices::of(statement);
            split_by_choices(rule, half, choices.as_slice())
        }
    }
}

/// The same for one operation, whose result has the class.
fn split_by_op(class: u32, op: Op) -> Option<(u32, u32)>
    ensures { Splits (IsPairIn (op_pairs class op)) result }
{
    match op {
        Op::Binary(_, _, left, right) => split_by_two(class, left.class, right.class),
        Op::Compare(_, _, left, right) => split_pair(left.class, right.class),
        Op::Unary(_, _, operand) => split_pair(class, operand.class),
        Op::Select(_, yes, no) => split_by_two(class, yes.class, no.class),
        Op::Convert(_, _, _, _) => None,
        Op::Freeze(operand, _) => split_pair(class, operand.class),
        Op::Copy(operand) => split_pair(class, operand.class),
    }
}

/// The class and one of the two others, if they are not all one.
fn split_by_two(class: u32, left: u32, right: u32) -> Option<(u32, u32)>
    ensures { Splits (IsPairIn ((class, left) ∷ (class, right) ∷ [])) result }
{
    match split_pair(class, left) {
        Some(pair) => Some(pair),
        None => split_pair(class, right),
    }
}

/// The same for the two results that assign the root.
fn split_by_root(rule: &Rule) -> Option<(u32, u32)>
    requires { IsRule rule.now }
    ensures { Splits (RootLine rule.now) result }
{
    let root = Name::Register(Register::Source(rule.source.len() as u32 - 1));
    split_classes(assigned_class(rule, root), root_class(rule, root))
}

/// The two classes, if there are both and they differ.
pub(crate) fn split_classes(left: Option<u32>, right: Option<u32>) -> Option<(u32, u32)>
    ensures { Splits (IsPairIn (paired left right)) result }
{
    match (left, right) {
        (Some(left), Some(right)) => split_pair(left, right),
        _ => None,
    }
}

/// The two classes, if they differ.
fn split_pair(left: u32, right: u32) -> Option<(u32, u32)>
    ensures { Splits (IsPairIn ((left, right) ∷ [])) result }
{
    if left == right {
        None
    } else {
        Some((left, right))
    }
}
