//! Which widths the classes of a rule may have.

ghost use Rattle.std.specs.Prelude.{◌≡◌, ◌≤◌, ◌↔◌, ℕ, IsTrue, slice_get, flat_map, Some};
ghost use Rattle.rule_core.specs.Positions.{operands_of, operands_in, terms_in, classes_of_statement, classes_of_term};
ghost use Rattle.rule_core.specs.Typing.{IsTyping, FitsLiteral};
ghost use Rattle.rule_typing.specs.Classes.{IsClassified, HasClasses};
ghost use Rattle.rule_typing.specs.FittingWidths.{FitsIn, LiteralsFit, TermFits, TermsFit, MayHaveWidth, IsPast};

use crate::casts::casts_fit;
use crate::fixed::other_fixed_width;
use crate::operands::Operands;
use lists::List;
use ops::Width;
use rule_core::{Argument, Node, Op, Operand, Rule, Statement, Term};

/// Whether the widths are a typing of the rule, whose classes are written. It takes no memory, and goes over all
/// operands and nodes once for each class.
pub fn is_typing(rule: &Rule, widths: &List<Width>) -> bool
    requires { IsClassified rule.now }
    ensures { IsTrue result ↔ IsTyping rule.now widths.now }
{
    let widths = widths.as_slice();
    if widths.len() != class_count(rule) {
        return false;
    }
    classes_fit(rule, widths) && casts_fit(rule, widths)
}

/// Whether each class may have the width at its number.
fn classes_fit(rule: &Rule, widths: &[Width]) -> bool
    ensures { IsTrue result ↔ ((c N : ℕ) → slice_get widths.now c ≡ Some N → MayHaveWidth rule.now c N) }
{
    for (class, width) in widths.iter().enumerate() {
        if !class_fits(rule, class, *width) {
            return false;
        }
    }
    true
}

/// Whether a class may have the width, whatever the others have.
pub(crate) fn class_fits(rule: &Rule, class: usize, width: Width) -> bool
    ensures { IsTrue result ↔ MayHaveWidth rule.now class width }
{
    match other_fixed_width(rule, class, &Some(width)) {
        Some(_) => false,
        None => literals_fit(rule, class, width.bits()),
    }
}

/// Whether the literals of the class fit a width of `bits` bits.
fn literals_fit(rule: &Rule, class: usize, bits: u32) -> bool
    requires { (1 ≤ bits) × (bits ≤ 64) }
    ensures { IsTrue result ↔ (LiteralsFit (operands_in rule.now) class bits × TermsFit (terms_in rule.now) class bits) }
{
    all_operands_fit(rule, class, bits) && all_terms_fit(rule, class, bits)
}

/// The same for all operands.
fn all_operands_fit(rule: &Rule, class: usize, bits: u32) -> bool
    requires { (1 ≤ bits) × (bits ≤ 64) }
    ensures { IsTrue result ↔ LiteralsFit (operands_in rule.now) class bits }
{
    statements_fit(rule.source.as_slice(), class, bits)
        && statements_fit(rule.target.as_slice(), class, bits)
}

/// The same for all nodes.
fn all_terms_fit(rule: &Rule, class: usize, bits: u32) -> bool
    requires { (1 ≤ bits) × (bits ≤ 64) }
    ensures { IsTrue result ↔ TermsFit (terms_in rule.now) class bits }
{
    terms_fit(rule.terms.as_slice(), class, bits)
        && terms_fit(rule.witness_terms.as_slice(), class, bits)
}

/// The same for these nodes.
fn terms_fit(terms: &[Term], class: usize, bits: u32) -> bool
    requires { (1 ≤ bits) × (bits ≤ 64) }
    ensures { IsTrue result ↔ TermsFit terms.now class bits }
{
    for term in terms {
        if !term_fits(*term, class, bits) {
            return false;
        }
    }
    true
}

/// Whether a node fits the width, if it is a literal of the class.
fn term_fits(term: Term, class: usize, bits: u32) -> bool
    requires { (1 ≤ bits) × (bits ≤ 64) }
    ensures { IsTrue result ↔ TermFits class bits term }
{
    let Node::Literal(literal) = term.node else {
        return true;
    };
    term.class as usize != class || fits_literal(bits, literal)
}

/// The same for the operands of these statements.
fn statements_fit(statements: &[Statement], class: usize, bits: u32) -> bool
    requires { (1 ≤ bits) × (bits ≤ 64) }
    ensures { IsTrue result ↔ LiteralsFit (flat_map (λ s. operands_of s.op) statements.now) class bits }
{
    for statement in statements {
        let operands = Operands::of(statement.op);
        if !operands_fit(operands.as_slice(), class, bits) {
            return false;
        }
    }
    true
}

/// The same for these operands.
fn operands_fit(operands: &[Operand], class: usize, bits: u32) -> bool
    requires { (1 ≤ bits) × (bits ≤ 64) }
    ensures { IsTrue result ↔ LiteralsFit operands.now class bits }
{
    for operand in operands {
        if !fits(*operand, class, bits) {
            return false;
        }
    }
    true
}

/// Whether an operand fits the width, if it is a literal of the class.
fn fits(operand: Operand, class: usize, bits: u32) -> bool
    requires { (1 ≤ bits) × (bits ≤ 64) }
    ensures { IsTrue result ↔ FitsIn class bits operand }
{
    let Argument::Literal(literal) = operand.value else {
        return true;
    };
    operand.class as usize != class || fits_literal(bits, literal)
}

/// Whether the literal can be written at `iN`: as an unsigned number of N bits or in two's complement.
fn fits_literal(bits: u32, literal: i128) -> bool
    requires { (1 ≤ bits) × (bits ≤ 64) }
    ensures { IsTrue result ↔ FitsLiteral bits literal }
{
    let half = (1u128 << (bits - 1)) as i128;
    let modulus = (1u128 << bits) as i128;
    -half <= literal && literal < modulus
}

/// How many classes there are; they are numbered from 0. It takes as many steps as the rule has operands and nodes.
pub fn class_count(rule: &Rule) -> usize
    requires { IsClassified rule.now }
    ensures { HasClasses rule.now result }
{
    let source = past_statements(rule.source.as_slice());
    let target = past_statements(rule.target.as_slice());
    let terms = past_terms(rule.terms.as_slice());
    let witness_terms = past_terms(rule.witness_terms.as_slice());
    source.max(target).max(terms.max(witness_terms))
}

/// One more than the greatest class of the nodes.
fn past_terms(terms: &[Term]) -> usize
    ensures { IsPast (flat_map classes_of_term terms.now) result }
{
    let mut past = 0;
    for term in terms {
        past = past.max(past_term(*term));
    }
    past
}

/// One more than the greatest class of a node.
fn past_term(term: Term) -> usize
    ensures { IsPast (classes_of_term term) result }
{
    let Node::Width(_, register_class) = term.node else {
        return term.class as usize + 1;
    };
    term.class.max(register_class) as usize + 1
}

/// One more than the greatest class of the statements.
fn past_statements(statements: &[Statement]) -> usize
    ensures { IsPast (flat_map classes_of_statement statements.now) result }
{
    let mut past = 0;
    for statement in statements {
        past = past.max(past_statement(statement));
    }
    past
}

/// One more than the greatest class of a statement.
fn past_statement(statement: &Statement) -> usize
    ensures { IsPast (classes_of_statement statement.now) result }
{
    let first = statement.class;
    let class = match statement.op {
        Op::Binary(_, _, left, right) => first.max(left.class).max(right.class),
        Op::Compare(_, _, left, right) => first.max(left.class).max(right.class),
        Op::Select(condition, yes, no) => first.max(condition.class).max(yes.class).max(no.class),
        Op::Unary(_, _, operand) => first.max(operand.class),
        Op::Convert(_, _, operand, _) => first.max(operand.class),
        Op::Freeze(operand, _) => first.max(operand.class),
        Op::Copy(operand) => first.max(operand.class),
    };
    class as usize + 1
}
