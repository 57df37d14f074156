//! The width of a position under a typing.

ghost use Rattle.std.specs.Prelude.{◌≡◌, ◌+◌, ◌++◌, ◌<◌, ◌≤◌, length, Some, slice_get, flat_map, MatchResult};
ghost use Rattle.rule_core.specs.Checks.{IsRule};
ghost use Rattle.rule_core.specs.Positions.{classes_of, classes_of_statement, classes_of_term, terms_in};
ghost use Rattle.rule_core.specs.Typing.{IsTyping, width_at};

use crate::rule::{Node, Op, Rule, Statement, Term, Typing};
use ops::Width;

/// The width of a position of the rule. Positions are counted from 0 in the order of the text: of each statement of the
/// source, and then of the target, the result and then the operands; behind these the nodes of the terms, those of
/// `Wit:` last. A node `width(%x)` has two positions, its own and that of its register. It takes as many steps as there
/// are statements and nodes.
pub fn width_at(rule: &Rule, typing: &Typing, position: u32) -> Width
    requires typing { IsTyping rule.now typing.now }
    requires position { position < length (classes_of rule.now) }
    ensures { width_at rule.now typing.now position ≡ Some result }
{
    typing.as_slice()[class_at(rule, position) as usize]
}

/// How many positions the rule has.
pub fn positions(rule: &Rule) -> u32
    requires { IsRule rule.now }
    ensures { result ≡ length (classes_of rule.now) }
{
    positions_of(rule.source.as_slice())
        + positions_of(rule.target.as_slice())
        + positions_among(rule.terms.as_slice())
        + positions_among(rule.witness_terms.as_slice())
}

/// How many positions some nodes have.
fn positions_among(terms: &[Term]) -> u32
    requires { length terms.now ≤ 256 }
    ensures count { result ≡ length (flat_map classes_of_term terms.now) }
    ensures few { result ≤ 512 }
{
    let mut count = 0;
    for term in terms {
        count += match term.node {
            Node::Width(_, _) => 2,
            _ => 1,
        };
    }
    count
}

/// How many positions some statements have.
fn positions_of(statements: &[Statement]) -> u32
    requires { length statements.now ≤ 32 }
    ensures count { result ≡ length (flat_map classes_of_statement statements.now) }
    ensures few { result ≤ 128 }
{
    let mut count = 0;
    for statement in statements {
        count += match statement.op {
            Op::Select(_, _, _) => 4,
            Op::Binary(_, _, _, _) | Op::Compare(_, _, _, _) => 3,
            Op::Unary(_, _, _) | Op::Convert(_, _, _, _) | Op::Freeze(_, _) | Op::Copy(_) => 2,
        };
    }
    count
}

/// The class that a position of the rule keeps.
pub fn class_at(rule: &Rule, position: u32) -> u32
    requires { position < length (classes_of rule.now) }
    ensures { slice_get (classes_of rule.now) position ≡ Some result }
{
    match class_among(rule.source.as_slice(), position as usize) {
        Ok(class) => class,
        Err(rest) => class_behind_source(rule, rest),
    }
}

/// The class of a position that is behind the source's, which are counted off already.
fn class_behind_source(rule: &Rule, position: usize) -> u32
    requires { position < length (flat_map classes_of_statement rule.now.target ++ flat_map classes_of_term (terms_in rule.now)) }
    ensures { slice_get (flat_map classes_of_statement rule.now.target ++ flat_map classes_of_term (terms_in rule.now)) position ≡ Some result }
{
    match class_among(rule.target.as_slice(), position) {
        Ok(class) => class,
        Err(rest) => match class_in_terms(rule.terms.as_slice(), rest) {
            Ok(class) => class,
            Err(rest) => match class_in_terms(rule.witness_terms.as_slice(), rest) {
                Ok(class) => class,
                Err(_) => unreachable!(),
            },
        },
    }
}

/// The class at this position among those of the nodes, or, where these are fewer, the position counted from their end.
fn class_in_terms(terms: &[Term], position: usize) -> Result<u32, usize>
    ensures { MatchResult result (λ class. slice_get (flat_map classes_of_term terms.now) position ≡ Some class) (λ rest. position ≡ length (flat_map classes_of_term terms.now) + rest) }
{
    let mut rest = position;
    for term in terms {
        rest = match class_in_term(term, rest) {
            Ok(class) => return Ok(class),
            Err(rest) => rest,
        };
    }
    Err(rest)
}

/// The same for the positions of one node.
fn class_in_term(term: &Term, position: usize) -> Result<u32, usize>
    ensures { MatchResult result (λ class. slice_get (classes_of_term term.now) position ≡ Some class) (λ rest. position ≡ length (classes_of_term term.now) + rest) }
{
    match (position, term.node) {
        (0, _) => Ok(term.class),
        (1, Node::Width(_, class)) => Ok(class),
        (_, Node::Width(_, _)) => Err(position - 2),
        _ => Err(position - 1),
    }
}

/// The class at this position among those of the statements, or, where these are fewer, the position counted from their
/// end.
fn class_among(statements: &[Statement], position: usize) -> Result<u32, usize>
    ensures { MatchResult result (λ class. slice_get (flat_map classes_of_statement statements.now) position ≡ Some class) (λ rest. position ≡ length (flat_map classes_of_statement statements.now) + rest) }
{
    let mut rest = position;
    for statement in statements {
        rest = match class_in(statement, rest) {
            Ok(class) => return Ok(class),
            Err(rest) => rest,
        };
    }
    Err(rest)
}

/// The same for the positions of one statement.
fn class_in(statement: &Statement, position: usize) -> Result<u32, usize>
    ensures { MatchResult result (λ class. slice_get (classes_of_statement statement.now) position ≡ Some class) (λ rest. position ≡ length (classes_of_statement statement.now) + rest) }
{
    match (position, statement.op) {
        (0, _) => Ok(statement.class),
        (1, Op::Binary(_, _, left, _) | Op::Compare(_, _, left, _)) => Ok(left.class),
        (2, Op::Binary(_, _, _, right) | Op::Compare(_, _, _, right)) => Ok(right.class),
        (_, Op::Binary(_, _, _, _) | Op::Compare(_, _, _, _)) => Err(position - 3),
        (1, Op::Select(condition, _, _)) => Ok(condition.class),
        (2, Op::Select(_, yes, _)) => Ok(yes.class),
        (3, Op::Select(_, _, no)) => Ok(no.class),
        (_, Op::Select(_, _, _)) => Err(position - 4),
        (
            1,
            Op::Unary(_, _, operand)
            | Op::Convert(_, _, operand, _)
            | Op::Freeze(operand, _)
            | Op::Copy(operand),
        ) => Ok(operand.class),
        (_, Op::Unary(_, _, _) | Op::Convert(_, _, _, _) | Op::Freeze(_, _) | Op::Copy(_)) => {
            Err(position - 2)
        }
    }
}
