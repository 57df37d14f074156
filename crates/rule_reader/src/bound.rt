//! The check that all that a rule names may be used where it is.

ghost use Rattle.std.specs.Prelude.{◌↔◌, IsTrue};
ghost use Rattle.rule_reader.specs.Meaning.{AreNames, IsConstant};
ghost use Rattle.rule_reader.specs.WellFormed.{IsWellFormed};
ghost use Rattle.rule_reader.specs.FaultKinds.{Each, NodeIsBound, TermIsBound, ArgumentIsBound, OpIsBound, FormulaIsBound, StandsAt, StatementUnbound, PreconditionUnbound, WitnessUnbound, UnboundAt};
ghost use Rattle.rule_reader.specs.KnownRules.{half_of, place_in, IsPlaceOf};
ghost use Rattle.rule_reader.specs.Faults.{IsFirst};

use crate::counts::choices_in;
use crate::names::Names;
use crate::place::{Half, UseSite};
use crate::registers::{is_among, is_assigned};
use crate::resolve::found;
use rule_parse::{RawArgument, RawFormula, RawNode, RawOp, RawRule, RawTerm};

/// Whether the name is that of a constant of the source.
fn is_constant(rule: &RawRule, names: &Names, name: &[u8]) -> bool
    requires { AreNames rule.now.source names.now }
    ensures { IsTrue result ↔ IsConstant rule.now.source name.now }
{
    is_among(names.constants.as_slice(), name)
}

/// Whether what a node of a term names may be used at the place.
fn node_is_bound(rule: &RawRule, names: &Names, place: UseSite, node: &RawNode) -> bool
    requires rule { IsWellFormed rule.now }
    requires names { AreNames rule.now.source names.now }
    requires place { IsPlaceOf rule.now place }
    ensures { IsTrue result ↔ NodeIsBound rule.now place node.now }
{
    match node {
        RawNode::Constant(name) => is_constant(rule, names, name.as_slice()),
        RawNode::Register(name) | RawNode::Width(name) => {
            found(rule, names, place, name.as_slice()).is_some()
        }
        RawNode::Choice(k) => *k < choices_in(rule, Half::Target),
        RawNode::Literal(_) | RawNode::Unary(_, _) | RawNode::Binary(_, _, _) => true,
    }
}

/// Whether what a term names may be used at the place.
fn term_is_bound(rule: &RawRule, names: &Names, place: UseSite, term: &[RawNode]) -> bool
    requires rule { IsWellFormed rule.now }
    requires names { AreNames rule.now.source names.now }
    requires place { IsPlaceOf rule.now place }
    ensures { IsTrue result ↔ TermIsBound rule.now place term.now }
{
    for node in term {
        if !node_is_bound(rule, names, place, node) {
            return false;
        }
    }
    true
}

/// Whether what an operand names may be used at the place.
fn argument_is_bound(rule: &RawRule, names: &Names, place: UseSite, read: &RawArgument) -> bool
    requires rule { IsWellFormed rule.now }
    requires names { AreNames rule.now.source names.now }
    requires place { IsPlaceOf rule.now place }
    ensures { IsTrue result ↔ ArgumentIsBound rule.now place read.now }
{
    match read {
        RawArgument::Register(name) => found(rule, names, place, name.as_slice()).is_some(),
        RawArgument::Constant(name) => is_constant(rule, names, name.as_slice()),
        RawArgument::Term(term) => term_is_bound(rule, names, place, term.as_slice()),
        RawArgument::Literal(_) | RawArgument::Truth(_) | RawArgument::Undef => true,
    }
}

/// Whether what a statement reads may be used at the place.
fn op_is_bound(rule: &RawRule, names: &Names, place: UseSite, op: &RawOp) -> bool
    requires rule { IsWellFormed rule.now }
    requires names { AreNames rule.now.source names.now }
    requires place { IsPlaceOf rule.now place }
    ensures { IsTrue result ↔ OpIsBound rule.now place op.now }
{
    match op {
        RawOp::Binary(_, _, left, right) | RawOp::Compare(_, _, left, right) => {
            argument_is_bound(rule, names, place, &left.value)
                && argument_is_bound(rule, names, place, &right.value)
        }
        RawOp::Select(condition, if_true, if_false) => {
            argument_is_bound(rule, names, place, &condition.value)
                && argument_is_bound(rule, names, place, &if_true.value)
                && argument_is_bound(rule, names, place, &if_false.value)
        }
        RawOp::Unary(_, _, operand)
        | RawOp::Convert(_, _, operand, _)
        | RawOp::Freeze(operand)
        | RawOp::Copy(operand) => { argument_is_bound(rule, names, place, &operand.value) }
    }
}

/// The first line of a half with a statement that names what may not be used there.
fn unbound_statement(rule: &RawRule, names: &Names, half: Half) -> Option<usize>
    requires rule { IsWellFormed rule.now }
    requires names { AreNames rule.now.source names.now }
    ensures { IsFirst (StandsAt (half_of half rule.now) (StatementUnbound rule.now (place_in half))) result }
{
    let statements = half.of(rule);
    for (place, statement) in statements.iter().enumerate() {
        if !op_is_bound(rule, names, half.place(place), &statement.op) {
            return Some(statement.line);
        }
    }
    None
}

/// Whether what a node of `Pre:` names may be used there.
fn formula_node_is_bound(rule: &RawRule, names: &Names, node: &RawFormula) -> bool
    requires rule { IsWellFormed rule.now }
    requires names { AreNames rule.now.source names.now }
    ensures { IsTrue result ↔ FormulaIsBound rule.now node.now }
{
    match node {
        RawFormula::Compare(_, left, right) => {
            term_is_bound(rule, names, UseSite::Heading, left.as_slice())
                && term_is_bound(rule, names, UseSite::Heading, right.as_slice())
        }
        RawFormula::IsPowerOfTwo(term) | RawFormula::IsSignBit(term) => {
            term_is_bound(rule, names, UseSite::Heading, term.as_slice())
        }
        RawFormula::HasOneUse(name) => {
            let source = rule.source.as_slice();
            is_assigned(source, source.len() - 1, name.as_slice())
        }
        RawFormula::MaskedValueIsZero(name, mask) => {
            found(rule, names, UseSite::Heading, name.as_slice()).is_some()
                && term_is_bound(rule, names, UseSite::Heading, mask.as_slice())
        }
        RawFormula::IsKnownNonZero(name) => {
            found(rule, names, UseSite::Heading, name.as_slice()).is_some()
        }
        RawFormula::Not(_) | RawFormula::And(_, _) | RawFormula::Or(_, _) => true,
    }
}

/// Whether what the nodes of `Pre:` name may be used there.
fn formula_is_bound(rule: &RawRule, names: &Names, formula: &[RawFormula]) -> bool
    requires rule { IsWellFormed rule.now }
    requires names { AreNames rule.now.source names.now }
    ensures { IsTrue result ↔ Each (FormulaIsBound rule.now) formula.now }
{
    for node in formula {
        if !formula_node_is_bound(rule, names, node) {
            return false;
        }
    }
    true
}

/// Whether what expressions of `Wit:` name may be used there.
fn expressions_are_bound(rule: &RawRule, names: &Names, expressions: &[RawTerm]) -> bool
    requires rule { IsWellFormed rule.now }
    requires names { AreNames rule.now.source names.now }
    ensures { IsTrue result ↔ Each (TermIsBound rule.now UseSite.Heading) expressions.now }
{
    for expression in expressions {
        if !term_is_bound(rule, names, UseSite::Heading, expression.as_slice()) {
            return false;
        }
    }
    true
}

/// The line of `Pre:`, where that names what may not be used there.
fn unbound_precondition(rule: &RawRule, names: &Names) -> Option<usize>
    requires rule { IsWellFormed rule.now }
    requires names { AreNames rule.now.source names.now }
    ensures { IsFirst (PreconditionUnbound rule.now) result }
{
    match &rule.precondition {
        Some(written) if !formula_is_bound(rule, names, written.formula.as_slice()) => {
            Some(written.line)
        }
        _ => None,
    }
}

/// The line of `Wit:`, where that names what may not be used there.
fn unbound_witness(rule: &RawRule, names: &Names) -> Option<usize>
    requires rule { IsWellFormed rule.now }
    requires names { AreNames rule.now.source names.now }
    ensures { IsFirst (WitnessUnbound rule.now) result }
{
    match &rule.witness {
        Some(written) if !expressions_are_bound(rule, names, written.expressions.as_slice()) => {
            Some(written.line)
        }
        _ => None,
    }
}

/// The first line on which something is named that may not be used there: `Pre:` is tested before `Wit:`, that before
/// the source, and the source before the target, which is the order of their lines.
pub(crate) fn unbound(rule: &RawRule, names: &Names) -> Option<usize>
    requires rule { IsWellFormed rule.now }
    requires names { AreNames rule.now.source names.now }
    ensures { IsFirst (UnboundAt rule.now) result }
{
    if let Some(line) = unbound_precondition(rule, names) {
        return Some(line);
    }
    if let Some(line) = unbound_witness(rule, names) {
        return Some(line);
    }
    match unbound_statement(rule, names, Half::Source) {
        Some(line) => Some(line),
        None => unbound_statement(rule, names, Half::Target),
    }
}
