//! Resolves terms, whose names may all be used where they are.

ghost use Rattle.std.specs.Prelude.{◌≡◌, ◌+◌, ◌≤◌, ◌∷◌, [], length, flat_map, sum_by, IfOk, OnOk};
ghost use Rattle.rule_parse.specs.Contents.{arguments_of, terms_of_argument, target_terms};
ghost use Rattle.rule_reader.specs.Meaning.{nodes_in, AreNames, NodeMeans, TermsMean};
ghost use Rattle.rule_reader.specs.WellFormed.{IsWellFormed};
ghost use Rattle.rule_reader.specs.FaultKinds.{Each, NodeIsBound};
ghost use Rattle.rule_reader.specs.KnownRules.{HalfIsBound, IsPlaceOf, NodeFits, TermIsReady, HasReadyTerm, AddsTerms};

use crate::names::Names;
use crate::place::{Half, UseSite};
use crate::resolve::{constant, register};
use lists::List;
use rule_core::{Node, Term};
use rule_parse::{RawArgument, RawNode, RawOp, RawRule};
use std::alloc::{AllocError, Global};

/// Resolves a node of a term, before which there are `before` nodes of other terms.
fn node(rule: &RawRule, names: &Names, place: UseSite, before: u32, written: &RawNode) -> Node
    requires rule { IsWellFormed rule.now }
    requires names { AreNames rule.now.source names.now }
    requires place { IsPlaceOf rule.now place }
    requires bound { NodeIsBound rule.now place written.now }
    requires fits { NodeFits before written.now }
    ensures { NodeMeans rule.now names.now before written.now result }
{
    match written {
        RawNode::Literal(number) => Node::Literal(*number),
        RawNode::Constant(name) => Node::Constant(constant(rule, names, name.as_slice())),
        RawNode::Register(name) => { Node::Register(register(rule, names, place, name.as_slice())) }
        RawNode::Choice(k) => Node::Choice(*k),
        RawNode::Width(name) => Node::Width(register(rule, names, place, name.as_slice()), 0),
        RawNode::Unary(function, operand) => Node::Unary(*function, before + operand),
        RawNode::Binary(opcode, left, right) => {
            Node::Binary(*opcode, before + left, before + right)
        }
    }
}

/// Appends the nodes of a term to those of others.
pub(crate) fn add_term(
    alloc: Global,
    terms: &mut List<Term>,
    rule: &RawRule,
    names: &Names,
    place: UseSite,
    written: &[RawNode],
) -> Result<(), AllocError>
    requires rule { IsWellFormed rule.now }
    requires names { AreNames rule.now.source names.now }
    requires place { IsPlaceOf rule.now place }
    requires ready { TermIsReady rule.now place written.now }
    requires few { length terms.old + length written.now ≤ 256 }
    ensures means { OnOk result (AddsTerms rule.now names.now terms.old (written.now ∷ []) terms.new) }
    ensures count { OnOk result (length terms.new ≡ length terms.old + length written.now) }
{
    let before = terms.len() as u32;
    for written in written {
        terms.push(Term {
            class: 0,
            node: node(rule, names, place, before, written),
        })?;
    }
    Ok(())
}

/// Appends the nodes of the term that an operand is, if it is one.
fn add_argument(
    alloc: Global,
    terms: &mut List<Term>,
    rule: &RawRule,
    names: &Names,
    place: UseSite,
    read: &RawArgument,
) -> Result<(), AllocError>
    requires rule { IsWellFormed rule.now }
    requires names { AreNames rule.now.source names.now }
    requires place { IsPlaceOf rule.now place }
    requires ready { HasReadyTerm rule.now place read.now }
    requires few { length terms.old + nodes_in (terms_of_argument read.now) ≤ 256 }
    ensures means { OnOk result (AddsTerms rule.now names.now terms.old (terms_of_argument read.now) terms.new) }
    ensures count { OnOk result (length terms.new ≡ length terms.old + nodes_in (terms_of_argument read.now)) }
{
    match read {
        RawArgument::Term(term) => add_term(alloc, terms, rule, names, place, term.as_slice()),
        _ => Ok(()),
    }
}

/// Appends the nodes of the terms that a statement reads.
fn add_op(
    alloc: Global,
    terms: &mut List<Term>,
    rule: &RawRule,
    names: &Names,
    place: UseSite,
    op: &RawOp,
) -> Result<(), AllocError>
    requires rule { IsWellFormed rule.now }
    requires names { AreNames rule.now.source names.now }
    requires place { IsPlaceOf rule.now place }
    requires ready { Each (HasReadyTerm rule.now place) (arguments_of op.now) }
    requires few { length terms.old + sum_by (λ a. nodes_in (terms_of_argument a)) (arguments_of op.now) ≤ 256 }
    ensures means { OnOk result (AddsTerms rule.now names.now terms.old (flat_map terms_of_argument (arguments_of op.now)) terms.new) }
    ensures count { OnOk result (length terms.new ≡ length terms.old + sum_by (λ a. nodes_in (terms_of_argument a)) (arguments_of op.now)) }
{
    match op {
        RawOp::Binary(_, _, left, right) | RawOp::Compare(_, _, left, right) => {
            add_argument(alloc, terms, rule, names, place, &left.value)?;
            add_argument(alloc, terms, rule, names, place, &right.value)
        }
        RawOp::Select(condition, if_true, if_false) => {
            add_argument(alloc, terms, rule, names, place, &condition.value)?;
            add_argument(alloc, terms, rule, names, place, &if_true.value)?;
            add_argument(alloc, terms, rule, names, place, &if_false.value)
        }
        RawOp::Unary(_, _, operand)
        | RawOp::Convert(_, _, operand, _)
        | RawOp::Freeze(operand)
        | RawOp::Copy(operand) => { add_argument(alloc, terms, rule, names, place, &operand.value) }
    }
}

/// The nodes of the target's terms.
pub(crate) fn target_terms(
    alloc: Global,
    rule: &RawRule,
    names: &Names,
) -> Result<List<Term>, AllocError>
    requires rule { IsWellFormed rule.now }
    requires names { AreNames rule.now.source names.now }
    requires bound { HalfIsBound rule.now Half.Target }
    ensures { IfOk result (TermsMean rule.now names.now (target_terms rule.now)) }
{
    let mut terms = List::new(alloc);
    let target = rule.target.as_slice();
    for (place, statement) in target.iter().enumerate() {
        add_op(
            alloc,
            &mut terms,
            rule,
            names,
            UseSite::Target(place),
            &statement.op,
        )?;
    }
    Ok(terms)
}
