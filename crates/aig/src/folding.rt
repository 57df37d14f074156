//! Gates that fold to a literal, or to a gate of another kind, by the nodes of their operands
//! alone.
ghost use Rattle.std.specs.Prelude.{◌≡◌, ◌≢◌, false, IfSome, IfNone};
ghost use Rattle.aig.specs.Gate.{AreApart};
ghost use Rattle.aig.specs.Folding.{IsAnd, IsXor, IsOver, HasValueWhere};
ghost use Rattle.aig.specs.Choices.{IsChoice};

use crate::literal::{Literal, Node};

/// The conjunction of two literals, where it is one of them or a constant.
pub(crate) fn folded_and(a: Literal, b: Literal) -> Option<Literal>
    ensures value { IfSome result (IsAnd a b) }
    ensures over { IfSome result (IsOver a.node b.node) }
    ensures apart { IfNone result (AreApart a.node b.node) }
{
    match (a.node(), b.node()) {
        (Node::One, _) => Some(if a.is_negated() { a } else { b }),
        (_, Node::One) => Some(if b.is_negated() { b } else { a }),
        (first, second) if first == second => Some(joined(a, b)),
        _ => None,
    }
}

/// The conjunction of two literals of the same node.
fn joined(a: Literal, b: Literal) -> Literal
    requires { a.node ≡ b.node }
    ensures value { IsAnd a b result }
    ensures over { IsOver a.node b.node result }
{
    if a.is_negated() == b.is_negated() {
        a
    } else {
        Literal::ZERO
    }
}

/// The xor of two literals that aren't negated, where it is one of them, its negation or a
/// constant.
#[tactic(auto, using(crate::proofs::Truth::xor_choice))]
pub(crate) fn folded_xor(a: Literal, b: Literal) -> Option<Literal>
    requires plain_a { a.negated ≡ false }
    requires plain_b { b.negated ≡ false }
    ensures value { IfSome result (IsXor a b) }
    ensures over { IfSome result (IsOver a.node b.node) }
    ensures apart { IfNone result (AreApart a.node b.node) }
{
    match (a.node(), b.node()) {
        (Node::One, _) => Some(b.negation()),
        (_, Node::One) => Some(a.negation()),
        (first, second) if first == second => Some(Literal::ZERO),
        _ => None,
    }
}

/// What a choice between two literals by a third (a multiplexer) folds to.
#[derive(Clone, Copy)]
pub(crate) enum Choice {
    /// A literal that the graph has already.
    Known(Literal),
    /// The conjunction of two literals.
    Both(Literal, Literal),
    /// The negation of the conjunction of two literals.
    NotBoth(Literal, Literal),
    /// The xor of two literals.
    OneOf(Literal, Literal),
    /// Nothing: it takes a gate of its own.
    Open,
}

/// The choice that is the first arm where the condition is true, and else the second. The condition
/// isn't negated.
pub(crate) fn folded_mux(condition: Literal, yes: Literal, no: Literal) -> Choice
    requires plain { condition.negated ≡ false }
    ensures { IsChoice condition yes no result }
{
    if condition.node() == Node::One {
        return Choice::Known(yes);
    }
    match (fixed(yes, condition, true), fixed(no, condition, false)) {
        (Some(true), _) => Choice::NotBoth(condition.negation(), no.negation()),
        (Some(false), _) => Choice::Both(condition.negation(), no),
        (None, Some(true)) => Choice::NotBoth(condition, yes.negation()),
        (None, Some(false)) => Choice::Both(condition, yes),
        (None, None) => folded_arms(condition, yes, no),
    }
}

/// The value that an arm has wherever the condition has the value `holds`, if the arm's node is the
/// constant or the condition's.
fn fixed(arm: Literal, condition: Literal, holds: bool) -> Option<bool>
    requires plain { condition.negated ≡ false }
    ensures value { IfSome result (λ value. HasValueWhere arm condition holds value) }
    ensures apart { IfNone result ((arm.node ≢ Node.One) × (condition.node ≢ arm.node)) }
{
    match arm.node() {
        Node::One => Some(!arm.is_negated()),
        node if node == condition.node() => Some(arm.is_negated() != holds),
        _ => None,
    }
}

/// A choice between arms whose nodes are neither the constant nor the condition's.
fn folded_arms(condition: Literal, yes: Literal, no: Literal) -> Choice
    requires condition { condition.node ≢ Node.One }
    requires yes { (yes.node ≢ Node.One) × (condition.node ≢ yes.node) }
    requires no { (no.node ≢ Node.One) × (condition.node ≢ no.node) }
    ensures { IsChoice condition yes no result }
{
    if yes.node() == no.node() {
        choice_of_sign(condition, yes, no)
    } else {
        Choice::Open
    }
}

/// A choice between arms of the same node.
fn choice_of_sign(condition: Literal, yes: Literal, no: Literal) -> Choice
    requires { yes.node ≡ no.node }
    ensures { IsChoice condition yes no result }
{
    if yes.is_negated() == no.is_negated() {
        Choice::Known(yes)
    } else {
        Choice::OneOf(condition, no)
    }
}
