//! What the conjunction of two literals folds to by the operands of their gates: those rules of
//! Brummayer and Biere, "Local two-level and-inverter graph minimization without blowup", that make
//! no gate.
ghost use Rattle.std.specs.Prelude.{◌≡◌, ◌⊎◌, ℕ, Bool, List as Seq, IsTrue, IfSome};
ghost use Rattle.aig.specs.Literal.{Literal as Term, negation_of};
ghost use Rattle.aig.specs.Graph.{OperandsAmong, node_value, gate_value};
ghost use Rattle.aig.specs.Parts.{HasParts, PartsAmong, IsAndOfParts, IsOverParts, Exclude, Resolves};

use crate::gate::Gate;
use crate::literal::Literal;

/// A literal by the operands of its gate, its parts, if that is an `and` gate.
#[derive(Clone, Copy)]
pub(crate) enum Parts {
    /// The conjunction of two literals.
    Both(Literal, Literal),
    /// The negation of the conjunction of two literals.
    NotBoth(Literal, Literal),
    /// The literal isn't of an `and` gate.
    Whole,
}

/// The parts of a literal of this gate.
pub(crate) fn parts_of(gate: Gate, negated: bool) -> Parts
    ensures value { (inputs gates : Seq Bool) (l : Term) → l.negated ≡ negated →
        node_value inputs gates l.node ≡ gate_value inputs gates gate → HasParts (node_value inputs gates) l result }
    ensures among { (inputs gates : ℕ) → OperandsAmong inputs gates gate → PartsAmong inputs gates result }
{
    match gate {
        Gate::And(a, b) => {
            if negated {
                Parts::NotBoth(a, b)
            } else {
                Parts::Both(a, b)
            }
        }
        _ => Parts::Whole,
    }
}

/// The conjunction of two literals, where the second, or its negation, is a part of the first.
pub(crate) fn settled(a: Literal, parts: &Parts, b: Literal) -> Option<Literal>
    ensures value { IfSome result (λ l. IsAndOfParts a parts.now b Parts.Whole l) }
    ensures over { IfSome result (λ l. IsOverParts a parts.now b Parts.Whole l) }
{
    match parts {
        Parts::Both(x, y) if clash(*x, *y, b, b) => Some(Literal::ZERO),
        Parts::Both(x, y) if clash(*x, *y, b.negation(), b.negation()) => Some(a),
        Parts::NotBoth(x, y) if clash(b, b, *x, *y) => Some(b),
        _ => None,
    }
}

/// The conjunction of two literals, where a part of the one, or its negation, is a part of the
/// other.
pub(crate) fn met(a: Literal, parts: &Parts, b: Literal, others: &Parts) -> Option<Literal>
    ensures value { IfSome result (λ l. IsAndOfParts a parts.now b others.now l) }
    ensures over { IfSome result (λ l. IsOverParts a parts.now b others.now l) }
{
    match (parts, others) {
        (Parts::Both(x, y), Parts::Both(z, w)) if clash(*x, *y, *z, *w) => Some(Literal::ZERO),
        (Parts::Both(x, y), Parts::NotBoth(z, w)) if clash(*x, *y, *z, *w) => Some(a),
        (Parts::NotBoth(x, y), Parts::Both(z, w)) if clash(*z, *w, *x, *y) => Some(b),
        (Parts::NotBoth(x, y), Parts::NotBoth(z, w)) => resolved(*x, *y, *z, *w),
        _ => None,
    }
}

/// Whether one of the first two literals is the negation of one of the others.
fn clash(x: Literal, y: Literal, z: Literal, w: Literal) -> bool
    ensures { IsTrue result → Exclude x y z w }
{
    x.negates(z) || x.negates(w) || y.negates(z) || y.negates(w)
}

/// The conjunction of not (x and y) and not (z and w), where the pairs have a literal in common and
/// the other two are each other's negation: the negation of the common one (resolution).
fn resolved(x: Literal, y: Literal, z: Literal, w: Literal) -> Option<Literal>
    ensures value { IfSome result (Resolves x y z w) }
    ensures over { IfSome result (λ l. (l ≡ negation_of x) ⊎ (l ≡ negation_of y)) }
{
    if resolves(x, y, z, w) || resolves(x, y, w, z) {
        Some(x.negation())
    } else if resolves(y, x, z, w) || resolves(y, x, w, z) {
        Some(y.negation())
    } else {
        None
    }
}

/// Whether the first of one pair is the first of the other, and the second the negation of the
/// second.
fn resolves(x: Literal, y: Literal, z: Literal, w: Literal) -> bool
    ensures { IsTrue result → (x ≡ z) × (y ≡ negation_of w) }
{
    x == z && y.negates(w)
}
