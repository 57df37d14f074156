//! Gates over literals.
ghost use Rattle.std.specs.Prelude.{◌≡◌};
ghost use Rattle.aig.specs.Gate.{ordered_and, ordered_xor};

use crate::literal::Literal;

/// A gate with its operands, and its truth table over them.
#[derive(Clone, Copy, PartialEq, Eq, Hash)]
pub enum Gate {
    /// The conjunction: whether both literals are true.
    And(Literal, Literal),
    /// The xor: whether one of the literals is true, and not both.
    Xor(Literal, Literal),
    /// The choice (multiplexer): the second literal where the first is true, and else the third.
    Mux(Literal, Literal, Literal),
}

impl Gate {
    /// The conjunction of two literals, in the order of their codes.
    pub(crate) fn and(a: Literal, b: Literal) -> Gate
        ensures { result ≡ ordered_and a b }
    {
        if a.code() < b.code() {
            Gate::And(a, b)
        } else {
            Gate::And(b, a)
        }
    }

    /// The xor of two literals, in the order of their codes.
    pub(crate) fn xor(a: Literal, b: Literal) -> Gate
        ensures { result ≡ ordered_xor a b }
    {
        if a.code() < b.code() {
            Gate::Xor(a, b)
        } else {
            Gate::Xor(b, a)
        }
    }
}
