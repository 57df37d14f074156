//! Literals, and the nodes that they name.
ghost use Rattle.std.specs.Prelude.{◌≡◌, ◌^◌, ◌-◌, ◌<◌, false, IsTrue};
ghost use Rattle.aig.specs.Literal.{code_of, negation_of};

use std::marker::Model;

/// The numbers of inputs and of gates are below this, so that each literal has a code.
pub(crate) const LIMIT: usize = (1 << 30) - 1;

/// What a literal names. Inputs and gates are numbered separately, each from 0 in the order in
/// which they were made.
#[derive(Clone, Copy, PartialEq, Eq)]
pub enum Node {
    /// The constant that is true.
    One,
    /// The input of this number.
    Input(usize),
    /// The output of the gate of this number.
    Output(usize),
}

/// A node or its negation, so that a negation takes no gate.
///
/// It is kept as a code: twice the place of its node, and one more where it is negated. The
/// constant has the place 0, the inputs have the odd places, and the gates the even ones from 2 on.
#[derive(Clone, Copy, PartialEq, Eq, Hash)]
pub struct Literal {
    code: u32,
}

impl Model for Literal {
    ghost use Rattle.std.proofs.Common.{ap};
    ghost use Rattle.aig.specs.Literal.{Literal, literal_at, code_of, code_of-literal_at};

    ghost Value = { Literal };

    ghost view = { λ l. literal_at l.code };

    ghost inverse = { λ l. record { code = code_of l } };

    ghost inverse_ok = { λ l h. ap (λ n. record { code = n }) (code_of-literal_at l.code) };
}

impl Literal {
    /// The constant that is true.
    pub const ONE: Literal = Literal { code: 0 };

    /// The constant that is false.
    pub const ZERO: Literal = Literal { code: 1 };

    /// The input of this number.
    pub(crate) fn input(number: usize) -> Literal
        requires { number < 2 ^ 30 - 1 }
        ensures { result ≡ record { node = Node.Input number; negated = false } }
    {
        Literal {
            code: 4 * number as u32 + 2,
        }
    }

    /// The output of the gate of this number.
    pub(crate) fn output(number: usize) -> Literal
        requires { number < 2 ^ 30 - 1 }
        ensures { result ≡ record { node = Node.Output number; negated = false } }
    {
        Literal {
            code: 4 * number as u32 + 4,
        }
    }

    /// The node of the literal.
    pub fn node(self) -> Node
        ensures { result ≡ self.node }
    {
        let place = self.code as usize / 2;
        if place == 0 {
            Node::One
        } else if place % 2 == 0 {
            Node::Output(place / 2 - 1)
        } else {
            Node::Input(place / 2)
        }
    }

    /// Whether the literal is its node's negation.
    pub fn is_negated(self) -> bool
        ensures { result ≡ self.negated }
    {
        self.code % 2 == 1
    }

    /// The literal's negation.
    pub fn negation(self) -> Literal
        ensures { result ≡ negation_of self }
    {
        Literal {
            code: self.code ^ 1,
        }
    }

    /// The literal's node, not negated.
    pub(crate) fn plain(self) -> Literal
        ensures { result ≡ record self { negated = false } }
    {
        Literal {
            code: self.code - self.code % 2,
        }
    }

    /// Whether one literal is the other's negation.
    pub(crate) fn negates(self, other: Literal) -> bool
        ensures { IsTrue result → self ≡ negation_of other }
    {
        self == other.negation()
    }

    /// The code, by which operands are ordered.
    pub(crate) fn code(self) -> u32
        ensures { result ≡ code_of self }
    {
        self.code
    }
}
