//! A graph is a circuit.

use crate::graph::Aig;
use crate::literal::Literal;
use circuits::{Circuit, Gates, State};
use std::alloc::{AllocError, Global};

impl State for Aig {
    ghost use Rattle.std.specs.Prelude.{length};
    ghost use Rattle.circuits.specs.Kleene.{certain};
    ghost use Rattle.aig.specs.Graph.{IsOwn, value_of};

    type Literal = Literal;

    ghost has_literal = { IsOwn };

    ghost admits = { λ _ _. Unit {0} };

    ghost value = { value_of };

    ghost known = { λ graph inputs l. certain (value_of graph inputs l) };

    ghost inputs_made = { λ c. c.inputs };

    ghost gates_made = { λ c. length c.gates };
}

/// A gate past the last that has a literal is refused as for want of memory; that is one past 2^30 - 1.
impl Gates for Aig {
    fn zero(&self) -> Literal {
        Literal::ZERO
    }

    fn one(&self) -> Literal {
        Literal::ONE
    }

    fn not(&self, a: Literal) -> Literal {
        a.negation()
    }

    fn and(&mut self, _alloc: Global, a: Literal, b: Literal) -> Result<Literal, AllocError> {
        self.both(a, b)
    }

    fn xor(&mut self, _alloc: Global, a: Literal, b: Literal) -> Result<Literal, AllocError> {
        self.one_of(a, b)
    }

    fn mux(
        &mut self,
        _alloc: Global,
        condition: Literal,
        yes: Literal,
        no: Literal,
    ) -> Result<Literal, AllocError> {
        if condition.is_negated() {
            self.chosen(condition.negation(), no, yes)
        } else {
            self.chosen(condition, yes, no)
        }
    }
}

/// An input past the last that has a literal is refused as a gate is.
impl Circuit for Aig {
    ghost use Rattle.std.specs.Prelude.{refl};

    fn input(&mut self, _alloc: Global) -> Result<Literal, AllocError> {
        self.add_input()
    }

    ghost none_is_unknown = { λ c inputs literal admitted own. refl };
}
