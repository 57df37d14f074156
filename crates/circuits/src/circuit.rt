//! The trait of circuits, whose clauses are the laws.
ghost use Rattle.std.specs.Prelude.{◌≡◌, ◌+◌, Bool, false, List as Seq, drop, slice_index_or, IfOk, OnOk, OnErr};
ghost use Rattle.circuits.specs.Circuit.{Keeps};
ghost use Rattle.circuits.specs.Kleene.{certain};

use crate::gates::Gates;
use std::alloc::{AllocError, Global};

/// A circuit that grows: inputs and gates are added, and each is named by a literal.
///
/// The laws are the clauses of the calls, and those of [`Gates`]. A literal has a value under each list of inputs that
/// the circuit admits: the k-th input made has the list's k-th value, false past its end, and a gate has its truth
/// table over its operands' values. Each call keeps the values of all older literals. A call that is refused for want
/// of memory leaves the circuit as it was.
pub trait Circuit: Gates {
    /// The next input.
    fn input(&mut self, alloc: Global) -> Result<Self::Literal, AllocError>
        ensures own { IfOk result (λ made. Self.has_literal self.new made) }
        ensures value { IfOk result (λ made. (inputs : Seq Bool) → Self.admits self.old inputs →
            Self.value self.new inputs made ≡ slice_index_or inputs (Self.inputs_made self.old) false) }

        // As far as any list of inputs reaches, one more was made.
        ensures inputs { OnOk result ((inputs : Seq Bool) → Self.admits self.old inputs →
            drop (Self.inputs_made self.new) inputs ≡ drop (Self.inputs_made self.old + 1) inputs) }
        ensures gates { Self.gates_made self.new ≡ Self.gates_made self.old }
        ensures keeps { Keeps Self.State self.old self.new }
        ensures err { OnErr result (self.new ≡ self.old) };

    /// Under a list of inputs that is admitted no value is unknown: what is known of a literal is its value.
    ghost none_is_unknown: { (c : Self) (inputs : Seq Bool) (literal : Self.Literal) →
        Self.admits c inputs → Self.has_literal c literal →
        Self.known c inputs literal ≡ certain (Self.value c inputs literal) };
}
