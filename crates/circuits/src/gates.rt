//! The trait of what gates are made in, whose clauses are the laws.
ghost use Rattle.std.specs.Prelude.{◌≡◌, Bool, true, false, not, ◌&&◌, if◌then◌else◌, List as Seq, IfOk, OnErr};
ghost use Rattle.std.specs.Bool.{xor};
ghost use Rattle.circuits.specs.Circuit.{Adds};
ghost use Rattle.circuits.specs.Kleene.{certain, known_and, known_mux, known_not, known_xor};

use crate::state::State;
use std::alloc::{AllocError, Global};

/// What gates are made in, each named by a literal.
///
/// The laws are the clauses of the calls. Under a list of inputs a literal's value is 0, 1 or unknown, and a gate's is
/// Kleene's table over its operands' values (`known`). Under the lists that are admitted none is unknown, and a gate
/// has its truth table (`value`). Each call keeps the values of all older literals. A call that is refused for want of
/// memory leaves all as it was.
pub trait Gates: State {
    /// The literal that is false.
    fn zero(&self) -> Self::Literal
        ensures own { Self.has_literal self.now result }
        ensures value { (inputs : Seq Bool) → Self.admits self.now inputs → Self.value self.now inputs result ≡ false }
        ensures known { (inputs : Seq Bool) → Self.known self.now inputs result ≡ certain false };

    /// The literal that is true.
    fn one(&self) -> Self::Literal
        ensures own { Self.has_literal self.now result }
        ensures value { (inputs : Seq Bool) → Self.admits self.now inputs → Self.value self.now inputs result ≡ true }
        ensures known { (inputs : Seq Bool) → Self.known self.now inputs result ≡ certain true };

    /// The negation of a literal. It makes no gate.
    fn not(&self, a: Self::Literal) -> Self::Literal
        requires { Self.has_literal self.now a }
        ensures own { Self.has_literal self.now result }
        ensures value { (inputs : Seq Bool) → Self.admits self.now inputs →
            Self.value self.now inputs result ≡ not (Self.value self.now inputs a) }
        ensures known { (inputs : Seq Bool) →
            Self.known self.now inputs result ≡ known_not (Self.known self.now inputs a) };

    /// Both of two literals. It makes at most one gate.
    fn and(
        &mut self,
        alloc: Global,
        a: Self::Literal,
        b: Self::Literal,
    ) -> Result<Self::Literal, AllocError>
        requires own_a { Self.has_literal self.old a }
        requires own_b { Self.has_literal self.old b }
        ensures own { IfOk result (λ made. Self.has_literal self.new made) }
        ensures value { IfOk result (λ made. (inputs : Seq Bool) → Self.admits self.old inputs →
            Self.value self.new inputs made ≡ (Self.value self.old inputs a && Self.value self.old inputs b)) }
        ensures known { IfOk result (λ made. (inputs : Seq Bool) →
            Self.known self.new inputs made ≡ known_and (Self.known self.old inputs a) (Self.known self.old inputs b)) }
        ensures adds { Adds Self.State self.old self.new 1 }
        ensures err { OnErr result (self.new ≡ self.old) };

    /// One of two literals, and not both. It makes at most one gate.
    fn xor(
        &mut self,
        alloc: Global,
        a: Self::Literal,
        b: Self::Literal,
    ) -> Result<Self::Literal, AllocError>
        requires own_a { Self.has_literal self.old a }
        requires own_b { Self.has_literal self.old b }
        ensures own { IfOk result (λ made. Self.has_literal self.new made) }
        ensures value { IfOk result (λ made. (inputs : Seq Bool) → Self.admits self.old inputs →
            Self.value self.new inputs made ≡ xor (Self.value self.old inputs a) (Self.value self.old inputs b)) }
        ensures known { IfOk result (λ made. (inputs : Seq Bool) →
            Self.known self.new inputs made ≡ known_xor (Self.known self.old inputs a) (Self.known self.old inputs b)) }
        ensures adds { Adds Self.State self.old self.new 1 }
        ensures err { OnErr result (self.new ≡ self.old) };

    /// The literal `yes` where `condition` is true, and else `no`. It makes at most one gate.
    fn mux(
        &mut self,
        alloc: Global,
        condition: Self::Literal,
        yes: Self::Literal,
        no: Self::Literal,
    ) -> Result<Self::Literal, AllocError>
        requires own_condition { Self.has_literal self.old condition }
        requires own_yes { Self.has_literal self.old yes }
        requires own_no { Self.has_literal self.old no }
        ensures own { IfOk result (λ made. Self.has_literal self.new made) }
        ensures value { IfOk result (λ made. (inputs : Seq Bool) → Self.admits self.old inputs →
            Self.value self.new inputs made
            ≡ (if Self.value self.old inputs condition then Self.value self.old inputs yes else Self.value self.old inputs no)) }
        ensures known { IfOk result (λ made. (inputs : Seq Bool) →
            Self.known self.new inputs made
            ≡ known_mux (Self.known self.old inputs condition) (Self.known self.old inputs yes)
            (Self.known self.old inputs no)) }
        ensures adds { Adds Self.State self.old self.new 1 }
        ensures err { OnErr result (self.new ≡ self.old) };
}
