//! Gates over bits of which some are unknown.
ghost use Rattle.std.specs.Prelude.{◌≡◌};
ghost use Rattle.circuits.specs.Kleene.{known_and, known_mux, known_xor};

use crate::gates::Gates;
use crate::known_bit::KnownBit;
use crate::state::State;
use std::alloc::{AllocError, Global};

/// What tells how much of gates is known: each literal is what is known of a bit, so that building a word finds what is
/// known of its bits. It has no inputs, so it is no circuit, and a gate takes no memory.
#[derive(Clone, Copy)]
pub struct KnownCircuit;

impl State for KnownCircuit {
    ghost use Rattle.std.specs.Prelude.{false};

    type Literal = KnownBit;

    ghost has_literal = { λ _ _. Unit {0} };

    // Under no list of inputs has an unknown bit a value.
    ghost admits = { λ _ _. ⊥ };

    ghost value = { λ _ _ _. false };

    ghost known = { λ _ _ literal. literal };

    ghost inputs_made = { λ _. 0 };

    ghost gates_made = { λ _. 0 };
}

impl Gates for KnownCircuit {
    fn zero(&self) -> KnownBit {
        KnownBit::Zero
    }

    fn one(&self) -> KnownBit {
        KnownBit::One
    }

    fn not(&self, a: KnownBit) -> KnownBit {
        a.not()
    }

    fn and(&mut self, _alloc: Global, a: KnownBit, b: KnownBit) -> Result<KnownBit, AllocError>
        ensures ok { result ≡ Ok (known_and a b) }
        ensures same { self.new ≡ self.old }
    {
        Ok(a.and(b))
    }

    fn xor(&mut self, _alloc: Global, a: KnownBit, b: KnownBit) -> Result<KnownBit, AllocError>
        ensures ok { result ≡ Ok (known_xor a b) }
        ensures same { self.new ≡ self.old }
    {
        Ok(a.xor(b))
    }

    fn mux(
        &mut self,
        _alloc: Global,
        condition: KnownBit,
        yes: KnownBit,
        no: KnownBit,
    ) -> Result<KnownBit, AllocError>
        ensures ok { result ≡ Ok (known_mux condition yes no) }
        ensures same { self.new ≡ self.old }
    {
        Ok(condition.mux(yes, no))
    }
}
