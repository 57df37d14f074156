//! The circuit whose literals are truth values, so that building a word evaluates it.
ghost use Rattle.std.specs.Prelude.{◌≡◌, ◌+◌, Bool, false, ◌&&◌, if◌then◌else◌, List as Seq, length, min, slice_index_or, IfOk};
ghost use Rattle.std.specs.Bool.{xor};
ghost use Rattle.circuits.specs.Kleene.{certain, known_xor};

use crate::circuit::Circuit;
use crate::gates::Gates;
use crate::state::State;
use lists::List;
use std::alloc::{AllocError, Global};
use std::marker::Model;

/// A circuit that keeps no gates: with the values of its inputs given, each literal is its own value, and each truth
/// value is a literal. An input or a gate takes no memory.
#[derive(Drop)]
pub struct EvalCircuit {
    inputs: List<bool>,
    made: usize,
}

impl Model for EvalCircuit {
    ghost use Rattle.std.specs.Prelude.{◌≤◌, length};
    ghost use Rattle.circuits.specs.Evaluation.{Evaluation};

    ghost Value = { Evaluation };

    ghost view = { λ c. record { inputs = c.inputs; made = c.made } };

    ghost invariant = { λ c. c.made ≤ length c.inputs };
}

impl EvalCircuit {
    /// A circuit whose inputs will have these values in order, and are false past the list's end. It takes no memory.
    pub fn new(inputs: List<bool>) -> Self
        ensures { result ≡ record { inputs = inputs; made = 0 } }
    {
        EvalCircuit { inputs, made: 0 }
    }
}

impl State for EvalCircuit {
    ghost use Rattle.std.specs.Prelude.{◌≡◌};
    ghost use Rattle.circuits.specs.Kleene.{certain};

    type Literal = bool;

    ghost has_literal = { λ _ _. Unit {0} };

    ghost admits = { λ c inputs. inputs ≡ c.inputs };

    ghost value = { λ _ _ literal. literal };

    ghost known = { λ _ _ literal. certain literal };

    // Past the end of the list the count stands still, since the inputs are false there.
    ghost inputs_made = { λ c. c.made };

    ghost gates_made = { λ _. 0 };
}

impl Gates for EvalCircuit {
    fn zero(&self) -> bool {
        false
    }

    fn one(&self) -> bool {
        true
    }

    #[tactic(auto, using(crate::proofs::Truth::certain_not))]
    fn not(&self, a: bool) -> bool {
        !a
    }

    #[tactic(auto, using(crate::proofs::Truth::certain_and))]
    fn and(&mut self, _alloc: Global, a: bool, b: bool) -> Result<bool, AllocError>
        ensures ok { result ≡ Ok (a && b) }
        ensures same { self.new ≡ self.old }
    {
        Ok(a && b)
    }

    #[tactic(auto, using(crate::proofs::Truth::not_beq, crate::proofs::Truth::certain_xor))]
    fn xor(&mut self, _alloc: Global, a: bool, b: bool) -> Result<bool, AllocError>
        ensures ok { result ≡ Ok (xor a b) }
        ensures known { IfOk result (λ made. (inputs : Seq Bool) → certain made ≡ known_xor (certain a) (certain b)) }
        ensures same { self.new ≡ self.old }
    {
        Ok(a ^ b)
    }

    #[tactic(auto, using(crate::proofs::Truth::certain_mux))]
    fn mux(
        &mut self,
        _alloc: Global,
        condition: bool,
        yes: bool,
        no: bool,
    ) -> Result<bool, AllocError>
        ensures ok { result ≡ Ok (if condition then yes else no) }
        ensures same { self.new ≡ self.old }
    {
        Ok(if condition { yes } else { no })
    }
}

impl Circuit for EvalCircuit {
    ghost use Rattle.std.specs.Prelude.{refl};

    fn input(&mut self, _alloc: Global) -> Result<bool, AllocError>
        ensures ok { result ≡ Ok (slice_index_or self.old.inputs self.old.made false) }
        ensures made { self.new ≡ record self.old { made = min (self.old.made + 1) (length self.old.inputs) } }
    {
        let inputs = self.inputs.as_slice();
        if self.made == inputs.len() {
            return Ok(false);
        }
        let value = inputs[self.made];
        self.made += 1;
        Ok(value)
    }

    ghost none_is_unknown = { λ c inputs literal admitted own. refl };
}
