//! The graph, which has each gate once.
ghost use Rattle.std.specs.Prelude.{◌≡◌, ◌+◌, ◌<◌, Bool, false, slice_index_or, List as Seq, [], ◌&&◌, length, IfOk, IfSome, OnOk, OnErr};

use crate::gate::Gate;
use crate::literal::{LIMIT, Literal, Node};
use crate::two_levels::{Parts, parts_of};
use indexmap::IndexSet;
use std::alloc::{AllocError, Global};
use std::marker::Model;

/// A circuit that keeps its gates in the order in which they were made, each with its operands,
/// which are older than the gate. It has values under every list of inputs.
///
/// It makes no gate that folds to a literal by its operands alone, and none a second time
/// (structural hashing).
#[derive(Drop)]
pub struct Aig {
    inputs: usize,
    gates: IndexSet<Gate>,
}

impl Model for Aig {
    ghost use Rattle.std.specs.Prelude.{◌^◌, ◌-◌, ◌<◌, length};
    ghost use Rattle.aig.specs.Graph.{Graph, IsInOrder, AreProper};

    ghost Value = { Graph };

    ghost view = { λ c. record { inputs = c.inputs; gates = c.gates.keys } };

    ghost invariant = { λ c. record {
      in_order : IsInOrder c.inputs c.gates.keys;
      proper : AreProper c.gates.keys;
      few_inputs : c.inputs < 2 ^ 30;
      few_gates : length c.gates.keys < 2 ^ 30;
    } };
}

impl Aig {
    ghost use Rattle.circuits.specs.Circuit.{Adds};
    ghost use Rattle.aig.specs.Gate.{IsProper};
    ghost use Rattle.aig.specs.Parts.{HasParts, PartsAmong};
    ghost use Rattle.aig.specs.Graph.{IsOwn, IsInOrder, AreProper, HasNoTwice, OperandsAmong, node_value, gate_value, gate_values, value_of, graph_state};
    ghost use Rattle.aig.specs.Stands.{Stands};

    /// A graph without inputs and gates. It takes no memory.
    pub fn new(alloc: Global) -> Self
        ensures { result ≡ record { inputs = 0; gates = [] } }
    {
        Aig {
            inputs: 0,
            gates: IndexSet::new(alloc),
        }
    }

    /// How many inputs were made.
    pub fn input_count(&self) -> usize
        ensures { result ≡ self.now.inputs }
    {
        self.inputs
    }

    /// The gates in the order in which they were made.
    pub fn gates(&self) -> &[Gate]
        ensures gates { result.now ≡ self.now.gates }
        ensures in_order { IsInOrder self.now.inputs self.now.gates }
        ensures proper { AreProper self.now.gates }
        ensures no_twice { HasNoTwice self.now.gates }
    {
        self.gates.as_slice()
    }

    /// Makes the next input.
    pub(crate) fn add_input(&mut self) -> Result<Literal, AllocError>
        ensures made { IfOk result (λ made. made ≡ record { node = Node.Input self.old.inputs; negated = false }) }
        ensures ok { OnOk result (self.new ≡ record self.old { inputs = self.old.inputs + 1 }) }
        ensures err { OnErr result (self.new ≡ self.old) }
    {
        let number = self.inputs;
        if number >= LIMIT {
            return Err(AllocError);
        }
        self.inputs += 1;
        Ok(Literal::input(number))
    }

    /// The output of a gate, which is made where the graph doesn't have it yet. A call that is
    /// refused for want of memory leaves the graph as it was.
    pub(crate) fn push(&mut self, gate: Gate) -> Result<Literal, AllocError>
        requires operands { OperandsAmong self.old.inputs (length self.old.gates) gate }
        requires proper { IsProper gate }
        ensures stands { IfOk result (Stands self.new (λ inputs. gate_value inputs (gate_values inputs self.old.gates) gate)) }
        ensures adds { Adds graph_state self.old self.new 1 }
        ensures err { OnErr result (self.new ≡ self.old) }
    {
        if self.gates.len() >= LIMIT {
            return Err(AllocError);
        }
        let (place, _) = self.gates.insert_full(gate)?;
        Ok(Literal::output(place))
    }

    /// The output of the `and` gate of both literals, if the graph has that.
    pub(crate) fn found(&self, a: Literal, b: Literal) -> Option<Literal>
        ensures { IfSome result (Stands self.now (λ inputs. value_of self.now inputs a && value_of self.now inputs b)) }
    {
        let gate = Gate::and(a, b);
        let place = self.gates.get_index_of(&gate)?;
        Some(Literal::output(place))
    }

    /// The gate at this place.
    fn gate(&self, place: usize) -> Gate
        requires { place < length self.now.gates }
        ensures operands { OperandsAmong self.now.inputs (length self.now.gates) result }
        ensures value { (inputs : Seq Bool) →
            slice_index_or (gate_values inputs self.now.gates) place false ≡ gate_value inputs (gate_values inputs self.now.gates) result }
    {
        self.gates.as_slice()[place]
    }

    /// The operands of the `and` gate that a literal names, if it names one.
    pub(crate) fn parts(&self, literal: Literal) -> Parts
        requires { IsOwn self.now literal }
        ensures value { (inputs : Seq Bool) → HasParts (node_value inputs (gate_values inputs self.now.gates)) literal result }
        ensures own { PartsAmong self.now.inputs (length self.now.gates) result }
    {
        let Node::Output(place) = literal.node() else {
            return Parts::Whole;
        };
        parts_of(self.gate(place), literal.is_negated())
    }
}
