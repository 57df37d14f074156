//! The variables of the constant and of the gates that a root needs.
ghost use Rattle.std.specs.Prelude.{◌≡◌, ◌+◌, ◌^◌, ◌<◌, length, IfOk, OnOk};
ghost use Rattle.aig.specs.Graph.{IsAmong, OperandsAmong, IsInOrder};

use crate::definition::Definition;
use crate::needed::Needed;
use aig::{Gate, Literal, Node};
use clauses::Lit;
use std::alloc::{AllocError, Global};
use std::marker::Model;

/// The variables that come after the inputs: for each gate its variable, which is its own only if the gate is needed,
/// and the definitions of these variables in order.
#[derive(Drop)]
pub(crate) struct Naming {
    inputs: u32,
    numbers: Vec<u32>,
    definitions: Vec<Definition>,
}

impl Model for Naming {
    ghost use Rattle.std.specs.Prelude.{◌<◌, ◌^◌, All};
    ghost use Rattle.cnf_build.specs.Names.{Names};

    ghost Value = { Names };

    ghost view = { λ n. record { inputs = n.inputs; numbers = n.numbers.items; definitions = n.definitions.items } };

    ghost invariant = { λ n. All (λ number. number < 2 ^ 31) n.numbers.items };
}

impl Naming {
    ghost use Rattle.cnf_build.specs.Names.{variable_of, lit_of, definition_of, with_gate, with_constant, NamesFirst};
    ghost use Rattle.cnf_build.specs.NeededGates.{IsClosed};

    /// Gives variables to what is needed of a graph with so many inputs and these gates.
    pub(crate) fn of(
        alloc: Global,
        inputs: u32,
        gates: &[Gate],
        needed: &Needed,
    ) -> Result<Self, AllocError>
        requires few { inputs + length gates.now < 2 ^ 28 }
        requires in_order { IsInOrder inputs gates.now }
        requires marks { length needed.now.gates ≡ length gates.now }
        requires closed { IsClosed gates.now needed.now }
        ensures inputs { IfOk result (λ names. names.inputs ≡ inputs) }
        ensures named { IfOk result (NamesFirst gates.now needed.now (length gates.now)) }
    {
        let mut naming = Naming {
            inputs,
            numbers: Vec::new(alloc),
            definitions: Vec::new(alloc),
        };
        naming.name_constant(needed.has_one())?;
        for place in 0..gates.len() {
            naming.name_gate(gates[place], needed.has_gate(place))?;
        }
        Ok(naming)
    }

    /// The definitions in the order of their variables. The first of these is the one after the inputs.
    pub(crate) fn definitions(&self) -> &[Definition]
        ensures { result.now ≡ self.now.definitions }
    {
        self.definitions.as_slice()
    }

    /// The variable of a node.
    fn variable(&self, node: Node) -> u32
        requires few { self.now.inputs < 2 ^ 28 }
        requires own { IsAmong self.now.inputs (length self.now.numbers) node }
        ensures variable { result ≡ variable_of self.now node }
        ensures small { result < 2 ^ 31 }
    {
        match node {
            Node::One => self.inputs + 1,
            Node::Input(place) => place as u32 + 1,
            Node::Output(place) => self.numbers[place],
        }
    }

    /// A literal of the graph as a literal of its node's variable.
    pub(crate) fn literal(&self, literal: Literal) -> Lit
        requires few { self.now.inputs < 2 ^ 28 }
        requires own { IsAmong self.now.inputs (length self.now.numbers) literal.node }
        ensures { result ≡ lit_of self.now literal }
    {
        Lit::new(self.variable(literal.node()), literal.is_negated())
    }

    /// A gate's definition, over the variables of its operands.
    fn definition(&self, gate: Gate) -> Definition
        requires few { self.now.inputs < 2 ^ 28 }
        requires own { OperandsAmong self.now.inputs (length self.now.numbers) gate }
        ensures { result ≡ definition_of self.now gate }
    {
        match gate {
            Gate::And(a, b) => Definition::And(self.literal(a), self.literal(b)),
            Gate::Xor(a, b) => Definition::Xor(self.literal(a), self.literal(b)),
            Gate::Mux(condition, yes, no) => Definition::Mux(
                self.literal(condition),
                self.literal(yes),
                self.literal(no),
            ),
        }
    }

    /// The constant gets its variable and its definition, if it is needed; this comes before any gate.
    fn name_constant(&mut self, is_needed: bool) -> Result<(), AllocError>
        ensures { OnOk result (self.new ≡ with_constant self.old is_needed) }
    {
        if is_needed {
            self.definitions.push(Definition::One)?;
        }
        Ok(())
    }

    /// The next gate gets the next variable without a definition and, if it is needed, its definition.
    fn name_gate(&mut self, gate: Gate, is_needed: bool) -> Result<(), AllocError>
        requires few { self.old.inputs + length self.old.definitions < 2 ^ 29 }
        requires few_inputs { self.old.inputs < 2 ^ 28 }
        requires own { OperandsAmong self.old.inputs (length self.old.numbers) gate }
        ensures { OnOk result (self.new ≡ with_gate self.old gate is_needed) }
    {
        let number = self.inputs + 1 + self.definitions.len() as u32;
        if is_needed {
            let definition = self.definition(gate);
            self.definitions.push(definition)?;
        }
        self.numbers.push(number)?;
        Ok(())
    }
}
