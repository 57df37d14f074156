//! Which gates a root needs: those in its cone of influence.
ghost use Rattle.std.specs.Prelude.{◌≡◌, ℕ, ◌<◌, false, length, Some, slice_get, slice_index_or, IfOk};

use aig::{Gate, Literal, Node};
use std::alloc::{AllocError, Global};
use std::marker::Model;

/// Which of the constant and the gates of a graph a root needs: its own node, and each operand of a
/// gate that it needs.
#[derive(Drop)]
pub(crate) struct Needed {
    one: bool,
    gates: Vec<bool>,
}

impl Model for Needed {
    ghost use Rattle.cnf_build.specs.NeededGates.{NeededMarks};

    ghost Value = { NeededMarks };

    ghost view = { λ n. record { one = n.one; gates = n.gates.items } };
}

impl Needed {
    ghost use Rattle.cnf_build.specs.NeededGates.{OutputBelow, OperandsBelow, with_node, with_operands, AreNeeded};

    /// What the root needs of these gates.
    pub(crate) fn by(alloc: Global, gates: &[Gate], root: Literal) -> Result<Self, AllocError>
        requires root { OutputBelow (length gates.now) root.node }
        requires in_order { (k : ℕ) (gate : Gate) → slice_get gates.now k ≡ Some gate → OperandsBelow k gate }
        ensures { IfOk result (AreNeeded gates.now root) }
    {
        let mut needed = Needed {
            one: false,
            gates: vec![in alloc; false; gates.len()]?,
        };
        needed.mark(root);
        for k in (0..gates.len()).rev() {
            if needed.has_gate(k) {
                needed.mark_operands(gates[k]);
            }
        }
        Ok(needed)
    }

    /// Whether the constant is needed.
    pub(crate) fn has_one(&self) -> bool
        ensures { result ≡ self.now.one }
    {
        self.one
    }

    /// Whether the gate at this place is needed.
    pub(crate) fn has_gate(&self, place: usize) -> bool
        requires { place < length self.now.gates }
        ensures { result ≡ slice_index_or self.now.gates place false }
    {
        self.gates[place]
    }

    /// Marks the literal's node, if it is no input.
    fn mark(&mut self, literal: Literal)
        requires { OutputBelow (length self.old.gates) literal.node }
        ensures { self.new ≡ with_node self.old literal.node }
    {
        match literal.node() {
            Node::One => self.one = true,
            Node::Input(_) => {}
            Node::Output(place) => self.gates[place] = true,
        }
    }

    /// Marks the nodes of the gate's operands.
    fn mark_operands(&mut self, gate: Gate)
        requires { OperandsBelow (length self.old.gates) gate }
        ensures { self.new ≡ with_operands self.old gate }
    {
        match gate {
            Gate::And(a, b) | Gate::Xor(a, b) => {
                self.mark(a);
                self.mark(b);
            }
            Gate::Mux(condition, yes, no) => {
                self.mark(condition);
                self.mark(yes);
                self.mark(no);
            }
        }
    }
}
