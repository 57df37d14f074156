//! The values of a graph's gates.

use aig::{Gate, Literal, Node};
use std::alloc::{AllocError, Global};

/// A literal's value, where the inputs and the gates before it have these values.
pub(crate) fn value(literal: Literal, inputs: &[bool], gates: &[bool]) -> bool {
    let positive = match literal.node() {
        Node::One => true,
        Node::Input(k) => inputs.get(k).copied().unwrap_or(false),
        Node::Output(k) => gates.get(k).copied().unwrap_or(false),
    };
    positive != literal.is_negated()
}

/// The values of all gates.
pub(crate) fn gate_values(
    alloc: Global,
    gates: &[Gate],
    inputs: &[bool],
) -> Result<Vec<bool>, AllocError> {
    let mut values = Vec::new(alloc);
    for gate in gates {
        let of = |l: Literal| value(l, inputs, values.as_slice());
        let next = match *gate {
            Gate::And(a, b) => of(a) && of(b),
            Gate::Xor(a, b) => of(a) != of(b),
            Gate::Mux(condition, yes, no) => { if of(condition) { of(yes) } else { of(no) } }
        };
        values.push(next)?;
    }
    Ok(values)
}
