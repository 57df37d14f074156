//! Laws about the definitions: functions without a body, whose contracts are the laws.
ghost use Rattle.std.specs.Prelude.{◌≡◌, ℕ, Bool, false, List as Seq, Some, slice_get, slice_index_or, drop};
ghost use Rattle.aig.specs.Graph.{IsInOrder, gate_value, gate_values};

use crate::Gate;

/// Each gate has its truth table over its operands' values, under every list of inputs.
pub fn gates_have_their_values()
    ensures { (count : ℕ) (gates : Seq Gate) → IsInOrder count gates →
        (inputs : Seq Bool) (k : ℕ) (gate : Gate) → slice_get gates k ≡ Some gate →
        slice_index_or (gate_values inputs gates) k false ≡ gate_value inputs (gate_values inputs gates) gate }
{}

/// Two numbers are equal where each list has the same rest without its first so many elements. So
/// what a call of a `Circuit` says of the inputs that it made gives their number in a graph, which
/// admits every list.
pub fn rests_tell_counts()
    ensures { (m n : ℕ) → ((inputs : Seq Bool) → drop m inputs ≡ drop n inputs) → m ≡ n }
{}
