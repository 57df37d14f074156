//! An and-inverter graph, with gates for `xor` and for a choice (multiplexer) beside those for
//! `and`: a circuit that keeps its gates, so that an encoder can read them. Gates are simplified by
//! their operands (`folding`) and by the operands of those (`two_levels`), and none is kept twice.
#![tactic(auto)]

mod circuit;
mod folding;
mod gate;
mod graph;
mod laws;
mod literal;
mod making;
mod two_levels;

pub use gate::Gate;
pub use graph::Aig;
pub use laws::{gates_have_their_values, rests_tell_counts};
pub use literal::{Literal, Node};
