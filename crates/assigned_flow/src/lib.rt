//! Whether each register of a function is assigned wherever it is read (LangRef, "Well-Formedness").
//!
//! `specs/Assigned` of `ir_core` defines this by walks through the blocks, and it is decided by dominance: the result
//! of an instruction is assigned at a place of a block where no walk leads to the block, where the instruction stands
//! before that place in the same block, or where its block is another one that dominates this one.
#![tactic(auto)]

mod assigned;
mod check;
mod error;
mod graph;
mod read;

pub use assigned::Assigned;
pub use check::check_assigned;
pub use error::FlowError;
