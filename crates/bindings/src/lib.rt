//! What a match of a rule is, and whether a binding is one.
//!
//! The definitions are in `specs/`: `Match` says when a rule matches at an instruction with a binding, `Statements`
//! which instructions its statements match, and `Operands` what its operands stand for; `Uses` of `use_counts` says how
//! often a register is used. `Matches` says which matches the rules of a file have in a function, and in which order;
//! `Ready` what a rule that was read from a file meets; `Known` what follows from what is known of bits; `Laws` that
//! temporaries stand before the root, and what a match names is assigned there. `Facts`, `Checks` and `Nodes` serve the
//! code.
#![tactic(auto)]

mod asking;
mod binding;
mod check;
mod facts;
mod inst;
mod known;
mod laws;
mod nodes;
mod operation;
mod promises;
mod root;
mod rule_match;
mod standing;
mod temporaries;

pub use asking::{ask_bits, asks_bits};
pub use binding::Binding;
pub use check::is_match;
pub use facts::FunctionFacts;
pub use inst::inst_at;
pub use laws::{
    matched_instructions_are_reached, named_registers_are_assigned,
    operands_are_assigned_with_results, reads_of_a_block_stand_before,
    temporaries_stand_before_roots,
};
pub use operation::{MOST_OPERANDS, operand_of};
pub use promises::Promises;
pub use root::is_root_operation;
pub use rule_match::Match;
