//! The parser: from the text of a module of LLVM IR to the module as written, or the first fault, with its line.
//!
//! It is a recursive descent parser without backtracking: tokens are read from left to right, and each function reads
//! one production of the grammar, here blocks, parameters, functions and entries.
#![tactic(auto)]

mod block;
mod entries;
mod function;
mod laws;
mod parameter;
mod reader;

pub use entries::entry;
pub use ir_tokens::{IrError, IrFault, IrFaultKind};
pub use laws::{every_text_has_one_reading_or_one_fault, modules_are_read_as_they_are_spelled};
pub use reader::{MOST_BYTES, parse};
