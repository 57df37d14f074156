//! Modules of LLVM IR, read exactly: the module of a text, or the text's first fault with its kind and line.
//!
//! A text is read in three steps: it is parsed to a module as written (`ir_parse`), each function is resolved to one
//! whose registers and blocks are identified by index (`ir_resolve`), and that function is checked: its phis (`phis`),
//! that no terminator names its entry block (`entry`), and that registers are assigned where they are read
//! (`assigned`). The definitions stand in `specs/`: `Phis` and `FlowFaults` say where a function has which fault,
//! `Operands` which operands are written at a place, and `Faults` which texts are modules and which fault is the first.
#![tactic(auto)]

mod assigned;
mod count;
mod entry;
mod following;
mod function;
mod laws;
mod phis;
mod predecessors;
mod reader;
mod reading;
mod repeated;
mod text;
mod written;

pub use ir_parse::MOST_BYTES;
pub use ir_tokens::{Identifier, IrError, IrFault, IrFaultKind};
pub use laws::every_text_has_one_module_or_one_fault;
pub use reader::read_module;
