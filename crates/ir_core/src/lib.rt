//! Modules of LLVM IR over integer registers, as plain values, and the checks that every module meets.
//!
//! The definitions stand in `specs/`: `Reads` says what an instruction reads and where, `Blocks` which blocks a
//! terminator names, `Walks` which walks there are through the control-flow graph, `Assigned` where a register has a
//! value on every path, `Names` the names in text order, `Checks` what every function and module that is read meets,
//! `Run` what a run may do, and `Refines` when one function or module refines another.
#![tactic(auto)]

mod copy;
mod function;
mod instruction;
mod module;
mod operand;
mod outcome;
mod read;
mod terminator;

pub use copy::copy_function;
pub use function::{Block, Function, Parameter};
pub use instruction::{Inst, Op};
pub use module::{Entry, Module};
pub use operand::{Operand, Register};
pub use outcome::Outcome;
pub use read::{Read, end_of, read_at, read_count};
pub use terminator::Terminator;
