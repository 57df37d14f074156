//! Prints modules of LLVM IR, and the report on the rewriting of one.
#![tactic(auto)]

mod block;
mod header;
mod identifier;
mod identifiers;
mod instruction;
mod module;
mod name;
mod number;
mod operand;
mod piece;
mod report;
mod terminator;
mod word;

pub use module::print_module;
pub use name::push_name;
pub use number::push_number;
pub use report::print_report;
