//! Builds the resolved function, once every register and block that is used is known to be defined.

mod function;
mod instruction;
mod operand;
mod terminator;
mod text;

pub(crate) use function::build;
