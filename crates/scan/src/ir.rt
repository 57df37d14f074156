//! The tokens of modules of LLVM IR.

pub(crate) mod front;
mod length;
mod name;
pub(crate) mod quoted;
pub(crate) mod token;
