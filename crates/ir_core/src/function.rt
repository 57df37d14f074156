//! A function and its blocks. Registers and blocks are identified by index, so that the numbers with which they are
//! printed are no part of the value.

use crate::instruction::Inst;
use crate::terminator::Terminator;
use lists::{List, Text};
use ops::Width;

/// A function that returns an integer (LangRef, "Functions"). Its first block is entered when it is called.
#[derive(Debug, Drop)]
pub struct Function {
    /// The name, without the `@`.
    pub name: Text,
    /// The items before the return type, each as it is printed: linkage, attributes. Of them `noundef` alone has a
    /// meaning.
    pub before: List<Text>,
    /// The width of what it returns.
    pub width: Width,
    pub parameters: List<Parameter>,
    /// The items behind the parameters, each as it is printed.
    pub after: List<Text>,
    pub blocks: List<Block>,
}

/// A parameter of a function.
#[derive(Debug, Drop)]
pub struct Parameter {
    pub width: Width,
    /// Its attributes, each as it is printed. Of them `noundef` alone has a meaning.
    pub items: List<Text>,
    /// The name, without the `%`; a parameter without one is numbered when it is printed.
    pub name: Option<Text>,
}

/// A basic block: instructions, and a terminator at its end.
#[derive(Debug, Drop)]
pub struct Block {
    /// The label; a block without one is numbered.
    pub name: Option<Text>,
    pub insts: List<Inst>,
    pub end: Terminator,
}
