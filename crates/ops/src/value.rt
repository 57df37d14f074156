//! The values that registers hold, and the effects of instructions.

use crate::word::Word;

/// What a register of an integer type can hold. (LLVM Language Reference, "Poison Values".)
#[derive(Clone, Copy, PartialEq, Eq, Debug)]
pub enum Value {
    /// The result of an operation that broke the promise of a flag, as of an addition with `nsw` that overflows.
    Poison,
    /// A number.
    Bits(Word),
}

/// The effect of one instruction. (LLVM Language Reference, "Undefined Behavior".)
#[derive(Clone, Copy, PartialEq, Eq, Debug)]
pub enum Effect {
    /// Undefined behaviour: the whole run may do anything.
    Undefined,
    /// The instruction's register holds this value afterwards.
    Gives(Value),
}
