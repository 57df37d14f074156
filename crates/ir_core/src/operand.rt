//! Operands of instructions and terminators.

use ops::Word;

/// An operand of an instruction or a terminator.
#[derive(Clone, Copy, Debug, PartialEq, Eq)]
pub enum Operand {
    /// The value that the register holds.
    Register(Register),
    /// A literal number.
    Number(Word),
    /// The literal `undef`: any number of the operand's width, chosen each time the instruction runs.
    Undef,
    /// The literal `poison`.
    Poison,
}

/// A register, identified by where it is defined. Indices count from 0.
#[derive(Clone, Copy, Debug, PartialEq, Eq)]
pub enum Register {
    /// The parameter at this index.
    Parameter(u32),
    /// The result of an instruction: the index of its block, and its own index there.
    Result(u32, u32),
}
