//! Instructions that are no terminators.

use crate::operand::Operand;
use lists::{List, Text};
use ops::{Cast, Flags, Opcode, Pred, Unary, Width};

/// An instruction, whose result is a register.
#[derive(Debug, Drop)]
pub struct Inst {
    /// The name of the result, without the `%`; a result without one is numbered when it is printed.
    pub name: Option<Text>,
    /// The width of the result.
    pub width: Width,
    pub op: Op,
}

/// What an instruction computes (LangRef, "Instruction Reference"). Blocks are identified by their index in the
/// function.
#[derive(Debug, Drop)]
pub enum Op {
    /// A binary operation, or an intrinsic such as `umin`, on two operands of the result's width.
    Binary(Opcode, Flags, Operand, Operand),
    /// `icmp`, with `samesign` where that is true: a comparison of two operands of the width; the result is an i1.
    Compare(Pred, bool, Width, Operand, Operand),
    /// An intrinsic on one operand of the result's width, with its truth value, which is false where it has none.
    Unary(Unary, bool, Operand),
    /// `select`: the condition, an i1, the operand that it chooses where that is 1, and the one where it is 0.
    Select(Operand, Operand, Operand),
    /// `trunc`, `zext` or `sext` of an operand of the width.
    Convert(Cast, Flags, Width, Operand),
    /// `freeze`: the operand's value, or any number where that is poison.
    Freeze(Operand),
    /// `phi`: for each predecessor of the block, the operand whose value it takes when control comes from there.
    Phi(List<(Operand, u32)>),
}
