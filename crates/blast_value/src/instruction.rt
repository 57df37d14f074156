//! The instructions that have circuits.

use ops::{Cast, Flags, Opcode, Pred, Unary};

/// An instruction, without its operands.
#[derive(Clone, Copy, PartialEq, Eq)]
pub enum Instruction {
    /// An instruction with two operands of the result's width.
    Binary(Opcode, Flags),
    /// `icmp`, with `samesign` where that is true: two operands of one width, and a result of one bit.
    Compare(Pred, bool),
    /// `select`: a condition of one bit, and two operands of the result's width.
    Select,
    /// A cast with its flags: one operand of another width.
    Convert(Cast, Flags),
    /// An intrinsic with one operand of the result's width, called with this truth value: the `i1` flag of `abs` (the
    /// least number gives poison) and of `ctlz` and `cttz` (0 gives poison).
    Unary(Unary, bool),
}
