//! Terms and formulas as they are written: constants and registers by their names.

use lists::{List, Text};
use ops::{Opcode, Pred};
use rule_core::Function;

/// A term as written: its nodes, each behind its operands. The last one is the term.
pub type RawTerm = List<RawNode>;

/// A node of a term as written. Its operands are nodes before it in the term, by their places.
#[derive(Drop)]
pub enum RawNode {
    /// A number with its sign, saturated to `i128`.
    Literal(i128),
    /// An abstract constant, by its name.
    Constant(Text),
    /// A register by its name, without the `%`. It stands in `Wit:` alone.
    Register(Text),
    /// A choice of the target by its place, which is 0 for `t1`, saturated to `u32`. It stands in `Wit:` alone.
    Choice(u32),
    /// `width(%x)`: the register by its name.
    Width(Text),
    Unary(Function, u32),
    /// A binary operator, as the instruction that computes the same.
    Binary(Opcode, u32, u32),
}

/// A node of a formula as written. Operands that are formulas are nodes before it, by their places.
#[derive(Drop)]
pub enum RawFormula {
    Compare(Pred, RawTerm, RawTerm),
    /// `isPowerOf2`.
    IsPowerOfTwo(RawTerm),
    /// `isSignBit`.
    IsSignBit(RawTerm),
    /// `hasOneUse`, of the register by its name.
    HasOneUse(Text),
    /// `MaskedValueIsZero`, of the register by its name and the mask.
    MaskedValueIsZero(Text, RawTerm),
    /// `isKnownNonZero`, of the register by its name.
    IsKnownNonZero(Text),
    Not(u32),
    And(u32, u32),
    Or(u32, u32),
}
