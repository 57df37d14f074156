//! Modules as they are written, the syntax trees of the parser: names are kept, and types and numbers are read.

use crate::Identifier;
use lists::{List, Text};
use ops::{Cast, Flags, Opcode, Pred, Unary, Width, Word};

/// A module as written.
#[derive(Drop)]
pub struct RawModule {
    /// In text order.
    pub entries: List<RawEntry>,
}

/// An entry of a module as written.
#[derive(Drop)]
pub enum RawEntry {
    /// A line that is kept as it is.
    Kept(Text),
    Function(RawFunction),
}

/// A function with its body as written.
#[derive(Drop)]
pub struct RawFunction {
    /// The line of its name, counted from 1.
    pub line: usize,
    /// The name, without the `@`.
    pub name: Text,
    /// The items before the type, each as it is printed: linkage, attributes of what is returned and the like.
    pub before: List<Text>,
    /// The width of what it returns.
    pub width: Width,
    pub parameters: List<RawParameter>,
    /// The items behind the parameters, each as it is printed: attributes of the function and the like.
    pub after: List<Text>,
    /// One or more; the first is entered when the function is called.
    pub blocks: List<RawBlock>,
}

/// A parameter as written.
#[derive(Drop)]
pub struct RawParameter {
    pub width: Width,
    /// The items behind the type, each as it is printed.
    pub items: List<Text>,
    pub name: Option<RawIdentifier>,
}

/// The name or the number of a register or of a block, with the line that it stands on, counted from 1.
#[derive(Drop)]
pub struct RawIdentifier {
    pub line: usize,
    /// Without the `%` before it or the `:` behind it.
    pub identifier: Identifier,
}

/// A basic block as written.
#[derive(Drop)]
pub struct RawBlock {
    /// Missing only in the first block of a function, if at all.
    pub label: Option<RawIdentifier>,
    pub insts: List<RawInst>,
    pub end: RawTerminator,
    /// The line of the first word of the terminator, counted from 1.
    pub end_line: usize,
}

/// An instruction as written, with the register that it assigns.
#[derive(Drop)]
pub struct RawInst {
    pub result: RawIdentifier,
    pub op: RawOp,
}

/// What an instruction computes, as written. (LLVM Language Reference, "Instruction Reference".)
#[derive(Drop)]
pub enum RawOp {
    /// A binary operation with its flags; the width is that of both operands.
    Binary(Opcode, Flags, Width, RawOperand, RawOperand),
    /// `icmp`, with `samesign` where that is true; the width is that of both operands.
    Compare(Pred, bool, Width, RawOperand, RawOperand),
    /// `call` of an integer intrinsic.
    Call(RawCall),
    /// `select`: the condition, the operand that it chooses where it is true, and the one where it is false.
    Select(TypedOperand, TypedOperand, TypedOperand),
    /// A cast with its flags, from a width to another.
    Convert(Cast, Flags, Width, RawOperand, Width),
    /// `freeze`.
    Freeze(Width, RawOperand),
    /// `phi`, with at least one incoming value.
    Phi(Width, List<RawIncoming>),
}

/// A call of an integer intrinsic as written. Attributes and other items in it are dropped.
#[derive(Drop)]
pub struct RawCall {
    /// The line of the word `call`, counted from 1.
    pub line: usize,
    /// The width of the result.
    pub width: Width,
    /// The width in the name of the intrinsic.
    pub named: Width,
    pub arguments: RawArguments,
}

/// An integer intrinsic with its arguments.
#[derive(Drop)]
pub enum RawArguments {
    /// `umin`, `umax`, `smin` or `smax` of two operands.
    Binary(Opcode, TypedOperand, TypedOperand),
    /// An intrinsic of one operand, and its truth value (a number, `true` or `false`), if the intrinsic takes one.
    Unary(Unary, TypedOperand, Option<TypedOperand>),
}

/// An operand with the width that is written before it.
#[derive(Drop)]
pub struct TypedOperand {
    pub width: Width,
    pub operand: RawOperand,
}

/// An operand as written, with its line, counted from 1.
#[derive(Drop)]
pub struct RawOperand {
    pub line: usize,
    pub value: RawValue,
}

/// A value as written.
#[derive(Drop)]
pub enum RawValue {
    Register(Identifier),
    /// A number, modulo 2^N at the width N that is written before it.
    Number(Word),
    True,
    False,
    Undef,
    Poison,
}

/// An incoming value of a `phi`, and the block that control comes from.
#[derive(Drop)]
pub struct RawIncoming {
    pub value: RawOperand,
    pub block: RawIdentifier,
}

/// How a block ends, as written. (LLVM Language Reference, "Terminator Instructions".)
#[derive(Drop)]
pub enum RawTerminator {
    /// `ret` of an operand of a width.
    Return(Width, RawOperand),
    Unreachable,
    /// `br` to a block.
    Jump(RawIdentifier),
    /// `br` on a condition of a width: to the first block where it is true, and to the second where it is false.
    Branch(Width, RawOperand, RawIdentifier, RawIdentifier),
    /// `switch` on an operand of a width: the default block, and the cases.
    Switch(Width, RawOperand, RawIdentifier, List<RawCase>),
}

/// A case of a `switch` as written.
#[derive(Drop)]
pub struct RawCase {
    pub width: Width,
    /// A number, `true` or `false`.
    pub value: RawOperand,
    pub target: RawIdentifier,
}
