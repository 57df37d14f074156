//! Rules as they are written: registers by their names, and each statement with its line.

use lists::{List, Text};
use ops::{Cast, Flags, Opcode, Pred, Unary, Width};
use rule_terms::{RawFormula, RawTerm};

/// A rule as written.
#[derive(Drop)]
pub struct RawRule {
    /// The line of `Name:`, counted from 1.
    pub line: usize,
    pub name: Text,
    /// What stands behind `Pre:`, if that is written.
    pub precondition: Option<RawPrecondition>,
    /// What stands behind `Wit:`, if that is written.
    pub witness: Option<RawWitness>,
    pub source: List<RawStatement>,
    pub target: List<RawStatement>,
}

/// A precondition as written.
#[derive(Drop)]
pub struct RawPrecondition {
    /// Its line, counted from 1.
    pub line: usize,
    /// The nodes of the formula, each behind its operands. The last one is the formula.
    pub formula: List<RawFormula>,
}

/// The expressions of `Wit:`, which say what the choices of the source are.
#[derive(Drop)]
pub struct RawWitness {
    /// Their line, counted from 1.
    pub line: usize,
    /// The expressions, from left to right.
    pub expressions: List<RawTerm>,
}

/// A statement `%name = op` as written.
#[derive(Drop)]
pub struct RawStatement {
    /// Its line, counted from 1.
    pub line: usize,
    /// The register that it assigns, without the `%`.
    pub name: Text,
    pub op: RawOp,
}

/// What a statement computes, as written.
#[derive(Drop)]
pub enum RawOp {
    /// A binary operation. Before its second operand no type is written.
    Binary(Opcode, Flags, RawOperand, RawOperand),
    /// `icmp`, with `samesign` where that is true. Before its second operand no type is written.
    Compare(Pred, bool, RawOperand, RawOperand),
    /// An intrinsic on one operand, with its truth value, which is false where it has none.
    Unary(Unary, bool, RawOperand),
    /// `select`: the condition, and the operands for 1 and for 0.
    Select(RawOperand, RawOperand, RawOperand),
    /// A cast, with the type that is written behind `to`, if one is.
    Convert(Cast, Flags, RawOperand, Option<Width>),
    /// `freeze`.
    Freeze(RawOperand),
    /// A copy.
    Copy(RawOperand),
}

/// An operand as written.
#[derive(Drop)]
pub struct RawOperand {
    /// The type that is written before it, if one is.
    pub written: Option<Width>,
    pub value: RawArgument,
}

/// What an operand is, as written.
#[derive(Drop)]
pub enum RawArgument {
    /// A register by its name, without the `%`.
    Register(Text),
    /// A number with its sign, saturated to `i128`.
    Literal(i128),
    /// `true` or `false`.
    Truth(bool),
    /// An abstract constant, by its name.
    Constant(Text),
    /// `undef`.
    Undef,
    /// A term that is more than a literal or a constant. It stands in a target alone.
    Term(RawTerm),
}
