//! A rule and its parts. A register is known by its place; the names are kept for printing.
//!
//! The positions of a rule are the results and operands of its statements and the nodes of its terms: the source's
//! statements before the target's, of each statement the result and then the operands from left to right, and behind
//! them the nodes, in the order in which they are kept. Positions that have one width in each typing, by the table of
//! types, are of one class, and each position keeps the number of its class.

use lists::{List, Text};
use ops::{Cast, Flags, Opcode, Pred, Unary, Width};

/// A rewrite rule: where the source stands, the target may stand in its place. (Lopes and others, "Provably Correct
/// Peephole Optimizations with Alive", 2015.)
#[derive(Drop)]
pub struct Rule {
    /// The name, as the rule's first line has it.
    pub name: Text,
    /// The names, without the `%`, of the registers of the source that no source statement assigns, in the order in
    /// which the source first names them.
    pub inputs: List<Text>,
    /// The names of the abstract constants, in the order in which the source first names them.
    pub constants: List<Text>,
    /// The statements of the pattern. The last one assigns the root.
    pub source: List<Statement>,
    /// The statements that replace the root's. The last one assigns the root.
    pub target: List<Statement>,
    /// The nodes of the constant terms: those of the target and then those of the precondition, from left to right, and
    /// each behind its operands.
    pub terms: List<Term>,
    /// The nodes of the formula of `Pre:`, each behind its operands. The last one is the precondition; a rule without
    /// `Pre:` has none.
    pub precondition: List<Formula>,
    /// The nodes of the expressions of `Wit:`, from left to right, and each behind its operands.
    pub witness_terms: List<Term>,
    /// For each choice of the source, in the order of the text, the place of the node of `Wit:` that gives its number.
    pub witnesses: List<u32>,
}

/// A statement `%name = op`: the register that it assigns, and what that holds afterwards.
#[derive(Drop)]
pub struct Statement {
    /// The name of the register, without the `%`.
    pub name: Text,
    /// The class of the result: a place in a `Typing`.
    pub class: u32,
    pub op: Op,
}

/// What a statement computes.
#[derive(Clone, Copy, Debug)]
pub enum Op {
    /// A binary operation on two operands of the result's class.
    Binary(Opcode, Flags, Operand, Operand),
    /// `icmp`, with `samesign` where that is true: a comparison of two operands of one class. The result has the width
    /// 1.
    Compare(Pred, bool, Operand, Operand),
    /// An intrinsic on one operand of the result's class, with its truth value, which is false where it has none.
    Unary(Unary, bool, Operand),
    /// `select`: the second operand where the first, of width 1, is 1, and else the third; both are of the result's
    /// class.
    Select(Operand, Operand, Operand),
    /// A cast of the operand to the result's width, which the last type says, if it is written.
    Convert(Cast, Flags, Operand, Option<Width>),
    /// `freeze`: the operand, which has the result's class, or a number where that is poison. The number is the choice
    /// of its half at this place. In a source only the root's statement is one.
    Freeze(Operand, u32),
    /// The operand itself, which has the result's class. It stands in a target alone.
    Copy(Operand),
}

/// What a statement reads.
#[derive(Clone, Copy, Debug)]
pub struct Operand {
    pub value: Argument,
    /// The width of the type that is written before it, if one is.
    pub written: Option<Width>,
    /// The class of the operand: a place in a `Typing`.
    pub class: u32,
}

/// What an operand is.
#[derive(Clone, Copy, Debug)]
pub enum Argument {
    /// What the register holds.
    Register(Register),
    /// A number as it is written, with its sign. At a width of N it is from -2^(N-1) to 2^N - 1, and means itself
    /// modulo 2^N. Beyond `i128` it is saturated; no width fits such a number.
    Literal(i128),
    /// `true` or `false`: 1 or 0, of width 1.
    Truth(bool),
    /// An abstract constant, by its place.
    Constant(u32),
    /// An `undef`, by its place among the choices of its half, which are its `undef`s and its freezes in the order of
    /// the text.
    Undef(u32),
    /// A constant term that is more than a literal or a constant: the place of its node. It stands in a target alone.
    Term(u32),
}

/// A choice of a half: an `undef`, or the number that a freeze gives where its operand is poison.
#[derive(Clone, Copy)]
pub struct Choice {
    /// Its place among the choices of its half, from 0.
    pub place: u32,
    /// The class of the `undef` or of the freeze: a place in a `Typing`.
    pub class: u32,
}

/// A register, by its place. Places count from 0.
#[derive(Clone, Copy, PartialEq, Eq, Debug)]
pub enum Register {
    /// An input.
    Input(u32),
    /// What a source statement assigns.
    Source(u32),
    /// What a target statement assigns; the last one is the root.
    Target(u32),
}

/// What a rule names in several positions, which all have one width.
#[derive(Clone, Copy, PartialEq, Eq)]
pub enum Name {
    Register(Register),
    /// An abstract constant, by its place.
    Constant(u32),
    /// A choice of the target, by its place: in `Wit:` the first one is `t1`.
    Choice(u32),
}

/// A node of a term.
#[derive(Clone, Copy)]
pub struct Term {
    /// The class of the node: a place in a `Typing`.
    pub class: u32,
    pub node: Node,
}

/// What a node is. Its operands are nodes before it, by their places.
#[derive(Clone, Copy)]
pub enum Node {
    /// A number as it is written, as in an operand.
    Literal(i128),
    /// An abstract constant, by its place.
    Constant(u32),
    /// What the register holds. It stands in `Wit:` alone.
    Register(Register),
    /// A choice of the target, by its place. It stands in `Wit:` alone.
    Choice(u32),
    /// `width(%x)`: how many bits the register has, which is of this class.
    Width(Register, u32),
    Unary(Function, u32),
    /// An operator of two operands: `*`, `/`, `/u`, `%`, `%u`, `+`, `-`, `<<`, `>>`, `u>>`, `&`, `^` or `|`. It is
    /// known by the instruction that computes the same: `/` by `sdiv`, `%` by `srem`, `>>` by `ashr`.
    Binary(Opcode, u32, u32),
}

/// An operator or a function of one operand.
#[derive(Clone, Copy, PartialEq, Eq, Debug)]
pub enum Function {
    /// `-`: 0 less the operand, modulo 2^N.
    Negate,
    /// `~`: each bit turned.
    Not,
    /// `log2`: the exponent of a power of two.
    Log2,
    /// `abs`: the operand without its sign; the least number stays itself.
    Abs,
}

/// A node of a precondition. Its operands are nodes before it, or nodes of the rule's terms, by their places.
#[derive(Clone, Copy)]
pub enum Formula {
    /// A comparison of two terms of one class.
    Compare(Pred, u32, u32),
    /// `isPowerOf2`: exactly one bit of the term is set.
    IsPowerOfTwo(u32),
    /// `isSignBit`: the highest bit of the term alone is set.
    IsSignBit(u32),
    /// `hasOneUse`: the register that this source statement assigns is used once where the rule is applied. When a rule
    /// is decided it counts as true.
    HasOneUse(u32),
    /// `MaskedValueIsZero`: the register has no bit that is set in the term, which is of its class, or is poison. A
    /// rule is decided where this holds, and applied where it is known; in the formula it counts as true.
    MaskedValueIsZero(Register, u32),
    /// `isKnownNonZero`: the register is not 0, or is poison. It counts likewise.
    IsKnownNonZero(Register),
    Not(u32),
    And(u32, u32),
    Or(u32, u32),
}

/// A width for each class of a rule, in the order of the classes' numbers.
pub type Typing = List<Width>;
