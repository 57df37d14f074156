//! Tokens.

use crate::fact::BitFact;

/// A token of a rule file, with its bytes where they tell more than its kind.
#[derive(Clone, Copy, Debug)]
pub enum Token<'a> {
    /// The tokens behind stand on another line, with this number, counted from 1.
    Line(usize),
    /// `Version:`, `Name:`, `Pre:` or `Wit:`.
    Head(&'a [u8]),
    /// The name of a rule: the rest of its line.
    Name(&'a [u8]),
    /// The name of a register, without the `%`.
    Register(&'a [u8]),
    Word(&'a [u8]),
    /// A word that is an opcode where the same bytes elsewhere are a function of terms (`abs`).
    Opcode(&'a [u8]),
    /// A word that is a fact on the bits of a register.
    Fact(BitFact),
    Number(&'a [u8]),
    /// `=>`.
    Arrow,
    /// A mark or an operator.
    Mark(&'a [u8]),
    /// A printable byte that begins no token.
    Other,
    /// A byte that may not stand here. It ends the list of tokens.
    Bad,
    /// Stands behind the token with which a rule passes the limit of operands, literals, names, operators and
    /// functions, and ends the list of tokens.
    Excess,
}
