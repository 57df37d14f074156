//! Tokens of modules of LLVM IR.

use crate::span::Span;

/// The kinds of tokens of a module. Names and literals are those of the Language Reference, "Identifiers".
#[derive(Clone, Copy, Debug, PartialEq, Eq)]
pub enum TokenKind {
    /// The end of the text.
    End,
    /// A printable byte that begins no token.
    Other,
    /// A plain name, digits or a quoted text, and `:` directly behind it.
    Label,
    /// A letter, `$`, `.` or `_`, then bytes of names.
    Word,
    /// Digits, maybe behind a `-`, with no byte of names behind them.
    Number,
    /// `%`, and directly behind it a plain name, digits or a quoted text.
    Register,
    /// `@`, and directly behind it a plain name, digits or a quoted text.
    Function,
    /// `#` and digits.
    Group,
    /// `!`, and the bytes of names directly behind it, if any.
    Metadata,
    /// `"`, bytes that are neither `"` nor a line feed, and `"`.
    Quoted,
    /// One of `= , ( ) { } [ ] <`, or `#` without a digit behind it.
    Mark,
}

/// A token of a module.
#[derive(Clone, Copy, Debug, PartialEq, Eq)]
pub struct Token {
    pub kind: TokenKind,
    /// The line that it stands on, counted from 1; at the end of the text the last line.
    pub line: usize,
    /// Its bytes, with `%`, `@`, `#`, `!`, `:` and quotes; none at the end of the text.
    pub span: Span,
}
