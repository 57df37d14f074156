//! Tokens of rule files.

use crate::span::Span;

/// The kinds of tokens of a rule file.
#[derive(Clone, Copy, Debug, PartialEq, Eq)]
pub enum RuleKind {
    /// The end of the text.
    End,
    /// A printable byte that begins no token.
    Other,
    /// `Version:`, `Name:`, `Pre:` or `Wit:`.
    Head,
    /// `%`, and letters, digits, `_` and `.`.
    Register,
    /// A letter, then letters, digits and `_`.
    Word,
    /// Digits, and, unless they are in an operator's place, maybe a `-` before them.
    Number,
    /// `=>`, between source and target.
    Arrow,
    /// A punctuation mark, an operator or a comparison.
    Mark,
}

/// A token of a rule file.
#[derive(Clone, Copy, PartialEq, Eq)]
pub struct RuleToken {
    pub kind: RuleKind,
    /// The line that it begins on, counted from 1; at the end of the text the last line.
    pub line: usize,
    /// Its bytes; none at the end of the text.
    pub span: Span,
}
