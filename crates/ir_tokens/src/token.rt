//! Tokens.

ghost use Rattle.std.specs.Prelude.{◌≡◌};
ghost use Rattle.ir_tokens.specs.SeenTokens.{seen_token};
ghost use Rattle.ir_tokens.specs.Tokens as relation;

use crate::bytes::{without_first, without_last};
use scan::TokenKind;

/// A token of a module, with its line.
#[derive(Clone, Copy, PartialEq, Eq)]
pub struct Placed<'a> {
    /// The line that it stands on, counted from 1; of the end of the text the last line.
    pub line: usize,
    pub token: Token<'a>,
}

/// A token of a module, with its bytes.
#[derive(Clone, Copy, Debug, PartialEq, Eq)]
pub enum Token<'a> {
    /// The end of the text.
    End,
    /// A printable byte that begins no token, or the `(` of a kept group that is not closed on its line. The grammar
    /// allows it nowhere, and nothing behind it is read.
    Other,
    /// An invalid byte, as `BadByte` describes it. Nothing behind it is read.
    Bad,
    /// A line between functions that is kept as it is, from its first token to its last byte that is no blank.
    Kept(&'a [u8]),
    /// A group in the header or the body of a function that is kept as it is, with its brackets.
    KeptGroup(&'a [u8]),
    /// A label, without the `:`.
    Label(&'a [u8]),
    Word(&'a [u8]),
    /// A number, with its `-`.
    Number(&'a [u8]),
    /// The name or the number of a register as written, without the `%`.
    Register(&'a [u8]),
    /// The name or the number of a function as written, without the `@`.
    Function(&'a [u8]),
    /// A group of attributes, with its `#`.
    Group(&'a [u8]),
    /// A name or a number of metadata, without the `!`; empty for `!` alone.
    Metadata(&'a [u8]),
    /// A quoted text, with its quotes.
    Quoted(&'a [u8]),
    /// One of `= , ( ) { } [ ] <`, or `#` without a digit behind it.
    Mark(u8),
}

/// The token of a kind and its bytes, if it extends no further.
pub(crate) fn token_of(kind: TokenKind, bytes: &[u8]) -> Token<'_>
    ensures { seen_token result ≡ relation.token_of kind bytes.now }
{
    match kind {
        TokenKind::End => Token::End,
        TokenKind::Other => Token::Other,
        TokenKind::Label => Token::Label(without_last(bytes)),
        TokenKind::Word => Token::Word(bytes),
        TokenKind::Number => Token::Number(bytes),
        TokenKind::Register => Token::Register(without_first(bytes)),
        TokenKind::Function => Token::Function(without_first(bytes)),
        TokenKind::Group => Token::Group(bytes),
        TokenKind::Metadata => Token::Metadata(without_first(bytes)),
        TokenKind::Quoted => Token::Quoted(bytes),
        TokenKind::Mark => mark(bytes),
    }
}

fn mark(bytes: &[u8]) -> Token<'_>
    ensures { seen_token result ≡ relation.mark_of bytes.now }
{
    match bytes {
        [] => Token::Other,
        [byte, ..] => Token::Mark(*byte),
    }
}

/// Whether reading ends with the token.
pub(crate) fn is_last(token: Token<'_>) -> bool
    ensures { result ≡ relation.is_last (seen_token token.entry) }
{
    matches!(token, Token::End | Token::Other | Token::Bad)
}
