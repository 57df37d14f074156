//! The tokens of a text with their lines.

ghost use Rattle.std.specs.Prelude.{◌≡◌, ◌≢◌, ◌≤◌, ◌+◌, ◌++◌, [], length, IfOk, IfErr, OnOk, IfSome, IfNone, OnSome};
ghost use Rattle.scan.specs.declared.rule_token.RuleKind.TheVariants as kinds;
ghost use Rattle.scan.specs.Names.{IsBadInRest, rest_of_line};
ghost use Rattle.rule_tokens.specs.Contexts.{is_opcode};
ghost use Rattle.rule_tokens.specs.Facts.{fact_in};
ghost use Rattle.rule_tokens.specs.SeenTokens.{seen, seen_token};
ghost use Rattle.rule_tokens.specs.Tokens as relation;
ghost use Rattle.rule_tokens.specs.Tokens.{AreTokens, IsNameToken, is_called, token_on};

use crate::context::Context;
use crate::fact::fact_of;
use crate::token::Token;
use ops::keywords::is;
use scan::{BadByte, Cursor, RuleKind};
use std::alloc::{AllocError, Global};

/// The tokens of a text, and its last line.
#[derive(Drop)]
pub struct Tokens<'a> {
    /// All tokens in order, or those up to and with the first byte that may not stand where it does. Those of each line
    /// are behind its number.
    pub tokens: Vec<Token<'a>>,
    pub last_line: usize,
}

/// Whether `(` stands at this place of the text.
fn is_called(text: &[u8], at: usize) -> bool
    requires { at ≤ length text.now }
    ensures { result ≡ is_called text.now at }
{
    matches!(&text[at..], [b'(', ..])
}

/// The token of a word, where `(` stands directly behind it or not.
fn word_of(context: Context, called: bool, bytes: &[u8]) -> Token<'_>
    ensures { seen_token result ≡ relation.word_of (fact_in context.version bytes.now) (is_opcode context called bytes.now) bytes.now }
{
    match fact_of(context.version, bytes) {
        Some(fact) => Token::Fact(fact),
        None if context.takes_as_opcode(called, bytes) => Token::Opcode(bytes),
        None => Token::Word(bytes),
    }
}

/// The token of a kind, with its bytes; `called` where `(` stands directly behind it. The end of a text is no token.
fn token_of(context: Context, called: bool, kind: RuleKind, bytes: &[u8]) -> Option<Token<'_>>
    ensures end { IfNone result (kind ≡ kinds.End) }
    ensures other { OnSome result (kind ≢ kinds.End) }
    ensures token { IfSome result (λ token. seen_token token ≡ relation.token_of context called kind bytes.now) }
{
    match kind {
        RuleKind::End => None,
        RuleKind::Other => Some(Token::Other),
        RuleKind::Head => Some(Token::Head(bytes)),
        RuleKind::Register => Some(Token::Register(match bytes {
            [_, name @ ..] => name,
            [] => bytes,
        })),
        RuleKind::Word => Some(word_of(context, called, bytes)),
        RuleKind::Number => Some(Token::Number(bytes)),
        RuleKind::Arrow => Some(Token::Arrow),
        RuleKind::Mark => Some(Token::Mark(bytes)),
    }
}

/// Adds a token; the number of its line comes first where it isn't `before`.
fn push<'a>(
    tokens: &mut Vec<Token<'a>>,
    before: usize,
    line: usize,
    token: Token<'a>,
) -> Result<(), AllocError>
    ensures { OnOk result (seen tokens.new.items ≡ seen tokens.old.items ++ token_on before line (seen_token token.entry) []) }
{
    if line != before {
        tokens.push(Token::Line(line))?;
    }
    tokens.push(token)?;
    Ok(())
}

/// The name of a rule, which is the rest of the line.
fn name<'a>(cursor: &mut Cursor<'a>, text: &'a [u8]) -> Result<Token<'a>, BadByte>
    requires text { cursor.old.text ≡ text.now }
    requires within { cursor.old.at ≤ length text.now }
    ensures text { cursor.new.text ≡ text.now }
    ensures name { IfOk result (λ token. IsNameToken text.now cursor.old.at (seen_token token)) }
    ensures goes { IfOk result (λ _. cursor.new.at ≡ cursor.old.at + length (rest_of_line text.now cursor.old.at)) }
    ensures bad { IfErr result (λ e. IsBadInRest text.now cursor.old.at e.line) }
{
    let span = cursor.take_name()?;
    Ok(Token::Name(span.bytes(text)))
}

/// The tokens of a text. It takes as many steps as the text has bytes.
pub fn tokens_of(alloc: Global, text: &[u8]) -> Result<Tokens<'_>, AllocError>
    ensures { IfOk result (λ x. AreTokens text.now (seen x.tokens.items) x.last_line) }
{
    let mut tokens = Vec::new(alloc);
    let mut cursor = Cursor::new(text);
    let mut context = Context::START;
    let mut before = 0;
    loop {
        let token = match cursor.next_rule_token(context.operator) {
            Ok(token) => token,
            Err(BadByte { line }) => {
                push(&mut tokens, before, line, Token::Bad)?;
                return Ok(Tokens {
                    tokens,
                    last_line: line,
                });
            }
        };
        let bytes = token.span.bytes(text);
        let called = is_called(text, token.span.end);
        let Some(found) = token_of(context, called, token.kind, bytes) else {
            return Ok(Tokens {
                tokens,
                last_line: token.line,
            });
        };
        push(&mut tokens, before, token.line, found)?;
        before = token.line;
        if is(bytes, "Name:") {
            match name(&mut cursor, text) {
                Ok(name) => tokens.push(name)?,
                Err(BadByte { line }) => {
                    tokens.push(Token::Bad)?;
                    return Ok(Tokens {
                        tokens,
                        last_line: line,
                    });
                }
            }
            context = context.behind_name();
        } else {
            context = context.behind(token.kind, bytes);
        }
    }
}
