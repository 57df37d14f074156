//! Why a token does not fit: whether it is an unsupported part of LLVM IR or a syntax error there.

ghost use Rattle.std.specs.Prelude.{◌≡◌, IfOk, take};
ghost use Rattle.ir_tokens.specs.SeenTokens.{seen, seen_token};
ghost use Rattle.ir_tokens.specs.declared.fault.IrFaultKind.TheVariants as misfits;
ghost use Rattle.ir_instructions.specs.declared.place.Expected.TheVariants as variants;
ghost use Rattle.refusal.specs.Refusals.{Refuses};
ghost use Rattle.ir_instructions.specs.Places as places;
ghost use Rattle.ir_instructions.specs.Readers as readers;

use ir_tokens::{IrError, IrFault, IrFaultKind, Placed, Token};
use lists::Text;
use refusal::{Fault, refused};
use std::alloc::{AllocError, Global};

/// What is expected where a token stands.
#[derive(Clone, Copy)]
pub enum Expected {
    /// An entry of the module.
    Entry,
    /// A type.
    Type,
    /// An instruction or a terminator.
    Instruction,
    /// One of several words, or what may stand in place of one: an opcode, a predicate, a value or an item.
    Choice,
    /// One certain token, or one of a certain kind.
    Fixed,
}

/// A fault on a line.
pub(crate) fn fault(line: usize, kind: IrFaultKind) -> IrFault
    ensures { result ≡ readers.fault line kind }
{
    Fault { line, kind }
}

/// The fault of what is not supported (left out) on a line.
pub fn left_out(alloc: Global, line: usize, bytes: &[u8]) -> IrError
    ensures { Refuses result (readers.fault line (misfits.LeftOut bytes.now)) }
{
    match copied(alloc, bytes) {
        Ok(text) => refused(line, IrFaultKind::LeftOut(text)),
        Err(_) => IrError::NoMemory,
    }
}

/// A copy of a part of the text.
pub fn copied(alloc: Global, bytes: &[u8]) -> Result<Text, AllocError>
    ensures { IfOk result (λ text. text ≡ bytes.now) }
{
    Ok(Text::from_vec(Vec::from_slice(alloc, bytes)?))
}

/// The first byte, if there is one.
fn first_byte(bytes: &[u8]) -> &[u8]
    ensures { result.now ≡ take 1 bytes.now }
{
    match bytes {
        [] => bytes,
        [_, ..] => &bytes[..1],
    }
}

/// How the fault names a token that is not supported: the word, or the first byte.
#[tactic(auto, unfolding(crate::specs::Places::shown))]
fn shown(alloc: Global, token: Token<'_>) -> Result<Text, AllocError>
    ensures { IfOk result (λ text. text ≡ places.shown (seen_token token.entry)) }
{
    match token {
        Token::Word(word) => copied(alloc, word),
        Token::Kept(text)
        | Token::KeptGroup(text)
        | Token::Label(text)
        | Token::Number(text)
        | Token::Quoted(text) => copied(alloc, first_byte(text)),
        Token::Register(_) => copied(alloc, b"%"),
        Token::Function(_) => copied(alloc, b"@"),
        Token::Group(_) => copied(alloc, b"#"),
        Token::Metadata(_) => copied(alloc, b"!"),
        Token::Mark(mark) => copied(alloc, &[mark]),
        Token::End | Token::Other | Token::Bad => Ok(Text::new(alloc)),
    }
}

/// Whether such a token, where it does not fit, is taken for an unsupported part of LLVM IR.
#[tactic(auto, unfolding(crate::specs::Places::leaves_out))]
fn leaves_out(place: Expected, token: Token<'_>) -> bool
    ensures { result ≡ places.leaves_out place (seen_token token.entry) }
{
    match place {
        Expected::Entry => true,
        Expected::Type => matches!(token, Token::Word(_) | Token::Mark(b'<' | b'{' | b'[')),
        Expected::Instruction => matches!(token, Token::Word(_) | Token::Mark(b'#')),
        Expected::Choice => matches!(token, Token::Word(_)),
        Expected::Fixed => false,
    }
}

/// The kind of fault of a token that does not fit.
#[tactic(auto, unfolding(crate::specs::Places::misfit))]
fn misfit(alloc: Global, place: Expected, token: Token<'_>) -> Result<IrFaultKind, AllocError>
    ensures { IfOk result (λ kind. kind ≡ places.misfit place (seen_token token.entry)) }
{
    match token {
        Token::Bad => Ok(IrFaultKind::BadByte),
        Token::Other | Token::End => Ok(IrFaultKind::Syntax),
        _ => {
            if leaves_out(place, token) {
                Ok(IrFaultKind::LeftOut(shown(alloc, token)?))
            } else {
                Ok(IrFaultKind::Syntax)
            }
        }
    }
}

/// The fault of the first token, which does not fit where this is expected.
#[tactic(auto, unfolding(crate::specs::Readers::unexpected))]
pub fn unexpected(alloc: Global, place: Expected, tokens: &[Placed<'_>]) -> IrError
    ensures { Refuses result (readers.unexpected place (seen tokens.now)) }
{
    match tokens {
        [Placed { line, token }, ..] => match misfit(alloc, place, *token) {
            Ok(kind) => refused(*line, kind),
            Err(_) => IrError::NoMemory,
        },
        [] => refused(0, IrFaultKind::Syntax),
    }
}

/// The same where a certain token is expected, so that no other is taken for an unsupported part of LLVM IR.
#[tactic(auto, unfolding(crate::specs::Readers::unexpected, crate::specs::Places::misfit, crate::specs::Places::leaves_out))]
pub fn misplaced(tokens: &[Placed<'_>]) -> IrFault
    ensures { result ≡ readers.unexpected variants.Fixed (seen tokens.now) }
{
    match tokens {
        [
            Placed {
                line,
                token: Token::Bad,
            },
            ..
        ] => fault(*line, IrFaultKind::BadByte),
        [Placed { line, .. }, ..] => fault(*line, IrFaultKind::Syntax),
        [] => fault(0, IrFaultKind::Syntax),
    }
}
