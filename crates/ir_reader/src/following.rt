//! The tokens of a text, taken entry by entry.

ghost use Rattle.std.specs.Prelude.{◌≡◌, ◌++◌, ℕ, [], List as Seq, IfOk, OnOk, IfSome};
ghost use Rattle.ir_tokens.specs.Order.{AreTokens};
ghost use Rattle.ir_tokens.specs.ReaderPlaces.{StandsIn, HasPassed};
ghost use Rattle.ir_tokens.specs.SeenTokens.{seen};
ghost use Rattle.ir_tokens.specs.Tokens.{Placed as PlacedToken};
ghost use Rattle.ir_parse.specs.Grammar.{SpellsEntry};
ghost use Rattle.ir_parse.specs.ModuleReaders.{is_end};

use ir_parse::entry;
use ir_tokens::{IrError, Placed, RawEntry, Token, TokenReader};
use std::alloc::{AllocError, Global};

/// Whether the end of the text is next.
pub(crate) fn ends(tokens: &[Placed<'_>]) -> bool
    ensures { result ≡ is_end (seen tokens.now) }
{
    match tokens {
        [Placed { token, .. }, ..] => matches!(*token, Token::End),
        [] => false,
    }
}

/// Parses these tokens as one entry; `None` where they are not exactly one.
pub(crate) fn whole_entry(
    alloc: Global,
    tokens: &[Placed<'_>],
) -> Result<Option<RawEntry>, AllocError>
    ensures { IfOk result (λ found. IfSome found (λ entry. SpellsEntry entry (seen tokens.now) [])) }
{
    let mut rest = tokens;
    match entry(alloc, &mut rest) {
        Ok(entry) => Ok(rest.is_empty().then_some(entry)),
        Err(IrError::Refused(_)) => Ok(None),
        Err(IrError::NoMemory) => Err(AllocError),
    }
}

/// Reads the tokens up to the last of the text, and appends them.
pub(crate) fn take_rest<'a>(
    reader: TokenReader<'a>,
    tokens: &mut Vec<Placed<'a>>,
) -> Result<(), AllocError>
    requires { StandsIn reader.text.now reader }
    ensures { OnOk result ((text : Seq ℕ) (front : Seq PlacedToken) →
        HasPassed text (front ++ seen tokens.old.items) reader.entry →
        AreTokens text (front ++ seen tokens.new.items)) }
{
    let mut reader = reader;
    loop {
        let (behind, are_last) = reader.take_entry(tokens)?;
        if are_last {
            return Ok(());
        }
        reader = behind;
    }
}
