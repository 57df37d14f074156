//! The tokens of a text in order.

ghost use Rattle.std.specs.Prelude.{◌≡◌, ◌≤◌, length, IfOk};
ghost use Rattle.ir_tokens.specs.Order.{IsTokenAt, AreTokens};
ghost use Rattle.ir_tokens.specs.SeenTokens.{seen, seen_placed};

use crate::place::{Extent, Section, extent_of, place_behind};
use crate::token::{Placed, Token, is_last, token_of};
use scan::{BadByte, Cursor};
use std::alloc::{AllocError, Global};

/// Reads the token behind the cursor, which moves behind it; at an invalid byte the cursor stays where it was.
pub(crate) fn next<'a>(cursor: &mut Cursor<'a>, text: &'a [u8], place: Section) -> Placed<'a>
    requires text { cursor.old.text ≡ text.now }
    requires within { cursor.old.at ≤ length text.now }
    ensures text { cursor.new.text ≡ text.now }
    ensures token { IsTokenAt text.now place cursor.old.at (seen_placed result) cursor.new.at }
{
    let scanned = match cursor.next_token() {
        Ok(scanned) => scanned,
        Err(BadByte { line }) => {
            return Placed {
                line,
                token: Token::Bad,
            };
        }
    };
    let line = scanned.line;
    let bytes = scanned.span.bytes(text);
    match extent_of(place, line, bytes) {
        Extent::Itself => Placed {
            line,
            token: token_of(scanned.kind, bytes),
        },
        Extent::Line => {
            let rest = cursor.take_line();
            Placed {
                line,
                token: Token::Kept(&text[scanned.span.start..rest.end]),
            }
        }
        Extent::Group => match cursor.take_group() {
            Some(rest) => Placed {
                line,
                token: Token::KeptGroup(&text[scanned.span.start..rest.end]),
            },
            None => Placed {
                line,
                token: Token::Other,
            },
        },
    }
}

/// The tokens of a text in order, up to its end or to the first that the grammar allows nowhere. The time is linear in
/// the text's length: since nothing is read behind a `(` that is not closed on its line, the rest of a line is searched
/// in vain only once.
pub fn tokens_of(alloc: Global, text: &[u8]) -> Result<Vec<Placed<'_>>, AllocError>
    ensures { IfOk result (λ tokens. AreTokens text.now (seen tokens.items)) }
{
    let mut tokens = Vec::new(alloc);
    let mut cursor = Cursor::new(text);
    let mut place = Section::AtEntry(None);
    loop {
        let placed = next(&mut cursor, text, place);
        tokens.push(placed)?;
        if is_last(placed.token) {
            return Ok(tokens);
        }
        place = place_behind(place, placed);
    }
}
