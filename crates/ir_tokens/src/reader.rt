//! The tokens of a text, read entry by entry.

ghost use Rattle.std.specs.Prelude.{◌≡◌, ◌<◌, ℕ, List as Seq, [], ◌++◌, IfOk, OnErr, false};
ghost use Rattle.ir_tokens.specs.ReaderPlaces.{StandsIn, HasPassed, HasCome, IsOneEntry};
ghost use Rattle.ir_tokens.specs.SeenTokens.{seen};
ghost use Rattle.ir_tokens.specs.declared.token.Placed.{Placed as placed};
ghost use Rattle.ir_tokens.specs.Tokens.{Placed as PlacedToken};

use crate::place::{Section, place_behind};
use crate::token::{Placed, is_last};
use crate::tokens::next;
use scan::Cursor;
use std::alloc::AllocError;

/// A reader that moves over a text entry by entry.
#[derive(Drop)]
pub struct TokenReader<'a> {
    text: &'a [u8],
    cursor: Cursor<'a>,
    place: Section,
}

impl<'a> TokenReader<'a> {
    /// The reader at the start of the text.
    pub fn new(text: &'a [u8]) -> TokenReader<'a>
        ensures { HasPassed text.now [] result }
    {
        TokenReader {
            text,
            cursor: Cursor::new(text),
            place: Section::AtEntry(None),
        }
    }

    /// Reads the tokens of the next entry, up to where another may begin, and appends them. Returns the reader behind
    /// them, and whether the last token of the text is among them; nothing is read behind that. Where memory is refused
    /// the tokens are as before.
    pub fn take_entry(
        self,
        tokens: &mut Vec<Placed<'a>>,
    ) -> Result<(TokenReader<'a>, bool), AllocError>
        requires { StandsIn self.text.now self }
        ensures come { IfOk result (λ (reader, ends). (text : Seq ℕ) (front : Seq PlacedToken) →
            HasPassed text (front ++ seen tokens.old.items) self.entry →
            HasCome text (front ++ seen tokens.new.items) ends reader) }
        ensures entry { IfOk result (λ (reader, ends). (taken : Seq placed)
            × (tokens.new.items ≡ tokens.old.items ++ taken) × IsOneEntry self.entry.place (seen taken) ends) }
        ensures stands { IfOk result (λ (reader, ends). StandsIn self.entry.text.now reader) }
        ensures goes { IfOk result (λ (reader, ends). ends ≡ false → self.entry.cursor.at < reader.cursor.at) }
        ensures unmoved { OnErr result (tokens.new.items ≡ tokens.old.items) }
    {
        let TokenReader {
            text,
            mut cursor,
            mut place,
        } = self;
        let count = tokens.as_slice().len();
        loop {
            let placed = next(&mut cursor, text, place);
            if tokens.push(placed).is_err() {
                tokens.truncate(count);
                return Err(AllocError);
            }
            if is_last(placed.token) {
                return Ok((
                    TokenReader {
                        text,
                        cursor,
                        place,
                    },
                    true,
                ));
            }
            place = place_behind(place, placed);
            if let Section::AtEntry(_) = place {
                return Ok((
                    TokenReader {
                        text,
                        cursor,
                        place,
                    },
                    false,
                ));
            }
        }
    }
}
