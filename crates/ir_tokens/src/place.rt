//! Tokens that depend on their context in the module.

ghost use Rattle.std.specs.Prelude.{◌≡◌};
ghost use Rattle.ir_tokens.specs.Places as places;
ghost use Rattle.ir_tokens.specs.SeenTokens.{seen_placed};

use crate::bytes::{is, is_among};
use crate::token::{Placed, Token};

/// The lexical context of the next token in a module.
#[derive(Clone, Copy, PartialEq, Eq)]
pub enum Section {
    /// Between the entries of the module; with the line of the token before, if there is one.
    AtEntry(Option<usize>),
    /// In the header of a function, from the word `define` to the body; with the line of the token before, if that is a
    /// word.
    InHeader(Option<usize>),
    /// In the body of a function; with the line of the token before, if that is a word.
    InBody(Option<usize>),
}

/// How far a token extends beyond the bytes that the scan found.
#[derive(Clone, Copy, PartialEq, Eq)]
pub enum Extent {
    /// Not at all.
    Itself,
    /// To the end of its line: it begins a kept line.
    Line,
    /// To the closing bracket: it is the `(` of a kept group.
    Group,
}

/// Whether a token with these bytes begins a kept line, if it is the first on its line.
#[tactic(auto, unfolding(crate::specs::Places::begins_kept))]
fn begins_kept(bytes: &[u8]) -> bool
    ensures { result ≡ places.begins_kept bytes.now }
{
    is_among(
        bytes,
        &["source_filename", "target", "attributes", "declare"],
    ) || matches!(bytes, [b'!' | b'$', ..])
}

/// How far the token extends that stands on a line and has these bytes by itself.
#[tactic(auto, unfolding(crate::specs::Places::extent_of))]
pub(crate) fn extent_of(place: Section, line: usize, bytes: &[u8]) -> Extent
    ensures { result ≡ places.extent_of place line bytes.now }
{
    match place {
        Section::AtEntry(before) if begins_kept(bytes) && before != Some(line) => Extent::Line,
        Section::InHeader(word) | Section::InBody(word) if is(bytes, "(") && word == Some(line) => {
            Extent::Group
        }
        Section::AtEntry(_) | Section::InHeader(_) | Section::InBody(_) => Extent::Itself,
    }
}

/// The lexical context behind a token.
pub(crate) fn place_behind(place: Section, placed: Placed<'_>) -> Section
    ensures { result ≡ places.place_behind place (seen_placed placed.entry) }
{
    let line = placed.line;
    match (place, placed.token) {
        (Section::AtEntry(_), Token::Word(word)) if is(word, "define") => Section::InHeader(Some(
            line,
        )),
        (Section::AtEntry(_), _) => Section::AtEntry(Some(line)),
        (Section::InHeader(_), Token::Word(_)) => Section::InHeader(Some(line)),
        (Section::InHeader(_), Token::Mark(b'{')) => Section::InBody(None),
        (Section::InHeader(_), _) => Section::InHeader(None),
        (Section::InBody(_), Token::Word(_)) => Section::InBody(Some(line)),
        (Section::InBody(_), Token::Mark(b'}')) => Section::AtEntry(Some(line)),
        (Section::InBody(_), _) => Section::InBody(None),
    }
}
