//! The lines that proofs begin with.

ghost use Rattle.std.specs.Prelude.{ℕ, List as Seq, ◌≡◌, ◌≢◌, ◌<◌, ◌≤◌, ◌+◌, ◌++◌, ◌∷◌, [], length, take, drop, IfOk, IfErr, IfSome, IfNone, MatchOption};
ghost use Rattle.std.specs.List.{prefix_len};
ghost use Rattle.proof_text.specs.Texts.{head_text, widths_text};
ghost use Rattle.proof_text.specs.WellFormed.{in_name, IsName, AreWidths};
ghost use Rattle.proof_text.specs.Reading.{Heads, EndsName, NoLine, NoWidths, NoParts, Lacks, line_text, StopsIn};

use crate::numbers::numbers;
use crate::stop::{Stop, Stopped, take_byte, take_text};
use lists::{List, Text};
use refusal::Refusal;
use std::alloc::{AllocError, Global};

/// Whether a name may hold the byte.
#[tactic(auto, unfolding(crate::specs::WellFormed::in_name, scan::specs::Bytes::is_printable, scan::specs::Bytes::is_blank))]
fn in_name(byte: u8) -> bool
    ensures { result ≡ in_name byte }
{
    matches!(byte, b' '..=b'~' | b'\t' | b'\r')
}

#[tactic(auto, using(crate::proofs::Names::name_within))]
fn name_length(text: &[u8]) -> usize
    ensures is { result ≡ prefix_len in_name text.now }
    ensures within { result ≤ length text.now }
{
    text.iter().take_while(|byte| in_name(**byte)).count()
}

/// The bytes that a name may hold, as many as are next, and goes behind them.
#[tactic(auto, using(crate::proofs::Names::name_parts, crate::proofs::Names::name_ends, crate::proofs::Names::name_fits))]
fn take_line<'a>(rest: &mut &'a [u8]) -> &'a [u8]
    ensures parts { rest.old.now ≡ result.now ++ rest.new.now }
    ensures name { IsName result.now }
    ensures ends { EndsName rest.new.now }
{
    let text = *rest;
    let length = name_length(text);
    *rest = &text[length..];
    &text[..length]
}

/// The widths that all of the text writes, with `]` behind them.
#[tactic(auto, using(crate::proofs::Decodings::no_digit_93, crate::proofs::HeadReadings::no_widths, crate::proofs::HeadReadings::not_all))]
fn widths(alloc: Global, text: &[u8]) -> Result<Option<List<u32>>, AllocError>
    ensures { IfOk result (λ read. MatchOption read (NoWidths text.now) (λ ws. AreWidths ws × (text.now ≡ widths_text ws ++ 93 ∷ []))) }
{
    let mut rest = text;
    match numbers(alloc, &mut rest, b']') {
        Ok(widths) if rest.is_empty() => Ok(Some(widths)),
        Ok(_) => Ok(None),
        Err(Refusal::Refused(_)) => Ok(None),
        Err(Refusal::NoMemory) => Err(AllocError),
    }
}

/// The place of the last `[`.
#[tactic(auto, using(crate::proofs::Names::lacks_end, crate::proofs::Names::lacks_more, crate::proofs::Names::bracket_at))]
fn last_bracket(line: &[u8]) -> Option<usize>
    ensures some { IfSome result (λ place. Lacks 91 (drop (place + 1) line.now) × (line.now ≡ take place line.now ++ 91 ∷ drop (place + 1) line.now)) }
    ensures within { IfSome result (λ place. place < length line.now) }
    ensures none { IfNone result (Lacks 91 line.now) }
{
    let mut place = line.len();
    while place > 0 {
        place -= 1;
        if line[place] == b'[' {
            return Some(place);
        }
    }
    None
}

/// What stands before the space at the end of the text.
#[tactic(auto, using(crate::proofs::Names::last_byte, crate::proofs::Names::other_last, crate::proofs::Names::no_last))]
fn before_blank(text: &[u8]) -> Option<&[u8]>
    ensures some { IfSome result (λ before. text.now ≡ before.now ++ 32 ∷ []) }
    ensures none { IfNone result ((before : Seq ℕ) → text.now ≢ before ++ 32 ∷ []) }
{
    let [before @ .., last] = text else {
        return None;
    };
    if *last == b' ' { Some(before) } else { None }
}

/// What stands before the last ` [` of the line, and behind it.
#[tactic(auto, using(crate::proofs::HeadReadings::lacks_parts, crate::proofs::HeadReadings::other_part, crate::proofs::HeadReadings::parts_read))]
fn parted(line: &[u8]) -> Option<(&[u8], &[u8])>
    ensures some { IfSome result (λ x. Lacks 91 x.1.now × (line.now ≡ (x.0.now ++ 32 ∷ []) ++ 91 ∷ x.1.now)) }
    ensures none { IfNone result (NoParts line.now) }
{
    let place = last_bracket(line)?;
    let name = before_blank(&line[..place])?;
    Some((name, &line[place + 1..]))
}

/// The name and the widths of a line `NAME [w ..]`.
#[tactic(auto, using(crate::proofs::HeadReadings::no_parts, crate::proofs::HeadReadings::no_line, crate::proofs::HeadReadings::line_read))]
fn name_and_widths(alloc: Global, line: &[u8]) -> Result<Option<(Text, List<u32>)>, AllocError>
    requires name { IsName line.now }
    ensures { IfOk result (λ read. MatchOption read (NoLine line.now) (λ x. IsName x.0 × AreWidths x.1 × (line.now ≡ line_text x.0 x.1))) }
{
    let Some((name, behind)) = parted(line) else {
        return Ok(None);
    };
    let Some(widths) = widths(alloc, behind)? else {
        return Ok(None);
    };
    Ok(Some((Text::from_vec(Vec::from_slice(alloc, name)?), widths)))
}

/// The line `proof NAME [w ..]`.
#[tactic(auto, using(crate::proofs::HeadReadings::other_line, crate::proofs::HeadReadings::head_read))]
pub(crate) fn head(alloc: Global, rest: &mut &[u8]) -> Result<(Text, List<u32>), Stopped>
    ensures ok { IfOk result (λ x. IsName x.0 × AreWidths x.1 × (rest.old.now ≡ head_text x.0 x.1 ++ rest.new.now)) }
    ensures stop { IfErr result (λ e. StopsIn Heads e rest.old.now rest.new.now) }
{
    take_text(rest, b"proof ")?;
    let line = take_line(rest);
    let Some(read) = name_and_widths(alloc, line)? else {
        return Err(Refusal::Refused(Stop));
    };
    take_byte(rest, b'\n')?;
    Ok(read)
}
