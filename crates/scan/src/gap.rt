//! Gaps: the blanks, line feeds and comments between tokens.

ghost use Rattle.std.specs.Prelude.{◌≡◌, ◌+◌, ◌<◌, ◌≤◌, false, length, take, drop};
ghost use Rattle.scan.specs.Bytes.{begins_with};
ghost use Rattle.scan.specs.Gaps.{IsGap, IsLastGap};
ghost use Rattle.scan.specs.Lines as lines;
ghost use Rattle.scan.specs.Lines.{between};
ghost use Rattle.scan.specs.GapFronts.{behind_gap, in_gap};

use crate::bytes::is_blank;

/// How many bytes stand before the first that is neither a blank, a line feed nor part of a comment, and how many of
/// them are line feeds. A comment goes from a `;` to the end of its line.
fn gap_run(text: &[u8]) -> (usize, usize)
    ensures within { result.0 ≤ length text.now }
    ensures behind { drop result.0 text.now ≡ behind_gap false text.now }
    ensures feeds { result.1 ≡ lines.feeds (take result.0 text.now) }
{
    let mut in_comment = false;
    let mut feeds = 0;
    for (i, byte) in text.iter().enumerate() {
        match *byte {
            blank if is_blank(blank) => {}
            b'\n' => {
                in_comment = false;
                feeds += 1;
            }
            b';' => in_comment = true,
            _ if in_comment => {}
            _ => return (i, feeds),
        }
    }
    (text.len(), feeds)
}

/// The place behind the gap that begins at a place, and how many line feeds the gap has.
pub(crate) fn gap_end(text: &[u8], place: usize) -> (usize, usize)
    requires { place ≤ length text.now }
    ensures order { (place ≤ result.0) × (result.0 ≤ length text.now) }
    ensures gap { result.0 < length text.now → IsGap (between text.now place result.0) }
    ensures last { result.0 ≡ length text.now → IsLastGap (between text.now place result.0) }
    ensures whole { begins_with in_gap (drop result.0 text.now) ≡ false }
    ensures feeds { result.1 ≡ lines.feeds (between text.now place result.0) }
{
    let (run, feeds) = gap_run(&text[place..]);
    (place + run, feeds)
}
