//! Text that is kept as it is written: the rest of a line, and what brackets hold.

ghost use Rattle.std.specs.Prelude.{◌≡◌, ◌≤◌, ◌++◌, ◌∷◌, ℕ, List, ◌==◌, not, length, MatchOption};
ghost use Rattle.std.specs.List.{prefix_len};
ghost use Rattle.scan.specs.Kept as kept;
ghost use Rattle.scan.specs.Kept.{IsBalanced};

/// How many bytes there are before the first line feed.
fn feed_run(text: &[u8]) -> usize
    ensures { result ≡ prefix_len (λ b. not (b == 10)) text.now }
{
    text.iter().take_while(|byte| **byte != b'\n').count()
}

/// The text from the place up to the end of its line, with a comment that is in it.
pub(crate) fn rest_to_feed(text: &[u8], place: usize) -> &[u8]
    requires { place ≤ length text.now }
    ensures { result.now ≡ kept.rest_to_feed text.now place }
{
    let ahead = &text[place..];
    &ahead[..feed_run(ahead)]
}

/// The text behind the `)` that closes a `(` before the text; `None` where none on the line closes it. Brackets in
/// quoted texts don't count.
pub(crate) fn behind_group(text: &[u8]) -> Option<&[u8]>
    ensures { MatchOption result
        ((content rest : List ℕ) → IsBalanced content → ¬ (text.now ≡ content ++ 41 ∷ rest))
        (λ rest. (content : List ℕ) × IsBalanced content × (text.now ≡ content ++ 41 ∷ rest.now)) }
{
    let mut depth: usize = 0;
    let mut in_quotes = false;
    for (i, byte) in text.iter().enumerate() {
        match *byte {
            b'\n' => return None,
            b'"' => in_quotes = !in_quotes,
            b'(' if !in_quotes => depth += 1,
            b')' if !in_quotes && depth == 0 => return Some(&text[i + 1..]),
            b')' if !in_quotes => depth -= 1,
            _ => {}
        }
    }
    None
}
