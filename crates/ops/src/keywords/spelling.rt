//! Keywords as bytes of a text.

ghost use Rattle.std.specs.Prelude.{◌≡◌};
ghost use Rattle.std.specs.Str.{bytes_eq};

/// Whether a keyword is the wanted one. Most differ in length, so that is compared first.
pub fn is(word: &[u8], wanted: &str) -> bool
    ensures { result ≡ bytes_eq word.now wanted.now }
{
    word.len() == wanted.len() && word == wanted.as_bytes()
}
