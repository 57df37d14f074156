//! Parts of a text.

ghost use Rattle.std.specs.Prelude.{◌≡◌, ◌≤◌, length};
ghost use Rattle.scan.specs.Lines.{between};

/// The bytes of a text from `start` up to `end`, both counted from 0.
#[derive(Clone, Copy, Debug, PartialEq, Eq)]
pub struct Span {
    /// How many bytes stand before the part.
    pub start: usize,
    /// How many bytes stand before its end.
    pub end: usize,
}

impl Span {
    /// The bytes of the part, in its text.
    pub fn bytes(self, text: &[u8]) -> &[u8]
        requires order { self.start ≤ self.end }
        requires within { self.end ≤ length text.now }
        ensures { result.now ≡ between text.now self.start self.end }
    {
        &text[self.start..self.end]
    }
}
