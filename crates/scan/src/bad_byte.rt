//! Invalid bytes of a text.

/// A byte that is no printable ASCII, no blank (space, tab, carriage return) and no line feed, outside comments and
/// quoted texts; or a byte 0 in a quoted text of a module, written or escaped.
#[derive(Clone, Copy, Debug, PartialEq, Eq)]
pub struct BadByte {
    /// The line that it stands on, counted from 1.
    pub line: usize,
}
