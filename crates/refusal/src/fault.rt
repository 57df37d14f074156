//! Faults of texts.

/// The first fault of a text.
#[derive(Drop)]
pub struct Fault<K> {
    /// The line that it stands on, counted from 1.
    pub line: usize,
    /// What is wrong there.
    pub kind: K,
}
