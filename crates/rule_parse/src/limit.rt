//! Limits of rules as written.

/// The most open parentheses and pending unary operators at a token.
pub(crate) const MOST_NESTED: u32 = 32;
