//! The halves of a rule.

/// Which half of a rule a statement stands in.
#[derive(Clone, Copy, PartialEq, Eq)]
pub enum Half {
    Source,
    Target,
}
