//! The two halves of a rule.

/// A half of a rule.
#[derive(Clone, Copy)]
pub(crate) enum Half {
    Source,
    Target,
}
