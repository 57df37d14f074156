//! Where one of the rules of a file matches.

use crate::binding::Binding;

/// One of the rules of a file, where it matches in a function.
#[derive(Drop)]
pub struct Match {
    /// The index of the rule in its file, from 0.
    pub rule: u32,
    /// Where it matches, and what its names are bound to there.
    pub binding: Binding,
}
