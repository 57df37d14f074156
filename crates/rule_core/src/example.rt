//! Settings of a rule at which its halves are compared.

use lists::List;
use ops::{Effect, Value, Word};

/// A setting of a rule, with the source's choices, and what the halves do there.
#[derive(Drop)]
pub struct Example {
    /// A value for each input.
    pub inputs: List<Value>,
    /// A number for each abstract constant.
    pub constants: List<Word>,
    /// A number for each choice of the target, which are its `undef`s and its freezes.
    pub target_undefs: List<Word>,
    /// A number for each choice of the source: the one that `Wit:` gives.
    pub source_undefs: List<Word>,
    /// What the source does.
    pub source: Effect,
    /// What the target does.
    pub target: Effect,
}
