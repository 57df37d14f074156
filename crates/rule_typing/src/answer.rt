//! What is answered where typings are asked for.

use lists::List;
use rule_core::Typing;

/// The typings of a rule.
#[derive(Drop)]
pub enum Typings {
    /// All of them, in lexicographic order.
    All(List<Typing>),
    /// There are more than were asked for.
    TooMany,
}
