//! A module: its functions, and the lines that are kept.

use crate::function::Function;
use lists::{List, Text};

/// A module: its entries in text order.
#[derive(Drop)]
pub struct Module {
    pub entries: List<Entry>,
}

/// One entry of a module.
#[derive(Drop)]
pub enum Entry {
    /// A line that is kept as it was written and has no meaning here, without the blanks at its ends: that of a
    /// `source_filename`, `target`, `attributes` or `declare`, or one that begins with `!` or `$`.
    Kept(Text),
    /// A function with its body.
    Function(Function),
}
