//! What the plain strategy gives.

use ir_core::Module;
use lists::List;
use verdict_core::Table;

/// A module that the plain strategy gives, the verdicts that it was given by, and what became of its functions.
#[derive(Drop)]
pub struct Done {
    pub module: Module,
    /// The verdicts in the order in which the strategy first asked for them, each pair of a rule and a typing once.
    pub table: Table,
    /// For each function in order, how often it was rewritten.
    pub counts: List<u32>,
    /// For each function in order, whether it ran out of steps with an admitted match left.
    pub limited: List<bool>,
}
