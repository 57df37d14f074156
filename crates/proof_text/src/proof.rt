//! Proofs.

use clauses::Log;
use lists::{List, Text};

/// That a rule holds at one typing: the log of a refutation.
#[derive(Drop)]
pub struct Proof {
    /// The rule's name.
    pub name: Text,
    /// The widths of the rule's classes of types.
    pub widths: List<u32>,
    /// The steps of the refutation.
    pub log: Log,
}
