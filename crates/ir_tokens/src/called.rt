//! Identifiers of registers, functions and blocks.

use lists::Text;

/// The identifier of a register, a function or a block: a name or a number.
#[derive(Drop)]
pub enum Identifier {
    Named(Text),
    /// A number; one that is 2^64 or more is held as 2^64 - 1, since no function has so many registers.
    Numbered(u64),
}
