//! Places: where an instruction or a terminator is.

/// The number of a block's terminator.
pub const END: u32 = u32::MAX;

/// An instruction by its block and its number there, or a block's terminator. In a draft the number is an index that
/// the instruction keeps, whatever is inserted before it.
#[derive(Clone, Copy, PartialEq, Eq)]
pub struct Place {
    /// Its block.
    pub block: u32,
    /// The instruction's number there, or `END` for the terminator.
    pub number: u32,
}
