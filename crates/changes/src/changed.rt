//! What changed in a function.

use lists::List;

/// Which instructions of a function were removed, inserted and changed, by block and position in it. Each list is
/// ascending. An instruction that only moved, or that reads a register whose instruction only moved, did not change. A
/// terminator is no instruction.
#[derive(Drop)]
pub struct Changes {
    /// The old places of the removed instructions.
    pub went: List<(u32, u32)>,
    /// The new places of the inserted ones.
    pub came: List<(u32, u32)>,
    /// The new places of those whose opcode, flags or operands changed. The root's is among them where it becomes the
    /// target's root.
    pub changed: List<(u32, u32)>,
}
