//! How blocks end.

use crate::operand::Operand;
use lists::List;
use ops::{Width, Word};

/// How a block ends (LangRef, "Terminator Instructions"). Blocks are identified by their index in the function.
#[derive(Debug, Drop)]
pub enum Terminator {
    /// `ret`: returns the operand, of the function's width.
    Return(Operand),
    /// `br`: goes to the block.
    Jump(u32),
    /// `br`: goes to the first block where the i1 is 1, and to the second where it is 0.
    Branch(Operand, u32, u32),
    /// `switch`: an operand of the width, the default block, and the cases with their blocks.
    Switch(Operand, Width, u32, List<(Word, u32)>),
    /// `unreachable`: undefined behaviour.
    Unreachable,
}
