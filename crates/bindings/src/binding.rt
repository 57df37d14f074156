//! What the names of a rule are bound to.

use ir_core::{Operand, Register};
use lists::List;
use ops::Word;
use rule_core::Typing;

/// What the names of a rule are bound to where it matches. A block, and an instruction in it, are given by their index.
#[derive(Debug, Drop)]
pub struct Binding {
    /// The block in which the rule matches.
    pub block: u32,
    /// The index there of the root's instruction.
    pub place: u32,
    /// For each statement of the source the register of the instruction that it matches; the last one is the root's.
    pub statements: List<Register>,
    /// For each input the operand that it stands for: a register, a number or `poison`.
    pub inputs: List<Operand>,
    /// For each abstract constant its value, as a number.
    pub constants: List<Word>,
    /// The width of each class of types.
    pub typing: Typing,
}
