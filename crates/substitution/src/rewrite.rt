//! An edit of a function that replaces one instruction, and the operand that it substitutes for each register.

ghost use Rattle.std.specs.Prelude.{◌≡◌};
ghost use Rattle.substitution.specs.Rewritten.{stands_for};
ghost use Rattle.substitution.specs.Room.{HasRoom};

use ir_core::{Inst, Operand, Register};
use lists::List;

/// Other instructions replace one instruction, the root, and an operand replaces each use of its register. The new
/// instructions and the operand name registers of the new function.
#[derive(Drop)]
pub struct Rewrite {
    /// The index of the root's block.
    pub block: u32,
    /// The root's index there.
    pub place: u32,
    /// The instructions that are put in the root's place, in order.
    pub put: List<Inst>,
    /// The operand that replaces the uses of the root's register. If the root is computed anew, its new instruction is
    /// the last of `put`, and this is that instruction's register.
    pub result: Operand,
}

/// The substitute for a register: the result for the root's, and for any other the register itself, at its new index.
pub(crate) fn stands_for(rewrite: &Rewrite, register: Register) -> Operand
    requires { HasRoom rewrite.now (Operand.Register register) }
    ensures { result ≡ stands_for rewrite.now register }
{
    let Register::Result(block, place) = register else {
        return Operand::Register(register);
    };
    if block != rewrite.block || place < rewrite.place {
        return Operand::Register(register);
    }
    if place == rewrite.place {
        return rewrite.result;
    }
    Operand::Register(Register::Result(block, place - 1 + rewrite.put.len() as u32))
}
