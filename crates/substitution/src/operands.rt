//! Substitution of operands for registers, in place.

ghost use Rattle.std.specs.Prelude.{◌≡◌, All, map};
ghost use Rattle.substitution.specs.Substitution as written;
ghost use Rattle.substitution.specs.Rewritten.{stands_for};
ghost use Rattle.substitution.specs.Room.{HasRoom, OpHasRoom, EndHasRoom, BlockHasRoom};

use crate::rewrite::{Rewrite, stands_for};
use ir_core::{Block, Inst, Op, Operand, Terminator};
use lists::List;
use std::alloc::Global;
use std::mem;

/// The operand, with the substitute for its register.
fn substituted_operand(rewrite: &Rewrite, operand: Operand) -> Operand
    requires { HasRoom rewrite.now operand }
    ensures { result ≡ written.substituted_operand (stands_for rewrite.now) operand }
{
    match operand {
        Operand::Register(register) => stands_for(rewrite, register),
        other => other,
    }
}

/// The entries of a phi, with the substitutes for the registers of their operands. It takes no memory.
fn substituted_entries(rewrite: &Rewrite, entries: List<(Operand, u32)>) -> List<(Operand, u32)>
    requires { All (λ e. HasRoom rewrite.now e.0) entries }
    ensures { result ≡ written.substituted_entries (stands_for rewrite.now) entries }
{
    let mut entries = entries.into_vec();
    for entry in entries.iter_mut() {
        entry.0 = substituted_operand(rewrite, entry.0);
    }
    List::from_vec(entries)
}

/// An operation, with the substitutes for the registers of its operands.
fn substituted_op(rewrite: &Rewrite, op: Op) -> Op
    requires { OpHasRoom rewrite.now op }
    ensures { result ≡ written.substituted_op (stands_for rewrite.now) op }
{
    match op {
        Op::Binary(opcode, flags, x, y) => {
            let x = substituted_operand(rewrite, x);
            Op::Binary(opcode, flags, x, substituted_operand(rewrite, y))
        }
        Op::Compare(pred, samesign, width, x, y) => {
            let x = substituted_operand(rewrite, x);
            Op::Compare(pred, samesign, width, x, substituted_operand(rewrite, y))
        }
        Op::Unary(op, truth, x) => Op::Unary(op, truth, substituted_operand(rewrite, x)),
        Op::Select(condition, x, y) => {
            let condition = substituted_operand(rewrite, condition);
            let x = substituted_operand(rewrite, x);
            Op::Select(condition, x, substituted_operand(rewrite, y))
        }
        Op::Convert(cast, flags, from, x) => Op::Convert(
            cast,
            flags,
            from,
            substituted_operand(rewrite, x),
        ),
        Op::Freeze(x) => Op::Freeze(substituted_operand(rewrite, x)),
        Op::Phi(entries) => Op::Phi(substituted_entries(rewrite, entries)),
    }
}

/// The terminator, with the substitute for the register of its operand.
fn substituted_end(rewrite: &Rewrite, end: Terminator) -> Terminator
    requires { EndHasRoom rewrite.now end }
    ensures { result ≡ written.substituted_end (stands_for rewrite.now) end }
{
    match end {
        Terminator::Return(x) => Terminator::Return(substituted_operand(rewrite, x)),
        Terminator::Branch(x, to, other) => {
            Terminator::Branch(substituted_operand(rewrite, x), to, other)
        }
        Terminator::Switch(x, width, other, cases) => {
            Terminator::Switch(substituted_operand(rewrite, x), width, other, cases)
        }
        Terminator::Jump(to) => Terminator::Jump(to),
        Terminator::Unreachable => Terminator::Unreachable,
    }
}

/// Substitutes for the registers of an instruction's operands.
fn substitute_inst(rewrite: &Rewrite, inst: &mut Inst)
    requires { OpHasRoom rewrite.now inst.old.op }
    ensures { inst.new ≡ written.substituted_inst (stands_for rewrite.now) inst.old }
{
    let op = mem::replace(&mut inst.op, Op::Freeze(Operand::Poison));
    inst.op = substituted_op(rewrite, op);
}

/// The instructions, with the substitutes for the registers of their operands. It takes no memory.
fn substituted_insts(rewrite: &Rewrite, insts: List<Inst>) -> List<Inst>
    requires { All (λ i. OpHasRoom rewrite.now i.op) insts }
    ensures { result ≡ map (written.substituted_inst (stands_for rewrite.now)) insts }
{
    let mut insts = insts.into_vec();
    for inst in insts.iter_mut() {
        substitute_inst(rewrite, inst);
    }
    List::from_vec(insts)
}

/// Substitutes for the registers of the operands of a block's instructions and terminator. It takes no memory.
pub(crate) fn substitute_block(alloc: Global, rewrite: &Rewrite, block: &mut Block)
    requires { BlockHasRoom rewrite.now block.old }
    ensures { block.new ≡ written.substituted_block (stands_for rewrite.now) block.old }
{
    let insts = mem::replace(&mut block.insts, List::new(alloc));
    block.insts = substituted_insts(rewrite, insts);
    let end = mem::replace(&mut block.end, Terminator::Unreachable);
    block.end = substituted_end(rewrite, end);
}
