//! Substitutions of operands for registers, carried out in place.

ghost use Rattle.std.specs.Prelude.{◌≡◌};
ghost use Rattle.substitution.specs.Substitution.{Substitution};
ghost use Rattle.substitution.specs.Substitution as written;

use ir_core::{Inst, Op, Operand, Register, Terminator};
use lists::List;
use std::mem;

/// A substitution: an operand for each register.
pub trait Substitute {
    ghost to: { Self → Substitution };

    /// The operand that is written in the place of a register.
    fn stands_for(&self, register: Register) -> Operand
        ensures { result ≡ to self.now register };
}

/// An operand after the substitution.
fn substituted_operand<S: Substitute>(by: &S, operand: Operand) -> Operand
    ensures { result ≡ written.substituted_operand (S.to by.now) operand }
{
    match operand {
        Operand::Register(register) => by.stands_for(register),
        other => other,
    }
}

/// The entries of a phi after the substitution of their operands. It takes no memory.
fn substituted_entries<S: Substitute>(by: &S, entries: List<(Operand, u32)>) -> List<(Operand, u32)>
    ensures { result ≡ written.substituted_entries (S.to by.now) entries }
{
    let mut entries = entries.into_vec();
    for entry in entries.iter_mut() {
        entry.0 = substituted_operand(by, entry.0);
    }
    List::from_vec(entries)
}

/// An operation after the substitution of its operands.
fn substituted_op<S: Substitute>(by: &S, op: Op) -> Op
    ensures { result ≡ written.substituted_op (S.to by.now) op }
{
    match op {
        Op::Binary(opcode, flags, x, y) => {
            let x = substituted_operand(by, x);
            Op::Binary(opcode, flags, x, substituted_operand(by, y))
        }
        Op::Compare(pred, samesign, width, x, y) => {
            let x = substituted_operand(by, x);
            Op::Compare(pred, samesign, width, x, substituted_operand(by, y))
        }
        Op::Unary(op, truth, x) => Op::Unary(op, truth, substituted_operand(by, x)),
        Op::Select(condition, x, y) => {
            let condition = substituted_operand(by, condition);
            let x = substituted_operand(by, x);
            Op::Select(condition, x, substituted_operand(by, y))
        }
        Op::Convert(cast, flags, from, x) => Op::Convert(
            cast,
            flags,
            from,
            substituted_operand(by, x),
        ),
        Op::Freeze(x) => Op::Freeze(substituted_operand(by, x)),
        Op::Phi(entries) => Op::Phi(substituted_entries(by, entries)),
    }
}

/// Carries out the substitution in an instruction's operands.
pub fn substitute_inst<S: Substitute>(by: &S, inst: &mut Inst)
    ensures { inst.new ≡ written.substituted_inst (S.to by.now) inst.old }
{
    let op = mem::replace(&mut inst.op, Op::Freeze(Operand::Poison));
    inst.op = substituted_op(by, op);
}

/// A terminator after the substitution of its operand.
fn substituted_end<S: Substitute>(by: &S, end: Terminator) -> Terminator
    ensures { result ≡ written.substituted_end (S.to by.now) end }
{
    match end {
        Terminator::Return(x) => Terminator::Return(substituted_operand(by, x)),
        Terminator::Branch(x, to, other) => {
            Terminator::Branch(substituted_operand(by, x), to, other)
        }
        Terminator::Switch(x, width, other, cases) => {
            Terminator::Switch(substituted_operand(by, x), width, other, cases)
        }
        Terminator::Jump(to) => Terminator::Jump(to),
        Terminator::Unreachable => Terminator::Unreachable,
    }
}

/// Carries out the substitution in a terminator's operand.
pub fn substitute_end<S: Substitute>(by: &S, end: &mut Terminator)
    ensures { end.new ≡ written.substituted_end (S.to by.now) end.old }
{
    let old = mem::replace(end, Terminator::Unreachable);
    *end = substituted_end(by, old);
}
