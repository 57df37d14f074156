//! What is known of the results of instructions by what is known of their operands.
ghost use Rattle.std.specs.Prelude.{◌≡◌, ◌≤◌, IfOk, length, map};
ghost use Rattle.ops.specs.Conversion.{CastFits};
ghost use Rattle.ops.specs.declared.opcode.Flags.{Flags};
ghost use Rattle.circuits.specs.Kleene.{certain, known_not};
ghost use Rattle.circuits.specs.KnownSum.{known_sum};
ghost use Rattle.circuits.specs.Move.{moved};
ghost use Rattle.known_bits.specs.Gates.{direction_of, fill_of, gate_of};
ghost use Rattle.known_bits.specs.KnownBits.{known_operand, known_result, shifted};
ghost use Rattle.known_bits.specs.Widths.{HaveWidths};
ghost use Rattle.known_bits.specs.Words.{bit_by_bit};

use crate::bits::{Gate, bit_by_bit, top, unknown};
use crate::facts::Facts;
use circuits::{Bits, Direction, KnownBit, KnownCircuit, add, cut, extend, moved_by, sub};
use ir_core::{Op, Operand};
use ops::{Cast, Opcode, Width};
use std::alloc::{AllocError, Global};

/// What is known of the bits of an instruction's result, the lowest first, by what is known of the results before it.
/// The only error is want of memory.
pub fn result_bits(
    alloc: Global,
    facts: &Facts,
    width: Width,
    op: &Op,
) -> Result<Bits<KnownBit>, AllocError>
    requires { HaveWidths (known_operand facts.now.block facts.now.results) width op.now }
    ensures bits { IfOk result (λ bits. bits
        ≡ known_result (known_operand facts.now.block facts.now.results) width op.now) }
    ensures few { IfOk result (λ bits. length bits ≤ 64) }
{
    let places = width.bits() as usize;
    match op {
        Op::Binary(opcode, _, x, y) => binary(alloc, facts, width, *opcode, *x, *y),
        Op::Select(_, x, y) => each_bit(alloc, facts, width, Gate::Agreed, *x, *y),
        Op::Convert(cast, _, from, x) => converted(alloc, facts, *cast, *from, places, *x),
        Op::Compare(_, _, _, _, _) | Op::Unary(_, _, _) | Op::Freeze(_) | Op::Phi(_) => {
            unknown(alloc, places)
        }
    }
}

/// Of an instruction with two operands.
fn binary(
    alloc: Global,
    facts: &Facts,
    width: Width,
    opcode: Opcode,
    x: Operand,
    y: Operand,
) -> Result<Bits<KnownBit>, AllocError>
    requires width_x { length (known_operand facts.now.block facts.now.results width x) ≡ width }
    requires width_y { length (known_operand facts.now.block facts.now.results width y) ≡ width }
    ensures { IfOk result (λ bits. (flags : Flags) → bits
        ≡ known_result (known_operand facts.now.block facts.now.results) width (Op.Binary opcode flags x y)) }
{
    match opcode {
        Opcode::And => each_bit(alloc, facts, width, Gate::And, x, y),
        Opcode::Or => each_bit(alloc, facts, width, Gate::Or, x, y),
        Opcode::Xor => each_bit(alloc, facts, width, Gate::Xor, x, y),
        Opcode::Add => sum(alloc, facts, width, x, y),
        Opcode::Sub => difference(alloc, facts, width, x, y),
        Opcode::Shl => shifted(alloc, facts, width, Shift::Left, x, y),
        Opcode::LShr => shifted(alloc, facts, width, Shift::Right, x, y),
        Opcode::AShr => shifted(alloc, facts, width, Shift::SignedRight, x, y),
        Opcode::Mul
        | Opcode::UDiv
        | Opcode::SDiv
        | Opcode::URem
        | Opcode::SRem
        | Opcode::UMin
        | Opcode::UMax
        | Opcode::SMin
        | Opcode::SMax => unknown(alloc, width.bits() as usize),
    }
}

/// Of a gate at each place of two operands.
fn each_bit(
    alloc: Global,
    facts: &Facts,
    width: Width,
    gate: Gate,
    x: Operand,
    y: Operand,
) -> Result<Bits<KnownBit>, AllocError>
    requires width_x { length (known_operand facts.now.block facts.now.results width x) ≡ width }
    requires width_y { length (known_operand facts.now.block facts.now.results width y) ≡ width }
    ensures { let known = known_operand facts.now.block facts.now.results width in
        IfOk result (λ bits. bits ≡ bit_by_bit (gate_of gate) (known x) (known y)) }
{
    let a = facts.operand(alloc, width, x)?;
    let b = facts.operand(alloc, width, y)?;
    bit_by_bit(alloc, gate, a.as_slice(), b.as_slice())
}

/// Of the sum of two operands.
fn sum(
    alloc: Global,
    facts: &Facts,
    width: Width,
    x: Operand,
    y: Operand,
) -> Result<Bits<KnownBit>, AllocError>
    requires width_x { length (known_operand facts.now.block facts.now.results width x) ≡ width }
    requires width_y { length (known_operand facts.now.block facts.now.results width y) ≡ width }
    ensures { let known = known_operand facts.now.block facts.now.results width in
        IfOk result (λ bits. bits ≡ known_sum KnownBit.Zero (known x) (known y)) }
{
    let a = facts.operand(alloc, width, x)?;
    let b = facts.operand(alloc, width, y)?;
    let mut gates = KnownCircuit;
    add(alloc, &mut gates, &a, &b)
}

/// Of the difference of two operands.
fn difference(
    alloc: Global,
    facts: &Facts,
    width: Width,
    x: Operand,
    y: Operand,
) -> Result<Bits<KnownBit>, AllocError>
    requires width_x { length (known_operand facts.now.block facts.now.results width x) ≡ width }
    requires width_y { length (known_operand facts.now.block facts.now.results width y) ≡ width }
    ensures { let known = known_operand facts.now.block facts.now.results width in
        IfOk result (λ bits. bits ≡ known_sum KnownBit.One (known x) (map known_not (known y))) }
{
    let a = facts.operand(alloc, width, x)?;
    let b = facts.operand(alloc, width, y)?;
    let mut gates = KnownCircuit;
    sub(alloc, &mut gates, &a, &b)
}

/// A shift.
#[derive(Clone, Copy)]
pub(crate) enum Shift {
    /// `shl`
    Left,
    /// `lshr`
    Right,
    /// `ashr`, at which the highest bit comes in.
    SignedRight,
}

/// Of an operand shifted by another, which tells nothing but where it is a number below the width.
fn shifted(
    alloc: Global,
    facts: &Facts,
    width: Width,
    shift: Shift,
    x: Operand,
    amount: Operand,
) -> Result<Bits<KnownBit>, AllocError>
    requires { length (known_operand facts.now.block facts.now.results width x) ≡ width }
    ensures { let word = known_operand facts.now.block facts.now.results width x in
        IfOk result (λ bits. bits
        ≡ shifted width amount (λ n. moved (direction_of shift) (fill_of shift word) n word)) }
{
    let Operand::Number(number) = amount else {
        return unknown(alloc, width.bits() as usize);
    };
    if number.number() >= u64::from(width.bits()) {
        return unknown(alloc, width.bits() as usize);
    }
    let word = facts.operand(alloc, width, x)?;
    move_word(alloc, shift, word.as_slice(), number.number() as usize)
}

/// A word shifted by no more than its width.
fn move_word(
    alloc: Global,
    shift: Shift,
    word: &[KnownBit],
    distance: usize,
) -> Result<Bits<KnownBit>, AllocError>
    requires { distance ≤ length word.now }
    ensures { IfOk result (λ bits. bits ≡ moved (direction_of shift) (fill_of shift word.now) distance word.now) }
{
    match shift {
        Shift::Left => moved_by(alloc, Direction::Up, word, distance, KnownBit::Zero),
        Shift::Right => moved_by(alloc, Direction::Down, word, distance, KnownBit::Zero),
        Shift::SignedRight => moved_by(alloc, Direction::Down, word, distance, top(word)),
    }
}

/// Of an operand at another width.
fn converted(
    alloc: Global,
    facts: &Facts,
    cast: Cast,
    from: Width,
    to: usize,
    x: Operand,
) -> Result<Bits<KnownBit>, AllocError>
    requires width { length (known_operand facts.now.block facts.now.results from x) ≡ from }
    requires fits { CastFits cast from to }
    ensures { IfOk result (λ bits. (flags : Flags) → bits
        ≡ known_result (known_operand facts.now.block facts.now.results) to (Op.Convert cast flags from x)) }
{
    let word = facts.operand(alloc, from, x)?;
    let mut gates = KnownCircuit;
    match cast {
        Cast::Trunc => cut(alloc, &mut gates, &word, to),
        Cast::ZExt => extend(alloc, &mut gates, &word, to, KnownBit::Zero),
        Cast::SExt => {
            let top = top(word.as_slice());
            extend(alloc, &mut gates, &word, to, top)
        }
    }
}
