//! How many gates the circuit of an instruction has at most.
ghost use Rattle.std.specs.Prelude.{◌≡◌, ◌≤◌, ◌*◌};
ghost use Rattle.circ_counts.specs.Gates.{count_gates};
ghost use Rattle.circuits.specs.Gates.{shift_gates, stages};
ghost use Rattle.blast_value.specs.Gates.{gates_of, opcode_gates, unary_gates};
ghost use Rattle.blast_value.specs.Laws.{GatesAreFew};

use crate::instruction::Instruction;
use ops::{Cast, Opcode, Unary, Width};

/// The most gates that [`blast_value`](crate::blast_value) adds for an instruction whose result has `width` bits, and
/// whose widest operand has `operand_width`. It takes no memory.
pub fn gates_of(what: Instruction, width: Width, operand_width: Width) -> u32
    ensures { result ≡ gates_of what width operand_width }
{
    let width = width.bits();
    match what {
        Instruction::Binary(op, _) => opcode_gates(op, width),
        Instruction::Compare(_, _) => 2 * operand_width.bits() + 3,
        Instruction::Select => width + 2,
        Instruction::Convert(Cast::Trunc, _) => 4 * operand_width.bits() + 2,
        Instruction::Convert(Cast::ZExt | Cast::SExt, _) => 1,
        Instruction::Unary(op, _) => unary_gates(op, width),
    }
}

/// The circuit of an instruction has at most 64 gates for each bit of the greatest width among its operands and result,
/// and 64 more for each pair of bits of a product, a quotient or a remainder.
pub fn gates_are_few()
    ensures { GatesAreFew }
{}

/// The most gates of an instruction with two operands of its own width.
fn opcode_gates(op: Opcode, width: u32) -> u32
    requires least { 1 ≤ width }
    requires most { width ≤ 64 }
    ensures { result ≡ opcode_gates op width }
{
    let square = width * width;
    match op {
        Opcode::Add | Opcode::Sub => 15 * width + 9,
        Opcode::Mul => 9 * square + 20 * width - 7,
        Opcode::UDiv | Opcode::URem => 6 * square + 9 * width + 2,
        Opcode::SDiv | Opcode::SRem => 6 * square + 37 * width + 6,
        Opcode::Shl => 3 * shift_gates(width) + 6 * width + 4,
        Opcode::LShr | Opcode::AShr => 2 * shift_gates(width) + 4 * width + 3,
        Opcode::And | Opcode::Or | Opcode::Xor => 4 * width + 2,
        Opcode::UMin | Opcode::UMax | Opcode::SMin | Opcode::SMax => 3 * width + 2,
    }
}

/// The most gates of an intrinsic with one operand.
fn unary_gates(op: Unary, width: u32) -> u32
    requires least { 1 ≤ width }
    requires most { width ≤ 64 }
    ensures { result ≡ unary_gates op width }
{
    match op {
        Unary::Abs => 8 * width + 1,
        Unary::CtPop => count_gates(width) + 2 * width + 1,
        Unary::CtLz | Unary::CtTz => count_gates(width) + 3 * width + 1,
    }
}

/// The most gates of a count of true bits: for each bit an addition to a counter, with as many digits as the width
/// needs.
fn count_gates(width: u32) -> u32
    requires least { 1 ≤ width }
    requires most { width ≤ 64 }
    ensures value { result ≡ count_gates width }
    ensures few { result ≤ 35 * width }
{
    let digits = width.ilog2() + 1;
    5 * digits * width
}

/// The most gates of a shift by a word of the same width: for each bit that an amount below the width may have, a stage
/// that chooses between two words; one more such choice, and a gate for each higher bit.
fn shift_gates(width: u32) -> u32
    requires least { 1 ≤ width }
    requires most { width ≤ 64 }
    ensures value { result ≡ shift_gates width width }
    ensures few { result ≤ 8 * width }
{
    let stages = stage_count(width);
    width * stages + (width - stages) + width
}

/// How many stages a shift has: the least k with `width` ≤ 2^k.
fn stage_count(width: u32) -> u32
    requires { width ≤ 64 }
    ensures stages { result ≡ stages width }
    ensures few { result ≤ 6 }
{
    if width <= 1 {
        0
    } else {
        (width - 1).ilog2() + 1
    }
}
