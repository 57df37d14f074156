//! The instructions of the loop that are drawn at random.

ghost use Rattle.std.specs.Prelude.{◌≡◌, ◌≤◌, ◌<◌, ◌++◌, IfOk, OnOk};
ghost use Rattle.ops.specs.Flags.{no_flags};
ghost use Rattle.ops.specs.Integer.{minus_one};
ghost use Rattle.ir_core.specs.declared.instruction.Op.TheVariants.{Binary};
ghost use Rattle.load_gen.specs.Draws.{next_state};
ghost use Rattle.load_gen.specs.Generated.{number, in_loop, listed, operation, drawn_inst, drawn_insts, state_after};

use crate::draws::Draws;
use crate::names::numbered;
use ir_core::{Inst, Op, Operand, Register};
use lists::List;
use ops::{Flags, Opcode, Width, Word, minus_one};
use std::alloc::{AllocError, Global};

/// The index of the loop among the blocks.
pub(crate) const LOOP: u32 = 1;

/// How many instructions are drawn.
pub(crate) const DRAWN: u32 = 16;

/// Adds the drawn instructions, `%v1` and so on.
#[tactic(auto, unfolding(crate::specs::Generated::drawn_insts, crate::specs::Generated::state_after))]
pub(crate) fn push_drawn(
    alloc: Global,
    draws: &mut Draws,
    width: Width,
    insts: &mut List<Inst>,
) -> Result<(), AllocError>
    requires { 3 ≤ width }
    ensures insts { OnOk result (insts.new ≡ insts.old ++ drawn_insts width draws.old.state 16) }
    ensures state { OnOk result (draws.new.state ≡ state_after draws.old.state 16) }
{
    for place in 0..DRAWN {
        insts.push(drawn_inst(alloc, draws, width, place + 1)?)?;
    }
    Ok(())
}

/// The drawn instruction of this number, counted from 1.
#[tactic(auto, unfolding(crate::specs::Generated::drawn_inst))]
fn drawn_inst(
    alloc: Global,
    draws: &mut Draws,
    width: Width,
    number: u32,
) -> Result<Inst, AllocError>
    requires width { 3 ≤ width }
    requires few { number ≤ 16 }
    ensures inst { IfOk result (λ inst. inst ≡ drawn_inst width number draws.old.state) }
    ensures state { draws.new.state ≡ next_state (next_state (next_state draws.old.state)) }
{
    let row = draws.draw(9);
    // Two parameters, two phis, and the drawn instructions before this one.
    let registers = number + 3;
    let x = listed(draws.draw(registers));
    let y = listed(draws.draw(registers));
    Ok(Inst {
        name: Some(numbered(alloc, b"v", number)?),
        width,
        op: operation(row, width, x, y),
    })
}

/// The register at an index of the list of those that may be drawn: the parameters, and then the results of the loop.
fn listed(place: u32) -> Operand
    ensures { result ≡ listed place }
{
    match place {
        0 | 1 => Operand::Register(Register::Parameter(place)),
        _ => in_loop(place - 2),
    }
}

/// The result of the loop's instruction at this index.
pub(crate) fn in_loop(place: u32) -> Operand
    ensures { result ≡ in_loop place }
{
    Operand::Register(Register::Result(LOOP, place))
}

/// The instruction for the number that was drawn.
fn operation(row: u32, width: Width, x: Operand, y: Operand) -> Op
    requires width { 3 ≤ width }
    ensures { result ≡ operation row width x y }
{
    match row {
        0 => binary(Opcode::Add, x, number(width, 0)),
        1 => binary(Opcode::Add, x, y),
        2 => binary(Opcode::Sub, x, y),
        3 => binary(Opcode::Mul, x, number(width, 2)),
        4 => {
            let same = x;
            binary(Opcode::And, x, same)
        }
        5 => binary(Opcode::Xor, x, all_ones(width)),
        6 => binary(Opcode::UDiv, x, number(width, 1)),
        7 => binary(Opcode::Add, x, number(width, 3)),
        _ => binary(Opcode::Shl, x, number(width, 1)),
    }
}

/// A binary operation without flags.
pub(crate) fn binary(opcode: Opcode, x: Operand, y: Operand) -> Op
    ensures { result ≡ Binary opcode no_flags x y }
{
    Op::Binary(opcode, Flags::NONE, x, y)
}

/// The number of the width whose bits are all 1, which is -1.
fn all_ones(width: Width) -> Operand
    ensures { result ≡ number width (minus_one width) }
{
    Operand::Number(Word::fitting(width, minus_one(width)))
}

/// A small number of the width.
pub(crate) fn number(width: Width, value: u64) -> Operand
    requires width { 3 ≤ width }
    requires small { value < 8 }
    ensures { result ≡ number width value }
{
    Operand::Number(Word::fitting(width, value))
}
