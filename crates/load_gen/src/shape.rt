//! A generated function.

ghost use Rattle.std.specs.Prelude.{◌≡◌, ◌≤◌, ◌∷◌, [], ◌++◌, codes, IfOk, OnOk};
ghost use Rattle.ir_core.specs.declared.instruction.Op.TheVariants.{Phi};
ghost use Rattle.load_gen.specs.Draws.{next_state};
ghost use Rattle.load_gen.specs.Generated.{function, blocks, loop_insts, parameter, fixed, state_after, width};

use crate::drawn::{DRAWN, LOOP, binary, in_loop, number, push_drawn};
use crate::draws::Draws;
use crate::names::{name, numbered};
use ir_core::{Block, Function, Inst, Op, Operand, Parameter, Register, Terminator};
use lists::{List, Text};
use ops::{Opcode, Pred, Width};
use std::alloc::{AllocError, Global};

/// The indices of instructions in the loop.
const COUNTER: u32 = 0;

const LAST_DRAWN: u32 = DRAWN + 1;

const NEXT: u32 = DRAWN + 2;

const CONDITION: u32 = DRAWN + 3;

/// The indices of the other blocks.
const ENTRY: u32 = 0;

const EXIT: u32 = 2;

/// The function with this number.
#[tactic(auto, unfolding(crate::specs::Generated::function))]
pub(crate) fn function(alloc: Global, draws: &mut Draws, place: u32) -> Result<Function, AllocError>
    ensures function { IfOk result (λ f. f ≡ function draws.old.state place) }
    ensures state { OnOk result (draws.new.state ≡ state_after (next_state draws.old.state) 16) }
{
    let width = drawn_width(draws);
    let blocks = blocks(alloc, draws, width)?;
    let parameters = parameters(alloc, width)?;
    let name = numbered(alloc, b"f", place)?;
    Ok(Function {
        name,
        before: List::new(alloc),
        width,
        parameters,
        after: List::new(alloc),
        blocks,
    })
}

/// The parameters `%a` and `%b`.
fn parameters(alloc: Global, width: Width) -> Result<List<Parameter>, AllocError>
    ensures { IfOk result (λ made. made ≡ parameter width (codes "a") ∷ parameter width (codes "b") ∷ []) }
{
    let a = parameter(alloc, width, b"a")?;
    let b = parameter(alloc, width, b"b")?;
    Ok(List::from_vec(vec![in alloc; a, b]?))
}

/// The width of the function's parameters, drawn instructions and return value.
fn drawn_width(draws: &mut Draws) -> Width
    ensures width { result ≡ width draws.old.state }
    ensures state { draws.new.state ≡ next_state draws.old.state }
{
    Width::new(3 + draws.draw(3)).unwrap()
}

fn parameter(alloc: Global, width: Width, text: &[u8]) -> Result<Parameter, AllocError>
    ensures { IfOk result (λ p. p ≡ parameter width text.now) }
{
    Ok(Parameter {
        width,
        items: List::new(alloc),
        name: Some(name(alloc, text)?),
    })
}

#[tactic(auto, unfolding(crate::specs::Generated::blocks))]
fn blocks(alloc: Global, draws: &mut Draws, width: Width) -> Result<List<Block>, AllocError>
    requires { 3 ≤ width }
    ensures blocks { IfOk result (λ made. made ≡ blocks width draws.old.state) }
    ensures state { OnOk result (draws.new.state ≡ state_after draws.old.state 16) }
{
    let entry = Block {
        name: Some(name(alloc, b"entry")?),
        insts: List::new(alloc),
        end: Terminator::Jump(LOOP),
    };
    let repeated = Block {
        name: Some(name(alloc, b"loop")?),
        insts: loop_insts(alloc, draws, width)?,
        end: Terminator::Branch(in_loop(CONDITION), LOOP, EXIT),
    };
    let exit = Block {
        name: Some(name(alloc, b"exit")?),
        insts: List::new(alloc),
        end: Terminator::Return(in_loop(LAST_DRAWN)),
    };
    Ok(List::from_vec(vec![in alloc; entry, repeated, exit]?))
}

/// The instructions of the loop, which counts up to `%b`.
#[tactic(auto, unfolding(crate::specs::Generated::loop_insts))]
fn loop_insts(alloc: Global, draws: &mut Draws, width: Width) -> Result<List<Inst>, AllocError>
    requires { 3 ≤ width }
    ensures insts { IfOk result (λ insts. insts ≡ loop_insts width draws.old.state) }
    ensures state { OnOk result (draws.new.state ≡ state_after draws.old.state 16) }
{
    let a = Operand::Register(Register::Parameter(0));
    let b = Operand::Register(Register::Parameter(1));
    let mut insts = List::new(alloc);
    push_named(
        alloc,
        &mut insts,
        b"i",
        width,
        phi(alloc, number(width, 0), in_loop(NEXT))?,
    )?;
    push_named(
        alloc,
        &mut insts,
        b"p",
        width,
        phi(alloc, a, in_loop(LAST_DRAWN))?,
    )?;
    push_drawn(alloc, draws, width, &mut insts)?;
    let next = binary(Opcode::Add, in_loop(COUNTER), number(width, 1));
    push_named(alloc, &mut insts, b"next", width, next)?;
    let condition = Op::Compare(Pred::Ult, false, width, in_loop(COUNTER), b);
    push_named(alloc, &mut insts, b"c", Width::ONE, condition)?;
    Ok(insts)
}

/// Adds an instruction of this name.
fn push_named(
    alloc: Global,
    insts: &mut List<Inst>,
    text: &[u8],
    width: Width,
    op: Op,
) -> Result<(), AllocError>
    ensures { OnOk result (insts.new ≡ insts.old ++ fixed text.now width op ∷ []) }
{
    insts.push(inst(name(alloc, text)?, width, op))
}

/// A phi of the loop: one operand where control comes from the entry, and another on the back edge.
fn phi(alloc: Global, entered: Operand, round: Operand) -> Result<Op, AllocError>
    ensures { IfOk result (λ op. op ≡ Phi ((entered, 0) ∷ (round, 1) ∷ [])) }
{
    let entries = vec![in alloc; (entered, ENTRY), (round, LOOP)]?;
    Ok(Op::Phi(List::from_vec(entries)))
}

fn inst(name: Text, width: Width, op: Op) -> Inst
    ensures { result ≡ fixed name width op }
{
    Inst {
        name: Some(name),
        width,
        op,
    }
}
