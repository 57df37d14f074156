//! Copies of functions.

ghost use Rattle.std.specs.Prelude.{◌≡◌, IfOk};

use crate::function::{Block, Function, Parameter};
use crate::instruction::{Inst, Op};
use crate::terminator::Terminator;
use lists::{List, Text};
use std::alloc::{AllocError, Global};

/// A function equal to this one, in time linear in its length. The only error is want of memory.
pub fn copy_function(alloc: Global, f: &Function) -> Result<Function, AllocError>
    ensures { IfOk result (λ copy. copy ≡ f.now) }
{
    Ok(Function {
        name: copy_of(alloc, &f.name)?,
        before: copy_texts(alloc, &f.before)?,
        width: f.width,
        parameters: copy_parameters(alloc, &f.parameters)?,
        after: copy_texts(alloc, &f.after)?,
        blocks: copy_blocks(alloc, &f.blocks)?,
    })
}

/// A list of the same values.
fn copy_of<T: Copy>(alloc: Global, values: &List<T>) -> Result<List<T>, AllocError>
    ensures { IfOk result (λ copy. copy ≡ values.now) }
{
    Ok(List::from_vec(Vec::from_slice(alloc, values.as_slice())?))
}

fn copy_texts(alloc: Global, texts: &List<Text>) -> Result<List<Text>, AllocError>
    ensures { IfOk result (λ copy. copy ≡ texts.now) }
{
    let mut copies = List::new(alloc);
    for text in texts.as_slice() {
        copies.push(copy_of(alloc, text)?)?;
    }
    Ok(copies)
}

fn copy_name(alloc: Global, name: &Option<Text>) -> Result<Option<Text>, AllocError>
    ensures { IfOk result (λ copy. copy ≡ name.now) }
{
    match name {
        Some(text) => Ok(Some(copy_of(alloc, text)?)),
        None => Ok(None),
    }
}

fn copy_parameters(
    alloc: Global,
    parameters: &List<Parameter>,
) -> Result<List<Parameter>, AllocError>
    ensures { IfOk result (λ copy. copy ≡ parameters.now) }
{
    let mut copies = List::new(alloc);
    for parameter in parameters.as_slice() {
        copies.push(Parameter {
            width: parameter.width,
            items: copy_texts(alloc, &parameter.items)?,
            name: copy_name(alloc, &parameter.name)?,
        })?;
    }
    Ok(copies)
}

fn copy_blocks(alloc: Global, blocks: &List<Block>) -> Result<List<Block>, AllocError>
    ensures { IfOk result (λ copy. copy ≡ blocks.now) }
{
    let mut copies = List::new(alloc);
    for block in blocks.as_slice() {
        copies.push(Block {
            name: copy_name(alloc, &block.name)?,
            insts: copy_insts(alloc, &block.insts)?,
            end: copy_end(alloc, &block.end)?,
        })?;
    }
    Ok(copies)
}

fn copy_insts(alloc: Global, insts: &List<Inst>) -> Result<List<Inst>, AllocError>
    ensures { IfOk result (λ copy. copy ≡ insts.now) }
{
    let mut copies = List::new(alloc);
    for inst in insts.as_slice() {
        copies.push(Inst {
            name: copy_name(alloc, &inst.name)?,
            width: inst.width,
            op: copy_op(alloc, &inst.op)?,
        })?;
    }
    Ok(copies)
}

fn copy_op(alloc: Global, op: &Op) -> Result<Op, AllocError>
    ensures { IfOk result (λ copy. copy ≡ op.now) }
{
    match op {
        Op::Binary(opcode, flags, x, y) => Ok(Op::Binary(*opcode, *flags, *x, *y)),
        Op::Compare(pred, samesign, width, x, y) => Ok(Op::Compare(
            *pred, *samesign, *width, *x, *y,
        )),
        Op::Unary(op, truth, x) => Ok(Op::Unary(*op, *truth, *x)),
        Op::Select(condition, x, y) => Ok(Op::Select(*condition, *x, *y)),
        Op::Convert(cast, flags, from, x) => Ok(Op::Convert(*cast, *flags, *from, *x)),
        Op::Freeze(x) => Ok(Op::Freeze(*x)),
        Op::Phi(entries) => Ok(Op::Phi(copy_of(alloc, entries)?)),
    }
}

fn copy_end(alloc: Global, end: &Terminator) -> Result<Terminator, AllocError>
    ensures { IfOk result (λ copy. copy ≡ end.now) }
{
    match end {
        Terminator::Return(x) => Ok(Terminator::Return(*x)),
        Terminator::Jump(to) => Ok(Terminator::Jump(*to)),
        Terminator::Branch(x, to, other) => Ok(Terminator::Branch(*x, *to, *other)),
        Terminator::Switch(x, width, other, cases) => Ok(Terminator::Switch(
            *x,
            *width,
            *other,
            copy_of(alloc, cases)?,
        )),
        Terminator::Unreachable => Ok(Terminator::Unreachable),
    }
}
