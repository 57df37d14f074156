//! Building instructions.

ghost use Rattle.std.specs.Prelude.{◌≡◌, map, IfOk};
ghost use Rattle.std.specs.List.{AllZip, AllByRecursion};
ghost use Rattle.ir_resolve.specs.TypedReads.{read_by, read_by_call, named_by};
ghost use Rattle.ir_resolve.specs.FaultKinds.{IsUnknownValue, truth_of};
ghost use Rattle.ir_resolve.specs.Means.{ArgumentsMean, IncomingMeans, OpMeans, InstMeans};
ghost use Rattle.ir_resolve.specs.Views.{known_by, CallsIn};
ghost use Rattle.ir_resolve.specs.KnownNames.{ReadsAreKnown, TargetsAreKnown, IsReadyInst};

use crate::building::operand::{operand, target};
use crate::building::text::name;
use crate::literal::literal;
use crate::names::{Names, result_width};
use ir_core::{Inst, Op, Operand};
use ir_tokens::{RawArguments, RawIncoming, RawInst, RawOp, TypedOperand};
use lists::List;
use ops::Flags;
use std::alloc::{AllocError, Global};

/// Builds the entries of a `phi`.
fn entries(
    alloc: Global,
    names: &Names<'_>,
    incoming: &[RawIncoming],
) -> Result<List<(Operand, u32)>, AllocError>
    requires values { AllByRecursion
        (λ i. ¬ IsUnknownValue (CallsIn (known_by names.now)) i.value.value) incoming.now }
    requires blocks { TargetsAreKnown (known_by names.now) (map (λ i. i.block) incoming.now) }
    ensures { IfOk result (AllZip (IncomingMeans (CallsIn (known_by names.now))) incoming.now) }
{
    let mut entries = List::from_vec(Vec::with_capacity(alloc, incoming.len())?);
    for written in incoming {
        entries.push((
            operand(names, &written.value.value),
            target(names, &written.block.identifier),
        ))?;
    }
    Ok(entries)
}

/// The truth value of a call: false where none is written.
fn truth(written: &Option<TypedOperand>) -> bool
    ensures { result ≡ truth_of written.now }
{
    match written {
        Some(truth) => match literal(&truth.operand.value) {
            Some(word) => word.number() == 1,
            None => false,
        },
        None => false,
    }
}

/// Builds the operation of a call.
fn called(names: &Names<'_>, written: &RawArguments) -> Op
    requires { ReadsAreKnown (known_by names.now) (read_by_call written.now) }
    ensures { ArgumentsMean (CallsIn (known_by names.now)) written.now result }
{
    match written {
        RawArguments::Binary(opcode, left, right) => Op::Binary(
            *opcode,
            Flags::NONE,
            operand(names, &left.operand.value),
            operand(names, &right.operand.value),
        ),
        RawArguments::Unary(op, of, written) => Op::Unary(
            *op,
            truth(written),
            operand(names, &of.operand.value),
        ),
    }
}

/// Builds the operation of an instruction.
fn op(alloc: Global, names: &Names<'_>, written: &RawOp) -> Result<Op, AllocError>
    requires reads { ReadsAreKnown (known_by names.now) (read_by written.now) }
    requires targets { TargetsAreKnown (known_by names.now) (named_by written.now) }
    ensures { IfOk result (OpMeans (CallsIn (known_by names.now)) written.now) }
{
    match written {
        RawOp::Binary(opcode, flags, _, left, right) => Ok(Op::Binary(
            *opcode,
            *flags,
            operand(names, &left.value),
            operand(names, &right.value),
        )),
        RawOp::Compare(pred, samesign, width, left, right) => Ok(Op::Compare(
            *pred,
            *samesign,
            *width,
            operand(names, &left.value),
            operand(names, &right.value),
        )),
        RawOp::Call(call) => Ok(called(names, &call.arguments)),
        RawOp::Select(condition, first, second) => Ok(Op::Select(
            operand(names, &condition.operand.value),
            operand(names, &first.operand.value),
            operand(names, &second.operand.value),
        )),
        RawOp::Convert(cast, flags, from, converted, _) => Ok(Op::Convert(
            *cast,
            *flags,
            *from,
            operand(names, &converted.value),
        )),
        RawOp::Freeze(_, frozen) => Ok(Op::Freeze(operand(names, &frozen.value))),
        RawOp::Phi(_, incoming) => Ok(Op::Phi(entries(alloc, names, incoming.as_slice())?)),
    }
}

/// Builds the instructions of a block.
pub(crate) fn insts(
    alloc: Global,
    names: &Names<'_>,
    written: &[RawInst],
) -> Result<List<Inst>, AllocError>
    requires { AllByRecursion (IsReadyInst (known_by names.now)) written.now }
    ensures { IfOk result (AllZip (InstMeans (CallsIn (known_by names.now))) written.now) }
{
    let mut insts = List::from_vec(Vec::with_capacity(alloc, written.len())?);
    for written in written {
        insts.push(Inst {
            name: name(alloc, &written.result.identifier)?,
            width: result_width(&written.op),
            op: op(alloc, names, &written.op)?,
        })?;
    }
    Ok(insts)
}
