//! Type checking.

ghost use Rattle.std.specs.Prelude.{◌≡◌, ◌↔◌, map, IsTrue};
ghost use Rattle.ops.specs.Conversion.{CastFits};
ghost use Rattle.ir_resolve.specs.FirstLines.{IsFirst, SomeAt};
ghost use Rattle.ir_resolve.specs.FaultKinds.{LiteralClashes, ValueClashes, ReadClashesIn, TruthIsBit, ArgumentsFit, CallFits, OpClashesAt, CaseClashes, EndClashesAt, BlockClashesAt};
ghost use Rattle.ir_resolve.specs.Views.{known_by, CallsRegisterIn};
ghost use Rattle.ir_resolve.specs.Uses.{seen_read};

use crate::least::lesser;
use crate::literal::literal;
use crate::names::{Names, register};
use crate::uses::Read;
use ir_tokens::{
    RawArguments, RawBlock, RawCall, RawCase, RawInst, RawOp, RawTerminator, RawValue, TypedOperand,
};
use ops::{Cast, Width};

/// Whether the value is a literal of another width.
fn literal_clashes(width: u32, value: &RawValue) -> bool
    ensures { IsTrue result ↔ LiteralClashes width value.now }
{
    match literal(value) {
        Some(word) => word.width().bits() != width,
        None => false,
    }
}

/// Whether the value is a literal or a register of another width.
fn value_clashes(names: &Names<'_>, width: u32, value: &RawValue) -> bool
    ensures { IsTrue result ↔ ValueClashes (CallsRegisterIn (known_by names.now)) width value.now }
{
    match value {
        RawValue::Register(identifier) => match register(names, identifier) {
            Some((_, other)) => other != width,
            None => false,
        },
        literal => literal_clashes(width, literal),
    }
}

/// The first line on which a value is read at another width than its own.
pub(crate) fn read_clash(names: &Names<'_>, reads: &[Read<'_>]) -> Option<usize>
    ensures { IsFirst
        (ReadClashesIn (CallsRegisterIn (known_by names.now)) (map seen_read reads.now)) result }
{
    let mut found = None;
    for read in reads {
        let clashes = value_clashes(names, read.width, &read.operand.value);
        found = lesser(found, clashes.then_some(read.operand.line));
    }
    found
}

/// Whether a cast may go from the one width to the other.
fn cast_fits(cast: Cast, from: Width, to: Width) -> bool
    ensures { IsTrue result ↔ CastFits cast from to }
{
    match cast {
        Cast::Trunc => to.bits() < from.bits(),
        Cast::ZExt | Cast::SExt => from.bits() < to.bits(),
    }
}

/// Whether the truth value of a call, if there is one, is a number of `i1`.
fn truth_is_bit(truth: &Option<TypedOperand>) -> bool
    ensures { IsTrue result ↔ TruthIsBit truth.now }
{
    match truth {
        Some(truth) => truth.width.bits() == 1 && !literal_clashes(1, &truth.operand.value),
        None => true,
    }
}

/// Whether a call's operands have the width of its result.
fn arguments_fit(width: Width, arguments: &RawArguments) -> bool
    ensures { IsTrue result ↔ ArgumentsFit width arguments.now }
{
    match arguments {
        RawArguments::Binary(_, left, right) => left.width == width && right.width == width,
        RawArguments::Unary(_, operand, truth) => operand.width == width && truth_is_bit(truth),
    }
}

/// Whether the types in a call agree.
fn call_fits(call: &RawCall) -> bool
    ensures { IsTrue result ↔ CallFits call.now }
{
    call.named == call.width && arguments_fit(call.width, &call.arguments)
}

/// The first line on which the types that are written in an instruction do not agree.
fn op_clash(op: &RawOp) -> Option<usize>
    ensures { IsFirst (OpClashesAt op.now) result }
{
    match op {
        RawOp::Select(condition, first, second) => lesser(
            (condition.width.bits() != 1).then_some(condition.operand.line),
            (first.width != second.width).then_some(second.operand.line),
        ),
        RawOp::Convert(cast, _, from, operand, to) => {
            (!cast_fits(*cast, *from, *to)).then_some(operand.line)
        }
        RawOp::Call(call) => (!call_fits(call)).then_some(call.line),
        RawOp::Binary(_, _, _, _, _)
        | RawOp::Compare(_, _, _, _, _)
        | RawOp::Freeze(_, _)
        | RawOp::Phi(_, _) => None,
    }
}

/// Whether a case does not fit a switch on an operand of the width.
fn case_clashes(width: Width, case: &RawCase) -> bool
    ensures { IsTrue result ↔ CaseClashes width case.now }
{
    case.width != width
        || literal(&case.value.value).is_none()
        || literal_clashes(case.width.bits(), &case.value.value)
}

/// The first line of a case that does not fit a switch on an operand of the width.
fn clash_of_cases(width: Width, cases: &[RawCase]) -> Option<usize>
    ensures { IsFirst (SomeAt cases.now (λ c at. CaseClashes width c × (c.value.line ≡ at))) result }
{
    let mut found = None;
    for case in cases {
        found = lesser(found, case_clashes(width, case).then_some(case.value.line));
    }
    found
}

/// The first line on which the types of a terminator do not agree, in a function that returns this width.
fn end_clash(returned: Width, end: &RawTerminator) -> Option<usize>
    ensures { IsFirst (EndClashesAt returned end.now) result }
{
    match end {
        RawTerminator::Return(width, operand) => (*width != returned).then_some(operand.line),
        RawTerminator::Branch(width, condition, _, _) => {
            (width.bits() != 1).then_some(condition.line)
        }
        RawTerminator::Switch(width, _, _, cases) => clash_of_cases(*width, cases.as_slice()),
        RawTerminator::Unreachable | RawTerminator::Jump(_) => None,
    }
}

/// The first line on which the types that are written in one of these instructions do not agree.
fn clash_of_insts(insts: &[RawInst]) -> Option<usize>
    ensures { IsFirst (SomeAt insts.now (λ i. OpClashesAt i.op)) result }
{
    let mut found = None;
    for inst in insts {
        found = lesser(found, op_clash(&inst.op));
    }
    found
}

/// The first line on which the types that are written in a block do not agree, in a function that returns this width.
fn clash_in_block(returned: Width, block: &RawBlock) -> Option<usize>
    ensures { IsFirst (BlockClashesAt returned block.now) result }
{
    lesser(
        clash_of_insts(block.insts.as_slice()),
        end_clash(returned, &block.end),
    )
}

/// The first line on which the types that are written in one of these blocks do not agree, in a function that returns
/// this width.
pub(crate) fn block_clash(returned: Width, blocks: &[RawBlock]) -> Option<usize>
    ensures { IsFirst (SomeAt blocks.now (BlockClashesAt returned)) result }
{
    let mut found = None;
    for block in blocks {
        found = lesser(found, clash_in_block(returned, block));
    }
    found
}
