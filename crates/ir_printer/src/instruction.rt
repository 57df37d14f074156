//! Printing instructions (LangRef, "Instruction Reference").

ghost use Rattle.std.specs.Prelude.{◌≡◌, ◌==◌, if◌then◌else◌, [], ◌++◌, codes, OnOk};
ghost use Rattle.std.specs.List.{join_by};
ghost use Rattle.ir_text.specs.PrintedText.{callee_text, incoming_text, op_text, inst_text, truth_text};

use crate::identifiers::Identifiers;
use crate::name::push_assigned;
use crate::number::push_type;
use crate::operand::push_typed;
use crate::piece::{Piece, push_comma, push_pieces};
use crate::word::pred_name;
use ir_core::{Inst, Op, Operand};
use ops::keywords::{cast_name, opcode_name, unary_name};
use ops::{Cast, Flags, Opcode, Pred, Unary, Width};
use std::alloc::AllocError;

/// Appends a binary operation, or a call of an intrinsic with two operands.
#[tactic(auto, unfolding(ir_text::specs::PrintedText::op_text, ir_text::specs::PrintedText::binary_text))]
fn push_binary(
    out: &mut Vec<u8>,
    called: &Identifiers<'_>,
    width: Width,
    opcode: Opcode,
    flags: Flags,
    left: Operand,
    right: Operand,
) -> Result<(), AllocError>
    ensures { OnOk result (out.new.items
        ≡ out.old.items ++ op_text called.now.function.now width (Op.Binary opcode flags left right)) }
{
    if opcode.is_intrinsic() {
        push_callee(out, called, opcode_name(opcode), width)?;
        return push_pieces(
            out,
            called,
            &[
                Piece::Text(b"("),
                Piece::Typed(width, left),
                Piece::Text(b", "),
                Piece::Typed(width, right),
                Piece::Text(b")"),
            ],
        );
    }
    push_pieces(
        out,
        called,
        &[
            Piece::Text(opcode_name(opcode).as_bytes()),
            Piece::Flags(flags),
            Piece::Text(b" "),
            Piece::Typed(width, left),
            Piece::Text(b", "),
            Piece::Operand(right),
        ],
    )
}

/// Appends a call of the intrinsic with this keyword, up to the arguments.
#[tactic(auto, unfolding(ir_text::specs::PrintedText::callee_text))]
fn push_callee(
    out: &mut Vec<u8>,
    called: &Identifiers<'_>,
    keyword: &str,
    width: Width,
) -> Result<(), AllocError>
    ensures { OnOk result (out.new.items ≡ out.old.items ++ callee_text keyword.now width) }
{
    push_pieces(
        out,
        called,
        &[
            Piece::Text(b"call "),
            Piece::Type(width),
            Piece::Text(b" @llvm."),
            Piece::Text(keyword.as_bytes()),
            Piece::Text(b"."),
            Piece::Type(width),
        ],
    )
}

/// What is printed behind the operand: the truth value, if the intrinsic takes one.
#[tactic(auto, unfolding(ir_text::specs::PrintedText::truth_text))]
fn behind_operand(op: Unary, truth: bool) -> &'static [u8]
    ensures { result.now ≡ truth_text op truth }
{
    match (op.has_truth(), truth) {
        (true, true) => b", i1 true",
        (true, false) => b", i1 false",
        (false, _) => b"",
    }
}

/// Appends a call of an intrinsic with one operand.
#[tactic(auto, unfolding(ir_text::specs::PrintedText::op_text))]
fn push_unary(
    out: &mut Vec<u8>,
    called: &Identifiers<'_>,
    width: Width,
    op: Unary,
    truth: bool,
    operand: Operand,
) -> Result<(), AllocError>
    ensures { OnOk result (out.new.items
        ≡ out.old.items ++ op_text called.now.function.now width (Op.Unary op truth operand)) }
{
    push_callee(out, called, unary_name(op), width)?;
    push_pieces(
        out,
        called,
        &[
            Piece::Text(b"("),
            Piece::Typed(width, operand),
            Piece::Text(behind_operand(op, truth)),
            Piece::Text(b")"),
        ],
    )
}

/// Appends a comparison of operands of the width.
#[tactic(auto, unfolding(ir_text::specs::PrintedText::op_text))]
fn push_compare(
    out: &mut Vec<u8>,
    called: &Identifiers<'_>,
    width: Width,
    pred: Pred,
    samesign: bool,
    compared: Width,
    left: Operand,
    right: Operand,
) -> Result<(), AllocError>
    ensures { OnOk result (out.new.items
        ≡ out.old.items ++ op_text called.now.function.now width (Op.Compare pred samesign compared left right)) }
{
    push_pieces(
        out,
        called,
        &[
            Piece::Text(b"icmp"),
            Piece::Flags(Flags::of_icmp(samesign)),
            Piece::Text(b" "),
            Piece::Text(pred_name(pred)),
            Piece::Text(b" "),
            Piece::Typed(compared, left),
            Piece::Text(b", "),
            Piece::Operand(right),
        ],
    )
}

#[tactic(auto, unfolding(ir_text::specs::PrintedText::op_text))]
fn push_select(
    out: &mut Vec<u8>,
    called: &Identifiers<'_>,
    width: Width,
    condition: Operand,
    first: Operand,
    second: Operand,
) -> Result<(), AllocError>
    ensures { OnOk result (out.new.items
        ≡ out.old.items ++ op_text called.now.function.now width (Op.Select condition first second)) }
{
    push_pieces(
        out,
        called,
        &[
            Piece::Text(b"select "),
            Piece::Typed(Width::ONE, condition),
            Piece::Text(b", "),
            Piece::Typed(width, first),
            Piece::Text(b", "),
            Piece::Typed(width, second),
        ],
    )
}

/// Appends a conversion from one width to another.
#[tactic(auto, unfolding(ir_text::specs::PrintedText::op_text))]
fn push_convert(
    out: &mut Vec<u8>,
    called: &Identifiers<'_>,
    cast: Cast,
    flags: Flags,
    from: Width,
    operand: Operand,
    to: Width,
) -> Result<(), AllocError>
    ensures { OnOk result (out.new.items
        ≡ out.old.items ++ op_text called.now.function.now to (Op.Convert cast flags from operand)) }
{
    push_pieces(
        out,
        called,
        &[
            Piece::Text(cast_name(cast).as_bytes()),
            Piece::Flags(flags),
            Piece::Text(b" "),
            Piece::Typed(from, operand),
            Piece::Text(b" to "),
            Piece::Type(to),
        ],
    )
}

/// Appends an incoming value of a phi with its block, and a comma before it if it is not the first.
#[tactic(auto, unfolding(ir_text::specs::PrintedText::incoming_text))]
fn push_incoming(
    out: &mut Vec<u8>,
    called: &Identifiers<'_>,
    place: usize,
    incoming: &(Operand, u32),
) -> Result<(), AllocError>
    ensures { OnOk result (out.new.items
        ≡ out.old.items ++ ((if place == 0 then [] else codes ", ")
        ++ incoming_text called.now.function.now incoming.now)) }
{
    push_comma(out, place)?;
    push_pieces(
        out,
        called,
        &[
            Piece::Text(b"[ "),
            Piece::Operand(incoming.0),
            Piece::Text(b", "),
            Piece::Block(incoming.1),
            Piece::Text(b" ]"),
        ],
    )
}

/// Appends the incoming values of a phi with their blocks.
fn push_all_incoming(
    out: &mut Vec<u8>,
    called: &Identifiers<'_>,
    entries: &[(Operand, u32)],
) -> Result<(), AllocError>
    ensures { OnOk result (out.new.items
        ≡ out.old.items ++ join_by (incoming_text called.now.function.now) (codes ", ") entries.now) }
{
    for (place, incoming) in entries.iter().enumerate() {
        push_incoming(out, called, place, incoming)?;
    }
    Ok(())
}

#[tactic(auto, unfolding(ir_text::specs::PrintedText::op_text))]
fn push_phi(
    out: &mut Vec<u8>,
    called: &Identifiers<'_>,
    width: Width,
    entries: &[(Operand, u32)],
) -> Result<(), AllocError>
    ensures { OnOk result (out.new.items
        ≡ out.old.items ++ op_text called.now.function.now width (Op.Phi entries.now)) }
{
    out.extend_from_slice(b"phi ")?;
    push_type(out, width)?;
    out.push(b' ')?;
    push_all_incoming(out, called, entries)
}

#[tactic(auto, unfolding(ir_text::specs::PrintedText::op_text))]
fn push_freeze(
    out: &mut Vec<u8>,
    called: &Identifiers<'_>,
    width: Width,
    operand: Operand,
) -> Result<(), AllocError>
    ensures { OnOk result (out.new.items
        ≡ out.old.items ++ op_text called.now.function.now width (Op.Freeze operand)) }
{
    out.extend_from_slice(b"freeze ")?;
    push_typed(out, called, width, operand)
}

/// Appends an operation whose result has the width.
fn push_op(
    out: &mut Vec<u8>,
    called: &Identifiers<'_>,
    width: Width,
    op: &Op,
) -> Result<(), AllocError>
    ensures { OnOk result (out.new.items
        ≡ out.old.items ++ op_text called.now.function.now width op.now) }
{
    match op {
        Op::Binary(opcode, flags, left, right) => {
            push_binary(out, called, width, *opcode, *flags, *left, *right)
        }
        Op::Compare(pred, samesign, compared, left, right) => {
            push_compare(
                out, called, width, *pred, *samesign, *compared, *left, *right,
            )
        }
        Op::Unary(op, truth, operand) => { push_unary(out, called, width, *op, *truth, *operand) }
        Op::Select(condition, first, second) => {
            push_select(out, called, width, *condition, *first, *second)
        }
        Op::Convert(cast, flags, from, operand) => {
            push_convert(out, called, *cast, *flags, *from, *operand, width)
        }
        Op::Freeze(operand) => push_freeze(out, called, width, *operand),
        Op::Phi(entries) => push_phi(out, called, width, entries.as_slice()),
    }
}

/// Appends the line of an instruction, by the index of its block and its own there.
#[tactic(auto, unfolding(ir_text::specs::PrintedText::inst_text))]
pub(crate) fn push_inst(
    out: &mut Vec<u8>,
    called: &Identifiers<'_>,
    block: usize,
    place: usize,
    inst: &Inst,
) -> Result<(), AllocError>
    ensures { OnOk result (out.new.items
        ≡ out.old.items ++ inst_text called.now.function.now block (place, inst.now)) }
{
    push_assigned(out, called, block, place)?;
    push_op(out, called, inst.width, &inst.op)?;
    out.extend_from_slice(b"\n")
}
