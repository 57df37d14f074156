//! Printing terminators (LangRef, "Terminator Instructions").

ghost use Rattle.std.specs.Prelude.{◌≡◌, ◌++◌, OnOk};
ghost use Rattle.std.specs.List.{flat_map};
ghost use Rattle.ir_text.specs.PrintedText.{case_text, end_text};

use crate::identifiers::Identifiers;
use crate::piece::{Piece, push_pieces};
use ir_core::{Operand, Terminator};
use ops::{Width, Word};
use std::alloc::AllocError;

#[tactic(auto, unfolding(ir_text::specs::PrintedText::end_text))]
fn push_branch(
    out: &mut Vec<u8>,
    called: &Identifiers<'_>,
    condition: Operand,
    to: u32,
    other: u32,
) -> Result<(), AllocError>
    ensures { OnOk result (out.new.items
        ≡ out.old.items ++ end_text called.now.function.now (Terminator.Branch condition to other)) }
{
    push_pieces(
        out,
        called,
        &[
            Piece::Text(b"br "),
            Piece::Typed(Width::ONE, condition),
            Piece::Text(b", "),
            Piece::Target(to),
            Piece::Text(b", "),
            Piece::Target(other),
        ],
    )
}

/// Appends the line of a case of a `switch`.
#[tactic(auto, unfolding(ir_text::specs::PrintedText::case_text))]
fn push_case(
    out: &mut Vec<u8>,
    called: &Identifiers<'_>,
    case: &(Word, u32),
) -> Result<(), AllocError>
    ensures { OnOk result (out.new.items
        ≡ out.old.items ++ case_text called.now.function.now case.now) }
{
    push_pieces(
        out,
        called,
        &[
            Piece::Text(b"    "),
            Piece::Type(case.0.width()),
            Piece::Text(b" "),
            Piece::Number(case.0),
            Piece::Text(b", "),
            Piece::Target(case.1),
            Piece::Text(b"\n"),
        ],
    )
}

fn push_cases(
    out: &mut Vec<u8>,
    called: &Identifiers<'_>,
    cases: &[(Word, u32)],
) -> Result<(), AllocError>
    ensures { OnOk result (out.new.items
        ≡ out.old.items ++ flat_map (case_text called.now.function.now) cases.now) }
{
    for case in cases {
        push_case(out, called, case)?;
    }
    Ok(())
}

/// Appends a `switch` on an operand of the width.
#[tactic(auto, unfolding(ir_text::specs::PrintedText::end_text))]
fn push_switch(
    out: &mut Vec<u8>,
    called: &Identifiers<'_>,
    operand: Operand,
    width: Width,
    other: u32,
    cases: &[(Word, u32)],
) -> Result<(), AllocError>
    ensures { OnOk result (out.new.items ≡ out.old.items
        ++ end_text called.now.function.now (Terminator.Switch operand width other cases.now)) }
{
    push_pieces(
        out,
        called,
        &[
            Piece::Text(b"switch "),
            Piece::Typed(width, operand),
            Piece::Text(b", "),
            Piece::Target(other),
            Piece::Text(b" [\n"),
        ],
    )?;
    push_cases(out, called, cases)?;
    out.extend_from_slice(b"  ]")
}

/// Appends a terminator, without the indent and the end of its line.
#[tactic(auto, unfolding(ir_text::specs::PrintedText::end_text))]
pub(crate) fn push_end(
    out: &mut Vec<u8>,
    called: &Identifiers<'_>,
    end: &Terminator,
) -> Result<(), AllocError>
    ensures { OnOk result (out.new.items
        ≡ out.old.items ++ end_text called.now.function.now end.now) }
{
    match end {
        Terminator::Return(operand) => {
            let typed = Piece::Typed(called.function.width, *operand);
            push_pieces(out, called, &[Piece::Text(b"ret "), typed])
        }
        Terminator::Jump(to) => {
            push_pieces(out, called, &[Piece::Text(b"br "), Piece::Target(*to)])
        }
        Terminator::Branch(condition, to, other) => {
            push_branch(out, called, *condition, *to, *other)
        }
        Terminator::Switch(operand, width, other, cases) => {
            push_switch(out, called, *operand, *width, *other, cases.as_slice())
        }
        Terminator::Unreachable => out.extend_from_slice(b"unreachable"),
    }
}
