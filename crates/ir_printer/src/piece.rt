//! Printing the pieces of lines.

ghost use Rattle.std.specs.Prelude.{◌≡◌, ◌==◌, if◌then◌else◌, [], ◌++◌, codes, OnOk};
ghost use Rattle.ir_printer.specs.Pieces.{piece_text, pieces_text};

use crate::identifiers::Identifiers;
use crate::name::{push_block_name, push_target};
use crate::number::{push_number, push_type};
use crate::operand::{push_operand, push_typed};
use crate::word::push_flags;
use ir_core::Operand;
use ops::{Flags, Width, Word};
use std::alloc::AllocError;

/// A piece of a line.
#[derive(Clone, Copy)]
pub(crate) enum Piece<'a> {
    /// These characters.
    Text(&'a [u8]),
    /// The type of a width.
    Type(Width),
    /// A number of an integer type.
    Number(Word),
    /// An operand.
    Operand(Operand),
    /// An operand with its type before it.
    Typed(Width, Operand),
    /// Flags, each with a space before it.
    Flags(Flags),
    /// A block where it is named.
    Block(u32),
    /// A block as the target of a terminator.
    Target(u32),
}

/// Appends a piece.
fn push_piece(
    out: &mut Vec<u8>,
    called: &Identifiers<'_>,
    piece: &Piece<'_>,
) -> Result<(), AllocError>
    ensures { OnOk result (out.new.items
        ≡ out.old.items ++ piece_text called.now.function.now piece.now) }
{
    match piece {
        Piece::Text(text) => out.extend_from_slice(text),
        Piece::Type(width) => push_type(out, *width),
        Piece::Number(number) => push_number(out, *number),
        Piece::Operand(operand) => push_operand(out, called, *operand),
        Piece::Typed(width, operand) => push_typed(out, called, *width, *operand),
        Piece::Flags(flags) => push_flags(out, *flags),
        Piece::Block(block) => push_block_name(out, called, *block),
        Piece::Target(block) => push_target(out, called, *block),
    }
}

/// Appends pieces, one behind another.
pub(crate) fn push_pieces(
    out: &mut Vec<u8>,
    called: &Identifiers<'_>,
    pieces: &[Piece<'_>],
) -> Result<(), AllocError>
    ensures { OnOk result (out.new.items
        ≡ out.old.items ++ pieces_text called.now.function.now pieces.now) }
{
    for piece in pieces {
        push_piece(out, called, piece)?;
    }
    Ok(())
}

/// Appends a comma, unless this is the index of the first item of a list.
pub(crate) fn push_comma(out: &mut Vec<u8>, place: usize) -> Result<(), AllocError>
    ensures { OnOk result (out.new.items ≡ out.old.items ++ (if place == 0 then [] else codes ", ")) }
{
    if place == 0 {
        return Ok(());
    }
    out.extend_from_slice(b", ")
}
