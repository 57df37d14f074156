//! The names of integer intrinsics. (LLVM Language Reference, "Standard C/C++ Library Intrinsics", "Bit Manipulation
//! Intrinsics".)

ghost use Rattle.std.specs.Prelude.{◌≡◌};
ghost use Rattle.ir_instructions.specs.Intrinsics as spelled;

use crate::word::{TypeWord, type_of};
use ops::keywords::{is, opcode_name, unary_name};
use ops::{Opcode, Unary, Width};

/// An integer intrinsic, as the operation that it is.
#[derive(Clone, Copy)]
pub enum Intrinsic {
    /// An intrinsic of two operands.
    Binary(Opcode),
    /// An intrinsic of one operand.
    Unary(Unary),
}

fn intrinsic_keyword(intrinsic: Intrinsic) -> &'static str
    ensures { result.now ≡ spelled.intrinsic_keyword intrinsic }
{
    match intrinsic {
        Intrinsic::Binary(opcode) => opcode_name(opcode),
        Intrinsic::Unary(op) => unary_name(op),
    }
}

const INTRINSICS: [Intrinsic; 8] = [
    Intrinsic::Binary(Opcode::UMin),
    Intrinsic::Binary(Opcode::UMax),
    Intrinsic::Binary(Opcode::SMin),
    Intrinsic::Binary(Opcode::SMax),
    Intrinsic::Unary(Unary::Abs),
    Intrinsic::Unary(Unary::CtPop),
    Intrinsic::Unary(Unary::CtLz),
    Intrinsic::Unary(Unary::CtTz),
];

/// The intrinsic that a keyword spells.
#[tactic(auto, unfolding(crate::specs::Intrinsics::keyword_in))]
fn keyword_of(word: &[u8]) -> Option<Intrinsic>
    ensures { result ≡ spelled.keyword_in word.now }
{
    INTRINSICS
        .iter()
        .copied()
        .find(|intrinsic| is(word, intrinsic_keyword(*intrinsic)))
}

/// The width of the integer type that a word spells, if it has no leading zero.
#[tactic(auto, unfolding(crate::specs::Intrinsics::plain_width_in))]
fn plain_width(word: &[u8]) -> Option<Width>
    ensures { result ≡ spelled.plain_width_in word.now }
{
    match word {
        [b'i', b'0', ..] => None,
        _ => match type_of(word) {
            TypeWord::Integer(width) => Some(width),
            TypeWord::Other | TypeWord::OutOfRange => None,
        },
    }
}

/// The intrinsic and the width that the part of a name behind `llvm.` spells.
#[tactic(auto, unfolding(crate::specs::Intrinsics::named_in))]
fn named(rest: &[u8]) -> Option<(Intrinsic, Width)>
    ensures { result ≡ spelled.named_in rest.now }
{
    let dot = rest.iter().position(|byte| *byte == b'.')?;
    let intrinsic = keyword_of(&rest[..dot])?;
    let width = plain_width(&rest[dot + 1..])?;
    Some((intrinsic, width))
}

/// The intrinsic and the width that a function's name spells.
#[tactic(auto, unfolding(crate::specs::Intrinsics::intrinsic_in))]
pub(crate) fn intrinsic_of(name: &[u8]) -> Option<(Intrinsic, Width)>
    ensures { result ≡ spelled.intrinsic_in name.now }
{
    if name.len() >= 5 && is(&name[..5], "llvm.") {
        named(&name[5..])
    } else {
        None
    }
}
