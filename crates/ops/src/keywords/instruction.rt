//! The keywords of binary operations, of intrinsics with one operand and of casts.

ghost use Rattle.std.specs.Prelude.{◌≡◌};
ghost use Rattle.ops.specs.Keywords.{opcode_keyword, unary_keyword, cast_keyword};

use crate::{Cast, Opcode, Unary};

/// The keyword of a binary operation.
pub fn opcode_name(opcode: Opcode) -> &'static str
    ensures { result.now ≡ opcode_keyword opcode }
{
    match opcode {
        Opcode::Add => "add",
        Opcode::Sub => "sub",
        Opcode::Mul => "mul",
        Opcode::UDiv => "udiv",
        Opcode::SDiv => "sdiv",
        Opcode::URem => "urem",
        Opcode::SRem => "srem",
        Opcode::Shl => "shl",
        Opcode::LShr => "lshr",
        Opcode::AShr => "ashr",
        Opcode::And => "and",
        Opcode::Or => "or",
        Opcode::Xor => "xor",
        Opcode::UMin => "umin",
        Opcode::UMax => "umax",
        Opcode::SMin => "smin",
        Opcode::SMax => "smax",
    }
}

/// The keyword of an intrinsic with one operand.
pub fn unary_name(op: Unary) -> &'static str
    ensures { result.now ≡ unary_keyword op }
{
    match op {
        Unary::Abs => "abs",
        Unary::CtPop => "ctpop",
        Unary::CtLz => "ctlz",
        Unary::CtTz => "cttz",
    }
}

/// The keyword of a cast.
pub fn cast_name(cast: Cast) -> &'static str
    ensures { result.now ≡ cast_keyword cast }
{
    match cast {
        Cast::Trunc => "trunc",
        Cast::ZExt => "zext",
        Cast::SExt => "sext",
    }
}
