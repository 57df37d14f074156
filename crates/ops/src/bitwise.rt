//! `and`, `or` and `xor`. (LLVM Language Reference, "Bitwise Binary Operations".)

ghost use Rattle.std.specs.Prelude.{◌≡◌, ◌<◌, ◌^◌, bit_and, bit_xor};
ghost use Rattle.ops.specs.Bitwise.{or};
ghost use Rattle.ops.specs.Integer.{bits};

use crate::opcode::Flags;
use crate::value::Value;
use crate::width::Width;
use crate::word::Word;

/// `and` of two numbers.
pub(crate) fn and(width: Width, a: u64, b: u64) -> Value
    requires left { a < 2 ^ width }
    requires right { b < 2 ^ width }
    ensures { result ≡ bits width (bit_and a b) }
{
    Value::Bits(Word::fitting(width, a & b))
}

/// `or` of two numbers.
#[tactic(auto, unfolding(crate::specs::Bitwise::or))]
pub(crate) fn or(flags: Flags, width: Width, a: u64, b: u64) -> Value
    requires left { a < 2 ^ width }
    requires right { b < 2 ^ width }
    ensures { result ≡ or flags width a b }
{
    if flags.disjoint && a & b != 0 {
        Value::Poison
    } else {
        Value::Bits(Word::fitting(width, a | b))
    }
}

/// `xor` of two numbers.
pub(crate) fn xor(width: Width, a: u64, b: u64) -> Value
    requires left { a < 2 ^ width }
    requires right { b < 2 ^ width }
    ensures { result ≡ bits width (bit_xor a b) }
{
    Value::Bits(Word::fitting(width, a ^ b))
}
