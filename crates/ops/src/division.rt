//! Quotients and remainders. (LLVM Language Reference, "Binary Operations".)

ghost use Rattle.std.specs.Prelude.{◌≡◌, ◌<◌, ◌^◌};
ghost use Rattle.ops.specs.Division.{udiv, urem, sdiv, srem, has_no_quotient, exactly, unsigned_poison, signed_poison};
ghost use Rattle.ops.specs.Integer.{minus_one};

use crate::integer::{minus_one, residue, signed};
use crate::opcode::Flags;
use crate::value::{Effect, Value};
use crate::width::Width;
use crate::word::Word;

/// `udiv` of two numbers.
#[tactic(auto, unfolding(crate::specs::Division::udiv))]
pub(crate) fn udiv(flags: Flags, width: Width, a: u64, b: u64) -> Effect
    requires left { a < 2 ^ width }
    requires right { b < 2 ^ width }
    ensures { result ≡ udiv flags width a b }
{
    if b == 0 {
        return Effect::Undefined;
    }
    Effect::Gives(exactly(flags, a % b == 0, Word::fitting(width, a / b)))
}

/// `sdiv` of two numbers.
#[tactic(auto, unfolding(crate::specs::Division::sdiv))]
pub(crate) fn sdiv(flags: Flags, width: Width, a: u64, b: u64) -> Effect
    requires left { a < 2 ^ width }
    requires right { b < 2 ^ width }
    ensures { result ≡ sdiv flags width a b }
{
    if has_no_quotient(width, a, b) {
        return Effect::Undefined;
    }
    let dividend = signed(width, a);
    let divisor = signed(width, b);
    let quotient = residue(width, dividend / divisor);
    Effect::Gives(exactly(
        flags,
        dividend % divisor == 0,
        Word::fitting(width, quotient),
    ))
}

/// `urem` of two numbers.
#[tactic(auto, unfolding(crate::specs::Division::urem))]
pub(crate) fn urem(width: Width, a: u64, b: u64) -> Effect
    requires left { a < 2 ^ width }
    requires right { b < 2 ^ width }
    ensures { result ≡ urem width a b }
{
    if b == 0 {
        return Effect::Undefined;
    }
    Effect::Gives(Value::Bits(Word::fitting(width, a % b)))
}

/// `srem` of two numbers.
#[tactic(auto, unfolding(crate::specs::Division::srem))]
pub(crate) fn srem(width: Width, a: u64, b: u64) -> Effect
    requires left { a < 2 ^ width }
    requires right { b < 2 ^ width }
    ensures { result ≡ srem width a b }
{
    if has_no_quotient(width, a, b) {
        return Effect::Undefined;
    }
    let remainder = signed(width, a) % signed(width, b);
    Effect::Gives(Value::Bits(Word::fitting(width, residue(width, remainder))))
}

/// The effect of `udiv` or `urem` where an operand is poison.
pub(crate) fn unsigned_poison(divisor: Value) -> Effect
    ensures { result ≡ unsigned_poison divisor }
{
    match divisor {
        Value::Bits(divisor) if divisor.number() != 0 => Effect::Gives(Value::Poison),
        _ => Effect::Undefined,
    }
}

/// The effect of `sdiv` or `srem` where an operand is poison. (Division of poison by -1 is undefined behaviour, since
/// the least number may stand in place of poison.)
pub(crate) fn signed_poison(width: Width, divisor: Value) -> Effect
    ensures { result ≡ signed_poison width divisor }
{
    match divisor {
        Value::Bits(divisor) if divisor.number() != 0 && divisor.number() != minus_one(width) => {
            Effect::Gives(Value::Poison)
        }
        _ => Effect::Undefined,
    }
}

/// Whether the signed numbers have no quotient of `width` bits: by 0, and of the least number by -1.
fn has_no_quotient(width: Width, a: u64, b: u64) -> bool
    ensures { result ≡ has_no_quotient width a b }
{
    b == 0 || b == minus_one(width) && i128::from(a) == width.half_modulus()
}

/// The number, or poison where the flag `exact` is set and the division leaves a remainder.
pub(crate) fn exactly(flags: Flags, divided: bool, number: Word) -> Value
    ensures { result ≡ exactly flags divided (Value.Bits number) }
{
    if flags.exact && !divided {
        Value::Poison
    } else {
        Value::Bits(number)
    }
}
