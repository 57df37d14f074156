//! Shifts. (LLVM Language Reference, "Bitwise Binary Operations".)

ghost use Rattle.std.specs.Prelude.{◌≡◌, ◌<◌, ◌≤◌, ◌^◌};
ghost use Rattle.ops.specs.Shifts.{shl, lshr, ashr};

use crate::arithmetic::reduce_product;
use crate::division::exactly;
use crate::integer::{residue, signed};
use crate::opcode::Flags;
use crate::value::Value;
use crate::width::Width;
use crate::word::Word;

/// `shl` of a number by `b` bits.
#[tactic(auto, unfolding(crate::specs::Shifts::shl))]
pub(crate) fn shl(flags: Flags, width: Width, a: u64, b: u64) -> Value
    requires { a < 2 ^ width }
    ensures { result ≡ shl flags width a b }
{
    if b >= u64::from(width.bits()) {
        return Value::Poison;
    }
    let power = power(b);
    let unsigned_result = u128::from(a) * u128::from(power);
    let signed_result = signed(width, a) * i128::from(power);
    reduce_product(flags, width, unsigned_result, signed_result)
}

/// `lshr` of a number by `b` bits.
#[tactic(auto, unfolding(crate::specs::Shifts::lshr))]
pub(crate) fn lshr(flags: Flags, width: Width, a: u64, b: u64) -> Value
    requires { a < 2 ^ width }
    ensures { result ≡ lshr flags width a b }
{
    if b >= u64::from(width.bits()) {
        return Value::Poison;
    }
    exactly(flags, a % power(b) == 0, Word::fitting(width, a >> b))
}

/// `ashr` of a number by `b` bits.
#[tactic(auto, unfolding(crate::specs::Shifts::ashr))]
pub(crate) fn ashr(flags: Flags, width: Width, a: u64, b: u64) -> Value
    requires { a < 2 ^ width }
    ensures { result ≡ ashr flags width a b }
{
    if b >= u64::from(width.bits()) {
        return Value::Poison;
    }
    let power = power(b);
    let floor = residue(width, signed(width, a).div_euclid(i128::from(power)));
    exactly(flags, a % power == 0, Word::fitting(width, floor))
}

/// 2 to the power of `b`.
fn power(b: u64) -> u64
    requires { b < 64 }
    ensures value { result ≡ 2 ^ b }
    ensures most { result ≤ 2 ^ 63 }
{
    1 << b
}
