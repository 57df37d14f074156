//! Sums, differences and products. (LLVM Language Reference, "Binary Operations".)

ghost use Rattle.std.specs.Prelude.{◌≡◌, ◌<◌, ◌^◌, pos};
ghost use Rattle.ops.specs.Arithmetic.{add, sub, mul, arithmetic};

use crate::integer::{fits_signed, fits_unsigned, residue, signed};
use crate::opcode::Flags;
use crate::value::Value;
use crate::width::Width;
use crate::word::Word;

/// `add` of two numbers.
pub(crate) fn add(flags: Flags, width: Width, a: u64, b: u64) -> Value
    requires left { a < 2 ^ width }
    requires right { b < 2 ^ width }
    ensures { result ≡ add flags width a b }
{
    let unsigned_result = i128::from(a) + i128::from(b);
    let signed_result = signed(width, a) + signed(width, b);
    reduce(flags, width, unsigned_result, signed_result)
}

/// `sub` of two numbers.
pub(crate) fn sub(flags: Flags, width: Width, a: u64, b: u64) -> Value
    requires left { a < 2 ^ width }
    requires right { b < 2 ^ width }
    ensures { result ≡ sub flags width a b }
{
    let unsigned_result = i128::from(a) - i128::from(b);
    let signed_result = signed(width, a) - signed(width, b);
    reduce(flags, width, unsigned_result, signed_result)
}

/// `mul` of two numbers.
pub(crate) fn mul(flags: Flags, width: Width, a: u64, b: u64) -> Value
    requires left { a < 2 ^ width }
    requires right { b < 2 ^ width }
    ensures { result ≡ mul flags width a b }
{
    let unsigned_result = u128::from(a) * u128::from(b);
    let signed_result = signed(width, a) * signed(width, b);
    reduce_product(flags, width, unsigned_result, signed_result)
}

/// The result modulo 2 to the power of `width`, or poison where it breaks a flag.
#[tactic(auto, unfolding(crate::specs::Arithmetic::arithmetic))]
fn reduce(flags: Flags, width: Width, unsigned_result: i128, signed_result: i128) -> Value
    ensures { result ≡ arithmetic flags width unsigned_result signed_result }
{
    let wraps = flags.nuw && !fits_unsigned(width, unsigned_result);
    let wraps_signed = flags.nsw && !fits_signed(width, signed_result);
    if wraps || wraps_signed {
        Value::Poison
    } else {
        Value::Bits(Word::fitting(width, residue(width, unsigned_result)))
    }
}

/// The same for `mul` and `shl`, whose unsigned result may be too large for `i128`.
#[tactic(auto, unfolding(crate::specs::Arithmetic::arithmetic, crate::specs::Integer::fits_unsigned, crate::specs::Integer::residue))]
pub(crate) fn reduce_product(
    flags: Flags,
    width: Width,
    unsigned_result: u128,
    signed_result: i128,
) -> Value
    ensures { result ≡ arithmetic flags width (pos unsigned_result) signed_result }
{
    let modulus = width.modulus().unsigned_abs();
    let wraps = flags.nuw && unsigned_result >= modulus;
    let wraps_signed = flags.nsw && !fits_signed(width, signed_result);
    if wraps || wraps_signed {
        Value::Poison
    } else {
        Value::Bits(Word::fitting(width, (unsigned_result % modulus) as u64))
    }
}
