//! Numbers of an integer type, unsigned and in two's complement. (LLVM Language Reference, "Integer Type".)

ghost use Rattle.std.specs.Prelude.{◌≡◌, ◌<◌, ◌≤ℤ◌, ◌<ℤ◌, ◌-◌, ◌^◌, pos, neg_ℤ};
ghost use Rattle.ops.specs.Integer.{signed, fits_signed, fits_unsigned, minus_one, negative, residue};

use crate::width::Width;

/// The number of `width` bits, read in two's complement.
#[tactic(auto, unfolding(crate::specs::Integer::signed))]
pub(crate) fn signed(width: Width, number: u64) -> i128
    requires { number < 2 ^ width }
    ensures number { result ≡ signed width number }
    ensures least { neg_ℤ (pos (2 ^ 63)) ≤ℤ result }
    ensures most { result <ℤ pos (2 ^ 63) }
{
    let number = i128::from(number);
    if number < width.half_modulus() {
        number
    } else {
        number - width.modulus()
    }
}

/// Whether the number of `width` bits is negative in two's complement.
pub(crate) fn negative(width: Width, number: u64) -> bool
    ensures { result ≡ negative width number }
{
    width.half_modulus() <= i128::from(number)
}

/// Whether the number is in the range of unsigned numbers of `width` bits.
#[tactic(auto, unfolding(crate::specs::Integer::fits_unsigned))]
pub(crate) fn fits_unsigned(width: Width, number: i128) -> bool
    ensures { result ≡ fits_unsigned width number }
{
    0 <= number && number < width.modulus()
}

/// Whether the number is in the range of signed numbers of `width` bits.
#[tactic(auto, unfolding(crate::specs::Integer::fits_signed))]
pub(crate) fn fits_signed(width: Width, number: i128) -> bool
    ensures { result ≡ fits_signed width number }
{
    -width.half_modulus() <= number && number < width.half_modulus()
}

/// The number modulo 2 to the power of `width`.
#[tactic(auto, unfolding(crate::specs::Integer::residue))]
pub fn residue(width: Width, number: i128) -> u64
    ensures residue { result ≡ residue width number }
    ensures fits { result < 2 ^ width }
{
    number.rem_euclid(width.modulus()) as u64
}

/// The number of `width` bits that is -1 in two's complement.
pub fn minus_one(width: Width) -> u64
    ensures number { result ≡ minus_one width }
    ensures fits { result < 2 ^ width }
{
    (width.modulus() - 1) as u64
}
