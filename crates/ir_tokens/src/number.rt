//! Numbers as written.

ghost use Rattle.std.specs.Prelude.{◌≡◌, ◌<◌, ◌≤◌, ◌^◌, unsigned_abs, SomeIff, IfSome, IfNone};
ghost use Rattle.ir_tokens.specs.Numbers as numbers;

use ops::{Width, Word, residue};

/// The number that decimal digits spell, if it is below 2^64.
pub(crate) fn decimal_number(digits: &[u8]) -> Option<u64>
    ensures { SomeIff result (numbers.decimal_value digits.now < 2 ^ 64) (numbers.decimal_value digits.now) }
{
    let mut number: u64 = 0;
    for digit in digits {
        let value = u64::from(digit.saturating_sub(b'0'));
        number = number.checked_mul(10)?.checked_add(value)?;
    }
    Some(number)
}

/// The number that digits, maybe with a `-` before them, spell, if its absolute value is below 2^64.
#[tactic(auto, unfolding(crate::specs::Numbers::number_of))]
fn number(digits: &[u8]) -> Option<i128>
    ensures some { IfSome result (λ z. z ≡ numbers.number_of digits.now) }
    ensures none { IfNone result (2 ^ 64 ≤ unsigned_abs (numbers.number_of digits.now)) }
{
    match digits {
        [b'-', magnitude @ ..] => Some(-i128::from(decimal_number(magnitude)?)),
        magnitude => Some(i128::from(decimal_number(magnitude)?)),
    }
}

/// The number of `width` bits that digits, maybe with a `-` before them, spell, modulo 2^N. `None` if it is not from
/// -2^(N-1) to 2^N - 1. (LLVM Language Reference, "Simple Constants".)
#[tactic(auto, unfolding(crate::specs::Numbers::constant_of, crate::specs::Numbers::is_in_range))]
pub fn constant(digits: &[u8], width: Width) -> Option<Word>
    ensures { result ≡ numbers.constant_of digits.now width }
{
    let least = -width.half_modulus();
    let past = width.modulus();
    let number = number(digits)?;
    if least <= number && number < past {
        Word::new(width, residue(width, number))
    } else {
        None
    }
}
