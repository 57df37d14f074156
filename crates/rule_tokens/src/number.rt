//! Numbers and types as written.

ghost use Rattle.std.specs.Prelude.{◌≡◌, ◌^◌, ◌-◌, min};
ghost use Rattle.std.specs.List.{list_all};
ghost use Rattle.scan.specs.Bytes.{is_digit, are_digits};
ghost use Rattle.rule_tokens.specs.Numbers.{decimal_value, literal_value, type_in};

use ops::Width;

/// The number that digits spell; 2^128 - 1 where it is more.
pub fn magnitude(digits: &[u8]) -> u128
    ensures { result ≡ min (decimal_value digits.now) (2 ^ 128 - 1) }
{
    let mut number: u128 = 0;
    for digit in digits {
        let value = u128::from(digit.saturating_sub(b'0'));
        number = number.saturating_mul(10).saturating_add(value);
    }
    number
}

/// The number that a literal spells, digits with an optional `-` before them, saturated to `i128`.
#[tactic(auto, unfolding(crate::specs::Numbers::literal_value))]
pub fn literal(text: &[u8]) -> i128
    ensures { result ≡ literal_value text.now }
{
    match text {
        [] => 0,
        [b'-', digits @ ..] => match i128::try_from(magnitude(digits)) {
            Ok(number) => -number,
            Err(_) => i128::MIN,
        },
        digits => match i128::try_from(magnitude(digits)) {
            Ok(number) => number,
            Err(_) => i128::MAX,
        },
    }
}

#[tactic(auto, unfolding(scan::specs::Bytes::is_digit))]
fn is_digit(byte: u8) -> bool
    ensures { result ≡ is_digit byte }
{
    byte.is_ascii_digit()
}

/// Whether the text has no byte but digits.
pub fn all_digits(text: &[u8]) -> bool
    ensures { result ≡ list_all is_digit text.now }
{
    text.iter().all(|byte| is_digit(*byte))
}

/// Whether the text is digits, one or more.
pub fn are_digits(text: &[u8]) -> bool
    ensures { result ≡ are_digits text.now }
{
    match text {
        [] => false,
        [_, ..] => all_digits(text),
    }
}

/// The width of a type, `i` and the digits of a number from 1 to 64.
#[tactic(auto, unfolding(crate::specs::Numbers::type_in))]
pub fn written_type(word: &[u8]) -> Option<Width>
    ensures { result ≡ type_in word.now }
{
    match word {
        [b'i', digits @ ..] if are_digits(digits) => {
            let bits = magnitude(digits);
            if bits <= 64 {
                Width::new(bits as u32)
            } else {
                None
            }
        }
        _ => None,
    }
}
