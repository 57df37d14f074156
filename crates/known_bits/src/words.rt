//! What is known of bits, in two numbers.
ghost use Rattle.std.specs.Prelude.{◌≡◌, ◌≤◌, [], length, map};
ghost use Rattle.ops.specs.Counts.{binary_digits};
ghost use Rattle.circuits.specs.Kleene.{certain};
ghost use Rattle.circuits.specs.Word.{bit, number};
ghost use Rattle.known_bits.specs.Words.{is_known_as, known_of};

use circuits::KnownBit;
use ops::Word;

/// What is known of the bits of a value. No bit is 1 in both numbers; of one that is 1 in neither nothing is known.
#[derive(Clone, Copy, PartialEq, Eq, Debug)]
pub struct Known {
    /// Its bits are 1 where the value's are known to be 0.
    pub zeros: u64,
    /// Its bits are 1 where the value's are known to be 1.
    pub ones: u64,
}

impl Known {
    /// Of no bit anything.
    pub(crate) fn nothing() -> Known
        ensures { result ≡ known_of [] }
    {
        Known { zeros: 0, ones: 0 }
    }

    /// Of a number all bits.
    pub(crate) fn of_number(number: Word) -> Known
        ensures { result ≡ known_of (map certain (binary_digits number.width number.number)) }
    {
        let all = u64::MAX >> (64 - number.width().bits());
        Known {
            zeros: all - number.number(),
            ones: number.number(),
        }
    }

    /// What is known of the bits of a word, the lowest first.
    pub(crate) fn of_bits(bits: &[KnownBit]) -> Known
        requires { length bits.now ≤ 64 }
        ensures { result ≡ known_of bits.now }
    {
        Known {
            zeros: number_where(bits, false),
            ones: number_where(bits, true),
        }
    }
}

/// The number whose bits are 1 where those of a word are known to have the value.
fn number_where(bits: &[KnownBit], value: bool) -> u64
    requires { length bits.now ≤ 64 }
    ensures { result ≡ number (map (is_known_as value) bits.now) }
{
    let mut number = 0;
    for i in 0..bits.len() {
        number = 2 * number + digit_where(bits[bits.len() - 1 - i], value);
    }
    number
}

/// 1 where a bit is known to have the value, and else 0.
fn digit_where(known: KnownBit, value: bool) -> u64
    ensures digit { result ≡ bit (is_known_as value known) }
    ensures small { result ≤ 1 }
{
    match (value, known) {
        (false, KnownBit::Zero) | (true, KnownBit::One) => 1,
        (false, KnownBit::One | KnownBit::Unknown) => 0,
        (true, KnownBit::Zero | KnownBit::Unknown) => 0,
    }
}
