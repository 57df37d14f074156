//! Numbers of integer types.

ghost use Rattle.std.specs.Prelude.{◌≡◌, ◌<◌, ◌%◌, ◌^◌, ◌↔◌, IsSome, IfSome, if◌then◌else◌};

use crate::width::Width;
use std::marker::Model;

/// A number of an integer type `iN`: from 0 to 2^N - 1. Contracts see its width and the number.
///
/// A type has no sign; a signed instruction reads the number in two's complement.
#[derive(Clone, Copy, PartialEq, Eq, Debug)]
pub struct Word {
    width: Width,
    number: u64,
}

impl Model for Word {
    ghost use Rattle.std.specs.Prelude.{◌<◌, ◌≤◌, ◌^◌};
    ghost use Rattle.ops.specs.Number.{Number};

    ghost Value = { Number };

    ghost view = { λ w. record { width = w.width; number = w.number } };

    ghost invariant = { λ w. (1 ≤ w.width) × (w.width ≤ 64) × (w.number < 2 ^ w.width) };

    ghost inverse = { λ n. record { width = n.width; number = n.number } };
}

impl Word {
    /// The number as one of `iN`, or `None` where it does not fit.
    pub fn new(width: Width, number: u64) -> Option<Word>
        ensures range { IsSome result ↔ (number < 2 ^ width) }
        ensures word { IfSome result (λ w. w ≡ record { width = width; number = number }) }
    {
        if i128::from(number) < width.modulus() {
            Some(Word { width, number })
        } else {
            None
        }
    }

    /// The number modulo 2^N.
    pub fn wrapped(width: Width, number: u64) -> Word
        ensures { result ≡ record { width = width; number = number % 2 ^ width } }
    {
        Word {
            width,
            number: (i128::from(number) % width.modulus()) as u64,
        }
    }

    /// The number as one of `iN`, in which it fits.
    pub fn fitting(width: Width, number: u64) -> Word
        requires { number < 2 ^ width }
        ensures { result ≡ record { width = width; number = number } }
    {
        Word { width, number }
    }

    /// The number 1 of `i1` for true, and 0 for false.
    pub fn truth(holds: bool) -> Word
        ensures { result ≡ record { width = 1; number = (if holds then 1 else 0) } }
    {
        Word {
            width: Width::ONE,
            number: u64::from(holds),
        }
    }

    /// The number of bits of its type.
    pub fn width(self) -> Width
        ensures { result ≡ self.width }
    {
        self.width
    }

    /// The number, without a sign.
    pub fn number(self) -> u64
        ensures number { result ≡ self.number }
        ensures fits { result < 2 ^ self.width }
    {
        self.number
    }
}
