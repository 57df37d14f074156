//! Widths of integer types.

ghost use Rattle.std.specs.Prelude.{◌≡◌, ◌≤◌, ◌^◌, ◌-◌, ◌↔◌, IsSome, IfSome, pos};

use std::marker::Model;

/// The number of bits of an integer type `iN`, from 1 to 64. Contracts see that number.
///
/// LLVM has wider integers too, which this project leaves out.
#[derive(Clone, Copy, PartialEq, Eq, Debug)]
pub struct Width {
    bits: u32,
}

impl Model for Width {
    ghost use Rattle.std.specs.Prelude.{ℕ, ◌≤◌};

    ghost Value = { ℕ };

    ghost view = { λ w. w.bits };

    ghost invariant = { λ w. (1 ≤ w.bits) × (w.bits ≤ 64) };

    ghost inverse = { λ n. record { bits = n } };
}

impl Width {
    /// One bit.
    pub const ONE: Width = Width { bits: 1 };

    /// The width of `n` bits, or `None` where `n` is not from 1 to 64.
    pub fn new(n: u32) -> Option<Width>
        ensures range { IsSome result ↔ ((1 ≤ n) × (n ≤ 64)) }
        ensures width { IfSome result (λ w. w ≡ n) }
    {
        if 1 <= n && n <= 64 {
            Some(Width { bits: n })
        } else {
            None
        }
    }

    /// How many bits there are.
    pub fn bits(self) -> u32
        ensures bits { result ≡ self }
        ensures at_least_one { 1 ≤ result }
        ensures at_most_64 { result ≤ 64 }
    {
        self.bits
    }

    /// How many numbers this many bits can hold: 2 to the power of their count.
    pub fn modulus(self) -> i128
        ensures { result ≡ pos (2 ^ self) }
    {
        (1u128 << self.bits) as i128
    }

    /// Half of the modulus: the least number whose highest bit is set.
    pub fn half_modulus(self) -> i128
        ensures { result ≡ pos (2 ^ (self - 1)) }
    {
        (1u128 << (self.bits - 1)) as i128
    }
}
