//! Words of bits of which some are known, the lowest first.
ghost use Rattle.std.specs.Prelude.{◌≡◌, ◌≤◌, IfOk, length, map};
ghost use Rattle.ops.specs.Counts.{binary_digits};
ghost use Rattle.circuits.specs.Kleene.{certain};
ghost use Rattle.known_bits.specs.Gates.{gate_of};
ghost use Rattle.known_bits.specs.Words.{bit_by_bit, top_of, unknown};

use circuits::{Bits, KnownBit, repeated};
use lists::List;
use ops::Word;
use std::alloc::{AllocError, Global};

/// So many bits of which nothing is known.
pub(crate) fn unknown(alloc: Global, width: usize) -> Result<Bits<KnownBit>, AllocError>
    ensures { IfOk result (λ bits. bits ≡ unknown width) }
{
    repeated(alloc, KnownBit::Unknown, width)
}

/// The bits of a number.
pub(crate) fn digits(alloc: Global, number: Word) -> Result<Bits<KnownBit>, AllocError>
    ensures bits { IfOk result (λ bits. bits ≡ map certain (binary_digits number.width number.number)) }
    ensures few { IfOk result (λ bits. length bits ≤ 64) }
{
    let mut bits = List::new(alloc);
    let mut rest = number.number();
    for _i in 0..number.width().bits() {
        bits.push(KnownBit::certain(rest % 2 == 1))?;
        rest /= 2;
    }
    Ok(bits)
}

/// A gate over two bits.
#[derive(Clone, Copy)]
pub(crate) enum Gate {
    And,
    Or,
    Xor,
    /// What both say.
    Agreed,
}

impl Gate {
    /// What is known of its value.
    fn of(self, a: KnownBit, b: KnownBit) -> KnownBit
        ensures { result ≡ gate_of self a b }
    {
        match self {
            Gate::And => a.and(b),
            Gate::Or => a.or(b),
            Gate::Xor => a.xor(b),
            Gate::Agreed => a.agreed(b),
        }
    }
}

/// The gate at each place of two words.
pub(crate) fn bit_by_bit(
    alloc: Global,
    gate: Gate,
    a: &[KnownBit],
    b: &[KnownBit],
) -> Result<Bits<KnownBit>, AllocError>
    requires { length b.now ≡ length a.now }
    ensures { IfOk result (λ bits. bits ≡ bit_by_bit (gate_of gate) a.now b.now) }
{
    let mut bits = List::new(alloc);
    for i in 0..a.len() {
        bits.push(gate.of(a[i], b[i]))?;
    }
    Ok(bits)
}

/// The highest bit of a word.
pub(crate) fn top(bits: &[KnownBit]) -> KnownBit
    ensures { result ≡ top_of bits.now }
{
    match bits.last() {
        Some(bit) => *bit,
        None => KnownBit::Unknown,
    }
}
