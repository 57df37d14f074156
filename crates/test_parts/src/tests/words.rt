//! Words of inputs and of constants.
ghost use Rattle.std.specs.Prelude.{◌≡◌, ◌≤◌, length, IfOk};
ghost use Rattle.std.specs.List.{All};
ghost use Rattle.circuits.specs.Circuit.{Keeps};

use circuits::{Bits, Circuit};
use lists::List;
use std::alloc::{AllocError, Global};

/// Appends the lowest bits of a number, the lowest first.
fn push_bits(bits: &mut Vec<bool>, number: u64, width: usize) -> Result<(), AllocError>
    requires { width ≤ 64 }
{
    for i in 0..width {
        bits.push(number >> i & 1 == 1)?;
    }
    Ok(())
}

/// The inputs at which two words of this width are these numbers.
pub(crate) fn inputs_of(
    alloc: Global,
    width: usize,
    a: u64,
    b: u64,
) -> Result<Vec<bool>, AllocError>
    requires { width ≤ 64 }
{
    let mut inputs = Vec::new(alloc);
    push_bits(&mut inputs, a, width)?;
    push_bits(&mut inputs, b, width)?;
    Ok(inputs)
}

/// A word of the next inputs.
pub(crate) fn word<C: Circuit>(
    alloc: Global,
    circuit: &mut C,
    width: usize,
) -> Result<Bits<C::Literal>, AllocError>
    ensures own { IfOk result (All (C.has_literal circuit.new)) }
    ensures width { IfOk result (λ word. length word ≡ width) }
    ensures keeps { Keeps C.State circuit.old circuit.new }
{
    let mut word = List::new(alloc);
    for _i in 0..width {
        word.push(circuit.input(alloc)?)?;
    }
    Ok(word)
}

/// The constant word of a number's lowest bits.
pub(crate) fn constant<C: Circuit>(
    alloc: Global,
    circuit: &C,
    number: u64,
    width: usize,
) -> Result<Bits<C::Literal>, AllocError>
    requires { width ≤ 64 }
    ensures own { IfOk result (All (C.has_literal circuit.now)) }
    ensures width { IfOk result (λ word. length word ≡ width) }
{
    let mut word = List::new(alloc);
    for i in 0..width {
        word.push(if number >> i & 1 == 1 {
            circuit.one()
        } else {
            circuit.zero()
        })?;
    }
    Ok(word)
}

/// The number of the bits, the lowest first.
pub(crate) fn number(bits: &[bool]) -> u64 {
    let mut number = 0u64;
    for bit in bits.iter().rev() {
        number = number.wrapping_mul(2) | u64::from(*bit);
    }
    number
}
