//! Quotients and remainders of words, by restoring division.
ghost use Rattle.std.specs.Prelude.{◌≡◌, ◌≢◌, ◌+◌, ◌-◌, ◌*◌, ◌/◌, ◌%◌, ◌^◌, ◌<◌, ◌≤◌, nat_le, Bool, if◌then◌else◌, List as Seq, length, IfOk};
ghost use Rattle.std.specs.List.{All};
ghost use Rattle.circuits.specs.Circuit.{Adds};
ghost use Rattle.circuits.specs.Gates.{adder_gates};
ghost use Rattle.circuits.specs.Word.{bit, number_of};
ghost use Rattle.circ_muldiv.specs.Gates.{division_gates, division_step_gates};

use crate::joining::with_lowest;
use circuits::{Bits, Circuit, Sum, add_with_carry, inverted, repeated, select};
use lists::List;
use std::alloc::{AllocError, Global};

/// What dividing two words of one width N gives: two words of that width.
#[derive(Drop)]
pub struct Divided<L> {
    /// How often the divisor fits in the dividend, rounded towards zero.
    pub quotient: Bits<L>,
    /// The dividend less quotient times divisor.
    pub remainder: Bits<L>,
}

/// The quotient and the remainder of two words of one width N, at least 1, read as unsigned. Division by 0 leaves both
/// words open. It adds at most 6 N^2 + 5 N gates.
pub fn divide_unsigned<C: Circuit>(
    alloc: Global,
    c: &mut C,
    a: &Bits<C::Literal>,
    b: &Bits<C::Literal>,
) -> Result<Divided<C::Literal>, AllocError>
    requires width { 0 < length a.now }
    requires same_width { length b.now ≡ length a.now }
    requires own_a { All (C.has_literal c.old) a.now }
    requires own_b { All (C.has_literal c.old) b.now }
    ensures own_quotient { IfOk result (λ divided. All (C.has_literal c.new) divided.quotient) }
    ensures own_remainder { IfOk result (λ divided. All (C.has_literal c.new) divided.remainder) }
    ensures quotient_width { IfOk result (λ divided. length divided.quotient ≡ length a.now) }
    ensures remainder_width { IfOk result (λ divided. length divided.remainder ≡ length a.now) }
    ensures quotient { IfOk result (λ divided. (inputs : Seq Bool) → C.admits c.old inputs →
        number_of (C.value c.old inputs) b.now ≢ 0 →
        number_of (C.value c.new inputs) divided.quotient
        ≡ number_of (C.value c.old inputs) a.now / number_of (C.value c.old inputs) b.now) }
    ensures remainder { IfOk result (λ divided. (inputs : Seq Bool) → C.admits c.old inputs →
        number_of (C.value c.old inputs) b.now ≢ 0 →
        number_of (C.value c.new inputs) divided.remainder
        ≡ number_of (C.value c.old inputs) a.now % number_of (C.value c.old inputs) b.now) }
    ensures adds { Adds C.State c.old c.new
        (division_gates (length a.now)) }
{
    let dividend = a.as_slice();
    let mut quotient = Vec::new(alloc);
    let mut remainder = repeated(alloc, c.zero(), dividend.len())?;
    for i in (0..dividend.len()).rev() {
        let step = divide_step(alloc, c, dividend[i], remainder.as_slice(), b.as_slice())?;
        remainder = step.remainder;
        quotient.push(step.fits)?;
    }
    // the quotient's bits were found from the highest down
    quotient.reverse();
    Ok(Divided {
        quotient: List::from_vec(quotient),
        remainder,
    })
}

/// What one step of a division gives.
#[derive(Drop)]
struct Step<L> {
    /// The next bit of the quotient: whether the divisor fits into the remainder.
    fits: L,
    /// The remainder after the step.
    remainder: Bits<L>,
}

/// One step of a restoring division by a word of width N: the remainder is shifted up with the next bit of the dividend
/// as its lowest, and the divisor is subtracted where it fits. The subtraction has N + 1 bits, since the shifted
/// remainder may be 2^N or more.
fn divide_step<C: Circuit>(
    alloc: Global,
    c: &mut C,
    digit: C::Literal,
    remainder: &[C::Literal],
    divisor: &[C::Literal],
) -> Result<Step<C::Literal>, AllocError>
    requires same_width { length remainder.now ≡ length divisor.now }
    requires own_digit { C.has_literal c.old digit }
    requires own_remainder { All (C.has_literal c.old) remainder.now }
    requires own_divisor { All (C.has_literal c.old) divisor.now }
    ensures own_fits { IfOk result (λ step. C.has_literal c.new step.fits) }
    ensures own_remainder { IfOk result (λ step. All (C.has_literal c.new) step.remainder) }
    ensures width { IfOk result (λ step. length step.remainder ≡ length divisor.now) }
    ensures fits { IfOk result (λ step. (inputs : Seq Bool) → C.admits c.old inputs →
        C.value c.new inputs step.fits
        ≡ nat_le (number_of (C.value c.old inputs) divisor.now)
        (bit (C.value c.old inputs digit) + 2 * number_of (C.value c.old inputs) remainder.now)) }
    ensures left { IfOk result (λ step. (inputs : Seq Bool) → C.admits c.old inputs →
        let longer = bit (C.value c.old inputs digit) + 2 * number_of (C.value c.old inputs) remainder.now in
        let taken = number_of (C.value c.old inputs) divisor.now in
        number_of (C.value c.new inputs) step.remainder
        ≡ (if nat_le taken longer then longer - taken else longer) % 2 ^ length divisor.now) }
    ensures adds { Adds C.State c.old c.new
        (division_step_gates (length divisor.now)) }
{
    let longer = with_lowest(alloc, digit, remainder)?;
    let less = difference(alloc, c, longer.as_slice(), divisor)?;
    let width = divisor.len();
    let remainder = select(
        alloc,
        c,
        less.carry,
        &less.bits.as_slice()[..width],
        &longer.as_slice()[..width],
    )?;
    Ok(Step {
        fits: less.carry,
        remainder,
    })
}

/// A word of width N + 1 less a divisor of width N, as the sum with the divisor's complement: the divisor fits exactly
/// where that sum carries.
fn difference<C: Circuit>(
    alloc: Global,
    c: &mut C,
    longer: &[C::Literal],
    divisor: &[C::Literal],
) -> Result<Sum<C::Literal>, AllocError>
    requires width { length longer.now ≡ length divisor.now + 1 }
    requires own_longer { All (C.has_literal c.old) longer.now }
    requires own_divisor { All (C.has_literal c.old) divisor.now }
    ensures own_bits { IfOk result (λ less. All (C.has_literal c.new) less.bits) }
    ensures own_carry { IfOk result (λ less. C.has_literal c.new less.carry) }
    ensures width { IfOk result (λ less. length less.bits ≡ length divisor.now + 1) }
    ensures fits { IfOk result (λ less. (inputs : Seq Bool) → C.admits c.old inputs →
        C.value c.new inputs less.carry
        ≡ nat_le (number_of (C.value c.old inputs) divisor.now) (number_of (C.value c.old inputs) longer.now)) }
    ensures left { IfOk result (λ less. (inputs : Seq Bool) → C.admits c.old inputs →
        number_of (C.value c.old inputs) divisor.now ≤ number_of (C.value c.old inputs) longer.now →
        number_of (C.value c.new inputs) less.bits
        ≡ number_of (C.value c.old inputs) longer.now - number_of (C.value c.old inputs) divisor.now) }
    ensures adds { Adds C.State c.old c.new
        (adder_gates (length divisor.now + 1)) }
{
    let mut complement = inverted(alloc, c, divisor)?;
    complement.push(c.one())?;
    let first = c.one();
    add_with_carry(alloc, c, longer, complement.as_slice(), first)
}
