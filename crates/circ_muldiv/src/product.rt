//! Products of words, by shifting and adding.
ghost use Rattle.std.specs.Prelude.{◌≡◌, ◌*◌, ◌%◌, ◌^◌, ◌<◌, nat_le, Bool, List as Seq, length, IfOk};
ghost use Rattle.std.specs.List.{All};
ghost use Rattle.circuits.specs.Circuit.{Adds};
ghost use Rattle.circuits.specs.Word.{number_of};
ghost use Rattle.circ_muldiv.specs.Gates.{product_gates};

use crate::row::{add_row, loses, masked};
use circuits::{Bits, Circuit, or};
use std::alloc::{AllocError, Global};

/// The product of two words of one width N, modulo 2^N. It adds at most 3 N^2 + 2 N - 4 gates.
pub fn multiply<C: Circuit>(
    alloc: Global,
    c: &mut C,
    a: &Bits<C::Literal>,
    b: &Bits<C::Literal>,
) -> Result<Bits<C::Literal>, AllocError>
    requires width { 0 < length a.now }
    requires same_width { length b.now ≡ length a.now }
    requires own_a { All (C.has_literal c.old) a.now }
    requires own_b { All (C.has_literal c.old) b.now }
    ensures own { IfOk result (All (C.has_literal c.new)) }
    ensures width { IfOk result (λ product. length product ≡ length a.now) }
    ensures number { IfOk result (λ product. (inputs : Seq Bool) → C.admits c.old inputs →
        number_of (C.value c.new inputs) product
        ≡ (number_of (C.value c.old inputs) a.now * number_of (C.value c.old inputs) b.now)
        % 2 ^ length a.now) }
    ensures adds { Adds C.State c.old c.new
        (product_gates (length a.now)) }
{
    let product = multiply_with_overflow(alloc, c, a.as_slice(), b.as_slice())?;
    Ok(product.bits)
}

/// The product of two words of one width N, in two parts.
#[derive(Drop)]
pub(crate) struct Product<L> {
    /// The lowest N bits of the product.
    pub(crate) bits: Bits<L>,
    /// Whether the product is at least 2^N.
    pub(crate) overflow: L,
}

/// The product of two words of one width N: for each bit of `b`, lowest first, a row adds `a` at the bit's place where
/// the bit is true. Each row is cut to the width. What is cut off are multiples of 2^N, so the product is at least 2^N
/// exactly where some row loses a true bit.
pub(crate) fn multiply_with_overflow<C: Circuit>(
    alloc: Global,
    c: &mut C,
    a: &[C::Literal],
    b: &[C::Literal],
) -> Result<Product<C::Literal>, AllocError>
    requires width { 0 < length a.now }
    requires same_width { length b.now ≡ length a.now }
    requires own_a { All (C.has_literal c.old) a.now }
    requires own_b { All (C.has_literal c.old) b.now }
    ensures own_bits { IfOk result (λ product. All (C.has_literal c.new) product.bits) }
    ensures own_overflow { IfOk result (λ product. C.has_literal c.new product.overflow) }
    ensures width { IfOk result (λ product. length product.bits ≡ length a.now) }
    ensures number { IfOk result (λ product. (inputs : Seq Bool) → C.admits c.old inputs →
        number_of (C.value c.new inputs) product.bits
        ≡ (number_of (C.value c.old inputs) a.now * number_of (C.value c.old inputs) b.now)
        % 2 ^ length a.now) }
    ensures overflow { IfOk result (λ product. (inputs : Seq Bool) → C.admits c.old inputs →
        C.value c.new inputs product.overflow
        ≡ nat_le (2 ^ length a.now)
        (number_of (C.value c.old inputs) a.now * number_of (C.value c.old inputs) b.now)) }
    ensures adds { Adds C.State c.old c.new
        (product_gates (length a.now)) }
{
    let top = a.len() - 1;
    let mut bits = masked(alloc, c, a, b[0])?;
    let mut overflow = c.zero();
    // whether `a`, shifted to the place of the next row, has a true bit past the width
    let mut past = a[top];
    for i in 1..a.len() {
        let digit = b[i];
        let row = add_row(alloc, c, bits.as_slice(), a, digit, i)?;
        bits = row.bits;
        overflow = loses(alloc, c, overflow, row.carry, digit, past)?;
        past = or(alloc, c, past, a[top - i])?;
    }
    Ok(Product { bits, overflow })
}
