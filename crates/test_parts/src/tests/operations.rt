//! Operations on words, and the circuits that compute them.
ghost use Rattle.std.specs.Prelude.{◌≡◌, ◌<◌, ◌≤◌, [], ◌∷◌, length, IfOk};
ghost use Rattle.std.specs.List.{All};
ghost use Rattle.circuits.specs.Circuit.{Keeps};

use circ_counts::{count_ones, leading_zeros, trailing_zeros};
use circ_muldiv::{
    absolute, divide_signed, divide_unsigned, multiply, overflow_add, overflow_mul, overflow_sub,
};
use circuits::{Bits, Circuit, maximum, minimum};
use lists::List;
use std::alloc::{AllocError, Global};

/// An operation on two words of one width, a and b.
#[derive(Clone, Copy, Debug)]
pub(crate) enum Operation {
    Product,
    /// Whether the exact unsigned sum overflows the width; and so on.
    SumOverflows,
    SignedSumOverflows,
    DifferenceOverflows,
    SignedDifferenceOverflows,
    ProductOverflows,
    SignedProductOverflows,
    Quotient,
    Remainder,
    SignedQuotient,
    SignedRemainder,
    Intrinsic(Intrinsic),
}

/// An intrinsic on two words, or on the first alone.
#[derive(Clone, Copy, Debug)]
pub(crate) enum Intrinsic {
    Minimum,
    Maximum,
    SignedMinimum,
    SignedMaximum,
    Absolute,
    Ones,
    LeadingZeros,
    TrailingZeros,
}

/// An operation on two numbers of `width` bits.
#[derive(Clone, Copy, Debug)]
pub(crate) struct Question {
    pub(crate) operation: Operation,
    pub(crate) width: usize,
    pub(crate) a: u64,
    pub(crate) b: u64,
}

/// All operations but intrinsics.
pub(crate) static OPERATIONS: [Operation; 11] = [
    Operation::Product,
    Operation::SumOverflows,
    Operation::SignedSumOverflows,
    Operation::DifferenceOverflows,
    Operation::SignedDifferenceOverflows,
    Operation::ProductOverflows,
    Operation::SignedProductOverflows,
    Operation::Quotient,
    Operation::Remainder,
    Operation::SignedQuotient,
    Operation::SignedRemainder,
];

/// The word of a single bit.
fn single<L: Copy>(alloc: Global, literal: L) -> Result<Bits<L>, AllocError>
    ensures { IfOk result (λ word. word ≡ literal ∷ []) }
{
    let mut word = List::new(alloc);
    word.push(literal)?;
    Ok(word)
}

/// The result of the circuit: a word of the width, or a single bit.
pub(crate) fn answer<C: Circuit>(
    alloc: Global,
    c: &mut C,
    operation: Operation,
    a: &Bits<C::Literal>,
    b: &Bits<C::Literal>,
) -> Result<Bits<C::Literal>, AllocError>
    requires some { 0 < length a.now }
    requires same_width { length b.now ≡ length a.now }
    requires own_a { All (C.has_literal c.old) a.now }
    requires own_b { All (C.has_literal c.old) b.now }
    ensures own { IfOk result (All (C.has_literal c.new)) }
    ensures width { IfOk result (λ word. length word ≤ length a.now) }
    ensures keeps { Keeps C.State c.old c.new }
{
    match operation {
        Operation::Product => multiply(alloc, c, a, b),
        Operation::Quotient => Ok(divide_unsigned(alloc, c, a, b)?.quotient),
        Operation::Remainder => Ok(divide_unsigned(alloc, c, a, b)?.remainder),
        Operation::SignedQuotient => Ok(divide_signed(alloc, c, a, b)?.quotient),
        Operation::SignedRemainder => Ok(divide_signed(alloc, c, a, b)?.remainder),
        Operation::Intrinsic(intrinsic) => intrinsic_answer(alloc, c, intrinsic, a, b),
        _ => {
            let overflows = overflow(alloc, c, operation, a, b)?;
            single(alloc, overflows)
        }
    }
}

/// The overflow bit of an operation, if the question is that.
fn overflow<C: Circuit>(
    alloc: Global,
    c: &mut C,
    operation: Operation,
    a: &Bits<C::Literal>,
    b: &Bits<C::Literal>,
) -> Result<C::Literal, AllocError>
    requires some { 0 < length a.now }
    requires same_width { length b.now ≡ length a.now }
    requires own_a { All (C.has_literal c.old) a.now }
    requires own_b { All (C.has_literal c.old) b.now }
    ensures own { IfOk result (λ made. C.has_literal c.new made) }
    ensures keeps { Keeps C.State c.old c.new }
{
    match operation {
        Operation::SumOverflows => overflow_add(alloc, c, a, b, false),
        Operation::SignedSumOverflows => overflow_add(alloc, c, a, b, true),
        Operation::DifferenceOverflows => overflow_sub(alloc, c, a, b, false),
        Operation::SignedDifferenceOverflows => overflow_sub(alloc, c, a, b, true),
        Operation::ProductOverflows => overflow_mul(alloc, c, a, b, false),
        _ => overflow_mul(alloc, c, a, b, true),
    }
}

/// The result of the circuit of an intrinsic.
fn intrinsic_answer<C: Circuit>(
    alloc: Global,
    c: &mut C,
    intrinsic: Intrinsic,
    a: &Bits<C::Literal>,
    b: &Bits<C::Literal>,
) -> Result<Bits<C::Literal>, AllocError>
    requires width { 0 < length a.now }
    requires same_width { length b.now ≡ length a.now }
    requires own_a { All (C.has_literal c.old) a.now }
    requires own_b { All (C.has_literal c.old) b.now }
    ensures own { IfOk result (All (C.has_literal c.new)) }
    ensures width { IfOk result (λ word. length word ≡ length a.now) }
    ensures keeps { Keeps C.State c.old c.new }
{
    match intrinsic {
        Intrinsic::Minimum => minimum(alloc, c, a, b, false),
        Intrinsic::Maximum => maximum(alloc, c, a, b, false),
        Intrinsic::SignedMinimum => minimum(alloc, c, a, b, true),
        Intrinsic::SignedMaximum => maximum(alloc, c, a, b, true),
        Intrinsic::Absolute => absolute(alloc, c, a),
        Intrinsic::Ones => count_ones(alloc, c, a),
        Intrinsic::LeadingZeros => leading_zeros(alloc, c, a),
        Intrinsic::TrailingZeros => trailing_zeros(alloc, c, a),
    }
}
