//! The circuits of the integer intrinsics at all short operands and at the edges of wide ones, by evaluation, in a
//! graph and in its clauses.
ghost use Rattle.std.specs.Prelude.{◌≤◌};

use super::decided::expect_decided;
use super::evaluated::expect_number;
use super::operations::{Intrinsic, Operation, Question};
use std::alloc::{AllocError, Global};
use std::process::Abort;
use std::test::Fail;

static INTRINSICS: [Intrinsic; 8] = [
    Intrinsic::Minimum,
    Intrinsic::Maximum,
    Intrinsic::SignedMinimum,
    Intrinsic::SignedMaximum,
    Intrinsic::Absolute,
    Intrinsic::Ones,
    Intrinsic::LeadingZeros,
    Intrinsic::TrailingZeros,
];

/// The lowest `width` bits of the number, in two's complement.
fn signed(width: usize, number: u64) -> i64
    requires { width ≤ 64 }
{
    let above = 64u32.wrapping_sub(width as u32);
    number.wrapping_shl(above).cast_signed().wrapping_shr(above)
}

/// The population count, and the counts of leading and of trailing zeros, bit by bit.
fn counts(width: usize, number: u64) -> [u64; 3]
    requires { width ≤ 64 }
{
    let mut ones = 0u64;
    let mut above = 0u64;
    let mut below = 0u64;
    for place in 0..width {
        if number.wrapping_shr(place as u32) & 1 == 1 {
            ones = ones.wrapping_add(1);
            above = 0;
        } else {
            above = above.wrapping_add(1);
            if ones == 0 {
                below = below.wrapping_add(1);
            }
        }
    }
    [ones, above, below]
}

/// The result by arithmetic over whole numbers.
fn expected(intrinsic: Intrinsic, width: usize, a: u64, b: u64) -> u64
    requires { width ≤ 64 }
{
    let below = signed(width, a) < signed(width, b);
    let [ones, leading, trailing] = counts(width, a);
    match intrinsic {
        Intrinsic::Minimum => a.min(b),
        Intrinsic::Maximum => a.max(b),
        Intrinsic::SignedMinimum => if below { a } else { b },
        Intrinsic::SignedMaximum => if below { b } else { a },
        Intrinsic::Absolute => signed(width, a).unsigned_abs(),
        Intrinsic::Ones => ones,
        Intrinsic::LeadingZeros => leading,
        Intrinsic::TrailingZeros => trailing,
    }
}

/// Fails unless each intrinsic gives the expected result at two numbers: by evaluation and, where asked, in a graph.
fn agree(
    rt: &impl Abort,
    alloc: Global,
    width: usize,
    a: u64,
    b: u64,
    in_graph: bool,
) -> Result<(), AllocError> {
    assert!(rt; 0 < width && width <= 64);
    for intrinsic in &INTRINSICS {
        let question = Question {
            operation: Operation::Intrinsic(*intrinsic),
            width,
            a,
            b,
        };
        let wanted = expected(*intrinsic, width, a, b);
        expect_number(rt, alloc, question, wanted, in_graph)?;
    }
    Ok(())
}

/// Fails unless the search proves for each intrinsic at two numbers that the result is the expected one and no other.
fn clauses_agree(
    rt: &impl Abort,
    alloc: Global,
    width: usize,
    a: u64,
    b: u64,
) -> Result<(), AllocError> {
    assert!(rt; 0 < width && width <= 6);
    for intrinsic in &INTRINSICS {
        let question = Question {
            operation: Operation::Intrinsic(*intrinsic),
            width,
            a,
            b,
        };
        let wanted = expected(*intrinsic, width, a, b);
        expect_decided(rt, alloc, question, wanted, a == b)?;
    }
    Ok(())
}

#[test]
fn intrinsics_of_short_words(rt: HostRuntime) -> Result<(), Fail> {
    for width in 1u32..7 {
        let modulus = 1u64.wrapping_shl(width);
        for a in 0..modulus {
            for b in 0..modulus {
                agree(&rt, rt.alloc(), width as usize, a, b, width < 4)?;
            }
        }
    }
    Ok(())
}

#[test]
fn intrinsics_of_wide_words(rt: HostRuntime) -> Result<(), Fail> {
    for width in &[7u32, 8, 63, 64] {
        let ones = u64::MAX.wrapping_shr(64u32.wrapping_sub(*width));
        let least = 1u64.wrapping_shl(width.wrapping_sub(1));
        let greatest = least.wrapping_sub(1);
        let edges = [0, 1, 6, greatest, least, least | 12, ones ^ 1, ones];
        for a in &edges {
            for b in &edges {
                agree(&rt, rt.alloc(), *width as usize, *a, *b, *a == *b)?;
            }
        }
    }
    Ok(())
}

#[test]
fn intrinsics_of_short_words_are_decided(rt: HostRuntime) -> Result<(), Fail> {
    for width in 1u32..7 {
        let modulus = 1u64.wrapping_shl(width);
        for a in 0..modulus {
            for b in 0..modulus {
                clauses_agree(&rt, rt.alloc(), width as usize, a, b)?;
            }
        }
    }
    Ok(())
}
