//! Integer intrinsics and what they give, worked out by hand at the least number, at 0 and at all ones, and for all
//! short operands bit by bit.

use super::instructions::{Cell, value, width};
use Cell::{Half, Is, Poison, Width as Bits};
use Opcode::{SMax, SMin, UMax, UMin};
use Unary::{Abs, CtLz, CtPop, CtTz};
use ops::{Effect, Flags, Opcode, Unary, Value, evaluate, unary};
use std::process::Abort;

// An intrinsic with two operands, and its result, at each width.
static PAIRS: [(Opcode, Cell, Cell, Cell); 25] = [
    (UMin, Is(0), Is(-1), Is(0)),
    (UMin, Is(-1), Half(0), Half(0)),
    (UMin, Half(0), Half(-1), Half(-1)),
    (UMin, Is(-1), Is(-1), Is(-1)),
    (UMin, Poison, Is(0), Poison),
    (UMin, Is(0), Poison, Poison),
    (UMax, Is(0), Is(-1), Is(-1)),
    (UMax, Is(-1), Half(0), Is(-1)),
    (UMax, Half(0), Half(-1), Half(0)),
    (UMax, Is(0), Is(0), Is(0)),
    (UMax, Poison, Is(-1), Poison),
    (UMax, Is(-1), Poison, Poison),
    (SMin, Is(0), Is(-1), Is(-1)),
    (SMin, Is(-1), Half(0), Half(0)),
    (SMin, Half(0), Half(-1), Half(0)),
    (SMin, Half(-1), Is(-1), Is(-1)),
    (SMin, Is(0), Is(0), Is(0)),
    (SMin, Poison, Half(0), Poison),
    (SMin, Half(0), Poison, Poison),
    (SMax, Is(0), Is(-1), Is(0)),
    (SMax, Is(-1), Half(0), Is(-1)),
    (SMax, Half(0), Half(-1), Half(-1)),
    (SMax, Half(-1), Is(0), Half(-1)),
    (SMax, Poison, Half(-1), Poison),
    (SMax, Half(-1), Poison, Poison),
];

// An intrinsic with one operand, and its results with the truth value false and with true, at each width.
static SINGLES: [(Unary, Cell, Cell, Cell); 16] = [
    (Abs, Is(0), Is(0), Is(0)),
    (Abs, Half(0), Half(0), Poison),
    (Abs, Half(-1), Half(-1), Half(-1)),
    (Abs, Half(1), Half(-1), Half(-1)),
    (Abs, Poison, Poison, Poison),
    (CtPop, Is(0), Is(0), Is(0)),
    (CtPop, Is(-1), Bits(0), Bits(0)),
    (CtPop, Half(0), Is(1), Is(1)),
    (CtPop, Half(-1), Bits(-1), Bits(-1)),
    (CtPop, Poison, Poison, Poison),
    (CtLz, Is(0), Bits(0), Poison),
    (CtLz, Half(0), Is(0), Is(0)),
    (CtLz, Is(-1), Is(0), Is(0)),
    (CtTz, Is(0), Bits(0), Poison),
    (CtTz, Half(0), Bits(-1), Bits(-1)),
    (CtTz, Is(-1), Is(0), Is(0)),
];

// The same at each width from seven bits up.
static WIDE: [(Unary, Cell, Cell, Cell); 10] = [
    (Abs, Is(-1), Is(1), Is(1)),
    (Abs, Is(-7), Is(7), Is(7)),
    (Abs, Is(7), Is(7), Is(7)),
    (CtPop, Half(7), Is(4), Is(4)),
    (CtPop, Is(-8), Bits(-3), Bits(-3)),
    (CtLz, Is(1), Bits(-1), Bits(-1)),
    (CtLz, Is(6), Bits(-3), Bits(-3)),
    (CtLz, Half(-1), Is(1), Is(1)),
    (CtTz, Is(12), Is(2), Is(2)),
    (CtTz, Is(-8), Is(3), Is(3)),
];

fn singles_give(rt: &impl Abort, bits: u32, rows: &[(Unary, Cell, Cell, Cell)]) {
    let width = width(rt, bits);
    for (row, &(op, a, plain, marked)) in rows.iter().enumerate() {
        assert!(rt; op.takes(false) && op.takes(true) == (op != CtPop));
        let a = value(width, a);
        let found = unary(op, false, width, a);
        assert_eq!(rt; found, value(width, plain), "row {row} at i{bits}");
        let found = unary(op, true, width, a);
        assert_eq!(rt;
            found,
            value(width, marked),
            "row {row} at i{bits} with a true value"
        );
    }
}

fn pairs_give(rt: &impl Abort, bits: u32) {
    let width = width(rt, bits);
    for (row, &(op, a, b, expected)) in PAIRS.iter().enumerate() {
        let found = evaluate(op, Flags::NONE, width, value(width, a), value(width, b));
        assert_eq!(rt;
            found,
            Effect::Gives(value(width, expected)),
            "row {row} at i{bits}"
        );
    }
}

#[test]
fn intrinsics_give_the_worked_values(rt: HostRuntime) {
    for &bits in &[1, 2, 7, 8, 63, 64] {
        pairs_give(&rt, bits);
        singles_give(&rt, bits, &SINGLES);
        if bits >= 7 {
            singles_give(&rt, bits, &WIDE);
        }
    }
}

// The lowest `bits` bits of the number, in two's complement.
fn signed(bits: u32, number: i64) -> i64 {
    let half = 1i64.wrapping_shl(bits.wrapping_sub(1));
    if number < half {
        number
    } else {
        number.wrapping_sub(half.wrapping_mul(2))
    }
}

// The population count, and the counts of leading and of trailing zeros, bit by bit.
fn counts(bits: u32, number: i64) -> [i64; 3] {
    let mut ones = 0i64;
    let mut above = 0i64;
    let mut below = 0i64;
    for place in 0..bits {
        if number.wrapping_shr(place) & 1 == 1 {
            ones = ones.wrapping_add(1);
            above = 0;
        } else {
            above = above.wrapping_add(1);
            if ones == 0 {
                below = below.wrapping_add(1);
            }
        }
    }
    [ones, above, below]
}

fn short_pairs_give(rt: &impl Abort, bits: u32, a: i64, b: i64) {
    let of = width(rt, bits);
    let below = signed(bits, a) < signed(bits, b);
    let expected = [
        (UMin, a.min(b)),
        (UMax, a.max(b)),
        (SMin, if below { a } else { b }),
        (SMax, if below { b } else { a }),
    ];
    for &(op, number) in &expected {
        let found = evaluate(op, Flags::NONE, of, value(of, Is(a)), value(of, Is(b)));
        assert_eq!(rt;
            found,
            Effect::Gives(value(of, Is(number))),
            "{a} and {b} at i{bits}"
        );
    }
}

fn short_singles_give(rt: &impl Abort, bits: u32, a: i64) {
    let of = width(rt, bits);
    let [ones, above, below] = counts(bits, a);
    let least = signed(bits, a) == signed(bits, 1i64.wrapping_shl(bits.wrapping_sub(1)));
    let absolute = signed(bits, a).wrapping_abs();
    let expected = [
        (Abs, absolute, least),
        (CtPop, ones, false),
        (CtLz, above, a == 0),
        (CtTz, below, a == 0),
    ];
    for &(op, number, poison) in &expected {
        let plain = value(of, Is(number));
        assert_eq!(rt;
            unary(op, false, of, value(of, Is(a))),
            plain,
            "{a} at i{bits}"
        );
        let marked = if poison { Value::Poison } else { plain };
        assert_eq!(rt;
            unary(op, true, of, value(of, Is(a))),
            marked,
            "{a} at i{bits}"
        );
    }
}

#[test]
fn intrinsics_give_what_counting_gives(rt: HostRuntime) {
    for bits in 1..7 {
        let modulus = 1i64.wrapping_shl(bits);
        for a in 0..modulus {
            short_singles_give(&rt, bits, a);
            for b in 0..modulus {
                short_pairs_give(&rt, bits, a, b);
            }
        }
    }
}
