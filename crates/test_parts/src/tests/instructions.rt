//! Instructions and what they give. The numbers come from the Language Reference, worked out over whole numbers.

ghost use Rattle.std.specs.Prelude.{◌≡◌};
ghost use Rattle.ops.specs.Value.{HasWidth};

use Cast::{SExt, Trunc, ZExt};
use Cell::{Half, Is, Poison, Quarter, Undefined, Width as Bits};
use Opcode::{AShr, Add, And, LShr, Mul, Or, SDiv, SRem, Shl, Sub, UDiv, URem, Xor};
use Pred::{Eq, Ne, Sge, Sgt, Sle, Slt, Uge, Ugt, Ule, Ult};
use ops::{
    Cast, Effect, Flags, Opcode, Pred, Value, Width, Word, choose, compare, convert, evaluate,
};
use std::process::Abort;

const NONE: Flags = Flags::NONE;

const WRAP: Flags = Flags::WRAP;

const EXACT: Flags = Flags::EXACT;

const NNEG: Flags = Flags::NNEG;

const DISJOINT: Flags = Flags::DISJOINT;

const NUW: Flags = Flags {
    nuw: true,
    ..Flags::NONE
};

const NSW: Flags = Flags {
    nsw: true,
    ..Flags::NONE
};

// An operand or an effect at a width of N bits; a number is taken modulo 2^N.
#[derive(Clone, Copy)]
pub(super) enum Cell {
    Undefined,
    Poison,
    Is(i64),
    // 2^(N-1) plus the number.
    Half(i64),
    // 2^(N-2) plus the number.
    Quarter(i64),
    // N plus the number.
    Width(i64),
}

// An instruction, its flags, its two operands and its effect.
type Row = (Opcode, Flags, Cell, Cell, Cell);

static ONE_BIT: [Row; 39] = [
    (Add, NONE, Is(1), Is(1), Is(0)),
    (Add, NUW, Is(1), Is(0), Is(1)),
    (Add, NUW, Is(1), Is(1), Poison),
    (Add, NSW, Is(0), Is(1), Is(1)),
    (Add, NSW, Is(1), Is(1), Poison),
    (Sub, NONE, Is(0), Is(1), Is(1)),
    (Sub, NUW, Is(1), Is(1), Is(0)),
    (Sub, NUW, Is(0), Is(1), Poison),
    (Sub, NSW, Is(1), Is(1), Is(0)),
    (Sub, NSW, Is(0), Is(1), Poison),
    (Mul, NUW, Is(1), Is(1), Is(1)),
    (Mul, NSW, Is(0), Is(1), Is(0)),
    (Mul, NSW, Is(1), Is(1), Poison),
    (UDiv, EXACT, Is(1), Is(1), Is(1)),
    (UDiv, NONE, Is(1), Is(0), Undefined),
    (UDiv, NONE, Poison, Is(1), Poison),
    (SDiv, EXACT, Is(0), Is(1), Is(0)),
    (SDiv, NONE, Is(0), Is(0), Undefined),
    (SDiv, NONE, Is(1), Is(1), Undefined),
    (SDiv, NONE, Poison, Is(1), Undefined),
    (URem, NONE, Is(1), Is(1), Is(0)),
    (URem, NONE, Is(1), Is(0), Undefined),
    (URem, NONE, Poison, Is(1), Poison),
    (SRem, NONE, Is(0), Is(1), Is(0)),
    (SRem, NONE, Is(0), Is(0), Undefined),
    (SRem, NONE, Is(1), Is(1), Undefined),
    (SRem, NONE, Poison, Is(1), Undefined),
    (Shl, WRAP, Is(1), Is(0), Is(1)),
    (Shl, NONE, Is(1), Is(1), Poison),
    (LShr, EXACT, Is(1), Is(0), Is(1)),
    (LShr, NONE, Is(1), Is(1), Poison),
    (AShr, EXACT, Is(1), Is(0), Is(1)),
    (AShr, NONE, Is(1), Is(1), Poison),
    (And, NONE, Is(1), Is(0), Is(0)),
    (Or, NONE, Is(1), Is(0), Is(1)),
    (Or, DISJOINT, Is(0), Is(0), Is(0)),
    (Or, DISJOINT, Is(1), Is(0), Is(1)),
    (Or, DISJOINT, Is(1), Is(1), Poison),
    (Xor, NONE, Is(1), Is(1), Is(0)),
];

static TWO_BITS: [Row; 50] = [
    (Add, NUW, Is(-2), Is(1), Is(-1)),
    (Add, NUW, Is(-1), Is(1), Poison),
    (Add, NSW, Is(0), Is(1), Is(1)),
    (Add, NSW, Is(1), Is(1), Poison),
    (Add, NSW, Is(-2), Is(-1), Poison),
    (Sub, NUW, Is(1), Is(1), Is(0)),
    (Sub, NUW, Is(0), Is(1), Poison),
    (Sub, NSW, Is(-1), Is(1), Is(-2)),
    (Sub, NSW, Is(-2), Is(1), Poison),
    (Mul, NUW, Is(1), Is(-1), Is(-1)),
    (Mul, NUW, Is(-2), Is(-2), Poison),
    (Mul, NSW, Is(1), Is(-2), Is(-2)),
    (Mul, NSW, Is(-2), Is(-1), Poison),
    (UDiv, EXACT, Is(-2), Is(-2), Is(1)),
    (UDiv, EXACT, Is(-1), Is(-2), Poison),
    (UDiv, NONE, Is(-1), Is(0), Undefined),
    (SDiv, NONE, Is(1), Is(-2), Is(0)),
    (SDiv, EXACT, Is(1), Is(-2), Poison),
    (SDiv, EXACT, Is(-2), Is(-2), Is(1)),
    (SDiv, NONE, Is(-2), Is(-1), Undefined),
    (SDiv, NONE, Is(1), Is(-1), Is(-1)),
    (URem, NONE, Is(-1), Is(-2), Is(1)),
    (URem, NONE, Is(1), Is(0), Undefined),
    (SRem, NONE, Is(1), Is(-2), Is(1)),
    (SRem, NONE, Is(-1), Is(-2), Is(-1)),
    (SRem, NONE, Is(-2), Is(-1), Undefined),
    (SRem, NONE, Is(1), Is(-1), Is(0)),
    (Shl, NONE, Is(1), Is(1), Is(-2)),
    (Shl, NONE, Is(1), Is(-2), Poison),
    (Shl, NONE, Is(1), Is(-1), Poison),
    (Shl, NUW, Is(1), Is(1), Is(-2)),
    (Shl, NUW, Is(-2), Is(1), Poison),
    (Shl, NSW, Is(-1), Is(1), Is(-2)),
    (Shl, NSW, Is(1), Is(1), Poison),
    (LShr, NONE, Is(-1), Is(1), Is(1)),
    (LShr, NONE, Is(-1), Is(-2), Poison),
    (LShr, NONE, Is(-1), Is(-1), Poison),
    (LShr, EXACT, Is(-2), Is(1), Is(1)),
    (LShr, EXACT, Is(-1), Is(1), Poison),
    (AShr, NONE, Is(-1), Is(1), Is(-1)),
    (AShr, NONE, Is(-1), Is(-2), Poison),
    (AShr, NONE, Is(-1), Is(-1), Poison),
    (AShr, EXACT, Is(-2), Is(1), Is(-1)),
    (AShr, EXACT, Is(-1), Is(1), Poison),
    (And, NONE, Is(-2), Is(-1), Is(-2)),
    (Or, NONE, Is(-2), Is(1), Is(-1)),
    (Or, DISJOINT, Is(-2), Is(1), Is(-1)),
    (Or, DISJOINT, Is(-1), Is(1), Poison),
    (Or, DISJOINT, Is(-2), Is(-1), Poison),
    (Xor, NONE, Is(-2), Is(-1), Is(1)),
];

// At each width from seven bits up.
static EDGES: [Row; 105] = [
    (Add, NUW, Is(-2), Is(1), Is(-1)),
    (Add, NUW, Is(-1), Is(1), Poison),
    (Add, NSW, Half(-2), Is(1), Half(-1)),
    (Add, NSW, Half(-1), Is(1), Poison),
    (Add, NSW, Half(0), Is(-1), Poison),
    (Add, WRAP, Half(-1), Half(0), Is(-1)),
    (Add, NONE, Half(-1), Is(1), Half(0)),
    (Sub, NUW, Is(1), Is(1), Is(0)),
    (Sub, NUW, Is(0), Is(1), Poison),
    (Sub, NSW, Half(1), Is(1), Half(0)),
    (Sub, NSW, Half(0), Is(1), Poison),
    (Sub, NSW, Is(0), Half(0), Poison),
    (Sub, NONE, Is(0), Is(1), Is(-1)),
    (Mul, NUW, Half(-1), Is(2), Is(-2)),
    (Mul, NUW, Half(0), Is(2), Poison),
    (Mul, NSW, Half(-1), Is(-1), Half(1)),
    (Mul, NSW, Half(0), Is(-1), Poison),
    (Mul, NSW, Quarter(-1), Is(2), Half(-2)),
    (Mul, NSW, Quarter(0), Is(2), Poison),
    (Mul, NONE, Is(-1), Is(-1), Is(1)),
    (UDiv, NONE, Half(0), Half(-1), Is(1)),
    (UDiv, NONE, Is(-1), Is(2), Half(-1)),
    (UDiv, EXACT, Half(0), Is(2), Quarter(0)),
    (UDiv, EXACT, Half(1), Is(2), Poison),
    (UDiv, EXACT, Is(-1), Is(0), Undefined),
    (SDiv, NONE, Is(7), Is(2), Is(3)),
    (SDiv, NONE, Is(-7), Is(2), Is(-3)),
    (SDiv, NONE, Is(7), Is(-2), Is(-3)),
    (SDiv, NONE, Is(-7), Is(-2), Is(3)),
    (SDiv, EXACT, Is(-6), Is(2), Is(-3)),
    (SDiv, EXACT, Is(-7), Is(2), Poison),
    (SDiv, EXACT, Is(-6), Is(4), Poison),
    (SDiv, NONE, Half(0), Is(1), Half(0)),
    (SDiv, NONE, Half(0), Is(-1), Undefined),
    (SDiv, NONE, Half(1), Is(-1), Half(-1)),
    (SDiv, EXACT, Half(0), Is(0), Undefined),
    (URem, NONE, Is(-1), Half(0), Half(-1)),
    (URem, NONE, Half(0), Is(-1), Half(0)),
    (URem, NONE, Is(0), Is(0), Undefined),
    (SRem, NONE, Is(7), Is(2), Is(1)),
    (SRem, NONE, Is(-7), Is(2), Is(-1)),
    (SRem, NONE, Is(7), Is(-2), Is(1)),
    (SRem, NONE, Is(-7), Is(-2), Is(-1)),
    (SRem, NONE, Half(0), Is(-1), Undefined),
    (SRem, NONE, Half(1), Is(-1), Is(0)),
    (SRem, NONE, Half(0), Is(0), Undefined),
    (Shl, NONE, Is(-1), Bits(-1), Half(0)),
    (Shl, NONE, Is(1), Bits(0), Poison),
    (Shl, NONE, Is(1), Is(-1), Poison),
    (Shl, NUW, Half(-1), Is(1), Is(-2)),
    (Shl, NUW, Half(0), Is(1), Poison),
    (Shl, NUW, Is(1), Bits(-1), Half(0)),
    (Shl, NUW, Is(4), Bits(-1), Poison),
    (Shl, NSW, Quarter(-1), Is(1), Half(-2)),
    (Shl, NSW, Quarter(0), Is(1), Poison),
    (Shl, NSW, Is(-1), Bits(-1), Half(0)),
    (Shl, NSW, Is(1), Bits(-1), Poison),
    (Shl, NSW, Is(6), Bits(-2), Poison),
    (Shl, NSW, Half(1), Is(1), Poison),
    (LShr, NONE, Is(-1), Bits(-1), Is(1)),
    (LShr, NONE, Is(-1), Bits(0), Poison),
    (LShr, NONE, Is(-1), Is(-1), Poison),
    (LShr, EXACT, Half(0), Bits(-1), Is(1)),
    (LShr, EXACT, Half(2), Bits(-1), Poison),
    (LShr, EXACT, Is(2), Is(2), Poison),
    (AShr, NONE, Half(1), Bits(-1), Is(-1)),
    (AShr, NONE, Half(-1), Bits(-1), Is(0)),
    (AShr, NONE, Is(-1), Bits(0), Poison),
    (AShr, NONE, Is(-1), Is(-1), Poison),
    (AShr, EXACT, Half(0), Bits(-1), Is(-1)),
    (AShr, EXACT, Half(2), Bits(-1), Poison),
    (AShr, EXACT, Is(-12), Is(2), Is(-3)),
    (AShr, EXACT, Is(-2), Is(2), Poison),
    (And, NONE, Half(1), Is(-2), Half(0)),
    (Or, NONE, Half(1), Is(6), Half(7)),
    (Or, DISJOINT, Half(1), Is(6), Half(7)),
    (Or, DISJOINT, Half(0), Half(-1), Is(-1)),
    (Or, DISJOINT, Half(0), Is(-1), Poison),
    (Or, DISJOINT, Half(1), Is(7), Poison),
    (Or, DISJOINT, Is(-1), Is(0), Is(-1)),
    (Or, DISJOINT, Poison, Is(0), Poison),
    (Xor, NONE, Half(1), Is(-1), Half(-2)),
    (Add, NONE, Poison, Is(0), Poison),
    (Sub, NONE, Is(0), Poison, Poison),
    (Mul, NONE, Is(0), Poison, Poison),
    (UDiv, NONE, Poison, Is(-1), Poison),
    (UDiv, NONE, Poison, Is(0), Undefined),
    (UDiv, NONE, Is(0), Poison, Undefined),
    (SDiv, NONE, Poison, Is(1), Poison),
    (SDiv, NONE, Poison, Is(-1), Undefined),
    (SDiv, NONE, Poison, Is(0), Undefined),
    (SDiv, NONE, Is(1), Poison, Undefined),
    (URem, NONE, Poison, Is(-1), Poison),
    (URem, NONE, Poison, Is(0), Undefined),
    (URem, NONE, Poison, Poison, Undefined),
    (SRem, NONE, Poison, Is(1), Poison),
    (SRem, NONE, Poison, Is(-1), Undefined),
    (SRem, NONE, Poison, Is(0), Undefined),
    (SRem, NONE, Is(1), Poison, Undefined),
    (Shl, NONE, Is(0), Poison, Poison),
    (LShr, NONE, Poison, Is(-1), Poison),
    (AShr, NONE, Poison, Is(0), Poison),
    (And, NONE, Is(0), Poison, Poison),
    (Or, NONE, Poison, Is(-1), Poison),
    (Xor, NONE, Poison, Poison, Poison),
];

// A cast, the old and the new width, a number, and the result.
static CASTS: [(Cast, u32, u32, i64, i64); 28] = [
    (Trunc, 2, 1, 1, -1),
    (Trunc, 2, 1, -1, -1),
    (Trunc, 2, 1, -2, 0),
    (Trunc, 8, 7, 1, 1),
    (Trunc, 8, 7, -1, -1),
    (Trunc, 8, 7, -128, 0),
    (Trunc, 64, 1, 1, -1),
    (Trunc, 64, 1, -1, -1),
    (Trunc, 64, 1, -9223372036854775808, 0),
    (Trunc, 64, 63, 1, 1),
    (Trunc, 64, 63, -1, -1),
    (Trunc, 64, 63, -9223372036854775808, 0),
    (ZExt, 1, 2, -1, 1),
    (ZExt, 7, 8, 1, 1),
    (ZExt, 7, 8, -1, 127),
    (ZExt, 7, 8, -64, 64),
    (ZExt, 1, 64, -1, 1),
    (ZExt, 63, 64, 1, 1),
    (ZExt, 63, 64, -1, 9223372036854775807),
    (ZExt, 63, 64, -4611686018427387904, 4611686018427387904),
    (SExt, 1, 2, -1, -1),
    (SExt, 7, 8, 1, 1),
    (SExt, 7, 8, -1, -1),
    (SExt, 7, 8, -64, -64),
    (SExt, 1, 64, -1, -1),
    (SExt, 63, 64, 1, 1),
    (SExt, 63, 64, -1, -1),
    (SExt, 63, 64, -4611686018427387904, -4611686018427387904),
];

// A cast, its flags, the old and the new width, a number, and whether the result is poison by a flag.
static BROKEN: [(Cast, Flags, u32, u32, Cell, bool); 37] = [
    (Trunc, NUW, 2, 1, Is(1), false),
    (Trunc, NUW, 2, 1, Is(2), true),
    (Trunc, NUW, 2, 1, Is(-1), true),
    (Trunc, NSW, 2, 1, Is(0), false),
    (Trunc, NSW, 2, 1, Is(1), true),
    (Trunc, NSW, 2, 1, Is(-2), true),
    (Trunc, NSW, 2, 1, Is(-1), false),
    (Trunc, NUW, 8, 7, Half(-1), false),
    (Trunc, NUW, 8, 7, Half(0), true),
    (Trunc, NUW, 8, 7, Is(-1), true),
    (Trunc, NSW, 8, 7, Quarter(-1), false),
    (Trunc, NSW, 8, 7, Quarter(0), true),
    (Trunc, NSW, 8, 7, Is(-64), false),
    (Trunc, NSW, 8, 7, Is(-65), true),
    (Trunc, WRAP, 8, 7, Is(63), false),
    (Trunc, WRAP, 8, 7, Is(64), true),
    (Trunc, WRAP, 8, 7, Is(-1), true),
    (Trunc, NUW, 64, 63, Half(-1), false),
    (Trunc, NUW, 64, 63, Half(0), true),
    (Trunc, NSW, 64, 63, Quarter(-1), false),
    (Trunc, NSW, 64, 63, Quarter(0), true),
    (Trunc, NSW, 64, 63, Is(-4611686018427387904), false),
    (Trunc, NSW, 64, 63, Is(-4611686018427387905), true),
    (Trunc, NUW, 64, 1, Is(1), false),
    (Trunc, NUW, 64, 1, Half(1), true),
    (Trunc, NSW, 64, 1, Is(-1), false),
    (Trunc, NSW, 64, 1, Is(1), true),
    (ZExt, NNEG, 1, 2, Is(0), false),
    (ZExt, NNEG, 1, 2, Is(1), true),
    (ZExt, NNEG, 7, 8, Half(-1), false),
    (ZExt, NNEG, 7, 8, Half(0), true),
    (ZExt, NNEG, 7, 8, Is(-1), true),
    (ZExt, NNEG, 63, 64, Half(-1), false),
    (ZExt, NNEG, 63, 64, Half(0), true),
    (ZExt, NNEG, 1, 64, Is(1), true),
    (ZExt, NNEG, 8, 64, Is(127), false),
    (ZExt, NNEG, 8, 64, Is(128), true),
];

static PREDICATES: [Pred; 10] = [Eq, Ne, Ugt, Uge, Ult, Ule, Sgt, Sge, Slt, Sle];

// The least width for the row, two operands, whether both have the same sign, and the predicates that hold.
static COMPARISONS: [(u32, Cell, Cell, bool, &[Pred]); 5] = [
    (1, Is(0), Is(-1), false, &[Ne, Ult, Ule, Sgt, Sge]),
    (1, Half(0), Half(-1), false, &[Ne, Ugt, Uge, Slt, Sle]),
    (1, Is(-1), Is(-1), true, &[Eq, Uge, Ule, Sge, Sle]),
    (2, Half(-2), Half(-1), true, &[Ne, Ult, Ule, Slt, Sle]),
    (2, Half(1), Half(0), true, &[Ne, Ugt, Uge, Sgt, Sge]),
];

pub(super) fn width(rt: &impl Abort, bits: u32) -> Width
    ensures { result ≡ bits }
{
    Width::new(bits).expect(rt, "a width")
}

fn number(width: Width, number: i64) -> Value
    ensures { HasWidth result width }
{
    Value::Bits(Word::wrapped(width, number.cast_unsigned()))
}

// The cell as an operand.
pub(super) fn value(width: Width, cell: Cell) -> Value
    ensures { HasWidth result width }
{
    let highest = 1u64 << 63;
    let bits = width.bits();
    let (base, more) = match cell {
        Cell::Undefined | Cell::Poison => return Value::Poison,
        Cell::Is(more) => (0, more),
        Cell::Half(more) => (highest >> (64 - bits), more),
        Cell::Quarter(more) => ((highest >> 1) >> (64 - bits), more),
        Cell::Width(more) => (u64::from(bits), more),
    };
    Value::Bits(Word::wrapped(width, base.wrapping_add(more.cast_unsigned())))
}

fn effect(width: Width, cell: Cell) -> Effect {
    match cell {
        Cell::Undefined => Effect::Undefined,
        _ => Effect::Gives(value(width, cell)),
    }
}

fn instructions_give(rt: &impl Abort, bits: u32, rows: &[Row]) {
    let width = width(rt, bits);
    for (row, &(op, flags, a, b, expected)) in rows.iter().enumerate() {
        assert!(rt; op.takes(flags), "row {row}");
        let found = evaluate(op, flags, width, value(width, a), value(width, b));
        assert_eq!(rt; found, effect(width, expected), "row {row} at i{bits}");
    }
}

#[test]
fn instructions_give_the_worked_effects(rt: HostRuntime) {
    instructions_give(&rt, 1, &ONE_BIT);
    instructions_give(&rt, 2, &TWO_BITS);
    for bits in &[7, 8, 63, 64] {
        instructions_give(&rt, *bits, &EDGES);
    }
}

fn comparisons_give(rt: &impl Abort, bits: u32, pred: Pred) {
    let bit = width(rt, 1);
    let width = width(rt, bits);
    for (row, &(least, a, b, one_sign, holding)) in COMPARISONS.iter().enumerate() {
        if least <= bits {
            let found = compare(pred, false, width, value(width, a), value(width, b));
            let expected = number(bit, i64::from(holding.contains(&pred)));
            assert_eq!(rt; found, expected, "row {row} at i{bits}");
            let promised = compare(pred, true, width, value(width, a), value(width, b));
            let kept = if one_sign { expected } else { Value::Poison };
            assert_eq!(rt; promised, kept, "row {row} with samesign at i{bits}");
        }
    }
}

fn casts_keep_or_break_flags(rt: &impl Abort) {
    for (row, &(cast, flags, from, to, a, broken)) in BROKEN.iter().enumerate() {
        let (from, to) = (width(rt, from), width(rt, to));
        assert!(rt;
            (cast == Trunc && to.bits() < from.bits()) || (cast != Trunc && from.bits() < to.bits())
        );
        assert!(rt; cast.takes(flags), "row {row}");
        let a = value(from, a);
        let kept = convert(cast, NONE, from, to, a);
        let expected = if broken { Value::Poison } else { kept };
        assert_eq!(rt; convert(cast, flags, from, to, a), expected, "row {row}");
    }
}

fn casts_give(rt: &impl Abort) {
    for &(cast, from, to, a, expected) in &CASTS {
        let (from, to) = (width(rt, from), width(rt, to));
        assert!(rt;
            (cast == Trunc && to.bits() < from.bits()) || (cast != Trunc && from.bits() < to.bits())
        );
        assert_eq!(rt;
            convert(cast, NONE, from, to, number(from, a)),
            number(to, expected),
            "{cast:?} of {a}"
        );
        assert_eq!(rt;
            convert(cast, cast.flags(), from, to, Value::Poison),
            Value::Poison,
            "{cast:?}"
        );
    }
}

fn comparisons_keep_poison(rt: &impl Abort) {
    let byte = width(rt, 8);
    let found = compare(Eq, false, byte, value(byte, Poison), value(byte, Is(1)));
    assert_eq!(rt; found, Value::Poison);
    let found = compare(Ne, true, byte, value(byte, Is(1)), value(byte, Poison));
    assert_eq!(rt; found, Value::Poison);
}

// A condition of one bit, two arms of eight, and the arm that is chosen.
static CHOICES: [(Cell, Cell, Cell, Cell); 6] = [
    (Is(1), Is(1), Is(2), Is(1)),
    (Is(0), Is(1), Is(2), Is(2)),
    (Is(1), Is(1), Poison, Is(1)),
    (Is(0), Poison, Is(2), Is(2)),
    (Is(0), Is(1), Poison, Poison),
    (Poison, Is(1), Is(1), Poison),
];

fn choices_give(rt: &impl Abort) {
    let bit = width(rt, 1);
    let byte = width(rt, 8);
    for (row, &(condition, yes, no, expected)) in CHOICES.iter().enumerate() {
        let found = choose(value(bit, condition), value(byte, yes), value(byte, no));
        assert_eq!(rt; found, value(byte, expected), "row {row}");
    }
}

#[test]
fn casts_comparisons_and_choices_give_the_worked_values(rt: HostRuntime) {
    casts_give(&rt);
    casts_keep_or_break_flags(&rt);
    for pred in &PREDICATES {
        for bits in &[1, 2, 7, 8, 63, 64] {
            comparisons_give(&rt, *bits, *pred);
        }
    }
    comparisons_keep_poison(&rt);
    choices_give(&rt);
}
