//! What is known of the bits of operands inside a block.

use super::reading::function_of;
use crate::unfit::Unfit;
use ir_core::{Operand, Register, end_of};
use known_bits::{Known, known};
use std::alloc::Global;
use std::test::Fail;

/// A function, a block and a place there, an operand, and the numbers of its bits that are known to be 0, and to be 1.
struct Row {
    function: &'static str,
    at: (u32, u32),
    operand: Operand,
    zeros: u64,
    ones: u64,
}

const FIRST: Operand = Operand::Register(Register::Result(0, 0));

const SECOND: Operand = Operand::Register(Register::Result(0, 1));

const ROWS: [Row; 25] = [
    Row {
        function: "define i5 @f(i5 %a) { %1 = shl i5 %a, 2 %2 = or i5 %1, 3 ret i5 %2 }",
        at: (0, 1),
        operand: FIRST,
        zeros: 3,
        ones: 0,
    },
    Row {
        function: "define i1 @f(i4 %a) { %1 = or i4 %a, 2 %2 = icmp eq i4 %1, 0 ret i1 %2 }",
        at: (0, 1),
        operand: FIRST,
        zeros: 0,
        ones: 2,
    },
    // A frozen poison may be any number.
    Row {
        function: "define i4 @f(i4 %a) { %1 = or i4 %a, 2 %2 = freeze i4 %1 ret i4 %2 }",
        at: (0, 2),
        operand: SECOND,
        zeros: 0,
        ones: 0,
    },
    // A result that doesn't stand before the place, a parameter, and literals that are no number.
    Row {
        function: "define i4 @f(i4 %a) { %1 = or i4 %a, 2 ret i4 %1 }",
        at: (0, 0),
        operand: FIRST,
        zeros: 0,
        ones: 0,
    },
    Row {
        function: "define i4 @f(i4 %a) { %1 = or i4 %a, 2 ret i4 %1 }",
        at: (0, 1),
        operand: Operand::Register(Register::Parameter(0)),
        zeros: 0,
        ones: 0,
    },
    Row {
        function: "define i4 @f(i4 %a) { ret i4 %a }",
        at: (0, 0),
        operand: Operand::Undef,
        zeros: 0,
        ones: 0,
    },
    Row {
        function: "define i4 @f(i4 %a) { ret i4 %a }",
        at: (0, 0),
        operand: Operand::Poison,
        zeros: 0,
        ones: 0,
    },
    // A result of another block, and a phi.
    Row {
        function: "define i4 @f(i4 %a) { entry: %x = or i4 %a, 2 br label %l l: ret i4 %x }",
        at: (1, 0),
        operand: FIRST,
        zeros: 0,
        ones: 0,
    },
    Row {
        function: "define i4 @f(i1 %c) { entry: br label %l l: %p = phi i4 [ 3, %entry ], [ 3, %l ]
br i1 %c, label %l, label %out out: ret i4 %p }",
        at: (1, 1),
        operand: Operand::Register(Register::Result(1, 0)),
        zeros: 0,
        ones: 0,
    },
    // By a phi's mask nothing is known, by a number's it is.
    Row {
        function: "define i4 @f(i1 %c) { entry: br label %l l: %p = phi i4 [ 3, %entry ], [ %x, %l ]
%x = and i4 %p, 6 br i1 %c, label %l, label %out out: ret i4 %p }",
        at: (1, 2),
        operand: Operand::Register(Register::Result(1, 1)),
        zeros: 9,
        ones: 0,
    },
    Row {
        function: "define i4 @f(i4 %a) { %1 = and i4 %a, 3 %2 = xor i4 %1, 5 ret i4 %2 }",
        at: (0, 2),
        operand: SECOND,
        zeros: 8,
        ones: 4,
    },
    // Shifts by the width, by a register, and by what is below the width.
    Row {
        function: "define i4 @f(i4 %a) { %1 = shl i4 %a, 4 ret i4 %1 }",
        at: (0, 1),
        operand: FIRST,
        zeros: 0,
        ones: 0,
    },
    Row {
        function: "define i4 @f(i4 %a) { %1 = shl i4 0, %a ret i4 %1 }",
        at: (0, 1),
        operand: FIRST,
        zeros: 0,
        ones: 0,
    },
    Row {
        function: "define i4 @f(i4 %a) { %1 = lshr exact i4 %a, 3 ret i4 %1 }",
        at: (0, 1),
        operand: FIRST,
        zeros: 14,
        ones: 0,
    },
    // The top bit comes in: known to be 0, to be 1, and unknown.
    Row {
        function: "define i4 @f(i4 %a) { %1 = lshr i4 %a, 1 %2 = ashr i4 %1, 2 ret i4 %2 }",
        at: (0, 2),
        operand: SECOND,
        zeros: 14,
        ones: 0,
    },
    Row {
        function: "define i4 @f(i4 %a) { %1 = or i4 %a, 8 %2 = ashr i4 %1, 1 ret i4 %2 }",
        at: (0, 2),
        operand: SECOND,
        zeros: 0,
        ones: 12,
    },
    Row {
        function: "define i4 @f(i4 %a) { %1 = or i4 %a, 4 %2 = ashr i4 %1, 1 ret i4 %2 }",
        at: (0, 2),
        operand: SECOND,
        zeros: 0,
        ones: 2,
    },
    // Casts.
    Row {
        function: "define i2 @f(i4 %a) { %1 = or i4 %a, 6 %2 = trunc i4 %1 to i2 ret i2 %2 }",
        at: (0, 2),
        operand: SECOND,
        zeros: 0,
        ones: 2,
    },
    Row {
        function: "define i8 @f(i4 %a) { %1 = or i4 %a, 6 %2 = zext i4 %1 to i8 ret i8 %2 }",
        at: (0, 2),
        operand: SECOND,
        zeros: 240,
        ones: 6,
    },
    Row {
        function: "define i8 @f(i4 %a) { %1 = or i4 %a, 9 %2 = sext i4 %1 to i8 ret i8 %2 }",
        at: (0, 2),
        operand: SECOND,
        zeros: 0,
        ones: 249,
    },
    Row {
        function: "define i8 @f(i4 %a) { %1 = or i4 %a, 1 %2 = sext i4 %1 to i8 ret i8 %2 }",
        at: (0, 2),
        operand: SECOND,
        zeros: 0,
        ones: 1,
    },
    // A choice of what both arms have.
    Row {
        function: "define i4 @f(i1 %c, i4 %a) { %1 = and i4 %a, 6 %2 = select i1 %c, i4 %1, i4 5 ret i4 %2 }",
        at: (0, 2),
        operand: SECOND,
        zeros: 8,
        ones: 0,
    },
    Row {
        function: "define i4 @f(i1 %c) { %1 = select i1 %c, i4 6, i4 undef ret i4 %1 }",
        at: (0, 1),
        operand: FIRST,
        zeros: 0,
        ones: 0,
    },
    // Sums and differences.
    Row {
        function: "define i4 @f(i4 %a) { %1 = shl i4 %a, 2 %2 = add nuw i4 %1, 3 ret i4 %2 }",
        at: (0, 2),
        operand: SECOND,
        zeros: 0,
        ones: 3,
    },
    Row {
        function: "define i4 @f(i4 %a) { %1 = shl i4 %a, 2 %2 = sub i4 %1, 1 ret i4 %2 }",
        at: (0, 2),
        operand: SECOND,
        zeros: 0,
        ones: 3,
    },
];

/// What is known of an operand at a place of a text's function.
fn known_at(
    alloc: Global,
    function: &str,
    at: (u32, u32),
    operand: Operand,
) -> Result<Known, Unfit> {
    let f = function_of(alloc, function)?;
    let (block, place) = at;
    if block as usize >= f.blocks.len() || place > end_of(&f, block) {
        return Err(Unfit::NoPlace);
    }
    Ok(known(alloc, &f, block, place, operand)?)
}

#[test]
fn bits_are_known_inside_a_block(rt: HostRuntime) -> Result<(), Fail> {
    for row in &ROWS {
        let expected = Known {
            zeros: row.zeros,
            ones: row.ones,
        };
        let found = known_at(rt.alloc(), row.function, row.at, row.operand);
        assert!(rt; found == Ok(expected), "{} {found:?}", row.function);
    }
    Ok(())
}
