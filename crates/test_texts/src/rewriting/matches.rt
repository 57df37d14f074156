//! Where rules match in functions, with which bindings, and where they don't.

ghost use Rattle.test_texts.specs.Ready.{FunctionIsReady, RuleIsReady};

use super::reading::{
    ADD_ZERO, MUL_TWO, NOT_ADD, NOT_ADD_ONCE, SEL_INC, ZEXT_TWICE, function_of, match_there,
    rule_of,
};
use crate::unfit::Unfit;
use bindings::Binding;
use ir_core::{Function, Operand, Register, end_of};
use rule_core::Rule;
use std::alloc::Global;
use std::process::Abort;
use std::test::Fail;

/// What an input is bound to.
enum Given {
    Register(Register),
    Number(u64),
    Poison,
}

/// A match: the block and the place of its root, those of its statements' instructions, what its inputs and constants
/// are bound to, and the widths of its classes.
struct Match {
    at: (u32, u32),
    statements: &'static [(u32, u32)],
    inputs: &'static [Given],
    constants: &'static [u64],
    widths: &'static [u32],
}

/// A rule, a function, and all matches there, in the order of the text.
struct Row {
    rule: &'static str,
    function: &'static str,
    matches: &'static [Match],
}

const A: Given = Given::Register(Register::Parameter(0));

const B: Given = Given::Register(Register::Parameter(1));

const NOT_NOT: &str = "Name: not-not\n%1 = xor %x, -1\n%r = xor %1, -1\n=>\n%r = %x\n";

const AND_ONES: &str = "Name: and-ones\n%r = and %x, -1\n=>\n%r = %x\n";

const XOR_SELF: &str = "Name: xor-self\n%r = xor %x, %x\n=>\n%r = 0\n";

const AND_UNDEF: &str = "Name: and-undef\nWit: 0\n%r = and %x, undef\n=>\n%r = 0\n";

const MET: &str =
    "Name: met\n%c = icmp eq %x, C\n%r = select %c, %y, C\n=>\n%r = select %c, %y, %x\n";

const ADD_WIDTHS: &str =
    "Name: add-widths\n%t = add %x, 1\n%r = sub %t, 1\n=>\n%r = add %x, width(%t) - width(%t)\n";

const OR_KNOWN: &str =
    "Version: 2\nName: or-known\nPre: MaskedValueIsZero(%x, C)\n%r = or %x, C\n=>\n%r = add %x, C\n";

const NON_ZERO: &str =
    "Version: 2\nName: nonzero\nPre: isKnownNonZero(%x)\n%r = icmp eq %x, 0\n=>\n%r = 0\n";

/// Matches that are the same inside blocks and across blocks.
const ROWS: [Row; 36] = [
    Row {
        rule: NOT_ADD,
        function: "define i4 @f(i4 %a) { %1 = xor i4 %a, -1 %2 = add i4 %1, 5 ret i4 %2 }",
        matches: &[Match {
            at: (0, 1),
            statements: &[(0, 0), (0, 1)],
            inputs: &[A],
            constants: &[5],
            widths: &[4],
        }],
    },
    // In a loop, where the input is a phi.
    Row {
        rule: MUL_TWO,
        function: "define i8 @f(i8 %n) { entry: br label %l l: %i = phi i8 [ 0, %entry ], [ %k, %l ] %k = mul i8 %i, 2
%c = icmp ult i8 %k, %n br i1 %c, label %l, label %out out: ret i8 %k }",
        matches: &[Match {
            at: (1, 1),
            statements: &[(1, 1)],
            inputs: &[Given::Register(Register::Result(1, 0))],
            constants: &[],
            widths: &[8],
        }],
    },
    // Behind the phis of a loop, of which it reads one; the root is read in another block.
    Row {
        rule: ADD_ZERO,
        function: "define i8 @swap(i8 %n) { entry: br label %loop loop: %a = phi i8 [ 1, %entry ], [ %b, %loop ]
%b = phi i8 [ 2, %entry ], [ %a, %loop ] %i = phi i8 [ 0, %entry ], [ %j, %loop ] %r = add i8 %i, 0 %j = add i8 %i, 1
%c = icmp ult i8 %j, %n br i1 %c, label %loop, label %exit exit: ret i8 %r }",
        matches: &[Match {
            at: (1, 3),
            statements: &[(1, 3)],
            inputs: &[Given::Register(Register::Result(1, 2))],
            constants: &[],
            widths: &[8],
        }],
    },
    Row {
        rule: SEL_INC,
        function: "define i4 @f(i1 %c, i4 %a) { %t = add i4 %a, 1 %r = select i1 %c, i4 %a, i4 %t ret i4 %r }",
        matches: &[Match {
            at: (0, 1),
            statements: &[(0, 0), (0, 1)],
            inputs: &[B, A],
            constants: &[],
            widths: &[4, 1],
        }],
    },
    // One flag too many on a temporary that the target names.
    Row {
        rule: SEL_INC,
        function: "define i4 @f(i1 %c, i4 %a) { %t = add nsw i4 %a, 1 %r = select i1 %c, i4 %a, i4 %t ret i4 %r }",
        matches: &[],
    },
    // One flag too many where the target names no temporary.
    Row {
        rule: NOT_ADD,
        function: "define i4 @f(i4 %a) { %1 = xor i4 %a, -1 %2 = add nuw nsw i4 %1, 5 ret i4 %2 }",
        matches: &[Match {
            at: (0, 1),
            statements: &[(0, 0), (0, 1)],
            inputs: &[A],
            constants: &[5],
            widths: &[4],
        }],
    },
    // One flag too many on a temporary of which the target names only the width, in an operand or a copy.
    Row {
        rule: ADD_WIDTHS,
        function: "define i8 @f(i8 %a) { %t = add nsw i8 %a, 1 %r = sub i8 %t, 1 ret i8 %r }",
        matches: &[],
    },
    Row {
        rule: ADD_WIDTHS,
        function: "define i8 @f(i8 %a) { %t = add i8 %a, 1 %r = sub nsw i8 %t, 1 ret i8 %r }",
        matches: &[Match {
            at: (0, 1),
            statements: &[(0, 0), (0, 1)],
            inputs: &[A],
            constants: &[],
            widths: &[8],
        }],
    },
    Row {
        rule: "Name: copy-widths\n%t = add %x, 1\n%r = sub %t, %t\n=>\n%r = -width(%t) + width(%t)\n",
        function: "define i8 @f(i8 %a) { %t = add nsw i8 %a, 1 %r = sub i8 %t, %t ret i8 %r }",
        matches: &[],
    },
    // With the width named in the precondition, or that of an input named, more flags are allowed.
    Row {
        rule: "Name: ask-width\nPre: width(%t) u> C\n%t = add %x, C\n%r = sub %t, C\n=>\n%r = add %x, width(%x) - width(%x)\n",
        function: "define i8 @f(i8 %a) { %t = add nsw i8 %a, 1 %r = sub i8 %t, 1 ret i8 %r }",
        matches: &[Match {
            at: (0, 1),
            statements: &[(0, 0), (0, 1)],
            inputs: &[A],
            constants: &[1],
            widths: &[8],
        }],
    },
    // One flag too few.
    Row {
        rule: "Name: nsw\n%r = add nsw %x, 1\n=>\n%r = sub nsw %x, -1\n",
        function: "define i8 @f(i8 %a) { %1 = add nuw i8 %a, 1 %2 = add nuw nsw i8 %1, 1 ret i8 %2 }",
        matches: &[Match {
            at: (0, 1),
            statements: &[(0, 1)],
            inputs: &[Given::Register(Register::Result(0, 0))],
            constants: &[],
            widths: &[8],
        }],
    },
    // `hasOneUse`, of a result that two instructions use.
    Row {
        rule: NOT_ADD_ONCE,
        function: "define i4 @g(i4 %a) { %1 = xor i4 %a, -1 %2 = add i4 %1, 5 %3 = and i4 %1, %2 ret i4 %3 }",
        matches: &[],
    },
    Row {
        rule: NOT_ADD,
        function: "define i4 @g(i4 %a) { %1 = xor i4 %a, -1 %2 = add i4 %1, 5 %3 = and i4 %1, %2 ret i4 %3 }",
        matches: &[Match {
            at: (0, 1),
            statements: &[(0, 0), (0, 1)],
            inputs: &[A],
            constants: &[5],
            widths: &[4],
        }],
    },
    Row {
        rule: NOT_ADD_ONCE,
        function: "define i4 @g(i4 %a) { %1 = xor i4 %a, -1 %2 = add i4 %1, 5 %3 = and i4 %2, %2 ret i4 %3 }",
        matches: &[Match {
            at: (0, 1),
            statements: &[(0, 0), (0, 1)],
            inputs: &[A],
            constants: &[5],
            widths: &[4],
        }],
    },
    // A result that one instruction uses twice, and one that is used once more in a block that isn't reached.
    Row {
        rule: "Name: twice\nPre: hasOneUse(%t)\n%t = xor %x, -1\n%r = add %t, %t\n=>\n%r = mul %t, 2\n",
        function: "define i4 @g(i4 %a) { %1 = xor i4 %a, -1 %2 = add i4 %1, %1 ret i4 %2 }",
        matches: &[],
    },
    Row {
        rule: NOT_ADD_ONCE,
        function: "define i4 @g(i4 %a) { %x = xor i4 %a, -1 %y = add i4 %x, 5 ret i4 %y b: ret i4 %x }",
        matches: &[],
    },
    // `undef` for an input, and for a constant.
    Row {
        rule: ADD_ZERO,
        function: "define i4 @f() { %x = add i4 undef, 0 ret i4 %x }",
        matches: &[],
    },
    Row {
        rule: NOT_ADD,
        function: "define i4 @f(i4 %a) { %x = xor i4 %a, -1 %y = add i4 %x, undef ret i4 %y }",
        matches: &[],
    },
    // `undef` where the rule has `undef`.
    Row {
        rule: AND_UNDEF,
        function: "define i4 @f(i4 %a) { %x = and i4 %a, undef %y = and i4 %x, 0 ret i4 %y }",
        matches: &[Match {
            at: (0, 0),
            statements: &[(0, 0)],
            inputs: &[A],
            constants: &[],
            widths: &[4],
        }],
    },
    // The literal -1 is 255 at i8, but not at i16.
    Row {
        rule: AND_ONES,
        function: "define i8 @f(i8 %a) { %x = and i8 %a, 255 ret i8 %x }",
        matches: &[Match {
            at: (0, 0),
            statements: &[(0, 0)],
            inputs: &[A],
            constants: &[],
            widths: &[8],
        }],
    },
    Row {
        rule: AND_ONES,
        function: "define i16 @f(i16 %a) { %x = and i16 %a, 255 ret i16 %x }",
        matches: &[],
    },
    // Two operands `poison` are equal operands, and so are two equal numbers.
    Row {
        rule: XOR_SELF,
        function: "define i4 @f(i4 %a) { %x = xor i4 poison, poison %y = xor i4 3, 3 %z = xor i4 %a, %x ret i4 %z }",
        matches: &[
            Match {
                at: (0, 0),
                statements: &[(0, 0)],
                inputs: &[Given::Poison],
                constants: &[],
                widths: &[4],
            },
            Match {
                at: (0, 1),
                statements: &[(0, 1)],
                inputs: &[Given::Number(3)],
                constants: &[],
                widths: &[4],
            },
        ],
    },
    // A literal operand does not match a register of the source, and operands are not commuted.
    Row {
        rule: ADD_ZERO,
        function: "define i4 @f(i4 %a) { %x = add i4 0, %a ret i4 %x }",
        matches: &[],
    },
    // A constant at two different numbers, and at one.
    Row {
        rule: "Name: and-and\n%t = and %x, C\n%r = and %t, C\n=>\n%r = and %x, C\n",
        function: "define i4 @f(i4 %a) { %x = and i4 %a, 3 %y = and i4 %x, 5 %z = and i4 %y, 5 ret i4 %z }",
        matches: &[Match {
            at: (0, 2),
            statements: &[(0, 1), (0, 2)],
            inputs: &[Given::Register(Register::Result(0, 0))],
            constants: &[5],
            widths: &[4],
        }],
    },
    // A constant at one width, and at two.
    Row {
        rule: MET,
        function: "define i8 @f(i8 %a, i8 %b) { %c = icmp eq i8 %a, 7 %x = select i1 %c, i8 %b, i8 7 ret i8 %x }",
        matches: &[Match {
            at: (0, 1),
            statements: &[(0, 0), (0, 1)],
            inputs: &[A, B],
            constants: &[7],
            widths: &[1, 8],
        }],
    },
    Row {
        rule: MET,
        function: "define i16 @f(i8 %a, i16 %b) { %c = icmp eq i8 %a, 7 %x = select i1 %c, i16 %b, i16 7 ret i16 %x }",
        matches: &[],
    },
    // The precondition is false.
    Row {
        rule: "Name: mul-pow\n%r = mul %x, C\n=>\n%r = shl %x, log2(C)\n",
        function: "define i8 @f(i8 %a) { %x = mul i8 %a, 6 %y = mul i8 %x, 8 ret i8 %y }",
        matches: &[Match {
            at: (0, 1),
            statements: &[(0, 1)],
            inputs: &[Given::Register(Register::Result(0, 0))],
            constants: &[8],
            widths: &[8],
        }],
    },
    // Casts, and a width that only the target has.
    Row {
        rule: ZEXT_TWICE,
        function: "define i32 @f(i8 %a) { %x = zext i8 %a to i16 %y = zext i16 %x to i32 %z = sext i16 %x to i32 ret i32 %y }",
        matches: &[Match {
            at: (0, 1),
            statements: &[(0, 0), (0, 1)],
            inputs: &[A],
            constants: &[],
            widths: &[16, 8, 32],
        }],
    },
    Row {
        rule: "Name: add-same\n%r = add %x, %x\n=>\n%c = icmp eq i3 0, 0\n%r = select %c, %x, %x\n",
        function: "define i8 @f(i8 %a) { %x = add i8 %a, %a ret i8 %x }",
        matches: &[Match {
            at: (0, 0),
            statements: &[(0, 0)],
            inputs: &[A],
            constants: &[],
            widths: &[8, 1, 3],
        }],
    },
    // A mask whose bits are all known to be 0, and one of which a bit isn't.
    Row {
        rule: OR_KNOWN,
        function: "define i5 @f(i5 %a) { %1 = shl i5 %a, 2 %2 = or i5 %1, 3 %3 = or i5 %1, 5 %4 = xor i5 %2, %3 ret i5 %4 }",
        matches: &[Match {
            at: (0, 1),
            statements: &[(0, 1)],
            inputs: &[Given::Register(Register::Result(0, 0))],
            constants: &[3],
            widths: &[5],
        }],
    },
    // A bit that is known to be 1, and the same when it is frozen, as a poison may be.
    Row {
        rule: NON_ZERO,
        function: "define i1 @f(i4 %a) { %1 = or i4 %a, 2 %2 = freeze i4 %1 %3 = icmp eq i4 %1, 0 %4 = icmp eq i4 %2, 0
%5 = xor i1 %3, %4 ret i1 %5 }",
        matches: &[Match {
            at: (0, 2),
            statements: &[(0, 2)],
            inputs: &[Given::Register(Register::Result(0, 0))],
            constants: &[],
            widths: &[1, 4],
        }],
    },
    // Of poison nothing is known, which is enough for a mask of 0; of a number each bit is.
    Row {
        rule: OR_KNOWN,
        function: "define i5 @f() { %1 = or i5 poison, 0 %2 = or i5 poison, 1 %3 = or i5 4, 3 %4 = or i5 4, 5 %5 = xor i5 %3, %4
ret i5 %5 }",
        matches: &[
            Match {
                at: (0, 0),
                statements: &[(0, 0)],
                inputs: &[Given::Poison],
                constants: &[0],
                widths: &[5],
            },
            Match {
                at: (0, 2),
                statements: &[(0, 2)],
                inputs: &[Given::Number(4)],
                constants: &[3],
                widths: &[5],
            },
        ],
    },
    // A result of another block, and a phi.
    Row {
        rule: OR_KNOWN,
        function: "define i5 @f(i5 %a) { entry: %x = shl i5 %a, 2 br label %l l: %p = phi i5 [ 4, %entry ] %r = or i5 %x, 3
%s = or i5 %p, 3 %t = xor i5 %r, %s ret i5 %t }",
        matches: &[],
    },
    // A temporary, whose instruction has more flags.
    Row {
        rule: "Version: 2\nName: half\nPre: MaskedValueIsZero(%t, C)\n%t = lshr %x, 1\n%r = and %t, C\n=>\n%r = 0\n",
        function: "define i5 @f(i5 %a) { %1 = lshr exact i5 %a, 1 %2 = and i5 %1, 16 %3 = and i5 %1, 24 %4 = or i5 %2, %3 ret i5 %4 }",
        matches: &[Match {
            at: (0, 1),
            statements: &[(0, 0), (0, 1)],
            inputs: &[A],
            constants: &[16],
            widths: &[5],
        }],
    },
    // Two members, of which both have to follow.
    Row {
        rule: "Version: 2\nName: one\nPre: MaskedValueIsZero(%x, -2) && isKnownNonZero(%x)\n%r = mul %y, %x\n=>\n%r = %y\n",
        function: "define i4 @f(i4 %a, i4 %b) { %1 = and i4 %a, 1 %2 = or i4 %1, 1 %3 = or i4 %a, 1 %4 = mul i4 %b, %1
%5 = mul i4 %b, %2 %6 = mul i4 %b, %3 %7 = xor i4 %4, %5 %8 = xor i4 %6, %7 ret i4 %8 }",
        matches: &[Match {
            at: (0, 4),
            statements: &[(0, 4)],
            inputs: &[B, Given::Register(Register::Result(0, 1))],
            constants: &[],
            widths: &[4],
        }],
    },
    // A root in a block that isn't reached.
    Row {
        rule: ADD_ZERO,
        function: "define i8 @f() { ret i8 0 b: %a = add i8 %a, 0 ret i8 %a }",
        matches: &[],
    },
];

/// Matches across blocks, in functions that have none inside a block.
const ACROSS_ROWS: [Row; 9] = [
    // A temporary in another block, which is the only way to the root's.
    Row {
        rule: NOT_ADD,
        function: "define i4 @f(i4 %a) { %x = xor i4 %a, -1 br label %b b: %y = add i4 %x, 5 ret i4 %y }",
        matches: &[Match {
            at: (1, 0),
            statements: &[(0, 0), (1, 0)],
            inputs: &[A],
            constants: &[5],
            widths: &[4],
        }],
    },
    // A temporary behind its root in the text, and one read in two blocks.
    Row {
        rule: NOT_ADD,
        function: "define i4 @f(i4 %a, i1 %c) { e: br label %t b: %y = add i4 %x, 5 ret i4 %y
t: %x = xor i4 %a, -1 br i1 %c, label %b, label %d d: %z = add i4 %x, 6 ret i4 %z }",
        matches: &[
            Match {
                at: (1, 0),
                statements: &[(2, 0), (1, 0)],
                inputs: &[A],
                constants: &[5],
                widths: &[4],
            },
            Match {
                at: (3, 0),
                statements: &[(2, 0), (3, 0)],
                inputs: &[A],
                constants: &[6],
                widths: &[4],
            },
        ],
    },
    // In a loop, of what stands before it.
    Row {
        rule: NOT_NOT,
        function: "define i4 @l(i4 %a) { entry: %n = xor i4 %a, -1 br label %loop
loop: %i = phi i4 [ 0, %entry ], [ %m, %loop ] %m = xor i4 %n, -1 %c = icmp ult i4 %i, %m
br i1 %c, label %loop, label %exit exit: ret i4 %m }",
        matches: &[Match {
            at: (1, 1),
            statements: &[(0, 0), (1, 1)],
            inputs: &[A],
            constants: &[],
            widths: &[4],
        }],
    },
    // Three blocks, of which the middle one is passed by chance.
    Row {
        rule: "Name: and-and\n%t = and %x, C\n%r = and %t, C\n=>\n%r = and %x, C\n",
        function: "define i4 @f(i4 %a, i1 %c) { e: %x = and i4 %a, 3 br i1 %c, label %m, label %o
m: %y = and i4 %x, 3 br label %o o: %z = and i4 %x, 3 ret i4 %z }",
        matches: &[
            Match {
                at: (1, 0),
                statements: &[(0, 0), (1, 0)],
                inputs: &[A],
                constants: &[3],
                widths: &[4],
            },
            Match {
                at: (2, 0),
                statements: &[(0, 0), (2, 0)],
                inputs: &[A],
                constants: &[3],
                widths: &[4],
            },
        ],
    },
    // A temporary that only a phi reads, and the phi itself.
    Row {
        rule: NOT_ADD,
        function: "define i4 @f(i4 %a, i1 %c) { e: br i1 %c, label %x, label %y x: %n = xor i4 %a, -1 br label %y
y: %m = phi i4 [ 0, %e ], [ %n, %x ] %r = add i4 %m, 5 ret i4 %r }",
        matches: &[],
    },
    // `hasOneUse`, of a result that another block uses once, and of one that two blocks use.
    Row {
        rule: NOT_ADD_ONCE,
        function: "define i4 @f(i4 %a) { %x = xor i4 %a, -1 br label %b b: %y = add i4 %x, 5 ret i4 %y }",
        matches: &[Match {
            at: (1, 0),
            statements: &[(0, 0), (1, 0)],
            inputs: &[A],
            constants: &[5],
            widths: &[4],
        }],
    },
    Row {
        rule: NOT_ADD_ONCE,
        function: "define i4 @f(i4 %a, i1 %c) { %x = xor i4 %a, -1 br i1 %c, label %b, label %d b: %y = add i4 %x, 5
ret i4 %y d: ret i4 %x }",
        matches: &[],
    },
    // One flag too many on a temporary in another block.
    Row {
        rule: SEL_INC,
        function: "define i4 @f(i1 %c, i4 %a) { %t = add nsw i4 %a, 1 br label %b
b: %r = select i1 %c, i4 %a, i4 %t ret i4 %r }",
        matches: &[],
    },
    // A root in a block that isn't reached.
    Row {
        rule: NOT_ADD,
        function: "define i4 @f(i4 %a) { %x = xor i4 %a, -1 ret i4 %x b: %y = add i4 %x, 5 ret i4 %y }",
        matches: &[],
    },
];

/// Appends the bindings with which a rule matches in a block, in order.
fn push_in_block(
    alloc: Global,
    f: &Function,
    block: u32,
    rule: &Rule,
    across: bool,
    found: &mut Vec<Binding>,
) -> Result<(), Unfit>
    requires function { FunctionIsReady f.now }
    requires rule { RuleIsReady rule.now }
{
    for place in 0..end_of(f, block) {
        if let Some(binding) = match_there(alloc, f, block, place, rule, across)? {
            found.push(binding)?;
        }
    }
    Ok(())
}

/// The bindings with which a rule matches in a function, block by block.
fn matches_in(alloc: Global, f: &Function, rule: &Rule, across: bool) -> Result<Vec<Binding>, Unfit>
    requires function { FunctionIsReady f.now }
    requires rule { RuleIsReady rule.now }
{
    let mut found = Vec::new(alloc);
    for block in 0..f.blocks.len() as u32 {
        push_in_block(alloc, f, block, rule, across, &mut found)?;
    }
    Ok(found)
}

/// The same for the function of a text.
fn matches_in_text(
    alloc: Global,
    rule: &Rule,
    function: &str,
    across: bool,
) -> Result<Vec<Binding>, Unfit>
    requires { RuleIsReady rule.now }
{
    let f = function_of(alloc, function)?;
    matches_in(alloc, &f, rule, across)
}

/// The same for the rule of a text.
fn matches_of(
    alloc: Global,
    rule: &str,
    function: &str,
    across: bool,
) -> Result<Vec<Binding>, Unfit> {
    let rule = rule_of(alloc, rule)?;
    matches_in_text(alloc, &rule, function, across)
}

/// Whether an input is bound to this.
fn is_given(operand: &Operand, given: &Given) -> bool {
    match (operand, given) {
        (Operand::Register(register), Given::Register(other)) => register == other,
        (Operand::Number(word), Given::Number(number)) => word.number() == *number,
        (Operand::Poison, Given::Poison) => true,
        _ => false,
    }
}

/// Whether a binding is this match.
fn is_this(binding: &Binding, expected: &Match) -> bool {
    let statements = binding.statements.as_slice().iter();
    let constants = binding.constants.as_slice().iter();
    let widths = binding.typing.as_slice().iter();
    (binding.block, binding.place) == expected.at
        && statements.len() == expected.statements.len()
        && statements
            .zip(expected.statements)
            .all(|(r, place)| *r == Register::Result(place.0, place.1))
        && binding.inputs.len() == expected.inputs.len()
        && binding
            .inputs
            .as_slice()
            .iter()
            .zip(expected.inputs)
            .all(|(o, given)| is_given(o, given))
        && constants.len() == expected.constants.len()
        && constants
            .zip(expected.constants)
            .all(|(word, number)| word.number() == *number)
        && widths.len() == expected.widths.len()
        && widths
            .zip(expected.widths)
            .all(|(width, bits)| width.bits() == *bits)
}

/// Whether the bindings are these matches, in order.
fn are_these(found: &[Binding], expected: &[Match]) -> bool {
    found.len() == expected.len()
        && found
            .iter()
            .zip(expected)
            .all(|(binding, expected)| is_this(binding, expected))
}

/// Finds the matches of each row, and compares.
fn all_match(rt: &impl Abort, alloc: Global, rows: &[Row], across: bool) -> Result<(), Fail> {
    for row in rows {
        let found = matches_of(alloc, row.rule, row.function, across)?;
        assert!(rt;
            are_these(found.as_slice(), row.matches),
            "{}{}\n{found:?}",
            row.rule,
            row.function
        );
    }
    Ok(())
}

#[test]
fn rules_match_where_they_should(rt: HostRuntime) -> Result<(), Fail> {
    all_match(&rt, rt.alloc(), &ROWS, false)?;
    all_match(&rt, rt.alloc(), &ROWS, true)
}

#[test]
fn rules_match_across_blocks_where_that_is_asked_for(rt: HostRuntime) -> Result<(), Fail> {
    for row in &ACROSS_ROWS {
        let found = matches_of(rt.alloc(), row.rule, row.function, false)?;
        assert!(rt; found.is_empty(), "{}{}\n{found:?}", row.rule, row.function);
    }
    all_match(&rt, rt.alloc(), &ACROSS_ROWS, true)
}
