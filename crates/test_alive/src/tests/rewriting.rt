//! Modules that rules rewrite, and the reports on them.

use super::modules::CLEANED_COUNT;
use super::rules::{ADD_SELF, MUL_ADD, MUL_TWO, OR_ADD, SEL_INC};
use super::*;

const NOT_ADD_ONCE: &str =
    "Name: not-add\nPre: hasOneUse(%1)\n%1 = xor %x, -1\n%2 = add %1, C\n=>\n%2 = sub C-1, %x\n";

const ADD_ZERO: &str = "Name: add-zero\n%r = add %x, 0\n=>\n%r = %x\n";

const SWAP_SUM: &str = "Name: swap\n%r = add %x, %y\n=>\n%r = add %y, %x\n";

const THERE_AND_BACK: &str =
    "Name: neg-sub\n%r = sub %x, C\n=>\n%r = add %x, -C\n\nName: neg-add\n%r = add %x, C\n=>\n%r = sub %x, -C\n";

const DOUBLES: &str = "define i8 @double(i8 %n) {
entry:
  br label %loop

loop:
  %i = phi i8 [ 0, %entry ], [ %k, %loop ]
  %k = mul i8 %i, 2
  %c = icmp ult i8 %k, %n
  br i1 %c, label %loop, label %exit

exit:
  ret i8 %k
}
";

const SHIFTED_DOUBLES: &str = "define i8 @double(i8 %n) {
entry:
  br label %loop

loop:
  %i = phi i8 [ 0, %entry ], [ %k, %loop ]
  %k = shl i8 %i, 1
  %c = icmp ult i8 %k, %n
  br i1 %c, label %loop, label %exit

exit:
  ret i8 %k
}
";

const COUNT_AND_ZERO: &str = "define i8 @swap(i8 %n) {
entry:
  br label %loop

loop:
  %a = phi i8 [ 1, %entry ], [ %b, %loop ]
  %b = phi i8 [ 2, %entry ], [ %a, %loop ]
  %i = phi i8 [ 0, %entry ], [ %j, %loop ]
  %r = add i8 %i, 0
  %j = add i8 %i, 1
  %c = icmp ult i8 %j, %n
  br i1 %c, label %loop, label %exit

exit:
  ret i8 %r
}
";

const OUT_OF_REACH: &str = "define i8 @u() {
entry:
  ret i8 0

a:
  %r = add i8 %r, 0
  ret i8 %r
}
";

const OUT_OF_REACH_EMPTIED: &str = "define i8 @u() {
entry:
  ret i8 0

a:
  unreachable
}
";

const BOTH_WIDTHS: &str = "define i2 @b(i1 %p, i2 %q) {
  %u = add nsw i1 %p, %p
  %v = add nsw i2 %q, %q
  %w = zext i1 %u to i2
  %s = xor i2 %v, %w
  ret i2 %s
}
";

const ONE_SHIFTED: &str = "define i2 @b(i1 %p, i2 %q) {
  %u = add nsw i1 %p, %p
  %v = shl nsw i2 %q, 1
  %w = zext i1 %u to i2
  %s = xor i2 %v, %w
  ret i2 %s
}
";

const NOT_ADD_TWICE: &str =
    "define i4 @g(i4 %a) {\n  %1 = xor i4 %a, -1\n  %2 = add i4 %1, 5\n  %3 = and i4 %1, %2\n  ret i4 %3\n}\n";

const SUM_TIMES: &str =
    "define i16 @w(i16 %x, i16 %y, i16 %z) {\n  %a = add i16 %x, %y\n  %r = mul i16 %a, %z\n  ret i16 %r\n}\n";

const ROWS: [Row; 16] = [
    Row {
        words: OPTIMISE,
        rules: NOT_ADD,
        source: NOT_ADD_SOURCE,
        status: 0,
        out: NOT_ADD_WRITTEN,
        err: "not-add [4]: admitted\n@f: 1 rewrites\n",
    },
    Row {
        words: "alive optimise r m --steps 0",
        rules: NOT_ADD,
        source: NOT_ADD_SOURCE,
        status: 0,
        out: NOT_ADD_SOURCE,
        err: "not-add [4]: admitted\n@f: 0 rewrites, limit\n",
    },
    Row {
        words: OPTIMISE,
        rules: MUL_TWO,
        source: DOUBLES,
        status: 0,
        out: SHIFTED_DOUBLES,
        err: "mul-two [8]: admitted\n@double: 1 rewrites\n",
    },
    Row {
        words: OPTIMISE,
        rules: ADD_ZERO,
        source: COUNT_AND_ZERO,
        status: 0,
        out: CLEANED_COUNT,
        err: "add-zero [8]: admitted\n@swap: 1 rewrites\n",
    },
    Row {
        words: "alive optimise r m --steps 3",
        rules: SWAP_SUM,
        source: "define i5 @s(i5 %a, i5 %b) {\n  %1 = add i5 %a, %b\n  ret i5 %1\n}\n",
        status: 0,
        out: "define i5 @s(i5 %a, i5 %b) {\n  %1 = add i5 %b, %a\n  ret i5 %1\n}\n",
        err: "swap [5]: admitted\n@s: 3 rewrites, limit\n",
    },
    Row {
        words: "alive optimise r m --steps 4",
        rules: THERE_AND_BACK,
        source: "define i5 @c(i5 %a) {\n  %1 = add i5 %a, 3\n  ret i5 %1\n}\n",
        status: 0,
        out: "define i5 @c(i5 %a) {\n  %1 = add i5 %a, 3\n  ret i5 %1\n}\n",
        err: "neg-add [5]: admitted\nneg-sub [5]: admitted\n@c: 4 rewrites, limit\n",
    },
    Row {
        words: OPTIMISE,
        rules: SEL_INC,
        source: "define i4 @t(i4 %a, i1 %c) {\n  %t = add i4 %a, 1\n  %r = select i1 %c, i4 %a, i4 %t\n  ret i4 %r\n}\n",
        status: 0,
        out: "define i4 @t(i4 %a, i1 %c) {\n  %t = add i4 %a, 1\n  %1 = sub i4 %t, 1\n  %r = select i1 %c, i4 %1, i4 %t\n  ret i4 %r\n}\n",
        err: "sel-inc [4 1]: admitted\n@t: 1 rewrites\n",
    },
    Row {
        words: OPTIMISE,
        rules: SEL_INC,
        source: "define i4 @t(i4 %a, i1 %c) {\n  %t = add nsw i4 %a, 1\n  %r = select i1 %c, i4 %a, i4 %t\n  ret i4 %r\n}\n",
        status: 0,
        out: "define i4 @t(i4 %a, i1 %c) {\n  %t = add nsw i4 %a, 1\n  %r = select i1 %c, i4 %a, i4 %t\n  ret i4 %r\n}\n",
        err: "@t: 0 rewrites\n",
    },
    Row {
        words: OPTIMISE,
        rules: NOT_ADD_ONCE,
        source: NOT_ADD_TWICE,
        status: 0,
        out: NOT_ADD_TWICE,
        err: "@g: 0 rewrites\n",
    },
    Row {
        words: OPTIMISE,
        rules: NOT_ADD,
        source: NOT_ADD_TWICE,
        status: 0,
        out: "define i4 @g(i4 %a) {\n  %1 = xor i4 %a, -1\n  %2 = sub i4 4, %a\n  %3 = and i4 %1, %2\n  ret i4 %3\n}\n",
        err: "not-add [4]: admitted\n@g: 1 rewrites\n",
    },
    // a verdict that isn't admitted is in the report, and nothing is rewritten at its matches
    Row {
        words: "alive optimise r m --conflicts 1",
        rules: MUL_ADD,
        source: SUM_TIMES,
        status: 0,
        out: SUM_TIMES,
        err: "mul-add [16]: budget\n@w: 0 rewrites\n",
    },
    Row {
        words: OPTIMISE,
        rules: ADD_SELF,
        source: BOTH_WIDTHS,
        status: 0,
        out: ONE_SHIFTED,
        err: "add-self [1]: refuted\n  %x = 0\n  source 0\n  target poison\nadd-self [2]: admitted\n@b: 1 rewrites\n",
    },
    Row {
        words: OPTIMISE,
        rules: OR_ADD,
        source: "define i5 @o(i5 %a, i5 %b) {\n  %1 = or disjoint i5 %a, %b\n  ret i5 %1\n}\n",
        status: 0,
        out: "define i5 @o(i5 %a, i5 %b) {\n  %1 = add nuw i5 %a, %b\n  ret i5 %1\n}\n",
        err: "or-add [5]: admitted\n@o: 1 rewrites\n",
    },
    Row {
        words: OPTIMISE,
        rules: OR_ADD,
        source: "define i5 @o(i5 %a, i5 %b) {\n  %1 = or i5 %a, %b\n  ret i5 %1\n}\n",
        status: 0,
        out: "define i5 @o(i5 %a, i5 %b) {\n  %1 = or i5 %a, %b\n  ret i5 %1\n}\n",
        err: "@o: 0 rewrites\n",
    },
    // the flags of a cast and of a comparison are written
    Row {
        words: OPTIMISE,
        rules: "Name: widen\n%c = icmp samesign slt %x, %y\n%r = zext nneg %c\n=>\n%d = icmp samesign ult %x, %y\n%r = zext nneg %d\n",
        source: "define i5 @o(i4 %a, i4 %b) {\n  %c = icmp samesign slt i4 %a, %b\n  %r = zext nneg i1 %c to i5\n  ret i5 %r\n}\n",
        status: 0,
        out: "define i5 @o(i4 %a, i4 %b) {\n  %1 = icmp samesign ult i4 %a, %b\n  %r = zext nneg i1 %1 to i5\n  ret i5 %r\n}\n",
        err: "widen [1 4 5 1]: admitted\n@o: 1 rewrites\n",
    },
    // a verdict is asked for once in the whole module
    Row {
        words: "alive optimise r m --steps 1",
        rules: SWAP_SUM,
        source: "define i5 @s(i5 %a) {\n  %1 = add i5 %a, 1\n  ret i5 %1\n}\n\ndefine i5 @z() {\n  ret i5 0\n}\n\ndefine i5 @t(i5 %a) {\n  %1 = add i5 %a, 2\n  ret i5 %1\n}\n",
        status: 0,
        out: "define i5 @s(i5 %a) {\n  %1 = add i5 1, %a\n  ret i5 %1\n}\n\ndefine i5 @z() {\n  ret i5 0\n}\n\ndefine i5 @t(i5 %a) {\n  %1 = add i5 2, %a\n  ret i5 %1\n}\n",
        err: "swap [5]: admitted\n@s: 1 rewrites, limit\n@z: 0 rewrites\n@t: 1 rewrites, limit\n",
    },
];

/// No rule matches where the entry doesn't lead, whatever the flags are.
const UNREACHED_ROWS: [Row; 4] = [
    Row {
        words: OPTIMISE,
        rules: ADD_ZERO,
        source: OUT_OF_REACH,
        status: 0,
        out: OUT_OF_REACH,
        err: "@u: 0 rewrites\n",
    },
    Row {
        words: "alive optimise r m --across",
        rules: ADD_ZERO,
        source: OUT_OF_REACH,
        status: 0,
        out: OUT_OF_REACH,
        err: "@u: 0 rewrites\n",
    },
    Row {
        words: "alive optimise r m --fold",
        rules: ADD_ZERO,
        source: OUT_OF_REACH,
        status: 0,
        out: OUT_OF_REACH_EMPTIED,
        err: "@u: 0 rewrites\n",
    },
    Row {
        words: "alive optimise r m --fold --across",
        rules: ADD_ZERO,
        source: OUT_OF_REACH,
        status: 0,
        out: OUT_OF_REACH_EMPTIED,
        err: "@u: 0 rewrites\n",
    },
];

#[test]
fn modules_are_rewritten(rt: HostRuntime) -> Result<(), Fail> {
    for flags in &MIXES {
        all_leave_with(&rt, rt.alloc(), &ROWS, flags)?;
    }
    Ok(())
}

#[test]
fn unreached_blocks_are_not_rewritten(rt: HostRuntime) -> Result<(), Fail> {
    all_leave(&rt, rt.alloc(), &UNREACHED_ROWS)
}
