//! Patterns whose parts stand in several blocks, where `--across` asks for them.

use super::rules::SEL_INC;
use super::*;

const ACROSS: &str = "alive optimise r m --across";

const BOTH: &str = "alive optimise r m --fold --across";

const NOT_NOT: &str = "Name: not-not\n%1 = xor %x, -1\n%r = xor %1, -1\n=>\n%r = %x\n";

const NOT_ADD_ONCE: &str =
    "Name: not-add\nPre: hasOneUse(%1)\n%1 = xor %x, -1\n%2 = add %1, C\n=>\n%2 = sub C-1, %x\n";

const NOT_SUM: &str =
    "Name: not-sum\n%1 = xor %x, -1\n%r = add %1, %y\n=>\n%2 = sub %y, %x\n%r = add %2, -1\n";

const SUB_NOT: &str =
    "Name: sub-not\n%r = sub -1, %x\n=>\n%r = xor %x, -1\n\nName: not-add\n%1 = xor %x, -1\n%2 = add %1, C\n=>\n%2 = sub C-1, %x\n";

const OR_KNOWN: &str =
    "Version: 2\nName: or-known\nPre: MaskedValueIsZero(%x, C)\n%r = or %x, C\n=>\n%r = add %x, C\n";

const NOT_SELF: &str = "Name: not-self\n%1 = xor %x, -1\n%r = icmp eq %1, %x\n=>\n%r = 0\n";

const ARMS: &str = "define i4 @w(i4 %a, i1 %c) {
entry:
  %n = xor i4 %a, -1
  br i1 %c, label %x, label %y

x:
  %r = add i4 %n, 5
  ret i4 %r

y:
  ret i4 %n
}
";

const ARMS_REWRITTEN: &str = "define i4 @w(i4 %a, i1 %c) {
entry:
  %n = xor i4 %a, -1
  br i1 %c, label %x, label %y

x:
  %r = sub i4 4, %a
  ret i4 %r

y:
  ret i4 %n
}
";

const LOOP: &str = "define i4 @l(i4 %a) {
entry:
  %n = xor i4 %a, -1
  br label %loop

loop:
  %i = phi i4 [ 0, %entry ], [ %m, %loop ]
  %m = xor i4 %n, -1
  %c = icmp ult i4 %i, %m
  br i1 %c, label %loop, label %exit

exit:
  ret i4 %m
}
";

const LOOP_REWRITTEN: &str = "define i4 @l(i4 %a) {
entry:
  br label %loop

loop:
  %i = phi i4 [ 0, %entry ], [ %a, %loop ]
  %c = icmp ult i4 %i, %a
  br i1 %c, label %loop, label %exit

exit:
  ret i4 %a
}
";

/// Only one arm computes what the sum reads, so a phi stands between them.
const BY_A_PHI: &str = "define i4 @p(i4 %a, i1 %c) {
entry:
  br i1 %c, label %x, label %y

x:
  %n = xor i4 %a, -1
  br label %y

y:
  %m = phi i4 [ 0, %entry ], [ %n, %x ]
  %r = add i4 %m, 5
  ret i4 %r
}
";

/// What the loop computed in its last round is read in the next one, by a phi.
const ROUND_BEFORE: &str = "define i4 @b(i4 %a) {
entry:
  br label %loop

loop:
  %i = phi i4 [ %a, %entry ], [ %n, %loop ]
  %r = xor i4 %i, -1
  %n = xor i4 %r, %a
  %c = icmp ult i4 %n, %r
  br i1 %c, label %loop, label %exit

exit:
  ret i4 %n
}
";

const UNREACHED: &str = "define i4 @u(i4 %a) {
entry:
  %n = xor i4 %a, -1
  ret i4 %n

dead:
  %r = add i4 %n, 5
  ret i4 %r
}
";

const UNREACHED_EMPTIED: &str = "define i4 @u(i4 %a) {
entry:
  %n = xor i4 %a, -1
  ret i4 %n

dead:
  unreachable
}
";

const TWO_BLOCKS_UP: &str = "define i4 @t(i4 %a, i1 %c) {
entry:
  %n = xor i4 %a, -1
  br i1 %c, label %x, label %y

x:
  br label %y

y:
  %r = add i4 %n, 5
  ret i4 %r
}
";

const TWO_BLOCKS_UP_REWRITTEN: &str = "define i4 @t(i4 %a, i1 %c) {
entry:
  br i1 %c, label %x, label %y

x:
  br label %y

y:
  %r = sub i4 4, %a
  ret i4 %r
}
";

/// The sum reads a product that a block between computes.
const BETWEEN: &str = "define i4 @m(i4 %a, i4 %b, i1 %c) {
entry:
  %n = xor i4 %a, -1
  br i1 %c, label %x, label %y

x:
  %k = mul i4 %b, %b
  br label %z

y:
  ret i4 %n

z:
  %r = add i4 %n, %k
  ret i4 %r
}
";

const BETWEEN_REWRITTEN: &str = "define i4 @m(i4 %a, i4 %b, i1 %c) {
entry:
  %n = xor i4 %a, -1
  br i1 %c, label %x, label %y

x:
  %k = mul i4 %b, %b
  br label %z

y:
  ret i4 %n

z:
  %0 = sub i4 %k, %a
  %r = add i4 %0, -1
  ret i4 %r
}
";

/// The latch of a loop reads what the header of the same round computes.
const LATCH: &str = "define i4 @h(i4 %a, i4 %b) {
entry:
  br label %head

head:
  %i = phi i4 [ %a, %entry ], [ %s, %latch ]
  %n = xor i4 %i, -1
  %c = icmp ult i4 %n, %b
  br i1 %c, label %latch, label %exit

latch:
  %s = add i4 %n, 5
  br label %head

exit:
  ret i4 %n
}
";

const LATCH_REWRITTEN: &str = "define i4 @h(i4 %a, i4 %b) {
entry:
  br label %head

head:
  %i = phi i4 [ %a, %entry ], [ %s, %latch ]
  %n = xor i4 %i, -1
  %c = icmp ult i4 %n, %b
  br i1 %c, label %latch, label %exit

latch:
  %s = sub i4 4, %i
  br label %head

exit:
  ret i4 %n
}
";

const SELECTS: &str = "define i4 @s(i4 %a, i1 %c) {
entry:
  %t = add i4 %a, 1
  br label %x

x:
  %r = select i1 %c, i4 %a, i4 %t
  ret i4 %r
}
";

const SELECTS_REWRITTEN: &str = "define i4 @s(i4 %a, i1 %c) {
entry:
  %t = add i4 %a, 1
  br label %x

x:
  %0 = sub i4 %t, 1
  %r = select i1 %c, i4 %0, i4 %t
  ret i4 %r
}
";

/// A flag too many on a temporary that the target reads.
const SELECTS_NSW: &str = "define i4 @s(i4 %a, i1 %c) {
entry:
  %t = add nsw i4 %a, 1
  br label %x

x:
  %r = select i1 %c, i4 %a, i4 %t
  ret i4 %r
}
";

/// The difference stands behind the sum in the text, and is rewritten first.
const BEHIND: &str = "define i4 @q(i4 %a) {
entry:
  br label %y

x:
  %r = add i4 %n, 5
  ret i4 %r

y:
  %n = sub i4 -1, %a
  br label %x
}
";

const BEHIND_REWRITTEN: &str = "define i4 @q(i4 %a) {
entry:
  br label %y

x:
  %r = sub i4 4, %a
  ret i4 %r

y:
  br label %x
}
";

/// The bits of a result are known in its own block alone.
const KNOWN_ELSEWHERE: &str = "define i5 @k(i5 %a) {
entry:
  %x = shl i5 %a, 2
  br label %l

l:
  %r = or i5 %x, 3
  ret i5 %r
}
";

const DECIDES: &str = "define i8 @d(i8 %a, i1 %c) {
entry:
  %n = xor i8 %a, -1
  br i1 %c, label %x, label %y

x:
  %e = icmp eq i8 %n, %a
  br i1 %e, label %x, label %y

y:
  %r = phi i8 [ %a, %entry ], [ %n, %x ]
  ret i8 %r
}
";

const DECIDES_NOTED: &str = "define i8 @d(i8 %a, i1 %c) {
entry:
  %n = xor i8 %a, -1
  br i1 %c, label %x, label %y

x:
  br i1 false, label %x, label %y

y:
  %r = phi i8 [ %a, %entry ], [ %n, %x ]
  ret i8 %r
}
";

const DECIDED: &str = "define i8 @d(i8 %a, i1 %c) {
entry:
  %n = xor i8 %a, -1
  br i1 %c, label %x, label %y

x:
  br label %y

y:
  %r = phi i8 [ %a, %entry ], [ %n, %x ]
  ret i8 %r
}
";

/// What is rewritten across blocks, whether or not branches are folded.
const REWRITTEN: [Row; 8] = [
    Row {
        words: ACROSS,
        rules: NOT_ADD,
        source: ARMS,
        status: 0,
        out: ARMS_REWRITTEN,
        err: "not-add [4]: admitted\n@w: 1 rewrites\n",
    },
    Row {
        words: ACROSS,
        rules: NOT_NOT,
        source: LOOP,
        status: 0,
        out: LOOP_REWRITTEN,
        err: "not-not [4]: admitted\n@l: 1 rewrites\n",
    },
    Row {
        words: ACROSS,
        rules: NOT_ADD,
        source: TWO_BLOCKS_UP,
        status: 0,
        out: TWO_BLOCKS_UP_REWRITTEN,
        err: "not-add [4]: admitted\n@t: 1 rewrites\n",
    },
    Row {
        words: ACROSS,
        rules: NOT_ADD_ONCE,
        source: TWO_BLOCKS_UP,
        status: 0,
        out: TWO_BLOCKS_UP_REWRITTEN,
        err: "not-add [4]: admitted\n@t: 1 rewrites\n",
    },
    Row {
        words: ACROSS,
        rules: NOT_SUM,
        source: BETWEEN,
        status: 0,
        out: BETWEEN_REWRITTEN,
        err: "not-sum [4]: admitted\n@m: 1 rewrites\n",
    },
    Row {
        words: ACROSS,
        rules: NOT_ADD,
        source: LATCH,
        status: 0,
        out: LATCH_REWRITTEN,
        err: "not-add [4]: admitted\n@h: 1 rewrites\n",
    },
    Row {
        words: ACROSS,
        rules: SEL_INC,
        source: SELECTS,
        status: 0,
        out: SELECTS_REWRITTEN,
        err: "sel-inc [4 1]: admitted\n@s: 1 rewrites\n",
    },
    Row {
        words: ACROSS,
        rules: SUB_NOT,
        source: BEHIND,
        status: 0,
        out: BEHIND_REWRITTEN,
        err: "sub-not [4]: admitted\nnot-add [4]: admitted\n@q: 2 rewrites\n",
    },
];

/// What is left as it is, whether or not branches are folded.
const LEFT: [Row; 12] = [
    Row {
        words: OPTIMISE,
        rules: NOT_ADD,
        source: ARMS,
        status: 0,
        out: ARMS,
        err: "@w: 0 rewrites\n",
    },
    Row {
        words: OPTIMISE,
        rules: NOT_NOT,
        source: LOOP,
        status: 0,
        out: LOOP,
        err: "@l: 0 rewrites\n",
    },
    Row {
        words: OPTIMISE,
        rules: NOT_ADD,
        source: TWO_BLOCKS_UP,
        status: 0,
        out: TWO_BLOCKS_UP,
        err: "@t: 0 rewrites\n",
    },
    Row {
        words: OPTIMISE,
        rules: NOT_SUM,
        source: BETWEEN,
        status: 0,
        out: BETWEEN,
        err: "@m: 0 rewrites\n",
    },
    Row {
        words: OPTIMISE,
        rules: NOT_ADD,
        source: LATCH,
        status: 0,
        out: LATCH,
        err: "@h: 0 rewrites\n",
    },
    Row {
        words: OPTIMISE,
        rules: SEL_INC,
        source: SELECTS,
        status: 0,
        out: SELECTS,
        err: "@s: 0 rewrites\n",
    },
    Row {
        words: OPTIMISE,
        rules: NOT_SELF,
        source: DECIDES,
        status: 0,
        out: DECIDES,
        err: "@d: 0 rewrites\n",
    },
    Row {
        words: ACROSS,
        rules: NOT_ADD_ONCE,
        source: ARMS,
        status: 0,
        out: ARMS,
        err: "@w: 0 rewrites\n",
    },
    Row {
        words: ACROSS,
        rules: NOT_ADD,
        source: BY_A_PHI,
        status: 0,
        out: BY_A_PHI,
        err: "@p: 0 rewrites\n",
    },
    Row {
        words: ACROSS,
        rules: NOT_NOT,
        source: ROUND_BEFORE,
        status: 0,
        out: ROUND_BEFORE,
        err: "@b: 0 rewrites\n",
    },
    Row {
        words: ACROSS,
        rules: SEL_INC,
        source: SELECTS_NSW,
        status: 0,
        out: SELECTS_NSW,
        err: "@s: 0 rewrites\n",
    },
    Row {
        words: ACROSS,
        rules: OR_KNOWN,
        source: KNOWN_ELSEWHERE,
        status: 0,
        out: KNOWN_ELSEWHERE,
        err: "@k: 0 rewrites\n",
    },
];

/// What is another module where branches are folded.
const FOLDED: [Row; 4] = [
    Row {
        words: ACROSS,
        rules: NOT_SELF,
        source: DECIDES,
        status: 0,
        out: DECIDES_NOTED,
        err: "not-self [8 1]: admitted\n@d: 1 rewrites\n",
    },
    Row {
        words: BOTH,
        rules: NOT_SELF,
        source: DECIDES,
        status: 0,
        out: DECIDED,
        err: "not-self [8 1]: admitted\n@d: 1 rewrites\n",
    },
    Row {
        words: ACROSS,
        rules: NOT_ADD,
        source: UNREACHED,
        status: 0,
        out: UNREACHED,
        err: "@u: 0 rewrites\n",
    },
    Row {
        words: BOTH,
        rules: NOT_ADD,
        source: UNREACHED,
        status: 0,
        out: UNREACHED_EMPTIED,
        err: "@u: 0 rewrites\n",
    },
];

#[test]
fn patterns_in_several_blocks_are_rewritten(rt: HostRuntime) -> Result<(), Fail> {
    all_leave(&rt, rt.alloc(), &REWRITTEN)?;
    all_leave_with(&rt, rt.alloc(), &REWRITTEN, " --fold")
}

#[test]
fn other_blocks_stay_out_of_patterns(rt: HostRuntime) -> Result<(), Fail> {
    all_leave(&rt, rt.alloc(), &LEFT)?;
    all_leave_with(&rt, rt.alloc(), &LEFT, " --fold")
}

#[test]
fn branches_that_are_decided_across_blocks_are_folded(rt: HostRuntime) -> Result<(), Fail> {
    all_leave(&rt, rt.alloc(), &FOLDED)
}
