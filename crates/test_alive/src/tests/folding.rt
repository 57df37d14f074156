//! Branches that are folded, and blocks that are emptied, where `--fold` asks for it.

use super::*;

const FOLD: &str = "alive optimise r m --fold";

const COMMENT: &str = "; no rules\n";

const DECIDED: &str = "define i8 @h(i8 %a) {
entry:
  br i1 true, label %t, label %e

t:
  br label %j

e:
  %x = add i8 %a, 1
  br label %j

j:
  %p = phi i8 [ %a, %t ], [ %x, %e ]
  ret i8 %p
}
";

const DECIDED_FOLDED: &str = "define i8 @h(i8 %a) {
entry:
  br label %t

t:
  br label %j

e:
  unreachable

j:
  %p = phi i8 [ %a, %t ]
  ret i8 %p
}
";

const UNREACHED: &str = "define i8 @u(i1 %c) {
entry:
  ret i8 0

a:
  %r = add i8 1, 2
  br label %j

j:
  ret i8 %r
}
";

const UNREACHED_EMPTIED: &str = "define i8 @u(i1 %c) {
entry:
  ret i8 0

a:
  unreachable

j:
  unreachable
}
";

const SWITCH: &str = "define i8 @s() {
entry:
  switch i8 5, label %d [ i8 5, label %a ]

d:
  ret i8 0

a:
  ret i8 1
}
";

const SWITCH_FOLDED: &str = "define i8 @s() {
entry:
  br label %a

d:
  unreachable

a:
  ret i8 1
}
";

const OPEN: &str = "define i8 @o() {
entry:
  br i1 undef, label %t, label %e

t:
  switch i8 poison, label %e [
  ]

e:
  ret i8 0
}
";

const NE_SELF: &str = "Name: ne-self\n%r = icmp ne %x, %x\n=>\n%r = 0\n";

/// The loop is never entered, as `NE_SELF` tells.
const NEVER_ENTERED: &str = "define i8 @n(i8 %a, i8 %b) {
entry:
  %c = icmp ne i8 %a, %a
  br i1 %c, label %loop, label %exit

loop:
  %i = phi i8 [ 0, %entry ], [ %j, %loop ]
  %j = add i8 %i, %b
  %d = icmp ult i8 %j, %a
  br i1 %d, label %loop, label %exit

exit:
  %r = phi i8 [ %a, %entry ], [ %j, %loop ]
  ret i8 %r
}
";

const LOOP_EMPTIED: &str = "define i8 @n(i8 %a, i8 %b) {
entry:
  br label %exit

loop:
  unreachable

exit:
  %r = phi i8 [ %a, %entry ]
  ret i8 %r
}
";

const NUMBER_BRANCHED_ON: &str = "define i8 @n(i8 %a, i8 %b) {
entry:
  br i1 false, label %loop, label %exit

loop:
  %i = phi i8 [ 0, %entry ], [ %j, %loop ]
  %j = add i8 %i, %b
  %d = icmp ult i8 %j, %a
  br i1 %d, label %loop, label %exit

exit:
  %r = phi i8 [ %a, %entry ], [ %j, %loop ]
  ret i8 %r
}
";

/// What the first branch leaves has a second, and a number that is no condition.
const ONE_AFTER_ANOTHER: &str = "define i1 @t(i8 %a, i1 %e) {
entry:
  %c = icmp ne i8 %a, %a
  %f = icmp ne i1 %c, %e
  br i1 %c, label %dead, label %next

dead:
  br label %exit

next:
  %d = icmp ne i1 %e, %e
  br i1 %d, label %dead, label %exit

exit:
  %r = phi i1 [ %e, %dead ], [ %f, %next ]
  ret i1 %r
}
";

const BOTH_FOLDED: &str = "define i1 @t(i8 %a, i1 %e) {
entry:
  %f = icmp ne i1 false, %e
  br label %next

dead:
  unreachable

next:
  br label %exit

exit:
  %r = phi i1 [ %f, %next ]
  ret i1 %r
}
";

const ADMITTED: &str = "ne-self [1 8]: admitted\n@n: 1 rewrites\n";

const ROWS: [Row; 6] = [
    Row {
        words: FOLD,
        rules: COMMENT,
        source: DECIDED,
        status: 0,
        out: DECIDED_FOLDED,
        err: "@h: 0 rewrites\n",
    },
    Row {
        words: OPTIMISE,
        rules: COMMENT,
        source: DECIDED,
        status: 0,
        out: DECIDED,
        err: "@h: 0 rewrites\n",
    },
    Row {
        words: FOLD,
        rules: COMMENT,
        source: UNREACHED,
        status: 0,
        out: UNREACHED_EMPTIED,
        err: "@u: 0 rewrites\n",
    },
    Row {
        words: OPTIMISE,
        rules: COMMENT,
        source: UNREACHED,
        status: 0,
        out: UNREACHED,
        err: "@u: 0 rewrites\n",
    },
    Row {
        words: FOLD,
        rules: COMMENT,
        source: SWITCH,
        status: 0,
        out: SWITCH_FOLDED,
        err: "@s: 0 rewrites\n",
    },
    Row {
        words: FOLD,
        rules: COMMENT,
        source: OPEN,
        status: 0,
        out: OPEN,
        err: "@o: 0 rewrites\n",
    },
];

const RULE_ROWS: [Row; 4] = [
    Row {
        words: FOLD,
        rules: NE_SELF,
        source: NEVER_ENTERED,
        status: 0,
        out: LOOP_EMPTIED,
        err: ADMITTED,
    },
    Row {
        words: OPTIMISE,
        rules: NE_SELF,
        source: NEVER_ENTERED,
        status: 0,
        out: NUMBER_BRANCHED_ON,
        err: ADMITTED,
    },
    Row {
        words: FOLD,
        rules: NE_SELF,
        source: ONE_AFTER_ANOTHER,
        status: 0,
        out: BOTH_FOLDED,
        err: "ne-self [1 8]: admitted\nne-self [1 1]: admitted\n@t: 2 rewrites\n",
    },
    Row {
        words: "alive optimise r m --fold --steps 1",
        rules: NE_SELF,
        source: NEVER_ENTERED,
        status: 0,
        out: LOOP_EMPTIED,
        err: ADMITTED,
    },
];

#[test]
fn branches_and_switches_on_numbers_are_folded(rt: HostRuntime) -> Result<(), Fail> {
    all_leave(&rt, rt.alloc(), &ROWS)
}

#[test]
fn branches_that_rules_decide_are_folded(rt: HostRuntime) -> Result<(), Fail> {
    all_leave(&rt, rt.alloc(), &RULE_ROWS)
}
