//! Whole modules, and runs of their functions.

use super::*;

const SWAP: &str = "define i8 @swap(i8 %n) {
entry:
  br label %loop

loop:
  %a = phi i8 [ 1, %entry ], [ %b, %loop ]
  %b = phi i8 [ 2, %entry ], [ %a, %loop ]
  %i = phi i8 [ 0, %entry ], [ %j, %loop ]
  %j = add i8 %i, 1
  %c = icmp ult i8 %j, %n
  br i1 %c, label %loop, label %exit

exit:
  ret i8 %b
}
";

const COUNT: &str = "define i8 @swap(i8 %n) {
entry:
  br label %loop

loop:
  %a = phi i8 [ 1, %entry ], [ %b, %loop ]
  %b = phi i8 [ 2, %entry ], [ %a, %loop ]
  %i = phi i8 [ 0, %entry ], [ %j, %loop ]
  %j = add i8 %i, 1
  %c = icmp ult i8 %j, %n
  br i1 %c, label %loop, label %exit

exit:
  ret i8 %i
}
";

pub(super) const CLEANED_COUNT: &str = "define i8 @swap(i8 %n) {
entry:
  br label %loop

loop:
  %i = phi i8 [ 0, %entry ], [ %j, %loop ]
  %j = add i8 %i, 1
  %c = icmp ult i8 %j, %n
  br i1 %c, label %loop, label %exit

exit:
  ret i8 %i
}
";

const SPIN: &str = "define i8 @spin() {
  br label %1

1:
  br label %1
}
";

const UNASSIGNED: &str = "define i8 @u(i1 %c) {
entry:
  br i1 %c, label %a, label %j

a:
  %r = add i8 1, 2
  br label %j

j:
  ret i8 %r
}
";

const UNREACHED: &str = "define i8 @u(i1 %c) {
entry:
  ret i8 0

a:
  %r = add i8 1, 2
  br label %j

j:
  ret i8 %r
}
";

const LOAD: &str = "define i8 @f(i8 %a) {
  %1 = load i8, ptr %a
  ret i8 %a
}
";

pub(super) const CUT_SHORT: &str = "define i8 @f(i8 %a) {
entry:
  br label %loop

loop:
  %x = phi i8 [ %a, ";

const CLANG: &str = "; ModuleID = 'x.c'
source_filename = \"x.c\"
target triple = \"x86_64-pc-linux-gnu\"

; Function Attrs: nounwind
define dso_local noundef i32 @twice(i32 noundef %0) local_unnamed_addr #0 !dbg !7 {
  %2 = shl nsw i32 %0, 1, !dbg !9
  ret i32 %2, !dbg !10
}

attributes #0 = { nounwind \"frame-pointer\"=\"all\" }

!0 = !{i32 1, !\"wchar_size\", i32 4}
";

const WRITTEN_CLANG: &str = "source_filename = \"x.c\"
target triple = \"x86_64-pc-linux-gnu\"

define dso_local noundef i32 @twice(i32 noundef %0) local_unnamed_addr #0 {
  %2 = shl nsw i32 %0, 1
  ret i32 %2
}

attributes #0 = { nounwind \"frame-pointer\"=\"all\" }
!0 = !{i32 1, !\"wchar_size\", i32 4}
";

const ROWS: [Row; 17] = [
    Row {
        words: "alive run --blocks 10 m swap 2",
        rules: "",
        source: SWAP,
        status: 0,
        out: "return 1\n",
        err: "",
    },
    Row {
        words: "alive run --blocks 4 m swap 2",
        rules: "",
        source: SWAP,
        status: 0,
        out: "return 1\n",
        err: "",
    },
    Row {
        words: "alive run --blocks 3 m swap 2",
        rules: "",
        source: SWAP,
        status: 0,
        out: "running block 2\n",
        err: "",
    },
    Row {
        words: "alive run m swap poison",
        rules: "",
        source: SWAP,
        status: 0,
        out: "undefined\n",
        err: "",
    },
    Row {
        words: "alive run m swap 256",
        rules: "",
        source: SWAP,
        status: 8,
        out: "",
        err: "argument refused\n",
    },
    Row {
        words: "alive run m swop 2",
        rules: "",
        source: SWAP,
        status: 8,
        out: "",
        err: "argument refused\n",
    },
    Row {
        words: "alive run --blocks 5 m spin",
        rules: "",
        source: SPIN,
        status: 0,
        out: "running block 1\n",
        err: "",
    },
    Row {
        words: "alive run --blocks 0 m spin",
        rules: "",
        source: SPIN,
        status: 0,
        out: "running block 0\n",
        err: "",
    },
    Row {
        words: "alive run m twice 3",
        rules: "",
        source: CLANG,
        status: 0,
        out: "return 6\n",
        err: "",
    },
    Row {
        words: "alive run m twice 2147483647",
        rules: "",
        source: CLANG,
        status: 0,
        out: "undefined\n",
        err: "",
    },
    Row {
        words: "alive run m twice poison",
        rules: "",
        source: CLANG,
        status: 0,
        out: "undefined\n",
        err: "",
    },
    Row {
        words: OPTIMISE,
        rules: "",
        source: CLANG,
        status: 0,
        out: WRITTEN_CLANG,
        err: "@twice: 0 rewrites\n",
    },
    Row {
        words: OPTIMISE,
        rules: "",
        source: COUNT,
        status: 0,
        out: CLEANED_COUNT,
        err: "@swap: 0 rewrites\n",
    },
    Row {
        words: OPTIMISE,
        rules: "",
        source: UNREACHED,
        status: 0,
        out: UNREACHED,
        err: "@u: 0 rewrites\n",
    },
    Row {
        words: OPTIMISE,
        rules: "",
        source: UNASSIGNED,
        status: 4,
        out: "",
        err: "module: line 10: Unassigned %r in block 2\n",
    },
    Row {
        words: OPTIMISE,
        rules: "",
        source: LOAD,
        status: 4,
        out: "",
        err: "module: line 2: LeftOut load\n",
    },
    Row {
        words: OPTIMISE,
        rules: "",
        source: CUT_SHORT,
        status: 4,
        out: "",
        err: "module: line 6: Syntax\n",
    },
];

#[test]
fn modules_are_written_and_run(rt: HostRuntime) -> Result<(), Fail> {
    all_leave(&rt, rt.alloc(), &ROWS)
}
