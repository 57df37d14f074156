//! Integer intrinsics: calls that are run, written and refused, and rules of version 2, verified, applied and refused.

use super::*;

const TO_UMIN: &str =
    "Version: 2\nName: to-umin\n%c = icmp ult %x, %y\n%r = select %c, %x, %y\n=>\n%r = umin %x, %y\n";

const LZ_SIGN: &str =
    "Version: 2\nName: lz-sign\n%z = ctlz %x\n%r = icmp eq %z, 0\n=>\n%r = icmp slt %x, 0\n";

const ZEROS: &str =
    "define i8 @n(i8 %a) {\n  %1 = call i8 @llvm.ctlz.i8(i8 %a, i1 true)\n  ret i8 %1\n}\n";

const ROWS: [Row; 13] = [
    Row {
        words: "alive run m n 5",
        rules: "",
        source: ZEROS,
        status: 0,
        out: "return 5\n",
        err: "",
    },
    Row {
        words: "alive run m n 0",
        rules: "",
        source: ZEROS,
        status: 0,
        out: "return poison\n",
        err: "",
    },
    Row {
        words: OPTIMISE,
        rules: "",
        source: "define i5 @f(i5 %a, i5 %b) {\n  %1 = tail call noundef i5 @llvm.umax.i5(i5 %a, i5 %b) #2\n  ret i5 %1\n}\n",
        status: 0,
        out: "define i5 @f(i5 %a, i5 %b) {\n  %1 = call i5 @llvm.umax.i5(i5 %a, i5 %b)\n  ret i5 %1\n}\n",
        err: "@f: 0 rewrites\n",
    },
    Row {
        words: OPTIMISE,
        rules: "",
        source: "define i8 @f(i8 %a) {\n  %1 = call i8 @g(i8 %a)\n  ret i8 %1\n}\n",
        status: 4,
        out: "",
        err: "module: line 2: LeftOut call\n",
    },
    Row {
        words: "alive verify r --widths 1-5",
        rules: TO_UMIN,
        source: "",
        status: 0,
        out: "to-umin [1 1]: admitted\nto-umin [1 2]: admitted\nto-umin [1 3]: admitted\nto-umin [1 4]: admitted\nto-umin [1 5]: admitted\n",
        err: "",
    },
    Row {
        words: "alive verify r --widths 4",
        rules: "Version: 2\nName: abs-min\n%r = abs %x\n=>\n%r = abs minpoison %x\n",
        source: "",
        status: 1,
        out: "abs-min [4]: refuted\n  %x = 8\n  source 8\n  target poison\n",
        err: "",
    },
    Row {
        words: OPTIMISE,
        rules: TO_UMIN,
        source: "define i5 @f(i5 %a, i5 %b) {\n  %1 = icmp ult i5 %a, %b\n  %2 = select i1 %1, i5 %a, i5 %b\n  ret i5 %2\n}\n",
        status: 0,
        out: "define i5 @f(i5 %a, i5 %b) {\n  %1 = call i5 @llvm.umin.i5(i5 %a, i5 %b)\n  ret i5 %1\n}\n",
        err: "to-umin [1 5]: admitted\n@f: 1 rewrites\n",
    },
    // Items of the call don't hinder a match, nor does a truth value that the statement doesn't have.
    Row {
        words: OPTIMISE,
        rules: LZ_SIGN,
        source: "define i1 @f(i6 %a) {\n  %1 = tail call i6 @llvm.ctlz.i6(i6 %a, i1 true) #1\n  %2 = icmp eq i6 %1, 0\n  ret i1 %2\n}\n",
        status: 0,
        out: "define i1 @f(i6 %a) {\n  %1 = icmp slt i6 %a, 0\n  ret i1 %1\n}\n",
        err: "lz-sign [6 1]: admitted\n@f: 1 rewrites\n",
    },
    Row {
        words: OPTIMISE,
        rules: "Version: 2\nName: back\n%r = smax %x, %y\n=>\n%c = icmp sgt %x, %y\n%r = select %c, %x, %y\n",
        source: "define i2 @f(i2 %a) {\n  %1 = call i2 @llvm.smax.i2(i2 %a, i2 -1)\n  %2 = call i2 @llvm.umax.i2(i2 %1, i2 1)\n  ret i2 %2\n}\n",
        status: 0,
        out: "define i2 @f(i2 %a) {\n  %1 = icmp sgt i2 %a, -1\n  %2 = select i1 %1, i2 %a, i2 -1\n  %3 = call i2 @llvm.umax.i2(i2 %2, i2 1)\n  ret i2 %3\n}\n",
        err: "back [2 1]: admitted\n@f: 1 rewrites\n",
    },
    // A file of version 1, a repeated flag, and a flag of another intrinsic.
    Row {
        words: VERIFY,
        rules: "Name: to-umin\n%c = icmp ult %x, %y\n%r = select %c, %x, %y\n=>\n%r = umin %x, %y\n",
        source: "",
        status: 3,
        out: "",
        err: "rules: line 5: LeftOut umin\n",
    },
    Row {
        words: VERIFY,
        rules: "Version: 2\nName: a\n%r = abs minpoison minpoison %x\n=>\n%r = %x\n",
        source: "",
        status: 3,
        out: "",
        err: "rules: line 3: Syntax\n",
    },
    Row {
        words: VERIFY,
        rules: "Version: 2\nName: a\n%r = abs zeropoison %x\n=>\n%r = %x\n",
        source: "",
        status: 3,
        out: "",
        err: "rules: line 3: LeftOut zeropoison\n",
    },
    // `abs(` is the function in a target, and `abs (` the opcode.
    Row {
        words: "alive verify r --widths 2",
        rules: "Version: 2\nName: function\n%r = abs C\n=>\n%r = abs(C)\n\nName: opcode\n%r = abs C\n=>\n%r = abs (C)\n",
        source: "",
        status: 0,
        out: "function [2]: admitted\nopcode [2]: admitted\n",
        err: "",
    },
];

#[test]
fn intrinsics_have_their_lines(rt: HostRuntime) -> Result<(), Fail> {
    all_leave(&rt, rt.alloc(), &ROWS)
}
