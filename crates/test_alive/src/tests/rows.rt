//! Commands, and what they write.

use super::*;

const ROWS: [Row; 15] = [
    // rules
    Row {
        words: OPTIMISE,
        rules: "Name: x",
        source: IDENTITY,
        status: 3,
        out: "",
        err: "rules: line 1: Syntax\n",
    },
    Row {
        words: OPTIMISE,
        rules: "; a rule\n\nName: a\n%r = or i1 %x, 0\n=>\n%r = %x\n",
        source: IDENTITY,
        status: 0,
        out: IDENTITY,
        err: "@f: 0 rewrites\n",
    },
    Row {
        words: VERIFY,
        rules: "Name: a\n%r = or i1 %x, 0\n=>\n%r = %y\n",
        source: "",
        status: 3,
        out: "",
        err: "rules: line 4: Unbound\n",
    },
    Row {
        words: VERIFY,
        rules: "Name: bad\n%a = and %x, undef\n%r = add %a, 1\n=>\n%r = %x\n",
        source: "",
        status: 3,
        out: "",
        err: "rules: line 2: UndefInside\n",
    },
    Row {
        words: VERIFY,
        rules: "Name: and-undef\n%r = and %x, undef\n=>\n%r = 0\n",
        source: "",
        status: 3,
        out: "",
        err: "rules: line 1: WitnessCount\n",
    },
    // verdicts
    Row {
        words: VERIFY,
        rules: XOR_SELF,
        source: "",
        status: 0,
        out: "xor-self [4]: admitted\n",
        err: "",
    },
    Row {
        words: "alive verify r --widths 1 --conflicts 0",
        rules: OR_ZERO,
        source: "",
        status: 1,
        out: "or-zero [1]: refuted\n  %x = 1\n  source 1\n  target 0\n",
        err: "",
    },
    Row {
        words: "alive verify r --widths 0-3",
        rules: XOR_SELF,
        source: "",
        status: 2,
        out: "",
        err: "error: widths 0-3\n",
    },
    Row {
        words: "alive verify r --widths 5-4",
        rules: XOR_SELF,
        source: "",
        status: 2,
        out: "",
        err: "error: widths 5-4\n",
    },
    // modules
    Row {
        words: OPTIMISE,
        rules: "; none\n",
        source: IDENTITY,
        status: 0,
        out: IDENTITY,
        err: "@f: 0 rewrites\n",
    },
    Row {
        words: OPTIMISE,
        rules: "\t; none\n\r\n",
        source: "define i8 @f() { ret i8 255 } ; -1\ndefine i1 @g() {\n  ret i1 1 }define i64 @h() { ret i64 9223372036854775808 }",
        status: 0,
        out: "define i8 @f() {\n  ret i8 -1\n}\n\ndefine i1 @g() {\n  ret i1 true\n}\n\ndefine i64 @h() {\n  ret i64 -9223372036854775808\n}\n",
        err: "@f: 0 rewrites\n@g: 0 rewrites\n@h: 0 rewrites\n",
    },
    Row {
        words: OPTIMISE,
        rules: "",
        source: "define i8 @f(i8 %0, i8 %x) {\n%2 = add i8 %0, 200\n%y = sub i8 %2,%x\nret i8 %y }",
        status: 0,
        out: "define i8 @f(i8 %0, i8 %x) {\n  %2 = add i8 %0, -56\n  %y = sub i8 %2, %x\n  ret i8 %y\n}\n",
        err: "@f: 0 rewrites\n",
    },
    Row {
        words: OPTIMISE,
        rules: "",
        source: "define i8 @f(i8 %a) {\n  %1 = add i8 %a, 1\n  %2 = sub i8 undef, 2\n  ret i8 %2\n}\n",
        status: 0,
        out: "define i8 @f(i8 %a) {\n  %1 = sub i8 undef, 2\n  ret i8 %1\n}\n",
        err: "@f: 0 rewrites\n",
    },
    Row {
        words: OPTIMISE,
        rules: "",
        source: "define i8 @f(i8 %a) {\n  %x = add i8 %a, 1\n  %y = xor i8 %a, 3\n  %z = and i8 7, %x\n  %w = sub i8 %y, 1\n  %v = sub i8 %z, %a\n  ret i8 %v\n}\n",
        status: 0,
        out: "define i8 @f(i8 %a) {\n  %x = add i8 %a, 1\n  %z = and i8 7, %x\n  %v = sub i8 %z, %a\n  ret i8 %v\n}\n",
        err: "@f: 0 rewrites\n",
    },
    // faults
    Row {
        words: "alive optimise r m.ll",
        rules: "",
        source: IDENTITY,
        status: 5,
        out: "",
        err: "read fault: m.ll\n",
    },
];

#[test]
fn commands_leave_what_they_say(rt: HostRuntime) -> Result<(), Fail> {
    all_leave(&rt, rt.alloc(), &ROWS)
}
