//! What preconditions of version 2 say of bits: rules that are decided where it holds, texts in which it may not stand,
//! and functions in which it is known, or not.

use super::*;

const MASKED: &str =
    "Version: 2\nName: or-known\nPre: MaskedValueIsZero(%x, C)\n%r = or %x, C\n=>\n%r = add %x, C\n";

const NON_ZERO: &str =
    "Version: 2\nName: nonzero\nPre: isKnownNonZero(%x)\n%r = icmp eq %x, 0\n=>\n%r = 0\n";

const ROWS: [Row; 11] = [
    Row {
        words: "alive verify r --widths 1-5",
        rules: MASKED,
        source: "",
        status: 0,
        out: "or-known [1]: admitted\nor-known [2]: admitted\nor-known [3]: admitted\nor-known [4]: admitted\nor-known [5]: admitted\n",
        err: "",
    },
    Row {
        words: "alive verify r --widths 1-5",
        rules: NON_ZERO,
        source: "",
        status: 0,
        out: "nonzero [1 1]: admitted\nnonzero [1 2]: admitted\nnonzero [1 3]: admitted\nnonzero [1 4]: admitted\nnonzero [1 5]: admitted\n",
        err: "",
    },
    // The only counterexample that keeps what is said: 1 has no bit of 2.
    Row {
        words: "alive verify r --widths 2",
        rules: "Version: 2\nName: or-half\nPre: MaskedValueIsZero(%x, 2) && C == 1\n%r = or %x, C\n=>\n%r = add %x, C\n",
        source: "",
        status: 1,
        out: "or-half [2]: refuted\n  %x = 1\n  C = 1\n  source 1\n  target 2\n",
        err: "",
    },
    // What is said holds of poison.
    Row {
        words: "alive verify r --widths 1",
        rules: "Version: 2\nName: may-be-poison\nPre: isKnownNonZero(%x)\n%t = or %x, 1\n%r = select true, 1, %t\n=>\n%r = %x\n",
        source: "",
        status: 1,
        out: "may-be-poison [1 1]: refuted\n  %x = poison\n  source 1\n  target poison\n",
        err: "",
    },
    // Where a temporary is undefined behaviour the source is.
    Row {
        words: "alive verify r --widths 1-2",
        rules: "Version: 2\nName: temporary\nPre: isKnownNonZero(%t)\n%t = udiv %x, %y\n%r = icmp eq %t, 0\n=>\n%r = 0\n",
        source: "",
        status: 0,
        out: "temporary [1 1]: admitted\ntemporary [2 1]: admitted\n",
        err: "",
    },
    // In version 1 both are words like others.
    Row {
        words: VERIFY,
        rules: "Name: a\nPre: MaskedValueIsZero(%x, C)\n%r = or %x, C\n=>\n%r = add %x, C\n",
        source: "",
        status: 3,
        out: "",
        err: "rules: line 2: LeftOut MaskedValueIsZero\n",
    },
    // They stand in the outermost `&&` alone.
    Row {
        words: VERIFY,
        rules: "Version: 2\nName: a\nPre: MaskedValueIsZero(%x, C) || C == 1\n%r = or %x, C\n=>\n%r = add %x, C\n",
        source: "",
        status: 3,
        out: "",
        err: "rules: line 3: Syntax\n",
    },
    Row {
        words: VERIFY,
        rules: "Version: 2\nName: a\nPre: !isKnownNonZero(%x)\n%r = or %x, C\n=>\n%r = add %x, C\n",
        source: "",
        status: 3,
        out: "",
        err: "rules: line 3: Syntax\n",
    },
    Row {
        words: VERIFY,
        rules: "Version: 2\nName: a\n%r = or %x, isKnownNonZero\n=>\n%r = %x\n",
        source: "",
        status: 3,
        out: "",
        err: "rules: line 3: Syntax\n",
    },
    // Nothing is said of the root, nor of what isn't there.
    Row {
        words: VERIFY,
        rules: "Version: 2\nName: a\nPre: isKnownNonZero(%r)\n%r = or %x, C\n=>\n%r = add %x, C\n",
        source: "",
        status: 3,
        out: "",
        err: "rules: line 3: Unbound\n",
    },
    Row {
        words: VERIFY,
        rules: "Version: 2\nName: a\nPre: MaskedValueIsZero(%y, C)\n%r = or %x, C\n=>\n%r = add %x, C\n",
        source: "",
        status: 3,
        out: "",
        err: "rules: line 3: Unbound\n",
    },
];

#[test]
fn facts_have_their_lines(rt: HostRuntime) -> Result<(), Fail> {
    all_leave(&rt, rt.alloc(), &ROWS)
}

const MUL_FOUR: &str = "Version: 2
Name: or-known
Pre: MaskedValueIsZero(%x, C)
%r = or %x, C
=>
%r = add %x, C

Name: mul-four
%r = mul %x, 4
=>
%r = shl %x, 2
";

const SHL_TWO: &str = "Version: 2
Name: or-known
Pre: MaskedValueIsZero(%x, C)
%r = or %x, C
=>
%r = add %x, C

Name: shl-two
%r = shl %x, 2
=>
%r = mul %x, 4
";

const HALF: &str = "Version: 2
Name: half
Pre: MaskedValueIsZero(%t, C)
%t = lshr %x, 1
%r = and %t, C
=>
%r = 0
";

const HALF_KEPT: &str = "Version: 2
Name: half-kept
Pre: MaskedValueIsZero(%t, C)
%t = lshr %x, 1
%r = or %t, C
=>
%r = add %t, C
";

const FOUR_AND_THREE: &str = "Version: 2
Name: or-known
Pre: MaskedValueIsZero(%x, C)
%r = or %x, C
=>
%r = add %x, C

Name: four-and-three
%m = mul %x, 4
%r = add %m, 3
=>
%s = shl %x, 2
%r = or %s, 3
";

const APPLIED: [Row; 15] = [
    Row {
        words: OPTIMISE,
        rules: MASKED,
        source: "define i5 @f(i5 %a) {\n  %1 = shl i5 %a, 2\n  %2 = or i5 %1, 3\n  ret i5 %2\n}\n",
        status: 0,
        out: "define i5 @f(i5 %a) {\n  %1 = shl i5 %a, 2\n  %2 = add i5 %1, 3\n  ret i5 %2\n}\n",
        err: "or-known [5]: admitted\n@f: 1 rewrites\n",
    },
    Row {
        words: OPTIMISE,
        rules: MASKED,
        source: "define i5 @f(i5 %a) {\n  %1 = shl i5 %a, 2\n  %2 = or i5 %1, 5\n  ret i5 %2\n}\n",
        status: 0,
        out: "define i5 @f(i5 %a) {\n  %1 = shl i5 %a, 2\n  %2 = or i5 %1, 5\n  ret i5 %2\n}\n",
        err: "@f: 0 rewrites\n",
    },
    Row {
        words: OPTIMISE,
        rules: NON_ZERO,
        source: "define i1 @f(i4 %a) {\n  %1 = or i4 %a, 2\n  %2 = icmp eq i4 %1, 0\n  ret i1 %2\n}\n",
        status: 0,
        out: "define i1 @f(i4 %a) {\n  ret i1 false\n}\n",
        err: "nonzero [1 4]: admitted\n@f: 1 rewrites\n",
    },
    // A frozen poison may be any number.
    Row {
        words: OPTIMISE,
        rules: NON_ZERO,
        source: "define i1 @f(i4 %a) {\n  %1 = freeze i4 %a\n  %2 = icmp eq i4 %1, 0\n  ret i1 %2\n}\n",
        status: 0,
        out: "define i1 @f(i4 %a) {\n  %1 = freeze i4 %a\n  %2 = icmp eq i4 %1, 0\n  ret i1 %2\n}\n",
        err: "@f: 0 rewrites\n",
    },
    Row {
        words: OPTIMISE,
        rules: NON_ZERO,
        source: "define i1 @f(i4 %a) {\n  %1 = or i4 %a, 2\n  %2 = freeze i4 %1\n  %3 = icmp eq i4 %2, 0\n  ret i1 %3\n}\n",
        status: 0,
        out: "define i1 @f(i4 %a) {\n  %1 = or i4 %a, 2\n  %2 = freeze i4 %1\n  %3 = icmp eq i4 %2, 0\n  ret i1 %3\n}\n",
        err: "@f: 0 rewrites\n",
    },
    // An input may be a number; of poison nothing is known.
    Row {
        words: OPTIMISE,
        rules: MASKED,
        source: "define i5 @f(i5 %a) {\n  %1 = or i5 4, 3\n  ret i5 %1\n}\n",
        status: 0,
        out: "define i5 @f(i5 %a) {\n  %1 = add i5 4, 3\n  ret i5 %1\n}\n",
        err: "or-known [5]: admitted\n@f: 1 rewrites\n",
    },
    Row {
        words: OPTIMISE,
        rules: MASKED,
        source: "define i5 @f(i5 %a) {\n  %1 = or i5 poison, 3\n  ret i5 %1\n}\n",
        status: 0,
        out: "define i5 @f(i5 %a) {\n  %1 = or i5 poison, 3\n  ret i5 %1\n}\n",
        err: "@f: 0 rewrites\n",
    },
    // Of results of other blocks nothing is known, and of phis.
    Row {
        words: OPTIMISE,
        rules: MASKED,
        source: "define i5 @f(i5 %a) {\nentry:\n  %x = shl i5 %a, 2\n  br label %l\n\nl:\n  %r = or i5 %x, 3\n  ret i5 %r\n}\n",
        status: 0,
        out: "define i5 @f(i5 %a) {\nentry:\n  %x = shl i5 %a, 2\n  br label %l\n\nl:\n  %r = or i5 %x, 3\n  ret i5 %r\n}\n",
        err: "@f: 0 rewrites\n",
    },
    Row {
        words: OPTIMISE,
        rules: MASKED,
        source: "define i5 @f(i5 %a) {\nentry:\n  br label %l\n\nl:\n  %p = phi i5 [ 4, %entry ]\n  %r = or i5 %p, 3\n  ret i5 %r\n}\n",
        status: 0,
        out: "define i5 @f(i5 %a) {\nentry:\n  br label %l\n\nl:\n  %p = phi i5 [ 4, %entry ]\n  %r = or i5 %p, 3\n  ret i5 %r\n}\n",
        err: "@f: 0 rewrites\n",
    },
    // The bits of a temporary, whose instruction has more flags than its statement.
    Row {
        words: OPTIMISE,
        rules: HALF,
        source: "define i5 @f(i5 %a) {\n  %1 = lshr exact i5 %a, 1\n  %2 = and i5 %1, -16\n  ret i5 %2\n}\n",
        status: 0,
        out: "define i5 @f(i5 %a) {\n  ret i5 0\n}\n",
        err: "half [5]: admitted\n@f: 1 rewrites\n",
    },
    // Where the target names it, the instruction has no more.
    Row {
        words: OPTIMISE,
        rules: HALF_KEPT,
        source: "define i5 @f(i5 %a) {\n  %1 = lshr exact i5 %a, 1\n  %2 = or i5 %1, -16\n  %3 = lshr i5 %2, 1\n  %4 = or i5 %3, -16\n  ret i5 %4\n}\n",
        status: 0,
        out: "define i5 @f(i5 %a) {\n  %1 = lshr exact i5 %a, 1\n  %2 = or i5 %1, -16\n  %3 = lshr i5 %2, 1\n  %4 = add i5 %3, -16\n  ret i5 %4\n}\n",
        err: "half-kept [5]: admitted\n@f: 1 rewrites\n",
    },
    // Bits that a rewrite makes known, of what reads its result too.
    Row {
        words: OPTIMISE,
        rules: MUL_FOUR,
        source: "define i5 @f(i5 %a) {\n  %1 = mul i5 %a, 4\n  %2 = and i5 %1, 15\n  %3 = or i5 %2, 3\n  ret i5 %3\n}\n",
        status: 0,
        out: "define i5 @f(i5 %a) {\n  %1 = shl i5 %a, 2\n  %2 = and i5 %1, 15\n  %3 = add i5 %2, 3\n  ret i5 %3\n}\n",
        err: "mul-four [5]: admitted\nor-known [5]: admitted\n@f: 2 rewrites\n",
    },
    // What is rewritten by its operand's bits may be an operand of what is rewritten next.
    Row {
        words: OPTIMISE,
        rules: MUL_FOUR,
        source: "define i5 @f(i5 %a) {\n  %1 = mul i5 %a, 4\n  %2 = or i5 %1, 3\n  %3 = mul i5 %2, 4\n  ret i5 %3\n}\n",
        status: 0,
        out: "define i5 @f(i5 %a) {\n  %1 = shl i5 %a, 2\n  %2 = add i5 %1, 3\n  %3 = shl i5 %2, 2\n  ret i5 %3\n}\n",
        err: "mul-four [5]: admitted\nor-known [5]: admitted\n@f: 3 rewrites\n",
    },
    // The bits of an instruction that a rewrite puts in.
    Row {
        words: OPTIMISE,
        rules: FOUR_AND_THREE,
        source: "define i5 @f(i5 %a) {\n  %1 = mul i5 %a, 4\n  %2 = add i5 %1, 3\n  ret i5 %2\n}\n",
        status: 0,
        out: "define i5 @f(i5 %a) {\n  %1 = shl i5 %a, 2\n  %2 = add i5 %1, 3\n  ret i5 %2\n}\n",
        err: "four-and-three [5]: admitted\nor-known [5]: admitted\n@f: 2 rewrites\n",
    },
    // Bits that a rewrite makes unknown.
    Row {
        words: OPTIMISE,
        rules: SHL_TWO,
        source: "define i5 @f(i5 %a) {\n  %1 = shl i5 %a, 2\n  %2 = or i5 %1, 3\n  ret i5 %2\n}\n",
        status: 0,
        out: "define i5 @f(i5 %a) {\n  %1 = mul i5 %a, 4\n  %2 = or i5 %1, 3\n  ret i5 %2\n}\n",
        err: "shl-two [5]: admitted\n@f: 1 rewrites\n",
    },
];

#[test]
fn rules_with_facts_are_applied(rt: HostRuntime) -> Result<(), Fail> {
    all_leave(&rt, rt.alloc(), &APPLIED)
}
