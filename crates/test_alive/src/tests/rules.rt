//! Rules that `verify` decides, and the lines that it prints. Where there are two counterexamples, either may be
//! printed.

use super::*;

pub(super) const MUL_ADD: &str =
    "Name: mul-add\n%a = add %x, %y\n%r = mul %a, %z\n=>\n%p = mul %x, %z\n%q = mul %y, %z\n%r = add %p, %q\n";

const OR_XOR: &str =
    "Name: or-xor\n%o = or %x, %y\n%n = and %x, %y\n%r = xor %o, %n\n=>\n%r = xor %x, %y\n";

pub(super) const ADD_SELF: &str = "Name: add-self\n%r = add nsw %x, %x\n=>\n%r = shl nsw %x, 1\n";

pub(super) const MUL_TWO: &str = "Name: mul-two\n%r = mul %x, 2\n=>\n%r = shl %x, 1\n";

pub(super) const OR_ADD: &str = "Name: or-add\n%r = or disjoint %x, %y\n=>\n%r = add nuw %x, %y\n";

pub(super) const SEL_INC: &str =
    "Name: sel-inc\n%t = add %x, 1\n%r = select %c, %x, %t\n=>\n%u = sub %t, 1\n%r = select %c, %u, %t\n";

const ROWS: [Row; 23] = [
    Row {
        words: "alive verify r --widths 1-5",
        rules: OR_ADD,
        source: "",
        status: 0,
        out: "or-add [1]: admitted\nor-add [2]: admitted\nor-add [3]: admitted\nor-add [4]: admitted\nor-add [5]: admitted\n",
        err: "",
    },
    Row {
        words: "alive verify r --widths 1-3",
        rules: "Name: zext-sext\n%r = zext nneg %x\n=>\n%r = sext %x\n",
        source: "",
        status: 0,
        out: "zext-sext [2 1]: admitted\nzext-sext [3 1]: admitted\nzext-sext [3 2]: admitted\n",
        err: "",
    },
    Row {
        words: "alive verify r --widths 1-3",
        rules: "Name: cut-back\n%t = trunc nuw %x\n%r = zext %t\n=>\n%r = %x\n",
        source: "",
        status: 0,
        out: "cut-back [1 2]: admitted\ncut-back [1 3]: admitted\ncut-back [2 3]: admitted\n",
        err: "",
    },
    Row {
        words: "alive verify r --widths 1-5",
        rules: "Name: same\n%r = icmp samesign slt %x, %y\n=>\n%r = icmp ult %x, %y\n",
        source: "",
        status: 0,
        out: "same [1 1]: admitted\nsame [1 2]: admitted\nsame [1 3]: admitted\nsame [1 4]: admitted\nsame [1 5]: admitted\n",
        err: "",
    },
    Row {
        words: "alive verify r --widths 16 --conflicts 1",
        rules: MUL_ADD,
        source: "",
        status: 1,
        out: "mul-add [16]: budget\n",
        err: "",
    },
    Row {
        words: "alive verify r --widths 2 --conflicts 1",
        rules: MUL_ADD,
        source: "",
        status: 0,
        out: "mul-add [2]: admitted\n",
        err: "",
    },
    Row {
        words: "alive verify r --widths 16",
        rules: OR_XOR,
        source: "",
        status: 0,
        out: "or-xor [16]: admitted\n",
        err: "",
    },
    Row {
        words: "alive verify r --widths 1-2",
        rules: ADD_SELF,
        source: "",
        status: 1,
        out: "add-self [1]: refuted\n  %x = 0\n  source 0\n  target poison\nadd-self [2]: admitted\n",
        err: "",
    },
    Row {
        words: VERIFY,
        rules: "Name: select-or\n%r = select i1 %c, true, %y\n=>\n%r = or %c, %y\n",
        source: "",
        status: 1,
        out: "select-or [1]: refuted\n  %c = 1\n  %y = poison\n  source 1\n  target poison\n",
        err: "",
    },
    Row {
        words: "alive verify r --widths 1-8",
        rules: "Name: div-self\n%r = udiv %x, %x\n=>\n%r = 1\n",
        source: "",
        status: 0,
        out: "div-self [1]: admitted\ndiv-self [2]: admitted\ndiv-self [3]: admitted\ndiv-self [4]: admitted\ndiv-self [5]: admitted\ndiv-self [6]: admitted\ndiv-self [7]: admitted\ndiv-self [8]: admitted\n",
        err: "",
    },
    Row {
        words: "alive verify r --widths 1",
        rules: MUL_TWO,
        source: "",
        status: 0,
        out: "",
        err: "",
    },
    Row {
        words: "alive verify r --widths 1-8",
        rules: "Name: div-neg\n%r = sdiv %x, -1\n=>\n%r = sub 0, %x\n",
        source: "",
        status: 0,
        out: "div-neg [1]: admitted\ndiv-neg [2]: admitted\ndiv-neg [3]: admitted\ndiv-neg [4]: admitted\ndiv-neg [5]: admitted\ndiv-neg [6]: admitted\ndiv-neg [7]: admitted\ndiv-neg [8]: admitted\n",
        err: "",
    },
    Row {
        words: "alive verify r --widths 1-17",
        rules: "Name: three-zero\n%a = icmp eq %x, 0\n%b = icmp eq %y, 0\n%c = icmp eq %z, 0\n%d = and %a, %b\n%r = and %d, %c\n=>\n%r = and %c, %d\n",
        source: "",
        status: 1,
        out: "three-zero: too many typings\n",
        err: "",
    },
    Row {
        words: "alive verify r --widths 1-4",
        rules: SEL_INC,
        source: "",
        status: 0,
        out: "sel-inc [1 1]: admitted\nsel-inc [2 1]: admitted\nsel-inc [3 1]: admitted\nsel-inc [4 1]: admitted\n",
        err: "",
    },
    Row {
        words: "alive verify r --widths 1-5",
        rules: NOT_ADD,
        source: "",
        status: 0,
        out: "not-add [1]: admitted\nnot-add [2]: admitted\nnot-add [3]: admitted\nnot-add [4]: admitted\nnot-add [5]: admitted\n",
        err: "",
    },
    Row {
        words: "alive verify r --widths 3",
        rules: "Name: shl-sdiv\nPre: C1 == 2 && C2 == -4 && C2 % (1<<C1) == 0\n%s = shl nsw %X, C1\n%r = sdiv %s, C2\n=>\n%r = sdiv %X, C2/(1<<C1)\n",
        source: "",
        status: 1,
        out: "shl-sdiv [3]: refuted\n  %X = 7\n  C1 = 2\n  C2 = 4\n  source 1\n  target 7\n",
        err: "",
    },
    Row {
        words: "alive verify r --widths 1-5",
        rules: "Name: mul-pow\n%r = mul %x, C\n=>\n%r = shl %x, log2(C)\n",
        source: "",
        status: 0,
        out: "mul-pow [1]: admitted\nmul-pow [2]: admitted\nmul-pow [3]: admitted\nmul-pow [4]: admitted\nmul-pow [5]: admitted\n",
        err: "",
    },
    Row {
        words: "alive verify r --widths 4",
        rules: "Name: mul-pow-nsw\n%r = mul nsw %x, C\n=>\n%r = shl nsw %x, log2(C)\n",
        source: "",
        status: 1,
        out: "mul-pow-nsw [4]: refuted\n  %x = 1\n  C = 8\n  source 8\n  target poison\n",
        err: "",
    },
    Row {
        words: "alive verify r --widths 4",
        rules: "Name: and-undef\nWit: 0\n%r = and %x, undef\n=>\n%r = 0\n",
        source: "",
        status: 0,
        out: "and-undef [4]: admitted\n",
        err: "",
    },
    Row {
        words: "alive verify r --widths 1",
        rules: "Name: and-undef\nWit: -1\n%r = and %x, undef\n=>\n%r = 0\n",
        source: "",
        status: 1,
        out: "and-undef [1]: witness fails\n  %x = 1\n  u1 = 1\n  source 1\n  target 0\n",
        err: "",
    },
    Row {
        words: "alive verify r --widths 4",
        rules: "Name: xor-undef\nWit: %x ^ t1\n%r = xor %x, undef\n=>\n%r = or undef, 0\n",
        source: "",
        status: 0,
        out: "xor-undef [4]: admitted\n",
        err: "",
    },
    // 13 input bits
    Row {
        words: "alive verify r --widths 12 --conflicts 0",
        rules: "Name: xor-self\n%r = xor %x, %x\n=>\n%r = 0\n",
        source: "",
        status: 0,
        out: "xor-self [12]: admitted\n",
        err: "",
    },
    Row {
        words: "alive verify r --widths 12",
        rules: "Name: xor-self\n%r = xor %x, %x\n=>\n%r = 0\n",
        source: "",
        status: 0,
        out: "xor-self [12]: admitted\n",
        err: "",
    },
];

#[test]
fn rules_have_their_lines(rt: HostRuntime) -> Result<(), Fail> {
    all_leave(&rt, rt.alloc(), &ROWS)
}

const NEG_DIV: &str = "Name: neg-div\n%r = sub 0, %x\n=>\n%r = sdiv %x, -1\n";

/// The two counterexamples of this rule, of which either may be printed.
const EITHER: [Row; 2] = [
    Row {
        words: "alive verify r --widths 8",
        rules: NEG_DIV,
        source: "",
        status: 1,
        out: "neg-div [8]: refuted\n  %x = 128\n  source 128\n  target undefined\n",
        err: "",
    },
    Row {
        words: "alive verify r --widths 8",
        rules: NEG_DIV,
        source: "",
        status: 1,
        out: "neg-div [8]: refuted\n  %x = poison\n  source poison\n  target undefined\n",
        err: "",
    },
];

#[test]
fn one_of_two_counterexamples_is_printed(rt: HostRuntime) -> Result<(), Fail> {
    let first = leaves(rt.alloc(), &EITHER[0])?;
    let second = leaves(rt.alloc(), &EITHER[1])?;
    assert!(rt; first || second);
    Ok(())
}
