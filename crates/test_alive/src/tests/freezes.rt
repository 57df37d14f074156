//! Rules of version 2, in which `freeze` stands: verified, applied and refused.

use super::*;

const SEL_FREEZE: &str =
    "Version: 2\nName: sel-freeze\n%r = select %c, %y, false\n=>\n%f = freeze %y\n%r = and %c, %f\n";

const REFREEZE: &str = "Version: 2\nName: refreeze\nWit: t1\n%r = freeze %x\n=>\n%r = freeze %x\n";

const ROWS: [Row; 14] = [
    Row {
        words: VERIFY,
        rules: SEL_FREEZE,
        source: "",
        status: 0,
        out: "sel-freeze [1]: admitted\n",
        err: "",
    },
    Row {
        words: OPTIMISE,
        rules: SEL_FREEZE,
        source: "define i1 @f(i1 %c, i1 %y) {\n  %r = select i1 %c, i1 %y, i1 false\n  ret i1 %r\n}\n",
        status: 0,
        out: "define i1 @f(i1 %c, i1 %y) {\n  %1 = freeze i1 %y\n  %r = and i1 %c, %1\n  ret i1 %r\n}\n",
        err: "sel-freeze [1]: admitted\n@f: 1 rewrites\n",
    },
    Row {
        words: "alive verify r --widths 1",
        rules: "Version: 2\nName: freeze-id\nWit: 0\n%r = freeze %x\n=>\n%r = %x\n",
        source: "",
        status: 1,
        out: "freeze-id [1]: witness fails\n  %x = poison\n  u1 = 0\n  source 0\n  target poison\n",
        err: "",
    },
    Row {
        words: "alive verify r --widths 1-5",
        rules: REFREEZE,
        source: "",
        status: 0,
        out: "refreeze [1]: admitted\nrefreeze [2]: admitted\nrefreeze [3]: admitted\nrefreeze [4]: admitted\nrefreeze [5]: admitted\n",
        err: "",
    },
    Row {
        words: "alive optimise r m --steps 3",
        rules: REFREEZE,
        source: "define i5 @z(i5 %a) {\n  %1 = freeze i5 %a\n  ret i5 %1\n}\n",
        status: 0,
        out: "define i5 @z(i5 %a) {\n  %1 = freeze i5 %a\n  ret i5 %1\n}\n",
        err: "refreeze [5]: admitted\n@z: 3 rewrites, limit\n",
    },
    // A file of version 1, and one of an unknown version.
    Row {
        words: VERIFY,
        rules: "Name: sel-freeze\n%r = select %c, %y, false\n=>\n%f = freeze %y\n%r = and %c, %f\n",
        source: "",
        status: 3,
        out: "",
        err: "rules: line 4: LeftOut freeze\n",
    },
    Row {
        words: VERIFY,
        rules: "Version: 3\nName: sel-freeze\n%r = select %c, %y, false\n=>\n%f = freeze %y\n%r = and %c, %f\n",
        source: "",
        status: 3,
        out: "",
        err: "rules: line 1: LeftOut 3\n",
    },
    // A freeze before the root, one of `undef`, and one without an expression in `Wit:`.
    Row {
        words: VERIFY,
        rules: "Version: 2\nName: a\nWit: 0\n%a = freeze %x\n%r = add %a, 1\n=>\n%r = %x\n",
        source: "",
        status: 3,
        out: "",
        err: "rules: line 4: UndefInside\n",
    },
    Row {
        words: VERIFY,
        rules: "Version: 2\nName: a\n%r = add %x, 1\n=>\n%f = freeze undef\n%r = add %x, %f\n",
        source: "",
        status: 3,
        out: "",
        err: "rules: line 5: UndefInside\n",
    },
    Row {
        words: VERIFY,
        rules: "Version: 2\nName: a\n%r = freeze %x\n=>\n%r = %x\n",
        source: "",
        status: 3,
        out: "",
        err: "rules: line 2: WitnessCount\n",
    },
    // Without the freeze, the arm that isn't chosen may be poison.
    Row {
        words: VERIFY,
        rules: "Version: 2\nName: sel-and\n%r = select %c, %y, false\n=>\n%r = and %c, %y\n",
        source: "",
        status: 1,
        out: "sel-and [1]: refuted\n  %c = 0\n  %y = poison\n  source 0\n  target poison\n",
        err: "",
    },
    // A frozen number is itself, but operations on it may make poison.
    Row {
        words: "alive verify r --widths 1-2",
        rules: "Version: 2\nName: of-constant\n%r = or %x, C\n=>\n%f = freeze C\n%r = or %x, %f\n",
        source: "",
        status: 0,
        out: "of-constant [1]: admitted\nof-constant [2]: admitted\n",
        err: "",
    },
    Row {
        words: "alive verify r --widths 1",
        rules: "Version: 2\nName: thawed\nWit: 0\n%a = add nuw C, 1\n%r = freeze %a\n=>\n%r = add nuw C, 1\n",
        source: "",
        status: 1,
        out: "thawed [1]: witness fails\n  C = 1\n  u1 = 0\n  source 0\n  target poison\n",
        err: "",
    },
    // Where the source is poison, the target may be, too.
    Row {
        words: "alive verify r --widths 1-2",
        rules: "Version: 2\nName: add-freeze\n%r = add %x, 0\n=>\n%r = freeze %x\n",
        source: "",
        status: 0,
        out: "add-freeze [1]: admitted\nadd-freeze [2]: admitted\n",
        err: "",
    },
];

#[test]
fn freezes_have_their_lines(rt: HostRuntime) -> Result<(), Fail> {
    all_leave(&rt, rt.alloc(), &ROWS)
}

const OTHER_ARM: &str =
    "Version: 2\nName: other-arm\n%r = select %c, %y, false\n=>\n%f = freeze %c\n%r = and %f, %y\n";

/// The two counterexamples of this rule, which freezes the condition.
const EITHER: [Row; 2] = [
    Row {
        words: VERIFY,
        rules: OTHER_ARM,
        source: "",
        status: 1,
        out: "other-arm [1]: refuted\n  %c = 0\n  %y = poison\n  t1 = 0\n  source 0\n  target poison\n",
        err: "",
    },
    Row {
        words: VERIFY,
        rules: OTHER_ARM,
        source: "",
        status: 1,
        out: "other-arm [1]: refuted\n  %c = 0\n  %y = poison\n  t1 = 1\n  source 0\n  target poison\n",
        err: "",
    },
];

#[test]
fn a_choice_that_does_not_matter_is_printed(rt: HostRuntime) -> Result<(), Fail> {
    let first = leaves(rt.alloc(), &EITHER[0])?;
    let second = leaves(rt.alloc(), &EITHER[1])?;
    assert!(rt; first || second);
    Ok(())
}
