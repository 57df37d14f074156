//! Rules with freezes, whose verdicts were worked out by hand.

use super::verdicts::lines_in_version_2;
use std::test::Fail;

/// A rule of version 2, the least and the greatest of the widths, and the lines of the verdicts; a rule with more than
/// one counterexample has them as cases of their own.
const ROWS: [(&str, u32, u32, &str); 16] = [
    (
        "Name: sel-freeze\n%r = select %c, %y, false\n=>\n%f = freeze %y\n%r = and %c, %f\n",
        1,
        8,
        "sel-freeze [1]: admitted\n",
    ),
    (
        "Name: sel-or\n%r = select %c, true, %y\n=>\n%f = freeze %y\n%r = or %c, %f\n",
        1,
        8,
        "sel-or [1]: admitted\n",
    ),
    (
        "Name: freeze-id\nWit: 0\n%r = freeze %x\n=>\n%r = %x\n",
        1,
        1,
        "freeze-id [1]: witness fails\n  %x = poison\n  u1 = 0\n  source 0\n  target poison\n",
    ),
    (
        "Name: refreeze\nWit: t1\n%r = freeze %x\n=>\n%r = freeze %x\n",
        1,
        5,
        "refreeze [1]: admitted\nrefreeze [2]: admitted\nrefreeze [3]: admitted\nrefreeze [4]: admitted\nrefreeze [5]: admitted\n",
    ),
    // the number of the source's freeze of poison has to be that of the target's
    (
        "Name: chosen\nWit: 0\n%r = freeze %x\n=>\n%r = freeze %x\n",
        1,
        1,
        "chosen [1]: witness fails\n  %x = poison\n  t1 = 1\n  u1 = 0\n  source 0\n  target 1\n",
    ),
    // a freeze of a number makes no choice
    (
        "Name: constant\nWit: ~C\n%r = freeze C\n=>\n%r = C\n",
        1,
        2,
        "constant [1]: admitted\nconstant [2]: admitted\n",
    ),
    (
        "Name: literal\nWit: 0\n%r = freeze i4 3\n=>\n%r = 4\n",
        4,
        4,
        "literal [4]: witness fails\n  u1 = 0\n  source 3\n  target 4\n",
    ),
    // a freeze pushed through an operation that makes no poison
    (
        "Name: pushed\nWit: t1 + C\n%a = add %x, C\n%r = freeze %a\n=>\n%f = freeze %x\n%r = add %f, C\n",
        1,
        3,
        "pushed [1]: admitted\npushed [2]: admitted\npushed [3]: admitted\n",
    ),
    // and through one that does
    (
        "Name: kept\nWit: 0\n%a = add nuw i1 %x, 1\n%r = freeze %a\n=>\n%f = freeze %x\n%r = add nuw %f, 1\n",
        1,
        1,
        "kept [1]: witness fails\n",
    ),
    // one freeze gives one number; two freezes of one register may give two
    (
        "Name: once\n%r = select true, i1 0, %x\n=>\n%a = freeze %x\n%r = xor %a, %a\n",
        1,
        1,
        "once [1 1]: admitted\n",
    ),
    (
        "Name: twice\n%r = select true, i1 0, %x\n=>\n%a = freeze %x\n%b = freeze %x\n%n = xor %b, 1\n%r = and %a, %n\n",
        1,
        1,
        "twice [1 1]: refuted\n  %x = poison\n  t1 = 1\n  t2 = 0\n  source 0\n  target 1\n",
    ),
    // only one arm is poison
    (
        "Name: arm\n%r = select %c, i1 %x, 0\n=>\n%f = freeze %x\n%r = select %c, %f, 0\n",
        1,
        1,
        "arm [1 1]: admitted\n",
    ),
    // a poison condition is none of the choices
    (
        "Name: condition\nWit: 0\n%s = select %c, i1 %x, 0\n%r = freeze %s\n=>\n%f = freeze %x\n%r = select %c, %f, 0\n",
        1,
        1,
        "condition [1 1]: witness fails\n",
    ),
    // choices are numbered in the order of the text, also an `undef` behind a freeze
    (
        "Name: second\nWit: t2\n%r = xor %x, undef\n=>\n%a = freeze %x\n%b = or undef, 0\n%r = xor %a, %b\n",
        1,
        3,
        "second [1]: admitted\nsecond [2]: admitted\nsecond [3]: admitted\n",
    ),
    (
        "Name: first\nWit: t1\n%r = xor %x, undef\n=>\n%b = or undef, 0\n%a = freeze %x\n%r = xor %a, %b\n",
        1,
        3,
        "first [1]: admitted\nfirst [2]: admitted\nfirst [3]: admitted\n",
    ),
    // what is chosen for the source has no part in how the target uses the register
    (
        "Name: poisoned\nWit: 1\n%r = freeze i1 %x\n=>\n%a = freeze %x\n%r = or %a, %x\n",
        1,
        1,
        "poisoned [1]: witness fails\n",
    ),
];

#[test]
fn freezes_have_their_verdicts(rt: HostRuntime) -> Result<(), Fail> {
    for (rule, least, most, wanted) in &ROWS {
        let found = lines_in_version_2(rt.alloc(), rule, *least, *most)?;
        assert!(rt; found.as_slice().starts_with(wanted.as_bytes()), "{rule}");
    }
    Ok(())
}
