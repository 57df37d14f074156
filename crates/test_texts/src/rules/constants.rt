//! Rules with constants, preconditions, constant terms and `undef`. The refuted ones were worked out by hand, and have
//! one counterexample each; the verdicts on the others are those of a separate program that enumerated all settings.

use super::verdicts::lines;
use std::test::Fail;

/// A rule, the least and the greatest of the widths, and the lines of the verdicts.
const ROWS: [(&str, u32, u32, &str); 20] = [
    (
        "Name: not-add\n%1 = xor %x, -1\n%2 = add %1, C\n=>\n%2 = sub C-1, %x\n",
        1,
        4,
        "not-add [1]: admitted\nnot-add [2]: admitted\nnot-add [3]: admitted\nnot-add [4]: admitted\n",
    ),
    // 0 and 7 alone can be shifted by 2 without poison
    (
        "Name: shl-sdiv\nPre: C1 == 2 && C2 == -4 && C2 % (1<<C1) == 0\n%s = shl nsw %X, C1\n%r = sdiv %s, C2\n=>\n%r = sdiv %X, C2/(1<<C1)\n",
        3,
        3,
        "shl-sdiv [3]: refuted\n  %X = 7\n  C1 = 2\n  C2 = 4\n  source 1\n  target 7\n",
    ),
    // where C is no power of two, `log2` has no value, and the precondition is false
    (
        "Name: mul-pow\n%r = mul %x, C\n=>\n%r = shl %x, log2(C)\n",
        1,
        4,
        "mul-pow [1]: admitted\nmul-pow [2]: admitted\nmul-pow [3]: admitted\nmul-pow [4]: admitted\n",
    ),
    // 8 is -8
    (
        "Name: mul-pow-nsw\n%r = mul nsw %x, C\n=>\n%r = shl nsw %x, log2(C)\n",
        4,
        4,
        "mul-pow-nsw [4]: refuted\n  %x = 1\n  C = 8\n  source 8\n  target poison\n",
    ),
    (
        "Name: and-undef\nWit: 0\n%r = and %x, undef\n=>\n%r = 0\n",
        4,
        4,
        "and-undef [4]: admitted\n",
    ),
    (
        "Name: and-undef\nWit: -1\n%r = and %x, undef\n=>\n%r = 0\n",
        1,
        1,
        "and-undef [1]: witness fails\n  %x = 1\n  u1 = 1\n  source 1\n  target 0\n",
    ),
    (
        "Name: xor-undef\nWit: %x ^ t1\n%r = xor %x, undef\n=>\n%r = or undef, 0\n",
        4,
        4,
        "xor-undef [4]: admitted\n",
    ),
    // the precondition holds where C is 1, and the counterexample is where all are 1
    (
        "Name: and-not\nPre: isPowerOf2(C) || C == 1\nWit: %x | t1\n%t = and %x, C\n%r = xor %t, undef\n=>\n%s = and %x, ~C\n%r = xor %s, undef\n",
        1,
        1,
        "and-not [1]: witness fails\n  %x = 1\n  C = 1\n  t1 = 1\n  u1 = 1\n  source 0\n  target 1\n",
    ),
    // a division by 0 has no value, so 0 is chosen, which is what `and` gives
    (
        "Name: no-quotient\nWit: %x /u t1\n%r = xor %x, undef\n=>\n%a = and %x, undef\n%r = xor %x, %a\n",
        1,
        1,
        "no-quotient [1]: admitted\n",
    ),
    // an input that is poison counts as 0 in `Wit:`, so 1 is chosen there, too
    (
        "Name: poison-as-0\nWit: %x | 1\n%r = select %c, undef, %x\n=>\n%r = select %c, 1, %x\n",
        1,
        1,
        "poison-as-0 [1 1]: admitted\n",
    ),
    (
        "Name: r\n%r = sub %x, C\n=>\n%r = add %x, -C\n",
        1,
        4,
        "r [1]: admitted\nr [2]: admitted\nr [3]: admitted\nr [4]: admitted\n",
    ),
    (
        "Name: r\n%p = shl %x, C2\n%r = mul %p, C1\n=>\n%r = mul %x, C1 << C2\n",
        1,
        4,
        "r [1]: admitted\nr [2]: admitted\nr [3]: admitted\nr [4]: admitted\n",
    ),
    (
        "Name: r\nPre: (C1 * C2) /u C1 != C2\n%p = udiv %x, C1\n%r = udiv %p, C2\n=>\n%r = 0\n",
        1,
        3,
        "r [1]: admitted\nr [2]: admitted\nr [3]: admitted\n",
    ),
    (
        "Name: r\nPre: isPowerOf2(C)\n%r = udiv exact %x, C\n=>\n%r = lshr exact %x, log2(C)\n",
        1,
        4,
        "r [1]: admitted\nr [2]: admitted\nr [3]: admitted\nr [4]: admitted\n",
    ),
    (
        "Name: r\nPre: C1 u< width(%x) - 1 && C2 % (1<<C1) == 0 && C2 / (1<<C1) != -1\n%s = shl nsw %x, C1\n%r = sdiv %s, C2\n=>\n%r = sdiv %x, C2/(1<<C1)\n",
        1,
        3,
        "r [1]: admitted\nr [2]: admitted\nr [3]: admitted\n",
    ),
    (
        "Name: r\nPre: C < 0\n%r = urem %x, C\n=>\n%c = icmp ult %x, C\n%s = sub %x, C\n%r = select %c, %x, %s\n",
        1,
        4,
        "r [1 1]: admitted\nr [2 1]: admitted\nr [3 1]: admitted\nr [4 1]: admitted\n",
    ),
    (
        "Name: r\nPre: hasOneUse(%a)\n%a = xor %x, C1\n%r = and %a, C2\n=>\n%b = and %x, C2\n%r = xor %b, C1 & C2\n",
        1,
        4,
        "r [1]: admitted\nr [2]: admitted\nr [3]: admitted\nr [4]: admitted\n",
    ),
    (
        "Name: r\nPre: C == width(%x) - 1\n%r = lshr %x, C\n=>\n%c = icmp slt %x, 0\n%r = zext %c\n",
        1,
        4,
        "r [2 1]: admitted\nr [3 1]: admitted\nr [4 1]: admitted\n",
    ),
    (
        "Name: r\nPre: C1 == C2 + 1 && C2 != -1 && !isSignBit(C1)\n%c = icmp slt %x, C1\n%r = select %c, %x, C2\n=>\n%d = icmp slt %x, C2\n%r = select %d, %x, C2\n",
        1,
        4,
        "r [1 1 1]: admitted\nr [1 2 1]: admitted\nr [1 3 1]: admitted\nr [1 4 1]: admitted\n",
    ),
    (
        "Name: r\n%c = icmp slt %x, 0\n%r = zext %c\n=>\n%r = lshr %x, width(%x)-1\n",
        1,
        4,
        "r [1 2]: admitted\nr [1 3]: admitted\nr [1 4]: admitted\n",
    ),
];

#[test]
fn constants_have_their_verdicts(rt: HostRuntime) -> Result<(), Fail> {
    for (rule, least, most, wanted) in &ROWS {
        let found = lines(rt.alloc(), rule, *least, *most)?;
        assert!(rt; found.as_slice() == wanted.as_bytes(), "{rule}");
    }
    Ok(())
}
