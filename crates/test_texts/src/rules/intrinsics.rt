//! Rules with integer intrinsics: verdicts, faults and files, worked out by hand.

use super::verdicts::{lines_in_version_2, rule_count};
use super::versions::told;
use std::alloc::{AllocError, Global};
use std::test::Fail;

/// A rule of version 2, the least and the greatest of the widths, and the lines of the verdicts.
const ROWS: [(&str, u32, u32, &str); 32] = [
    // a `select` by a comparison is the minimum or the maximum, and the other way round
    (
        "Name: to-umin\n%c = icmp ult %x, %y\n%r = select %c, %x, %y\n=>\n%r = umin %x, %y\n",
        1,
        3,
        "to-umin [1 1]: admitted\nto-umin [1 2]: admitted\nto-umin [1 3]: admitted\n",
    ),
    (
        "Name: from-umin\n%r = umin %x, %y\n=>\n%c = icmp ult %x, %y\n%r = select %c, %x, %y\n",
        1,
        3,
        "from-umin [1 1]: admitted\nfrom-umin [2 1]: admitted\nfrom-umin [3 1]: admitted\n",
    ),
    (
        "Name: to-umax\n%c = icmp ugt %x, %y\n%r = select %c, %x, %y\n=>\n%r = umax %x, %y\n",
        3,
        3,
        "to-umax [1 3]: admitted\n",
    ),
    (
        "Name: to-smin\n%c = icmp sle %x, %y\n%r = select %c, %x, %y\n=>\n%r = smin %x, %y\n",
        3,
        3,
        "to-smin [1 3]: admitted\n",
    ),
    (
        "Name: to-smax\n%c = icmp slt %x, %y\n%r = select %c, %y, %x\n=>\n%r = smax %x, %y\n",
        3,
        3,
        "to-smax [1 3]: admitted\n",
    ),
    // at one bit, 1 is -1 as a signed number
    (
        "Name: bits\n%r = smin i1 %x, %y\n=>\n%r = or %x, %y\n",
        1,
        1,
        "bits [1]: admitted\n",
    ),
    (
        "Name: wrong-side\n%r = umin i1 %x, %y\n=>\n%r = umax %x, 0\n",
        1,
        1,
        "wrong-side [1]: refuted\n  %x = 1\n  %y = 0\n  source 0\n  target 1\n",
    ),
    (
        "Name: wrong-sign\n%r = umin i1 %x, %y\n=>\n%r = smin %x, %y\n",
        1,
        1,
        "wrong-sign [1]: refuted\n",
    ),
    // a poison operand makes poison even where it isn't the smaller one, but an arm that is not chosen doesn't
    (
        "Name: strict\n%c = icmp ult i1 %x, %y\n%r = select %c, %x, %y\n=>\n%r = umin %y, %x\n",
        1,
        1,
        "strict [1 1]: admitted\n",
    ),
    (
        "Name: not-strict\n%r = umin i1 %x, %y\n=>\n%r = select %x, %y, 0\n",
        1,
        1,
        "not-strict [1]: admitted\n",
    ),
    (
        "Name: stricter\n%r = select i1 %x, i1 %y, 0\n=>\n%r = umin %x, %y\n",
        1,
        1,
        "stricter [1]: refuted\n  %x = 0\n  %y = poison\n  source 0\n  target poison\n",
    ),
    (
        "Name: clamp\nPre: C1 u< C2\n%a = umax %x, C2\n%r = umin %a, C1\n=>\n%r = C1\n",
        1,
        4,
        "clamp [1]: admitted\nclamp [2]: admitted\nclamp [3]: admitted\nclamp [4]: admitted\n",
    ),
    // absolute values
    (
        "Name: abs-min\n%r = abs %x\n=>\n%r = abs minpoison %x\n",
        4,
        4,
        "abs-min [4]: refuted\n  %x = 8\n  source 8\n  target poison\n",
    ),
    (
        "Name: abs-weaker\n%r = abs minpoison %x\n=>\n%r = abs %x\n",
        1,
        4,
        "abs-weaker [1]: admitted\nabs-weaker [2]: admitted\nabs-weaker [3]: admitted\nabs-weaker [4]: admitted\n",
    ),
    (
        "Name: abs-neg\n%n = sub 0, %x\n%r = abs %n\n=>\n%r = abs %x\n",
        1,
        4,
        "abs-neg [1]: admitted\nabs-neg [2]: admitted\nabs-neg [3]: admitted\nabs-neg [4]: admitted\n",
    ),
    (
        "Name: abs-of-nsw\n%n = sub nsw 0, %x\n%r = abs %n\n=>\n%r = abs minpoison %x\n",
        3,
        3,
        "abs-of-nsw [3]: admitted\n",
    ),
    (
        "Name: abs-select\n%c = icmp slt %x, 0\n%n = sub 0, %x\n%r = select %c, %n, %x\n=>\n%r = abs %x\n",
        3,
        3,
        "abs-select [1 3]: admitted\n",
    ),
    (
        "Name: abs-bit\n%r = abs i1 %x\n=>\n%r = %x\n",
        1,
        1,
        "abs-bit [1]: admitted\n",
    ),
    (
        "Name: abs-term\n%r = abs C\n=>\n%r = abs(C)\n",
        1,
        4,
        "abs-term [1]: admitted\nabs-term [2]: admitted\nabs-term [3]: admitted\nabs-term [4]: admitted\n",
    ),
    (
        "Name: abs-kept\n%r = abs C\n=>\n%r = abs (C)\n",
        4,
        4,
        "abs-kept [4]: admitted\n",
    ),
    (
        "Name: abs-smax\n%n = sub 0, %x\n%r = smax %x, %n\n=>\n%r = abs %x\n",
        1,
        4,
        "abs-smax [1]: admitted\nabs-smax [2]: admitted\nabs-smax [3]: admitted\nabs-smax [4]: admitted\n",
    ),
    // counts
    (
        "Name: pop-shl\n%s = shl nuw %x, C\n%r = ctpop %s\n=>\n%r = ctpop %x\n",
        1,
        4,
        "pop-shl [1]: admitted\npop-shl [2]: admitted\npop-shl [3]: admitted\npop-shl [4]: admitted\n",
    ),
    (
        "Name: pop-lshr\n%s = lshr exact %x, C\n%r = ctpop %s\n=>\n%r = ctpop %x\n",
        3,
        3,
        "pop-lshr [3]: admitted\n",
    ),
    (
        "Name: pop-lost\n%s = shl i1 %x, C\n%r = ctpop %s\n=>\n%r = ctpop %x\n",
        1,
        1,
        "pop-lost [1]: admitted\n",
    ),
    (
        "Name: pop-more\n%s = shl i2 %x, 1\n%r = ctpop %s\n=>\n%r = ctpop %x\n",
        2,
        2,
        "pop-more [2]: refuted\n",
    ),
    (
        "Name: pop-not\n%n = xor %x, -1\n%r = ctpop %n\n=>\n%p = ctpop %x\n%r = sub width(%x), %p\n",
        2,
        4,
        "pop-not [2]: admitted\npop-not [3]: admitted\npop-not [4]: admitted\n",
    ),
    (
        "Name: tz-of-bit\nPre: isPowerOf2(C)\n%r = cttz C\n=>\n%r = log2(C)\n",
        1,
        5,
        "tz-of-bit [1]: admitted\ntz-of-bit [2]: admitted\ntz-of-bit [3]: admitted\ntz-of-bit [4]: admitted\ntz-of-bit [5]: admitted\n",
    ),
    (
        "Name: lz-zero\n%r = ctlz %x\n=>\n%r = ctlz zeropoison %x\n",
        2,
        2,
        "lz-zero [2]: refuted\n  %x = 0\n  source 2\n  target poison\n",
    ),
    (
        "Name: tz-zero\n%r = cttz %x\n=>\n%r = cttz zeropoison %x\n",
        1,
        1,
        "tz-zero [1]: refuted\n  %x = 0\n  source 1\n  target poison\n",
    ),
    (
        "Name: lz-weaker\n%r = ctlz zeropoison %x\n=>\n%r = ctlz %x\n",
        3,
        3,
        "lz-weaker [3]: admitted\n",
    ),
    (
        "Name: ends\n%r = ctlz i2 %x\n=>\n%r = cttz %x\n",
        2,
        2,
        "ends [2]: refuted\n",
    ),
    (
        "Name: lz-sign\n%z = ctlz %x\n%r = icmp eq %z, 0\n=>\n%r = icmp slt %x, 0\n",
        1,
        3,
        "lz-sign [1 1]: admitted\nlz-sign [2 1]: admitted\nlz-sign [3 1]: admitted\n",
    ),
];

/// Texts, and the line and the kind of the first fault.
const FAULTS: [(&str, usize, &str); 22] = [
    // in version 1
    ("Name: r\n%r = umin %x, %y\n=>\n%r = %x\n", 2, "LeftOut"),
    ("Name: r\n%r = abs %x\n=>\n%r = %x\n", 2, "LeftOut"),
    ("Name: r\n%r = abs(%x)\n=>\n%r = %x\n", 2, "LeftOut"),
    ("Name: r\n%r = or %x, 0\n=>\n%r = abs %x\n", 4, "Syntax"),
    ("Name: r\n%r = or %x, 0\n=>\n%r = ctpop %x\n", 4, "LeftOut"),
    // flags: of another intrinsic, repeated, and where there is none
    (
        "Version: 2\nName: r\n%r = umin nuw %x, %y\n=>\n%r = %x\n",
        3,
        "LeftOut",
    ),
    (
        "Version: 2\nName: r\n%r = abs zeropoison %x\n=>\n%r = %x\n",
        3,
        "LeftOut",
    ),
    (
        "Version: 2\nName: r\n%r = abs minpoison minpoison %x\n=>\n%r = %x\n",
        3,
        "Syntax",
    ),
    (
        "Version: 2\nName: r\n%r = ctlz minpoison %x\n=>\n%r = %x\n",
        3,
        "LeftOut",
    ),
    (
        "Version: 2\nName: r\n%r = cttz zeropoison zeropoison\n=>\n%r = %x\n",
        3,
        "Syntax",
    ),
    (
        "Version: 2\nName: r\n%r = ctpop zeropoison %x\n=>\n%r = %x\n",
        3,
        "LeftOut",
    ),
    // the number of operands, and types before the second
    (
        "Version: 2\nName: r\n%r = umin %x\n=>\n%r = %x\n",
        3,
        "Syntax",
    ),
    (
        "Version: 2\nName: r\n%r = ctlz %x, %y\n=>\n%r = %x\n",
        3,
        "Syntax",
    ),
    (
        "Version: 2\nName: r\n%r = smax i8 %x, i8 %y\n=>\n%r = %x\n",
        3,
        "LeftOut",
    ),
    ("Version: 2\nName: r\n%r = abs\n=>\n%r = 0\n", 3, "Syntax"),
    // `abs` as an opcode in the source, as a function in a target, and as one in an operand's place
    (
        "Version: 2\nName: r\n%r = abs(%x)\n=>\n%r = %x\n",
        3,
        "Syntax",
    ),
    (
        "Version: 2\nName: r\n%r = or %x, 0\n=>\n%r = abs(%x)\n",
        5,
        "Syntax",
    ),
    (
        "Version: 2\nName: r\n%r = add abs(%x), %x\n=>\n%r = %x\n",
        3,
        "LeftOut",
    ),
    (
        "Version: 2\nName: r\n%r = or %x, C\n=>\n%r = abs(C), %x\n",
        5,
        "Syntax",
    ),
    // a byte that may not stand behind `abs` is the fault, and not `abs`
    (
        "Version: 2\nName: r\n%r = abs\u{1}(%x)\n=>\n%r = %x\n",
        3,
        "BadByte",
    ),
    // the operand is of the result's class, and an `undef` may stand in the root's statement alone
    (
        "Version: 2\nName: r\n%r = ctpop i4 %x\n=>\n%r = i8 %x\n",
        2,
        "NoType",
    ),
    (
        "Version: 2\nName: r\nWit: 0\n%a = cttz undef\n%r = or %a, %x\n=>\n%r = %x\n",
        4,
        "UndefInside",
    ),
];

/// Texts that are rule files of one rule.
const FILES: [&str; 8] = [
    // version 1 has only the function, with a blank before its parenthesis or without
    "Name: r\n%r = or %x, C\n=>\n%r = abs (C)\n",
    "Name: r\n%r = or %x, C\n=>\n%r = abs(C)\n",
    // a parenthesis behind a blank begins an operand, and a term goes on behind the function
    "Version: 2\nName: r\n%r = or %x, C\n=>\n%r = abs (C) + 1\n",
    "Version: 2\nName: r\n%r = or %x, C\n=>\n%r = abs(C) + 1\n",
    "Version: 2\nName: r\n%r = or %x, C\n=>\n%r = abs minpoison (C)\n",
    "Version: 2\nName: r\n%r = or %x, C\n=>\n%r = i8 abs (C)\n",
    "Version: 2\nName: r\n%r = or %x, C\n=>\n%r = umax abs (C), abs(C)\n",
    "Version: 2\nName: r\nPre: abs (C) == 1\n%r = abs C\n=>\n%r = abs minpoison C\n",
];

#[test]
fn intrinsics_have_their_verdicts(rt: HostRuntime) -> Result<(), Fail> {
    for (rule, least, most, wanted) in &ROWS {
        let found = lines_in_version_2(rt.alloc(), rule, *least, *most)?;
        assert!(rt; found.as_slice().starts_with(wanted.as_bytes()), "{rule}");
    }
    Ok(())
}

#[test]
fn faults_of_intrinsics_are_told(rt: HostRuntime) {
    for (text, line, name) in &FAULTS {
        assert_eq!(rt;
            told(rt.alloc(), text.as_bytes()),
            Some((*line, *name)),
            "{text}"
        );
    }
}

#[test]
fn files_with_intrinsics_are_read(rt: HostRuntime) {
    for text in &FILES {
        assert_eq!(rt; rule_count(rt.alloc(), text), Ok(1), "{text}");
    }
}

/// A rule of version 2 with so many members in its `Pre:`, and this operation in its target.
fn with_members(alloc: Global, count: u32, target: &str) -> Result<String, AllocError> {
    let mut text = format!(in alloc; "Version: 2\nName: r\nPre: C == 1")?;
    for _ in 1..count {
        text.push_str(" && C == 1")?;
    }
    text.push_str("\n%a = abs %x\n%r = add %a, C\n=>\n%r = ")?;
    text.push_str(target)?;
    Ok(text)
}

/// The verdicts or the fault for a rule with 63 members in its `Pre:`, and this operation in its target.
fn told_with_members(
    alloc: Global,
    target: &str,
) -> Result<Option<(usize, &'static str)>, AllocError> {
    let text = with_members(alloc, 63, target)?;
    Ok(told(alloc, text.as_bytes()))
}

/// A `Pre:` of 63 members has 251 nodes, and the source 3.
#[test]
fn an_opcode_is_no_node(rt: HostRuntime) {
    let alloc = rt.alloc();
    assert_eq!(rt; told_with_members(alloc, "abs (~C)\n"), Ok(None), "opcode");
    assert_eq!(rt;
        told_with_members(alloc, "abs(~C)\n"),
        Ok(Some((7, "TooMany"))),
        "function"
    );
    assert_eq!(rt; told_with_members(alloc, "abs(C)\n"), Ok(None), "shorter");
}
