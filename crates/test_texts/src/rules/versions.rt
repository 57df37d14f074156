//! Lines of `Version:`, and rules with freezes that are refused: the kind and the line of the first fault, worked out
//! by hand.

use super::verdicts::rule_count;
use rule_reader::{RuleError, RuleFault, RuleFaultKind, read_rules};
use std::alloc::Global;

/// Texts, and the line and the kind of the first fault.
const FAULTS: [(&str, usize, &str); 22] = [
    ("Version: 3\n", 1, "LeftOut"),
    ("Version: -1\n", 1, "LeftOut"),
    ("; a\n\nVersion: 0\nName: \n", 3, "LeftOut"),
    ("Version: x\n", 1, "Syntax"),
    ("Version:\n2\n", 1, "Syntax"),
    ("Version: 2 2\n", 1, "Syntax"),
    ("Version: 1\nVersion: 2\n", 2, "Syntax"),
    (
        "Name: r\n%r = or %x, 0\n=>\n%r = %x\nVersion: 2\n",
        5,
        "Syntax",
    ),
    (
        "Name: r\nVersion: 2\n%r = or %x, 0\n=>\n%r = %x\n",
        2,
        "Syntax",
    ),
    // `freeze` in version 1
    (
        "Name: r\n%r = select %c, %y, false\n=>\n%f = freeze %y\n%r = and %c, %f\n",
        4,
        "LeftOut",
    ),
    (
        "Version: 1\nName: r\nWit: 0\n%r = freeze %x\n=>\n%r = %x\n",
        4,
        "LeftOut",
    ),
    // and in version 2
    (
        "Version: 2\nName: r\nWit: 0\n%r = freeze exact %x\n=>\n%r = %x\n",
        4,
        "LeftOut",
    ),
    (
        "Version: 2\nName: r\nWit: 0\n%r = freeze %x, %x\n=>\n%r = %x\n",
        4,
        "Syntax",
    ),
    (
        "Version: 2\nName: r\n%r = or %x, 0\n=>\n%r = freeze poison\n",
        5,
        "LeftOut",
    ),
    // a freeze of the source that is no root, and freezes of `undef`
    (
        "Version: 2\nName: r\nWit: 0\n%a = freeze %x\n%r = or %a, 0\n=>\n%r = %x\n",
        4,
        "UndefInside",
    ),
    (
        "Version: 2\nName: r\nWit: 0, 0\n%r = freeze undef\n=>\n%r = 0\n",
        4,
        "UndefInside",
    ),
    (
        "Version: 2\nName: r\n%r = or %x, 0\n=>\n%f = freeze undef\n%r = or %x, %f\n",
        5,
        "UndefInside",
    ),
    // `Wit:` has an expression for each freeze of the source, and may name the target's
    (
        "Version: 2\nName: r\n%r = freeze %x\n=>\n%r = %x\n",
        2,
        "WitnessCount",
    ),
    (
        "Version: 2\nName: r\nWit: 0, 0\n%r = freeze %x\n=>\n%r = %x\n",
        3,
        "WitnessCount",
    ),
    (
        "Version: 2\nName: r\nWit: t1\n%r = freeze %x\n=>\n%r = %x\n",
        3,
        "Unbound",
    ),
    (
        "Version: 2\nName: r\nWit: t3\n%r = freeze %x\n=>\n%f = freeze %x\n%r = or undef, %f\n",
        3,
        "Unbound",
    ),
    // the operand is of the result's class
    (
        "Version: 2\nName: r\nWit: 0\n%r = freeze i4 %x\n=>\n%r = i8 %x\n",
        2,
        "NoType",
    ),
];

/// Texts that are rule files, and how many rules they have.
const FILES: [(&str, usize); 5] = [
    ("Version: 1\n", 0),
    ("; a\n\nVersion: 02 ; b\n; c\n", 0),
    ("Version: 1\nName: r\n%r = or %x, 0\n=>\n%r = %x\n", 1),
    (
        "Version: 2\nName: r\n%r = or %x, 0\n=>\n%r = freeze %x\n",
        1,
    ),
    (
        "Version: 2\nName: r\nWit: t2\n%r = freeze %x\n=>\n%f = freeze %x\n%r = or undef, %f\n",
        1,
    ),
];

/// The name of a kind.
fn name_of(kind: &RuleFaultKind) -> &'static str {
    match kind {
        RuleFaultKind::BadByte => "BadByte",
        RuleFaultKind::Syntax => "Syntax",
        RuleFaultKind::TooMany => "TooMany",
        RuleFaultKind::LeftOut(_) => "LeftOut",
        RuleFaultKind::Unbound => "Unbound",
        RuleFaultKind::UndefInside => "UndefInside",
        RuleFaultKind::WitnessCount => "WitnessCount",
        RuleFaultKind::NoType => "NoType",
        _ => "another",
    }
}

/// The line and the kind of the first fault of a text.
pub(crate) fn told(alloc: Global, text: &[u8]) -> Option<(usize, &'static str)> {
    match read_rules(alloc, text) {
        Err(RuleError::Refused(RuleFault { line, kind })) => Some((line, name_of(&kind))),
        _ => None,
    }
}

#[test]
fn faults_are_told_with_their_lines(rt: HostRuntime) {
    for (text, line, name) in &FAULTS {
        assert_eq!(rt;
            told(rt.alloc(), text.as_bytes()),
            Some((*line, *name)),
            "{text}"
        );
    }
}

#[test]
fn versions_are_read(rt: HostRuntime) {
    for (text, count) in &FILES {
        assert_eq!(rt; rule_count(rt.alloc(), text), Ok(*count), "{text}");
    }
}
