//! Rule files at and beyond the limits of nodes and nesting, and words whose fault is `Syntax`: the kind and the line
//! of the first fault, worked out by hand.

use rule_reader::{RuleError, RuleFault, RuleFaultKind, read_rules};
use std::alloc::{AllocError, Global};

/// How many comparisons of two numbers `Pre:` has, the text behind them, and the line and the kind of the first fault.
/// A comparison is three nodes, and each `&&` between two is one.
const ROWS: [(u32, &str, usize, &str); 23] = [
    // behind 256 nodes
    (64, "\n%t = trunc %x\n%u = true\n", 4, "LeftOut"),
    (64, "\n%t = trunc %x\n%u = or true, 0\n", 4, "TooMany"),
    (64, "\n%t = trunc %x\n%r = or %t\u{1}, 0\n", 4, "TooMany"),
    (64, "\n%t = trunc %x\n\u{1}\n", 4, "BadByte"),
    (63, "\n%r = or %x, C\n=>\n%r = i8 C + 1 %x\n", 5, "Syntax"),
    (63, "\n%r = or %x, C\n=>\n%r = i8 C + 1 - 1\n", 5, "TooMany"),
    (
        63,
        "\n%r = or %x, C\n=>\n%r = i8 C + 1\n%r = %x\n",
        6,
        "TooMany",
    ),
    (
        63,
        "\n%r = or %x, C\n=>\n%r = i8 C + 1\nPre: C\n",
        6,
        "Syntax",
    ),
    // words whose fault is not `LeftOut`
    (1, "\n%r = add nuw nuw %x, 0\n", 3, "Syntax"),
    (1, "\n%r = or disjoint disjoint %x, 0\n", 3, "Syntax"),
    (1, "\n%r = icmp samesign samesign ult %x, 0\n", 3, "Syntax"),
    (1, "\n%r = trunc nuw nsw nuw %x\n", 3, "Syntax"),
    (1, "\n%r = icmp nuw ult %x, 0\n", 3, "LeftOut"),
    (1, "\n%r = and disjoint %x, 0\n", 3, "LeftOut"),
    (1, "\n%r = sext nneg %x\n", 3, "LeftOut"),
    (1, "\n%r = zext nuw %x\n", 3, "LeftOut"),
    (1, "\n%r = hasOneUse\n", 3, "Syntax"),
    (1, "\n%r = or %x, hasOneUse(%x)\n", 3, "Syntax"),
    (1, "\n%r = isPowerOf2\n", 3, "LeftOut"),
    // behind 32 `(`: the parenthesis of a function and a unary operator open one more level, the function's word does
    // not
    (
        1,
        "\n%r = or %x, C\n=>\n%r = ((((((((((((((((((((((((((((((((log2(C)\n",
        5,
        "TooMany",
    ),
    (
        1,
        "\n%r = or %x, C\n=>\n%r = ((((((((((((((((((((((((((((((((log2 + C\n",
        5,
        "Syntax",
    ),
    (
        1,
        "\n%r = or %x, C\n=>\n%r = ((((((((((((((((((((((((((((((((abs\n",
        5,
        "Syntax",
    ),
    (
        1,
        "\n%r = or %x, C\n=>\n%r = ((((((((((((((((((((((((((((((((-C\n",
        5,
        "TooMany",
    ),
];

/// Appends a rule with so many comparisons in `Pre:`, and the text behind them.
fn push_rule(text: &mut String, comparisons: u32, rest: &str) -> Result<(), AllocError> {
    text.push_str("Name: a\nPre: 1 == 1")?;
    for _ in 1..comparisons {
        text.push_str(" && 1 == 1")?;
    }
    text.push_str(rest)
}

/// The name of a kind of fault of the parser.
fn name_of(kind: &RuleFaultKind) -> &'static str {
    match kind {
        RuleFaultKind::BadByte => "BadByte",
        RuleFaultKind::Syntax => "Syntax",
        RuleFaultKind::LeftOut(_) => "LeftOut",
        RuleFaultKind::TooMany => "TooMany",
        _ => "another",
    }
}

/// The line and the kind of the first fault of a text.
fn told(alloc: Global, text: &[u8]) -> Option<(usize, &'static str)> {
    match read_rules(alloc, text) {
        Err(RuleError::Refused(RuleFault { line, kind })) => Some((line, name_of(&kind))),
        _ => None,
    }
}

/// The line and the kind of the first fault of that rule.
fn told_of_rule(
    alloc: Global,
    comparisons: u32,
    rest: &str,
) -> Result<Option<(usize, &'static str)>, AllocError> {
    let mut text = String::new(alloc);
    push_rule(&mut text, comparisons, rest)?;
    Ok(told(alloc, text.as_bytes()))
}

#[test]
fn faults_are_told_by_their_own_kind(rt: HostRuntime) {
    for (comparisons, rest, line, name) in &ROWS {
        assert_eq!(rt;
            told_of_rule(rt.alloc(), *comparisons, rest),
            Ok(Some((*line, *name))),
            "{rest}"
        );
    }
}
