//! The classes of positions, worked out by hand.
ghost use Rattle.std.specs.Prelude.{IfOk};
ghost use Rattle.rule_core.specs.Checks.{IsRule};
ghost use Rattle.verdict.specs.Findings.{IsReadRule};

use super::verdicts::rules_of;
use crate::unfit::Unfit;
use rule_core::{Rule, class_at, positions};
use rule_typing::classify;
use std::alloc::Global;
use std::process::Abort;
use std::test::Fail;

/// A source, a target, and the classes of results, operands and nodes, in order.
const ROWS: [(&str, &str, &[u32]); 7] = [
    ("%r = add i4 %x, 1", "%r = %x", &[0, 0, 0, 0, 0]),
    ("%r = zext %x", "%r = sext %x", &[0, 1, 0, 1]),
    (
        "%r = zext %x",
        "%a = icmp eq %x, 3\n%r = zext %a",
        &[0, 1, 2, 1, 1, 0, 2],
    ),
    ("%r = select true, %x, 1", "%r = %x", &[0, 1, 0, 0, 0, 0]),
    // the register in `width( )` is a position of its own
    (
        "%c = icmp eq %x, 0\n%r = and %c, C",
        "%r = and %c, C+width(%x)",
        &[0, 1, 1, 0, 0, 0, 0, 0, 0, 0, 0, 1, 0],
    ),
    // a freeze is of its operand's class, and an expression of `Wit:` of the classes of the choices that it reads and
    // makes
    (
        "%r = icmp eq %x, %y",
        "%f = freeze %x\n%r = icmp eq %f, %y",
        &[0, 1, 1, 1, 1, 0, 1, 1],
    ),
    (
        "Wit: t1\n%r = freeze %x",
        "%f = freeze %x\n%g = icmp eq %f, 0\n%r = %f",
        &[0, 0, 0, 0, 1, 0, 0, 0, 0, 0],
    ),
];

/// The only rule of a text.
pub(crate) fn only_rule(alloc: Global, text: &str) -> Result<Rule, Unfit>
    ensures { IfOk result IsReadRule }
{
    let mut rules = rules_of(alloc, text.as_bytes())?;
    match rules.pop() {
        Some(rule) if rules.is_empty() => Ok(rule),
        _ => Err(Unfit::NoRule),
    }
}

/// The rule of version 2 with this source and this target.
fn rule_with(alloc: Global, source: &str, target: &str) -> Result<Rule, Unfit>
    ensures { IfOk result IsReadRule }
{
    let text = format!(in alloc; "Version: 2\nName: r\n{source}\n=>\n{target}\n")?;
    only_rule(alloc, text.as_str())
}

/// Compares the classes of a rule.
fn are_classes(rt: &impl Abort, rule: &Rule, classes: &[u32])
    requires { IsRule rule.now }
{
    assert_eq!(rt; positions(rule) as usize, classes.len(), "{classes:?}");
    for position in 0..positions(rule) {
        let class = class_at(rule, position);
        assert_eq!(rt;
            class,
            classes[position as usize],
            "{classes:?} at {position}"
        );
    }
}

#[test]
fn positions_have_their_classes(rt: HostRuntime) -> Result<(), Fail> {
    for (source, target, classes) in &ROWS {
        let mut rule = rule_with(rt.alloc(), source, target)?;
        assert!(rt; classify(&mut rule).is_ok(), "{classes:?}");
        are_classes(&rt, &rule, classes);
    }
    Ok(())
}
