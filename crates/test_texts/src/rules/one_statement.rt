//! Rules of one statement over each opcode and flag. Classes and verdicts were worked out by hand, and a separate
//! program enumerated all settings: each refuted rule has one counterexample.

use super::verdicts::lines;
use crate::unfit::Unfit;
use std::alloc::Global;
use std::test::Fail;

// The lines of rules that are admitted at all typings over widths 1 to 4: with one class; with a result of one bit;
// with a condition of one bit; with a result that is narrower than the operand; and with a wider one.
const ONE: &str = "r [1]: admitted\nr [2]: admitted\nr [3]: admitted\nr [4]: admitted\n";

const COMPARED: &str =
    "r [1 1]: admitted\nr [1 2]: admitted\nr [1 3]: admitted\nr [1 4]: admitted\n";

const CHOSEN: &str = "r [1 1]: admitted\nr [2 1]: admitted\nr [3 1]: admitted\nr [4 1]: admitted\n";

const NARROWED: &str =
    "r [1 2]: admitted\nr [1 3]: admitted\nr [1 4]: admitted\nr [2 3]: admitted\nr [2 4]: admitted\nr [3 4]: admitted\n";

const WIDENED: &str =
    "r [2 1]: admitted\nr [3 1]: admitted\nr [3 2]: admitted\nr [4 1]: admitted\nr [4 2]: admitted\nr [4 3]: admitted\n";

/// The source's operation, the target's operation, and the lines of the verdicts.
const ROWS: [(&str, &str, &str); 58] = [
    ("add %x, %y", "add %y, %x", ONE),
    ("add nuw %x, %y", "add %x, %y", ONE),
    ("add nsw %x, %y", "add %x, %y", ONE),
    (
        "add i1 %x, %y",
        "add nuw i1 %x, %y",
        "r [1]: refuted\n  %x = 1\n  %y = 1\n  source 0\n  target poison\n",
    ),
    (
        "add i1 %x, %y",
        "add nsw i1 %x, %y",
        "r [1]: refuted\n  %x = 1\n  %y = 1\n  source 0\n  target poison\n",
    ),
    ("sub %x, 0", "%x", ONE),
    ("sub nuw %x, %x", "0", ONE),
    ("sub nuw nsw %x, %y", "sub nsw %x, %y", ONE),
    (
        "sub i1 %x, %y",
        "sub nuw i1 %x, %y",
        "r [1]: refuted\n  %x = 0\n  %y = 1\n  source 1\n  target poison\n",
    ),
    (
        "sub i1 %x, %y",
        "sub nsw i1 %x, %y",
        "r [1]: refuted\n  %x = 0\n  %y = 1\n  source 1\n  target poison\n",
    ),
    ("mul %x, %y", "mul %y, %x", ONE),
    ("mul nuw %x, 1", "%x", ONE),
    ("mul nsw %x, %y", "mul %y, %x", ONE),
    (
        "mul i1 %x, %y",
        "mul nsw i1 %x, %y",
        "r [1]: refuted\n  %x = 1\n  %y = 1\n  source 1\n  target poison\n",
    ),
    ("udiv %x, 1", "%x", ONE),
    ("udiv exact %x, %y", "udiv %x, %y", ONE),
    (
        "udiv i2 3, %x",
        "udiv exact i2 3, %x",
        "r [2]: refuted\n  %x = 2\n  source 1\n  target poison\n",
    ),
    ("sdiv %x, 1", "%x", ONE),
    ("sdiv exact %x, %y", "sdiv %x, %y", ONE),
    (
        "sdiv i2 1, %x",
        "sdiv exact i2 1, %x",
        "r [2]: refuted\n  %x = 2\n  source 0\n  target poison\n",
    ),
    ("urem %x, %x", "0", ONE),
    ("srem %x, -1", "0", ONE),
    (
        "srem i2 3, %x",
        "urem i2 3, %x",
        "r [2]: refuted\n  %x = 2\n  source 3\n  target 1\n",
    ),
    ("shl %x, 0", "%x", ONE),
    ("shl nuw nsw %x, %y", "shl nuw %x, %y", ONE),
    (
        "shl i2 1, %x",
        "shl nsw i2 1, %x",
        "r [2]: refuted\n  %x = 1\n  source 2\n  target poison\n",
    ),
    (
        "shl i2 3, %x",
        "shl nuw i2 3, %x",
        "r [2]: refuted\n  %x = 1\n  source 2\n  target poison\n",
    ),
    ("lshr exact %x, %y", "lshr %x, %y", ONE),
    (
        "lshr i2 1, %x",
        "lshr exact i2 1, %x",
        "r [2]: refuted\n  %x = 1\n  source 0\n  target poison\n",
    ),
    ("ashr exact %x, %y", "ashr %x, %y", ONE),
    (
        "ashr i2 2, %x",
        "lshr i2 2, %x",
        "r [2]: refuted\n  %x = 1\n  source 3\n  target 1\n",
    ),
    ("and %x, %x", "%x", ONE),
    ("or %x, %y", "or %y, %x", ONE),
    ("or disjoint %x, %y", "add nuw nsw %x, %y", ONE),
    (
        "or i1 1, %x",
        "or disjoint i1 1, %x",
        "r [1]: refuted\n  %x = 1\n  source 1\n  target poison\n",
    ),
    ("xor %x, %x", "0", ONE),
    (
        "or i1 %x, %y",
        "add i1 %x, %y",
        "r [1]: refuted\n  %x = 1\n  %y = 1\n  source 1\n  target 0\n",
    ),
    ("icmp eq %x, %x", "1", COMPARED),
    ("icmp ne %x, %y", "icmp ne %y, %x", COMPARED),
    ("icmp ugt %x, %y", "icmp ult %y, %x", COMPARED),
    ("icmp uge %x, %y", "icmp ule %y, %x", COMPARED),
    ("icmp sgt %x, %y", "icmp slt %y, %x", COMPARED),
    ("icmp sge %x, %y", "icmp sle %y, %x", COMPARED),
    (
        "icmp ult i1 0, %x",
        "icmp slt i1 0, %x",
        "r [1 1]: refuted\n  %x = 1\n  source 1\n  target 0\n",
    ),
    ("icmp samesign slt %x, %y", "icmp ult %x, %y", COMPARED),
    (
        "icmp ult i1 0, %x",
        "icmp samesign ult i1 0, %x",
        "r [1 1]: refuted\n  %x = 1\n  source 1\n  target poison\n",
    ),
    ("select %c, %x, %x", "%x", CHOSEN),
    ("select true, %x, %y", "%x", CHOSEN),
    (
        "select i1 %c, true, %y",
        "or %c, %y",
        "r [1]: refuted\n  %c = 1\n  %y = poison\n  source 1\n  target poison\n",
    ),
    ("trunc %x", "trunc %x", NARROWED),
    ("trunc nsw nuw %x", "trunc nsw %x", NARROWED),
    (
        "trunc nuw i2 %x to i1",
        "trunc nuw nsw i2 %x to i1",
        "r [1 2]: refuted\n  %x = 1\n  source 1\n  target poison\n",
    ),
    (
        "trunc nsw i2 %x to i1",
        "trunc nuw nsw i2 %x to i1",
        "r [1 2]: refuted\n  %x = 3\n  source 1\n  target poison\n",
    ),
    ("zext nneg %x", "sext %x", WIDENED),
    (
        "zext i1 %x to i2",
        "zext nneg i1 %x to i2",
        "r [2 1]: refuted\n  %x = 1\n  source 1\n  target poison\n",
    ),
    ("zext %x", "zext %x", WIDENED),
    (
        "zext i1 %x to i2",
        "sext i1 %x to i2",
        "r [2 1]: refuted\n  %x = 1\n  source 1\n  target 3\n",
    ),
    (
        "sext i1 %x to i2",
        "zext i1 %x to i2",
        "r [2 1]: refuted\n  %x = 1\n  source 3\n  target 1\n",
    ),
];

/// The lines of the verdicts on the rule that computes this in its source and its target.
fn verdicts(alloc: Global, source: &str, target: &str) -> Result<Vec<u8>, Unfit> {
    let text = format!(in alloc; "Name: r\n%r = {source}\n=>\n%r = {target}\n")?;
    lines(alloc, text.as_str(), 1, 4)
}

#[test]
fn each_opcode_and_flag_has_its_verdicts(rt: HostRuntime) -> Result<(), Fail> {
    for (source, target, wanted) in &ROWS {
        let found = verdicts(rt.alloc(), source, target)?;
        assert!(rt;
            found.as_slice() == wanted.as_bytes(),
            "{source} => {target}"
        );
    }
    Ok(())
}
