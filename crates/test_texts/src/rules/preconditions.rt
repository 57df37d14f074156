//! Preconditions and constant terms as the reader gives them, at constants of eight bits. The results were worked out
//! by hand.
ghost use Rattle.std.specs.Prelude.{◌≡◌, ◌<◌, ◌↔◌, [], ◌∷◌, length, IsTrue, IfOk, IfSome, All};
ghost use Rattle.ops.specs.Value.{IsValueOf};
ghost use Rattle.verdict.specs.Findings.{IsReadRule};

use super::classes::only_rule;
use crate::unfit::Unfit;
use lists::List;
use ops::{Value, Width, Word};
use precond::{holds, term};
use rule_core::{Argument, Op, Rule, Typing};
use rule_typing::is_typing;
use std::alloc::{AllocError, Global};

/// A precondition, a term, the constants `C1`, `C2` and `C`, whether the precondition holds, and the term's value.
const ROWS: [(&str, &str, [u64; 3], bool, Option<u64>); 40] = [
    // terms; each operator binds as the grammar says
    ("C1 == C1", "C1 + C2 * 2", [3, 5, 0], true, Some(13)),
    ("C1 == C1", "(C1 + C2) * 2", [3, 5, 0], true, Some(16)),
    ("C1 == C1", "C1 - C2 - 1", [10, 4, 0], true, Some(5)),
    ("C1 == C1", "C1 -1 - -1", [10, 0, 0], true, Some(10)),
    ("C1 == C1", "C1 * C2 / C", [7, 3, 2], true, Some(10)),
    ("C1 == C1", "-C1 & C2", [1, 6, 0], true, Some(6)),
    ("C1 == C1", "~C << 1", [0, 0, 1], true, Some(252)),
    ("C1 == C1", "C1 << C2 + 1", [1, 2, 0], true, Some(8)),
    ("C1 == C1", "C1 & C2 << 1", [6, 3, 0], true, Some(6)),
    ("C1 == C1", "C1 | C2 ^ C & 12", [8, 6, 10], true, Some(14)),
    ("C1 == C1", "C1 / C2", [251, 3, 0], true, Some(255)),
    ("C1 == C1", "C1 /u C2", [251, 3, 0], true, Some(83)),
    ("C1 == C1", "C1 % C2", [251, 3, 0], true, Some(254)),
    ("C1 == C1", "C1 %u C2", [251, 3, 0], true, Some(2)),
    ("C1 == C1", "C1 >> 1", [130, 0, 0], true, Some(193)),
    ("C1 == C1", "C1 u>> 1", [130, 0, 0], true, Some(65)),
    ("C1 == C1", "log2(C)", [0, 0, 32], true, Some(5)),
    ("C1 == C1", "abs(C) - abs(-C2)", [0, 2, 251], true, Some(3)),
    ("C1 == C1", "width(%x) - 1", [0, 0, 0], true, Some(7)),
    // terms without a value, with which no precondition holds
    ("C1 == C1", "C1 / (C2 - C2)", [3, 5, 0], false, None),
    ("C1 == C1", "C1 << width(%x)", [1, 0, 0], false, None),
    ("C1 == C1", "log2(C) & 0", [0, 0, 6], false, None),
    ("C == 1 || C1 / C2 == 0", "C + 1", [3, 0, 1], false, Some(2)),
    ("!(C1 / C2 == 0)", "C + 1", [3, 0, 1], false, Some(2)),
    // formulas
    ("C1 < C2", "C + 1", [255, 1, 0], true, Some(1)),
    ("C1 u< C2", "C + 1", [255, 1, 0], false, Some(1)),
    (
        "C1 <= C2 && C u<= C1",
        "C + 1",
        [128, 127, 127],
        true,
        Some(128),
    ),
    ("C1 >= C2", "C + 1", [128, 127, 0], false, Some(1)),
    ("C1 u>= C2", "C + 1", [128, 127, 0], true, Some(1)),
    (
        "C1 u> C2 && !(C1 > C2)",
        "C + 1",
        [128, 127, 0],
        true,
        Some(1),
    ),
    ("C1 != C2", "C + 1", [1, 1, 0], false, Some(1)),
    (
        "C1 == 1 || C2 == 1 && C == 1",
        "C + 1",
        [1, 0, 0],
        true,
        Some(1),
    ),
    (
        "!isPowerOf2(C) && C1 != C2",
        "C + 1",
        [1, 1, 6],
        false,
        Some(7),
    ),
    ("!(C1 == C2 || C u> 3)", "C + 1", [1, 2, 3], true, Some(4)),
    ("C1 & C2 == 0", "C + 1", [4, 3, 0], true, Some(1)),
    ("isPowerOf2(C1 & -C1)", "C + 1", [12, 0, 0], true, Some(1)),
    ("isPowerOf2(C1)", "C + 1", [0, 0, 0], false, Some(1)),
    (
        "isSignBit(C1) && !isSignBit(C2)",
        "C + 1",
        [128, 64, 0],
        true,
        Some(1),
    ),
    (
        "hasOneUse(%a) && C1 u>= C2",
        "C + 1",
        [200, 100, 0],
        true,
        Some(1),
    ),
    (
        "hasOneUse(%a) && C1 >= C2",
        "C + 1",
        [200, 100, 0],
        false,
        Some(1),
    ),
];

/// The numbers at a width.
fn words(alloc: Global, width: Width, numbers: &[u64]) -> Result<List<Word>, AllocError>
    ensures { IfOk result (λ words. All (λ word. IsValueOf width (Value.Bits word)) words) }
{
    let mut words = List::new(alloc);
    for number in numbers {
        words.push(Word::wrapped(width, *number))?;
    }
    Ok(words)
}

/// Whether the rule has a node at this place among its terms.
fn is_node(rule: &Rule, node: u32) -> bool
    ensures { IsTrue result ↔ (node < length rule.now.terms) }
{
    (node as usize) < rule.terms.len()
}

/// The place of the term that a statement of the target is.
fn target_term(rule: &Rule) -> Option<u32>
    ensures { IfSome result (λ node. node < length rule.now.terms) }
{
    for statement in rule.target.as_slice() {
        if let Op::Copy(operand) = statement.op {
            if let Argument::Term(node) = operand.value {
                if is_node(rule, node) {
                    return Some(node);
                }
            }
        }
    }
    None
}

/// Whether the precondition of a rule of one class holds at these constants, and what the term of its target gives.
#[tactic(auto, using(crate::proofs::ConstantLists::constants_fit))]
fn judged_at(
    rule: &Rule,
    width: Width,
    typing: &Typing,
    constants: &List<Word>,
) -> Result<(bool, Option<u64>), Unfit>
    requires rule { IsReadRule rule.now }
    requires typing { typing.now ≡ width ∷ [] }
    requires constants { All (λ word. IsValueOf width (Value.Bits word)) constants.now }
{
    if !is_typing(rule, typing) || constants.len() != rule.constants.len() {
        return Err(Unfit::NoTyping);
    }
    let node = target_term(rule).ok_or(Unfit::NoTerm)?;
    let given = term(rule, node, typing, constants);
    Ok((
        holds(rule, typing, constants),
        given.map(|word| word.number()),
    ))
}

/// The typing of one class.
fn single(alloc: Global, width: Width) -> Result<Typing, AllocError>
    ensures { IfOk result (λ typing. typing ≡ width ∷ []) }
{
    let mut typing = List::new(alloc);
    typing.push(width)?;
    Ok(typing)
}

/// The same at eight bits and these numbers.
fn judged(alloc: Global, rule: &Rule, numbers: &[u64]) -> Result<(bool, Option<u64>), Unfit>
    requires { IsReadRule rule.now }
{
    let width = Width::new(8).ok_or(Unfit::NoWidth)?;
    let typing = single(alloc, width)?;
    let constants = words(alloc, width, numbers)?;
    judged_at(rule, width, &typing, &constants)
}

/// The rule with this precondition and this term.
fn rule_with(alloc: Global, precondition: &str, term: &str) -> Result<Rule, Unfit>
    ensures { IfOk result IsReadRule }
{
    let text = format!(in alloc;
        "Name: r\nPre: {precondition}\n%a = add i8 %x, C1\n%b = add %a, C2\n%r = add %b, C\n=>\n%r = i8 {term}\n"
    )?;
    only_rule(alloc, text.as_str())
}

/// Whether that precondition holds at these numbers, and what the term gives.
fn judged_row(
    alloc: Global,
    precondition: &str,
    term: &str,
    numbers: &[u64],
) -> Result<(bool, Option<u64>), Unfit> {
    let rule = rule_with(alloc, precondition, term)?;
    judged(alloc, &rule, numbers)
}

#[test]
fn preconditions_hold_as_they_are_read(rt: HostRuntime) {
    for (precondition, term, numbers, holds, given) in &ROWS {
        assert_eq!(rt;
            judged_row(rt.alloc(), precondition, term, numbers),
            Ok((*holds, *given)),
            "{precondition}, {term} at {numbers:?}"
        );
    }
}
