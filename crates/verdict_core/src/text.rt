//! The texts of verdicts.

ghost use Rattle.std.specs.Prelude.{◌≡◌, ◌++◌, OnOk};
ghost use Rattle.verdict_core.specs.Texts.{example_text, answer_text, verdict_text, too_many_text};

use crate::example::push_example;
use crate::verdicts::Verdict;
use crate::words::push_widths;
use rule_core::{Example, Rule, Typing};
use std::alloc::AllocError;

/// Adds the text of a verdict on the rule at a typing.
#[tactic(auto, unfolding(crate::specs::Texts::verdict_text))]
pub fn push_verdict(
    out: &mut Vec<u8>,
    rule: &Rule,
    typing: &Typing,
    verdict: &Verdict,
) -> Result<(), AllocError>
    ensures { OnOk result (out.new.items ≡ out.old.items ++ verdict_text rule.now typing.now verdict.now) }
{
    out.extend_from_slice(rule.name.as_slice())?;
    out.extend_from_slice(b" [")?;
    push_widths(out, typing.as_slice())?;
    out.extend_from_slice(b"]: ")?;
    push_answer(out, rule, verdict)
}

/// Adds the word of the verdict, and the lines of its counterexample where it has one.
#[tactic(auto, unfolding(crate::specs::Texts::answer_text))]
fn push_answer(out: &mut Vec<u8>, rule: &Rule, verdict: &Verdict) -> Result<(), AllocError>
    ensures { OnOk result (out.new.items ≡ out.old.items ++ answer_text rule.now verdict.now) }
{
    match verdict {
        Verdict::Admitted => out.extend_from_slice(b"admitted\n"),
        Verdict::Refuted(example) => push_refusal(out, b"refuted\n", rule, example),
        Verdict::WitnessFails(example) => push_refusal(out, b"witness fails\n", rule, example),
        Verdict::Budget(_) => out.extend_from_slice(b"budget\n"),
    }
}

/// Adds the word of a verdict that refutes, and its counterexample.
fn push_refusal(
    out: &mut Vec<u8>,
    word: &[u8],
    rule: &Rule,
    example: &Example,
) -> Result<(), AllocError>
    ensures { OnOk result (out.new.items ≡ out.old.items ++ (word.now ++ example_text rule.now example.now)) }
{
    out.extend_from_slice(word)?;
    push_example(out, rule, example)
}

/// Adds the line of a rule that has too many typings.
#[tactic(auto, unfolding(crate::specs::Texts::too_many_text))]
pub fn push_too_many(out: &mut Vec<u8>, rule: &Rule) -> Result<(), AllocError>
    ensures { OnOk result (out.new.items ≡ out.old.items ++ too_many_text rule.now) }
{
    out.extend_from_slice(rule.name.as_slice())?;
    out.extend_from_slice(b": too many typings\n")
}
