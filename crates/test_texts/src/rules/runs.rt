//! Rules with one counterexample, at which both halves are run. Their effects were worked out by hand.
ghost use Rattle.verdict.specs.Findings.{IsReadRule};

use super::classes::only_rule;
use super::verdicts::widths;
use crate::unfit::Unfit;
use lists::List;
use ops::{Effect, Value};
use rule_core::{Rule, Typing, run_source, run_target};
use rule_typing::is_typing;
use std::alloc::Global;
use verdict::decide;
use verdict_core::Verdict;

/// The effect of a half.
#[derive(Clone, Copy, PartialEq, Debug)]
enum Does {
    Undefined,
    Poison,
    Gives(u64),
}

/// A rule of one class, its width, and what the source and the target do.
const ROWS: [(&str, u32, Does, Does); 3] = [
    // at i1, 1 is no amount below the width
    (
        "Name: add-self\n%r = add nsw %x, %x\n=>\n%r = shl nsw %x, 1\n",
        1,
        Does::Gives(0),
        Does::Poison,
    ),
    // 7 shifted by 2 is -4, which divided by -4 is 1
    (
        "Name: shl-sdiv\nPre: C1 == 2 && C2 == -4 && C2 % (1<<C1) == 0\n%s = shl nsw %X, C1\n%r = sdiv %s, C2\n=>\n%r = sdiv %X, C2/(1<<C1)\n",
        3,
        Does::Gives(1),
        Does::Gives(7),
    ),
    (
        "Name: r\n%r = and i1 1, C\n=>\n%r = udiv i1 1, C\n",
        1,
        Does::Gives(0),
        Does::Undefined,
    ),
];

fn seen(effect: &Effect) -> Does {
    match effect {
        Effect::Undefined => Does::Undefined,
        Effect::Gives(Value::Poison) => Does::Poison,
        Effect::Gives(Value::Bits(word)) => Does::Gives(word.number()),
    }
}

/// The effects of source and target at the counterexample that refutes the rule.
#[tactic(auto, using(crate::proofs::Choices::no_source_choices))]
fn halves(alloc: Global, rule: &Rule, typing: &Typing) -> Result<(Does, Does), Unfit>
    requires { IsReadRule rule.now }
{
    if !is_typing(rule, typing) {
        return Err(Unfit::NoTyping);
    }
    let Verdict::Refuted(example) = decide(alloc, rule, typing, 0)? else {
        return Err(Unfit::NoCounterexample);
    };
    let none = List::new(alloc);
    let (inputs, constants) = (&example.inputs, &example.constants);
    let source = run_source(alloc, rule, typing, inputs, constants, &none)?;
    let undefs = &example.target_undefs;
    let target = run_target(alloc, rule, typing, inputs, constants, undefs)?;
    Ok((seen(&source), seen(&target)))
}

/// The same for the only rule of a text, at this width.
fn halves_of(alloc: Global, text: &str, bits: u32) -> Result<(Does, Does), Unfit> {
    let typing = widths(alloc, bits, bits)?;
    let rule = only_rule(alloc, text)?;
    halves(alloc, &rule, &typing)
}

#[test]
fn halves_have_their_effects(rt: HostRuntime) {
    for (text, bits, source, target) in &ROWS {
        assert_eq!(rt;
            halves_of(rt.alloc(), text, *bits),
            Ok((*source, *target)),
            "{text}"
        );
    }
}
