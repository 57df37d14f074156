//! The decision on a rule at a typing: a search, over clauses, for a setting at which the source's effect does not
//! allow the target's.
ghost use Rattle.std.specs.Prelude.{◌≤◌, ℕ, List as Seq, [], IfOk, OnOk};
ghost use Rattle.clauses.specs.declared.cnf.Cnf.{Cnf as CnfOf};
ghost use Rattle.clauses.specs.ClauseSet.{IsRefutation};
ghost use Rattle.cdcl_log.specs.Found.{IsModel, most_conflicts};
ghost use Rattle.rule_core.specs.Checks.{IsRule};
ghost use Rattle.rule_core.specs.Typing.{IsTyping};
ghost use Rattle.rule_core.specs.Valid.{IsValid};
ghost use Rattle.verdict.specs.Honest.{IsHonest, IsRefutedBy, StandsForRule};
ghost use Rattle.verdict.specs.Proved.{IsLogOf, IsUnrefutedBy, Keeps, IsAttempt};

use crate::reading::{effect_read, words_read};
use aig::{Aig, rests_tell_counts};
use blast_rule::{
    blast_rule, gates_are_few, rules_without_counterexample_read_are_valid, setting_of,
};
use cdcl_log::{Assignment, Found, search};
use circuits::EvalCircuit;
use clauses::{Cnf, Log};
use cnf_build::clauses_of;
use lists::List;
use packed_log::{PackedLog, pack};
use rule_core::{Example, Rule, Typing, every_rule_has_one_outcome};
use rup_checker::check_refutation;
use std::alloc::{AllocError, Global};
use verdict_core::{Tried, Verdict};

/// What a search over the clauses of a rule's counterexamples came to.
#[derive(Drop)]
enum Attempt {
    /// There is no counterexample: the log refutes the clauses.
    Valid(Log),
    /// A counterexample.
    Refuted(Example),
    /// The search gave up: it learned as many clauses as it may, which are these.
    Limit(PackedLog),
}

/// Decides whether the rule is valid at the typing, by a search for a counterexample that may learn `limit` clauses,
/// beside the empty one that ends a refutation. The only error is want of memory.
///
/// A rule of at most 12 input bits is decided at every limit. (An input of width N has N + 1 input bits; a constant,
/// and an `undef` or a freeze of the target, has N.)
pub fn decide(
    alloc: Global,
    rule: &Rule,
    typing: &Typing,
    limit: u32,
) -> Result<Verdict, AllocError>
    requires rule { IsRule rule.now }
    requires typing { IsTyping rule.now typing.now }
    requires limit { limit ≤ most_conflicts }
    ensures honest { IfOk result (IsHonest rule.now typing.now limit) }
{
    let set = counterexample_clauses(alloc, rule, typing)?;
    verdict_by(alloc, rule, typing, set, limit)
}

/// Decides as `decide` does, and gives with the verdict the clauses that stand for the counterexamples of the rule and,
/// where the rule is admitted, a log that refutes them; else the log is empty.
pub fn prove(
    alloc: Global,
    rule: &Rule,
    typing: &Typing,
    limit: u32,
) -> Result<(Verdict, Cnf, Log), AllocError>
    requires rule { IsRule rule.now }
    requires typing { IsTyping rule.now typing.now }
    requires limit { limit ≤ most_conflicts }
    ensures honest { IfOk result (λ x. IsHonest rule.now typing.now limit x.0) }
    ensures stands { IfOk result (λ x. StandsForRule rule.now typing.now x.1) }
    ensures log { IfOk result (λ x. IsLogOf x.0 x.1 x.2) }
{
    let set = counterexample_clauses(alloc, rule, typing)?;
    match searched(alloc, rule, typing, &set, limit)? {
        Attempt::Valid(log) => Ok((Verdict::Admitted, set, log)),
        Attempt::Refuted(example) => Ok((refusal(rule, example), set, List::new(alloc))),
        Attempt::Limit(log) => {
            let again = counterexample_clauses(alloc, rule, typing)?;
            Ok((Verdict::Budget(Tried { set, log }), again, List::new(alloc)))
        }
    }
}

/// Decides as `decide` does, but without a search where the log refutes the clauses that stand for the counterexamples
/// of the rule. Any log may be given: one with a literal of an unknown variable, or with a hint that names no earlier
/// clause, refutes nothing.
pub fn readmit(
    alloc: Global,
    rule: &Rule,
    typing: &Typing,
    log: &Log,
    limit: u32,
) -> Result<Verdict, AllocError>
    requires rule { IsRule rule.now }
    requires typing { IsTyping rule.now typing.now }
    requires limit { limit ≤ most_conflicts }
    ensures honest { IfOk result (IsHonest rule.now typing.now limit) }
    ensures unrefuted { IfOk result (IsUnrefutedBy log.now) }
{
    let set = counterexample_clauses(alloc, rule, typing)?;
    if check_refutation(alloc, &set, log)? {
        rules_without_counterexample_read_are_valid();
        return Ok(Verdict::Admitted);
    }
    verdict_by(alloc, rule, typing, set, limit)
}

/// The verdict by a search over the clauses; a `Budget` keeps them.
fn verdict_by(
    alloc: Global,
    rule: &Rule,
    typing: &Typing,
    set: Cnf,
    limit: u32,
) -> Result<Verdict, AllocError>
    requires rule { IsRule rule.now }
    requires typing { IsTyping rule.now typing.now }
    requires limit { limit ≤ most_conflicts }
    requires stands { StandsForRule rule.now typing.now set }
    ensures honest { IfOk result (IsHonest rule.now typing.now limit) }
    ensures keeps { IfOk result (Keeps set) }
{
    match searched(alloc, rule, typing, &set, limit)? {
        Attempt::Valid(_) => Ok(Verdict::Admitted),
        Attempt::Refuted(example) => Ok(refusal(rule, example)),
        Attempt::Limit(log) => Ok(Verdict::Budget(Tried { set, log })),
    }
}

/// Searches for a model of the clauses, that is, for a counterexample.
fn searched(
    alloc: Global,
    rule: &Rule,
    typing: &Typing,
    set: &Cnf,
    limit: u32,
) -> Result<Attempt, AllocError>
    requires rule { IsRule rule.now }
    requires typing { IsTyping rule.now typing.now }
    requires limit { limit ≤ most_conflicts }
    requires stands { StandsForRule rule.now typing.now set.now }
    ensures { IfOk result (IsAttempt rule.now typing.now set.now limit) }
{
    match search(alloc, set, limit)? {
        Found::Sat(model) => Ok(Attempt::Refuted(example_of(alloc, rule, typing, set, &model)?)),
        Found::Unsat(log) => {
            check_again(alloc, rule, typing, set, &log)?;
            Ok(Attempt::Valid(log))
        }
        Found::Limit(log) => Ok(Attempt::Limit(pack(alloc, &log)?)),
    }
}

/// The clauses that stand for the counterexamples of the rule.
fn counterexample_clauses(alloc: Global, rule: &Rule, typing: &Typing) -> Result<Cnf, AllocError>
    requires rule { IsRule rule.now }
    requires typing { IsTyping rule.now typing.now }
    ensures { IfOk result (StandsForRule rule.now typing.now) }
{
    let mut graph = Aig::new(alloc);
    let made = blast_rule(alloc, &mut graph, rule, typing)?;
    rests_tell_counts();
    gates_are_few();
    clauses_of(alloc, &graph, made.bad)
}

/// The verdict on a rule that the example refutes. Where the source has an `undef` or a freeze, another number for it
/// might still do.
fn refusal(rule: &Rule, example: Example) -> Verdict
    requires { IsRule rule.now }
    ensures honest { (typing : Seq ℕ) (limit : ℕ) → IsRefutedBy rule.now typing example → IsHonest rule.now typing limit result }
    ensures no_log { (set : CnfOf) → IsLogOf result set [] }
    ensures keeps { (set : CnfOf) → Keeps set result }
{
    if rule.witnesses.is_empty() {
        Verdict::Refuted(example)
    } else {
        Verdict::WitnessFails(example)
    }
}

/// The counterexample that a model of the rule's clauses shows. The rule's circuit is evaluated on the inputs' values,
/// by building it over truth values in place of literals: that gives what `Wit:` chooses, and both effects.
fn example_of(
    alloc: Global,
    rule: &Rule,
    typing: &Typing,
    set: &Cnf,
    model: &Assignment,
) -> Result<Example, AllocError>
    requires rule { IsRule rule.now }
    requires typing { IsTyping rule.now typing.now }
    requires stands { StandsForRule rule.now typing.now set.now }
    requires model { IsModel set.now model.now }
    ensures { IfOk result (IsRefutedBy rule.now typing.now) }
{
    let inputs = &model.as_slice()[..set.inputs.len()];
    let setting = setting_of(alloc, rule, typing, inputs)?;
    let mut circuit = EvalCircuit::new(List::from_vec(Vec::from_slice(alloc, inputs)?));
    let made = blast_rule(alloc, &mut circuit, rule, typing)?;
    every_rule_has_one_outcome();
    Ok(Example {
        inputs: setting.inputs,
        constants: setting.constants,
        target_undefs: setting.target_choices,
        source_undefs: words_read(alloc, made.choices.as_slice())?,
        source: effect_read(&made.source),
        target: effect_read(&made.target),
    })
}

/// Checks, by the proof checker and not by the search, that the log refutes the clauses of the rule; then the rule is
/// valid.
fn check_again(
    alloc: Global,
    rule: &Rule,
    typing: &Typing,
    set: &Cnf,
    log: &Log,
) -> Result<(), AllocError>
    requires rule { IsRule rule.now }
    requires typing { IsTyping rule.now typing.now }
    requires stands { StandsForRule rule.now typing.now set.now }
    requires refuted { IsRefutation set.now log.now }
    ensures { OnOk result (IsValid rule.now typing.now) }
{
    if !check_refutation(alloc, set, log)? {
        unreachable!();
    }
    rules_without_counterexample_read_are_valid();
    Ok(())
}
