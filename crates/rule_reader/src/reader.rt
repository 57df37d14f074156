//! The rules of a text.

ghost use Rattle.std.specs.Prelude.{◌≤◌, ◌<◌, List as Seq, length, map, IfOk, IfErr, OnOk, All, Some};
ghost use Rattle.refusal.specs.Refusals.{IfRefused};
ghost use Rattle.rule_parse.specs.declared.raw.RawRule.{RawRule as written_rule};
ghost use Rattle.rule_core.specs.Checks.{IsRule, AreDistinct};
ghost use Rattle.rule_typing.specs.Classes.{IsClassified};
ghost use Rattle.rule_typing.specs.Faults.{HasNoFault};
ghost use Rattle.rule_reader.specs.WellFormed.{IsWellFormed};
ghost use Rattle.rule_reader.specs.RepeatedNames.{MarksRule};
ghost use Rattle.rule_reader.specs.ClassFaults.{IsClassifiedAs, IsClassFault};
ghost use Rattle.rule_reader.specs.Limits.{most_bytes};
ghost use Rattle.rule_reader.specs.Meaning.{AreNames};
ghost use Rattle.rule_reader.specs.Faults.{Unbound, ManyClasses, PassesBefore, IsRuleOf, IsFirstRuleFault, IsRuleFile, IsFault};

use crate::bound::unbound;
use crate::checks::{duplicate, redefined, root_missing, unused};
use crate::fault::kind_of_class_fault;
use crate::names::{Names, names_of};
use crate::repeated::repeated_names;
use crate::resolve::resolved;
use crate::undefs::{undef_inside, witness_count};
use refusal::refused;
use rule_core::Rule;
use rule_parse::{RawRule, RuleError, RuleFault, RuleFaultKind, parse_rules};
use rule_typing::classify;
use std::alloc::Global;

/// The most bytes of a rule file.
pub const MOST_BYTES: usize = 1_048_576;

/// The rules of a text, in order, or its first fault: its length, then the first token that does not fit, and then rule
/// by rule the first kind of [`RuleFaultKind`] in their order, at its first line.
///
/// It takes as many steps as the text has bytes, and for each rule as many more as the square of its operands and
/// nodes, which are at most 256.
pub fn read_rules(alloc: Global, bytes: &[u8]) -> Result<Vec<Rule>, RuleError>
    ensures ok { IfOk result (λ rules. IsRuleFile bytes.now rules.items) }
    ensures limit { OnOk result (length bytes.now ≤ most_bytes) }
    ensures refused { IfErr result (λ e. IfRefused e (IsFault bytes.now)) }

    // What a rule that is read meets.
    ensures rules { IfOk result (λ rules. All IsRule rules.items) }
    ensures classes { IfOk result (λ rules. All IsClassified rules.items) }
    ensures typed { IfOk result (λ rules. All HasNoFault rules.items) }
    ensures names { IfOk result (λ rules. AreDistinct (map (λ rule. rule.name) rules.items)) }
{
    if bytes.len() > MOST_BYTES {
        return Err(refused(1, RuleFaultKind::TooLong));
    }
    let raws = parse_rules(alloc, bytes)?;
    let repeated = repeated_names(alloc, &raws)?;
    let mut rules = Vec::new(alloc);
    for place in 0..raws.len() {
        rules.push(checked(alloc, &raws[place], repeated[place])?)?;
    }
    Ok(rules)
}

/// The rule that a rule as written means, or the first fault of that; `is_repeated` where an earlier rule has its name.
fn checked(alloc: Global, raw: &RawRule, is_repeated: bool) -> Result<Rule, RuleError>
    requires { IsWellFormed raw.now }
    ensures ok { IfOk result (λ rule. (earlier : Seq written_rule) → MarksRule is_repeated earlier raw.now → IsRuleOf earlier raw.now rule) }
    ensures refused { IfErr result (λ e. IfRefused e (λ fault. (earlier : Seq written_rule) → MarksRule is_repeated earlier raw.now → IsFirstRuleFault earlier raw.now fault)) }
{
    if let Some(line) = duplicate(raw, is_repeated) {
        return Err(refused(line, RuleFaultKind::Duplicate));
    }
    let names = names_of(alloc, raw.source.as_slice())?;
    check_uses(raw, &names)?;
    let rule = resolved(alloc, raw, names)?;
    Ok(classified(rule, raw.line)?)
}

/// Makes the checks between that of repeated names and those of classes; the answer is the first fault.
fn check_uses(raw: &RawRule, names: &Names) -> Result<(), RuleFault>
    requires rule { IsWellFormed raw.now }
    requires names { AreNames raw.now.source names.now }
    ensures ok { IfOk result (λ _. (earlier : Seq written_rule) → PassesBefore earlier raw.now Unbound → PassesBefore earlier raw.now ManyClasses) }
    ensures refused { IfErr result (λ fault. (earlier : Seq written_rule) → PassesBefore earlier raw.now Unbound → IsFirstRuleFault earlier raw.now fault) }
{
    if let Some(line) = unbound(raw, names) {
        let kind = RuleFaultKind::Unbound;
        return Err(RuleFault { line, kind });
    }
    if let Some(line) = root_missing(raw) {
        let kind = RuleFaultKind::RootMissing;
        return Err(RuleFault { line, kind });
    }
    if let Some(line) = redefined(raw, names.inputs.as_slice()) {
        let kind = RuleFaultKind::Redefines;
        return Err(RuleFault { line, kind });
    }
    if let Some(line) = unused(raw.source.as_slice()) {
        let kind = RuleFaultKind::UnusedTemp;
        return Err(RuleFault { line, kind });
    }
    if let Some(line) = undef_inside(raw) {
        let kind = RuleFaultKind::UndefInside;
        return Err(RuleFault { line, kind });
    }
    if let Some(line) = witness_count(raw) {
        let kind = RuleFaultKind::WitnessCount;
        return Err(RuleFault { line, kind });
    }
    Ok(())
}

/// The rule with its classes written, or the fault of its classes.
fn classified(mut rule: Rule, line: usize) -> Result<Rule, RuleFault>
    requires { IsRule rule }
    ensures ok { IfOk result (IsClassifiedAs rule) }
    ensures refused { IfErr result (IsClassFault rule line) }
{
    match classify(&mut rule) {
        Ok(()) => Ok(rule),
        Err(fault) => Err(RuleFault {
            line,
            kind: kind_of_class_fault(fault),
        }),
    }
}
