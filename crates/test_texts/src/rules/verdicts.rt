//! Twelve rules, read and decided; a separate program found their verdicts by enumerating all settings.
ghost use Rattle.std.specs.Prelude.{IfOk, All};
ghost use Rattle.verdict.specs.Findings.{IsReadRule};

use crate::unfit::Unfit;
use lists::List;
use ops::Width;
use rule_core::Rule;
use rule_reader::{RuleError, read_rules};
use std::alloc::Global;
use std::test::Fail;
use verdict::{Verified, verify};
use verdict_core::Verdict;

const RULES: &str = "Name: or-as-add-1
%a = and i1 %x, %y
%o = or i1 %x, %y
%r = add i1 %a, %o
=>
%r = add i1 %x, %y

Name: or-as-xor-1
%a = and i1 %x, %y
%o = or i1 %x, %y
%r = sub i1 %o, %a
=>
%r = xor i1 %x, %y

Name: and-or-absorb-1
%o = or i1 %x, %y
%r = and i1 %x, %o
=>
%r = i1 %x

Name: sub-self-3
%r = sub i3 %x, %x
=>
%r = i3 0

Name: wrong-or-as-add-3
%r = or i3 %x, %y
=>
%r = add i3 %x, %y

Name: wrong-distribute-3
%o = add i3 %x, %y
%r = and i3 %o, %z
=>
%a = and i3 %x, %z
%b = and i3 %y, %z
%r = add i3 %a, %b

Name: drops-poison-3
%a = and i3 %x, 0
%r = or i3 %a, %y
=>
%r = i3 %y

Name: low-bit-3
%a = sub i3 0, %x
%r = and i3 %a, %x
=>
%m = add i3 %x, -1
%n = xor i3 %m, -1
%r = and i3 %n, %x

Name: not-as-neg-5
%n = xor i5 %x, -1
%r = add i5 %n, 1
=>
%r = sub i5 0, %x

Name: wrong-distribute-5
%o = add i5 %x, %y
%r = and i5 %o, %z
=>
%a = and i5 %x, %z
%b = and i5 %y, %z
%r = add i5 %a, %b

Name: add-sub-5
%a = add i5 %x, %y
%r = sub i5 %a, %x
=>
%r = i5 %y

Name: neg-neg-8
%n = sub i8 0, %x
%r = sub i8 0, %n
=>
%r = i8 %x
";

/// The verdict on each rule.
const VERDICTS: [&str; 12] = [
    "admitted", "admitted", "admitted", "admitted", "refuted", "refuted", "admitted", "admitted",
    "admitted", "refuted", "admitted", "admitted",
];

/// The most rules that are decided here.
const MOST_RULES: usize = 100;

/// The rules of a text.
pub(crate) fn rules_of(alloc: Global, text: &[u8]) -> Result<Vec<Rule>, Unfit>
    ensures { IfOk result (λ rules. All IsReadRule rules.items) }
{
    match read_rules(alloc, text) {
        Ok(rules) => Ok(rules),
        Err(RuleError::NoMemory) => Err(Unfit::NoMemory),
        Err(RuleError::Refused(_)) => Err(Unfit::NoRules),
    }
}

/// How many rules a text has, if it is a rule file.
pub(crate) fn rule_count(alloc: Global, text: &str) -> Result<usize, Unfit> {
    let rules = rules_of(alloc, text.as_bytes())?;
    Ok(rules.len())
}

/// The verdicts on rules over widths.
fn verified_rules(alloc: Global, rules: &[Rule], widths: &List<Width>) -> Result<Verified, Unfit>
    requires { All IsReadRule rules.now }
{
    if rules.len() > MOST_RULES {
        return Err(Unfit::TooLarge);
    }
    Ok(verify(alloc, rules, widths, 20_000)?)
}

/// The verdicts on the rules of a text over widths.
fn verified(alloc: Global, text: &[u8], widths: &List<Width>) -> Result<Verified, Unfit> {
    let rules = rules_of(alloc, text)?;
    verified_rules(alloc, rules.as_slice(), widths)
}

/// The widths from one to another.
pub(crate) fn widths(alloc: Global, least: u32, most: u32) -> Result<List<Width>, Unfit> {
    let mut widths = List::new(alloc);
    for bits in least..=most {
        widths.push(Width::new(bits).ok_or(Unfit::NoWidth)?)?;
    }
    Ok(widths)
}

/// The lines of the verdicts on the rules of a text over the widths from one to another.
pub(crate) fn lines(alloc: Global, text: &str, least: u32, most: u32) -> Result<Vec<u8>, Unfit> {
    let widths = widths(alloc, least, most)?;
    Ok(verified(alloc, text.as_bytes(), &widths)?.text)
}

/// The same of a rule of version 2.
pub(crate) fn lines_in_version_2(
    alloc: Global,
    rule: &str,
    least: u32,
    most: u32,
) -> Result<Vec<u8>, Unfit> {
    let text = format!(in alloc; "Version: 2\n{rule}")?;
    lines(alloc, text.as_str(), least, most)
}

/// What the program calls a verdict.
fn word(verdict: &Verdict) -> &'static str {
    match verdict {
        Verdict::Admitted => "admitted",
        Verdict::Refuted(_) => "refuted",
        Verdict::WitnessFails(_) => "witness fails",
        Verdict::Budget(_) => "budget",
    }
}

#[test]
fn rules_have_their_verdicts(rt: HostRuntime) -> Result<(), Fail> {
    let verified = verified(rt.alloc(), RULES.as_bytes(), &List::new(rt.alloc()))?;
    let rows = verified.table.as_slice();
    assert_eq!(rt; rows.len(), VERDICTS.len());
    for (row, verdict) in rows.iter().zip(&VERDICTS) {
        assert_eq!(rt; word(&row.verdict), *verdict, "rule {}", row.rule);
    }
    Ok(())
}
