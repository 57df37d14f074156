//! The checks of what a rule assigns. Each answers the first line at which it fails.

ghost use Rattle.std.specs.Prelude.{◌≡◌, ◌⊎◌, ◌↔◌, ◌<◌, List, Some, length, slice_get, IsTrue};
ghost use Rattle.rule_parse.specs.declared.raw.RawRule.{RawRule as written_rule};
ghost use Rattle.rule_parse.specs.declared.raw.RawStatement.{RawStatement as written_statement};
ghost use Rattle.rule_reader.specs.Meaning.{AreInputs, IsInput, IsTemporary};
ghost use Rattle.rule_reader.specs.WellFormed.{AreInLineOrder, IsWellFormed};
ghost use Rattle.rule_reader.specs.FaultKinds.{StandsAt, HasNameOf, AssignsAgain, DuplicateAt, RootMissingAt, RedefinesAt, UsesFrom, IsUnused, UnusedTempAt};
ghost use Rattle.rule_reader.specs.Faults.{IsFirst};

use crate::registers::{is_among, is_assigned, is_root, uses};
use lists::Text;
use rule_parse::{RawRule, RawStatement};

/// The first line on which a statement assigns what an earlier one does.
fn assigned_again(statements: &[RawStatement]) -> Option<usize>
    requires { AreInLineOrder statements.now }
    ensures { IsFirst (StandsAt statements.now (AssignsAgain statements.now)) result }
{
    for (place, statement) in statements.iter().enumerate() {
        if is_assigned(statements, place, statement.name.as_slice()) {
            return Some(statement.line);
        }
    }
    None
}

/// The first line of the rule on which a name is repeated: its own, or that of a register that a half has assigned.
pub(crate) fn duplicate(rule: &RawRule, is_repeated: bool) -> Option<usize>
    requires { IsWellFormed rule.now }
    ensures { (earlier : List written_rule) → (IsTrue is_repeated ↔ HasNameOf earlier rule.now.name) →
        IsFirst (DuplicateAt earlier rule.now) result }
{
    if is_repeated {
        return Some(rule.line);
    }
    match assigned_again(rule.source.as_slice()) {
        Some(line) => Some(line),
        None => assigned_again(rule.target.as_slice()),
    }
}

/// The line of the target's last statement, where that does not assign the root.
pub(crate) fn root_missing(rule: &RawRule) -> Option<usize>
    requires { IsWellFormed rule.now }
    ensures { IsFirst (RootMissingAt rule.now) result }
{
    let last = &rule.target.as_slice()[rule.target.len() - 1];
    if is_root(rule.source.as_slice(), last.name.as_slice()) {
        None
    } else {
        Some(last.line)
    }
}

/// Whether the name is that of an input or a temporary of the source.
fn is_taken(source: &[RawStatement], inputs: &[Text], name: &[u8]) -> bool
    requires source { 0 < length source.now }
    requires inputs { AreInputs source.now inputs.now }
    ensures { IsTrue result ↔ (IsInput source.now name.now ⊎ IsTemporary source.now name.now) }
{
    is_among(inputs, name) || is_assigned(source, source.len() - 1, name)
}

/// The first line at which the target assigns an input or a temporary of the source.
pub(crate) fn redefined(rule: &RawRule, inputs: &[Text]) -> Option<usize>
    requires rule { IsWellFormed rule.now }
    requires inputs { AreInputs rule.now.source inputs.now }
    ensures { IsFirst (RedefinesAt rule.now) result }
{
    let target = rule.target.as_slice();
    for statement in target {
        if is_taken(rule.source.as_slice(), inputs, statement.name.as_slice()) {
            return Some(statement.line);
        }
    }
    None
}

/// Whether a statement from a place on uses the register.
fn is_used_from(statements: &[RawStatement], place: usize, name: &[u8]) -> bool
    ensures { IsTrue result ↔ UsesFrom statements.now place name.now }
{
    for later in place..statements.len() {
        if uses(&statements[later].op, name) {
            return true;
        }
    }
    false
}

/// Whether a statement, not the last, assigns what no later one uses.
fn is_unused(source: &[RawStatement], place: usize) -> bool
    requires { place < length source.now }
    ensures { (s : written_statement) → slice_get source.now place ≡ Some s → (IsTrue result ↔ IsUnused source.now place s) }
{
    place + 1 < source.len() && !is_used_from(source, place + 1, source[place].name.as_slice())
}

/// The first line of a temporary of the source that no later statement uses.
pub(crate) fn unused(source: &[RawStatement]) -> Option<usize>
    requires { AreInLineOrder source.now }
    ensures { IsFirst (UnusedTempAt source.now) result }
{
    for (place, statement) in source.iter().enumerate() {
        if is_unused(source, place) {
            return Some(statement.line);
        }
    }
    None
}
