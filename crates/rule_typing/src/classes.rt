//! Which positions of a rule are of one class.

ghost use Rattle.std.specs.Prelude.{◌≡◌, ◌<◌, ℕ, OnOk, IfErr};
ghost use Rattle.rule_core.specs.Checks.{IsRule};
ghost use Rattle.rule_core.specs.Positions.{Line, classes_of};
ghost use Rattle.rule_typing.specs.Relabelled.{numbered, IsRenumbered};
ghost use Rattle.rule_typing.specs.Splits.{IsMerged};
ghost use Rattle.rule_typing.specs.Classes.{IsClassified, IsInOrder, HasClasses};
ghost use Rattle.rule_typing.specs.Faults.{IsFault, HasNoFault};

use crate::lines::split_line;
use crate::open_classes::has_open_class;
use crate::relabelling::{Renaming, number_positions};
use crate::solving::has_typing;
use rule_core::{Rule, class_at, positions};

/// The most type classes that a rule may have.
pub const MOST_CLASSES: u32 = 8;

/// Why the classes of a rule admit no typing that is worth a trial. They are tested in this order.
#[derive(Clone, Copy, PartialEq, Eq)]
pub enum ClassFault {
    /// There are more than 8 type classes.
    TooMany,
    /// No widths from 1 to 64 are a typing.
    NoType,
    /// A class has neither a name in the source nor a fixed width.
    OpenType,
}

/// Writes the classes of the rule's positions, and says whether typings are worth a trial. It takes no memory. Classes
/// are merged one pair at a time, each found by going over the rule, so the steps are at most the square of the number
/// of positions for each merge; that is little: a rule has at most 256 operands and nodes.
pub fn classify(rule: &mut Rule) -> Result<(), ClassFault>
    requires { IsRule rule.old }
    ensures rule { IsRule rule.new }
    ensures rest { numbered rule.new ≡ numbered rule.old }
    ensures classes { IsClassified rule.new }
    ensures ok { OnOk result (HasNoFault rule.new) }
    ensures fault { IfErr result (IsFault rule.new) }
{
    let count = write_classes(rule);
    test_classes(rule, count)
}

/// Writes the classes. The answer is how many there are.
fn write_classes(rule: &mut Rule) -> u32
    requires { IsRule rule.old }
    ensures rule { IsRule rule.new }
    ensures rest { numbered rule.new ≡ numbered rule.old }
    ensures classes { IsClassified rule.new }
    ensures count { HasClasses rule.new result }
{
    number_positions(rule);
    join_lines(rule);
    number_classes(rule)
}

/// The first fault of the classes, which are `count` many.
fn test_classes(rule: &Rule, count: u32) -> Result<(), ClassFault>
    requires classes { IsClassified rule.now }
    requires count { HasClasses rule.now count }
    ensures ok { OnOk result (HasNoFault rule.now) }
    ensures fault { IfErr result (IsFault rule.now) }
{
    if count > MOST_CLASSES {
        return Err(ClassFault::TooMany);
    }
    if !has_typing(rule, count as usize) {
        return Err(ClassFault::NoType);
    }
    if has_open_class(rule, count as usize) {
        return Err(ClassFault::OpenType);
    }
    Ok(())
}

/// Merges classes until no constraint asks two different ones to have one width.
fn join_lines(rule: &mut Rule)
    requires { IsRule rule.old }
    ensures merged { IsMerged rule.old rule.new }
    ensures joined { (c d : ℕ) → Line rule.new c d → c ≡ d }
{
    while let Some((a, b)) = split_line(rule) {
        Renaming::Merge(a.max(b), a.min(b)).apply(rule);
    }
}

/// Numbers the classes from 0 in the order in which they first appear. The answer is how many there are.
fn number_classes(rule: &mut Rule) -> u32
    requires { IsRule rule.old }
    ensures renumbered { IsRenumbered rule.old rule.new }
    ensures order { IsInOrder (classes_of rule.new) }
    ensures count { HasClasses rule.new result }
{
    let mut next = 0;
    for position in 0..positions(rule) {
        let class = class_at(rule, position);
        if class >= next {
            Renaming::Swap(class, next).apply(rule);
            next += 1;
        }
    }
    next
}
