//! Widths for all classes together: casts keep the width of one class below that of another.

ghost use Rattle.std.specs.Prelude.{◌≤◌, ◌<◌, ◌↔◌, ℕ, List as Seq, length, IsTrue, Contains};
ghost use Rattle.std.specs.Bool.{OnTrue, OnFalse};
ghost use Rattle.rule_core.specs.Typing.{IsTyping};
ghost use Rattle.rule_core.specs.Positions.{classes_of};
ghost use Rattle.rule_typing.specs.Classes.{IsClassified, HasClasses};
ghost use Rattle.rule_typing.specs.Solutions.{AreOf, SolvesFrom, AreLeast};

use crate::casts::broken_line;
use crate::widths::{Widths, widths_of_class};
use ops::Width;
use rule_core::Rule;

/// Whether some widths are a typing of the rule, whose classes are written and `count` many. It takes no memory.
pub(crate) fn has_typing(rule: &Rule, count: usize) -> bool
    requires classes { IsClassified rule.now }
    requires count { HasClasses rule.now count }
    requires few { count ≤ 8 }
    ensures { IsTrue result ↔ ((typing : Seq ℕ) × IsTyping rule.now typing) }
{
    let mut sets = [Widths::none(); 8];
    let mut widths = [Width::ONE; 8];
    for class in 0..count {
        let set = widths_of_class(rule, class);
        let Some(width) = set.above(0) else {
            return false;
        };
        sets[class] = set;
        widths[class] = width;
    }
    settle(rule, &sets[..count], 0, &mut widths[..count])
}

/// Raises widths, each to a later one of its class's set, until they meet the constraints of all casts, and no further
/// than that takes; the first `kept` widths stay. The answer is whether that can be done.
///
/// It is a search for the least fixed point: each step raises one width to the next one of its set that a broken cast
/// allows. So there are at most 64 steps for each class, and each goes over the statements once.
pub(crate) fn settle(rule: &Rule, sets: &[Widths], kept: usize, widths: &mut [Width]) -> bool
    requires classes { (c : ℕ) → Contains (classes_of rule.now) c → c < length sets.now }
    requires chosen { AreOf sets.now widths.old }
    ensures some { OnTrue result (AreLeast (SolvesFrom rule.now sets.now kept widths.old) widths.new) }
    ensures none { OnFalse result ((others : Seq ℕ) → ¬ SolvesFrom rule.now sets.now kept widths.old others) }
{
    while let Some((smaller, larger)) = broken_line(rule, widths) {
        let (smaller, larger) = (smaller as usize, larger as usize);
        if larger < kept {
            return false;
        }
        match sets[larger].above(widths[smaller].bits()) {
            None => return false,
            Some(width) => widths[larger] = width,
        }
    }
    true
}
