//! Whether a precondition holds.

ghost use Rattle.std.specs.Prelude.{◌≡◌, ◌≤◌, ◌↔◌, IsTrue, length};
ghost use Rattle.rule_core.specs.Checks.{IsRule};
ghost use Rattle.rule_core.specs.Typing.{IsTyping};
ghost use Rattle.rule_core.specs.Valid.{ConstantsFit};
ghost use Rattle.rule_core.specs.Terms.{last_holds, truths_of, PreconditionHolds};
ghost use Rattle.precond.specs.Numbers.{HaveNumbers};
ghost use Rattle.precond.specs.Readiness.{AreReady};

use crate::formula::formula_holds;
use crate::values::{MOST_NODES, constant_values};
use lists::List;
use ops::{Value, Word};
use rule_core::{Formula, Rule, Typing};

/// Whether the precondition of a rule holds on these constants: each constant term, in the target too, has a value, and
/// the formula of `Pre:` holds, of which no part is left out. `hasOneUse` counts as true, and so does what is said of
/// bits. It takes as many steps as the rule has nodes.
pub fn holds(rule: &Rule, typing: &Typing, constants: &List<Word>) -> bool
    requires rule { IsRule rule.now }
    requires typing { IsTyping rule.now typing.now }
    requires constants { ConstantsFit rule.now typing.now constants.now }
    ensures { IsTrue result ↔ PreconditionHolds rule.now typing.now constants.now }
{
    let values = constant_values(rule, typing, constants);
    let values = &values[..rule.terms.len()];
    have_numbers(values) && last_holds(values, rule.precondition.as_slice())
}

/// Whether each of the values is a number.
fn have_numbers(values: &[Value]) -> bool
    ensures { IsTrue result ↔ HaveNumbers values.now }
{
    for value in values {
        match value {
            Value::Poison => return false,
            Value::Bits(_) => {}
        }
    }
    true
}

/// Whether the last node of a formula holds where the terms give these values; a formula without nodes does.
fn last_holds(values: &[Value], formulas: &[Formula]) -> bool
    requires few { length formulas.now ≤ 256 }
    requires ready { AreReady values.now formulas.now }
    ensures { result ≡ last_holds (truths_of values.now formulas.now) }
{
    let mut truths = [false; MOST_NODES];
    for (n, formula) in formulas.iter().enumerate() {
        truths[n] = formula_holds(values, &truths[..n], *formula);
    }
    formulas.is_empty() || truths[formulas.len() - 1]
}
