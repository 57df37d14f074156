//! Whether the nodes of a formula hold.

ghost use Rattle.std.specs.Prelude.{◌≡◌, ℕ, length};
ghost use Rattle.ops.specs.Value.{IsValueOf};
ghost use Rattle.rule_core.specs.Terms.{compares, has_one_bit, is_sign_bit, formula_holds};
ghost use Rattle.precond.specs.Readiness.{CanBeRead};

use ops::{Pred, Value, compare};
use rule_core::{Formula, exponent};

/// Whether a node holds where the terms give these values, from whether the nodes before it hold.
pub(crate) fn formula_holds(values: &[Value], before: &[bool], formula: Formula) -> bool
    requires { CanBeRead values.now (length before.now) formula }
    ensures { result ≡ formula_holds values.now before.now formula }
{
    match formula {
        Formula::Compare(pred, a, b) => compares(pred, values[a as usize], values[b as usize]),
        Formula::IsPowerOfTwo(a) => has_one_bit(values[a as usize]),
        Formula::IsSignBit(a) => is_sign_bit(values[a as usize]),
        Formula::HasOneUse(_) | Formula::MaskedValueIsZero(_, _) | Formula::IsKnownNonZero(_) =>
            true,
        Formula::Not(a) => !before[a as usize],
        Formula::And(a, b) => before[a as usize] && before[b as usize],
        Formula::Or(a, b) => before[a as usize] || before[b as usize],
    }
}

/// Whether both values are numbers, of which the predicate holds.
fn compares(pred: Pred, a: Value, b: Value) -> bool
    requires { (N : ℕ) × IsValueOf N a × IsValueOf N b }
    ensures { result ≡ compares pred a b }
{
    let Value::Bits(left) = a else {
        return false;
    };
    match compare(pred, false, left.width(), a, b) {
        Value::Poison => false,
        Value::Bits(truth) => truth.number() == 1,
    }
}

/// Whether the value is a number with exactly one bit set.
fn has_one_bit(value: Value) -> bool
    ensures { result ≡ has_one_bit value }
{
    match value {
        Value::Poison => false,
        Value::Bits(word) => exponent(word).is_some(),
    }
}

/// Whether the value is a number of which the highest bit alone is set.
fn is_sign_bit(value: Value) -> bool
    ensures { result ≡ is_sign_bit value }
{
    match value {
        Value::Poison => false,
        Value::Bits(word) => word.number() == 1u64 << (word.width().bits() - 1),
    }
}
