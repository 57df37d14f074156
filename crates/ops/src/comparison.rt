//! Comparisons and choices. (LLVM Language Reference, "Other Operations".)

ghost use Rattle.std.specs.Prelude.{◌≡◌, ◌<◌, ◌^◌};
ghost use Rattle.ops.specs.Comparison.{holds, comparison, selection, signs_differ};
ghost use Rattle.ops.specs.Value.{HasWidth, IsValueOf};

use crate::integer::{negative, signed};
use crate::value::Value;
use crate::width::Width;
use crate::word::Word;

/// The predicates of `icmp`: `U` compares unsigned numbers, `S` numbers in two's complement.
#[derive(Clone, Copy, PartialEq, Eq, Debug)]
pub enum Pred {
    Eq,
    Ne,
    Ugt,
    Uge,
    Ult,
    Ule,
    Sgt,
    Sge,
    Slt,
    Sle,
}

/// What `icmp`, written with `samesign` or without, gives at these operands of type `iN`, where N is `width`: 1 or 0 of
/// type `i1`, or poison.
#[tactic(auto, unfolding(crate::specs::Comparison::comparison))]
pub fn compare(pred: Pred, samesign: bool, width: Width, a: Value, b: Value) -> Value
    requires left { HasWidth a width }
    requires right { HasWidth b width }
    ensures value { result ≡ comparison pred samesign width a b }
    ensures width { IsValueOf 1 result }
{
    let Value::Bits(left) = a else {
        return Value::Poison;
    };
    let Value::Bits(right) = b else {
        return Value::Poison;
    };
    if samesign && signs_differ(width, left.number(), right.number()) {
        return Value::Poison;
    }
    let holds = holds(pred, width, left.number(), right.number());
    Value::Bits(Word::truth(holds))
}

/// Whether exactly one of two numbers is negative.
fn signs_differ(width: Width, a: u64, b: u64) -> bool
    ensures { result ≡ signs_differ width a b }
{
    negative(width, a) ^ negative(width, b)
}

/// Whether the predicate holds of two numbers.
#[tactic(auto, unfolding(crate::specs::Comparison::holds))]
fn holds(pred: Pred, width: Width, a: u64, b: u64) -> bool
    requires left { a < 2 ^ width }
    requires right { b < 2 ^ width }
    ensures { result ≡ holds pred width a b }
{
    match pred {
        Pred::Eq => a == b,
        Pred::Ne => a != b,
        Pred::Ugt => a > b,
        Pred::Uge => a >= b,
        Pred::Ult => a < b,
        Pred::Ule => a <= b,
        Pred::Sgt => signed(width, a) > signed(width, b),
        Pred::Sge => signed(width, a) >= signed(width, b),
        Pred::Slt => signed(width, a) < signed(width, b),
        Pred::Sle => signed(width, a) <= signed(width, b),
    }
}

/// What `select` gives: `a` where the condition, of type `i1`, is 1, and `b` where it is 0. The operand that is not
/// chosen does not matter, even where it is poison.
#[tactic(auto, unfolding(crate::specs::Comparison::selection))]
pub fn choose(condition: Value, a: Value, b: Value) -> Value
    requires { HasWidth condition 1 }
    ensures { result ≡ selection condition a b }
{
    match condition {
        Value::Poison => Value::Poison,
        Value::Bits(condition) if condition.number() == 1 => a,
        Value::Bits(_) => b,
    }
}
