//! The semantics of intrinsics with one operand.

ghost use Rattle.std.specs.Prelude.{◌≡◌, ◌<◌, ◌^◌};
ghost use Rattle.ops.specs.Unary as meaning;
ghost use Rattle.ops.specs.Value.{HasWidth, IsValueOf};

use crate::counts::{ctlz, ctpop, cttz};
use crate::integer::signed;
use crate::opcode::Unary;
use crate::value::Value;
use crate::width::Width;
use crate::word::Word;

/// What an intrinsic gives at an operand of type `iN`, where N is `width`. The truth value is its `i1` argument
/// (`is_int_min_poison`, `is_zero_poison`). It takes no memory.
#[tactic(auto, unfolding(crate::specs::Unary::unary))]
pub fn unary(op: Unary, truth: bool, width: Width, a: Value) -> Value
    requires { HasWidth a width }
    ensures value { result ≡ meaning.unary op truth width a }
    ensures width { IsValueOf width result }
{
    let Value::Bits(operand) = a else {
        return Value::Poison;
    };
    if truth && poison_where_true(op, width, operand.number()) {
        return Value::Poison;
    }
    let number = at_number(op, width, operand.number());
    Value::Bits(Word::fitting(width, number))
}

/// Whether the result at this number is poison where the truth value is true.
#[tactic(auto, unfolding(crate::specs::Unary::poison_where_true))]
fn poison_where_true(op: Unary, width: Width, a: u64) -> bool
    ensures { result ≡ meaning.poison_where_true op width a }
{
    match op {
        Unary::Abs => i128::from(a) == width.half_modulus(),
        Unary::CtPop => false,
        Unary::CtLz | Unary::CtTz => a == 0,
    }
}

/// The result at a number, where it isn't poison.
#[tactic(auto, unfolding(crate::specs::Unary::at_number))]
fn at_number(op: Unary, width: Width, a: u64) -> u64
    requires { a < 2 ^ width }
    ensures number { result ≡ meaning.at_number op width a }
    ensures fits { result < 2 ^ width }
{
    match op {
        Unary::Abs => signed(width, a).unsigned_abs() as u64,
        Unary::CtPop => ctpop(width, a),
        Unary::CtLz => ctlz(width, a),
        Unary::CtTz => cttz(width, a),
    }
}
