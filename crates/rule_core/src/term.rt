//! What the nodes of constant terms give.

ghost use Rattle.std.specs.Prelude.{◌≡◌, ◌≢◌, ◌↔◌, ℕ, ◌<◌, ◌-◌, ◌^◌, nat_lt, if◌then◌else◌, slice_index};
ghost use Rattle.std.specs.Option.{option_map_or};
ghost use Rattle.ops.specs.Integer.{bits, residue, least};
ghost use Rattle.ops.specs.Value.{IsValueOf};
ghost use Rattle.ops.specs.declared.value.Value.TheVariants.{Poison};
ghost use Rattle.rule_core.specs.Terms.{function_value, of_constants, value_given, within, exponent, function_at, term_value, number_or_zero};
ghost use Rattle.rule_core.specs.Readiness.{TermIsReady};

use crate::rule::{Function, Node, Term};
use ops::{Effect, Flags, Opcode, Value, Width, Word, evaluate, minus_one, residue};

/// What a node of a constant term gives, from what the nodes before it give; poison where it has no value.
pub fn term_value(typing: &[Width], constants: &[Word], before: &[Value], term: Term) -> Value
    requires { TermIsReady typing.now constants.now before.now term }
    ensures value { result ≡ term_value typing.now (of_constants constants.now) before.now term }
    ensures width { IsValueOf (slice_index typing.now term.class) result }
{
    let width = typing[term.class as usize];
    match term.node {
        Node::Literal(literal) => Value::Bits(Word::fitting(width, residue(width, literal))),
        Node::Constant(k) => Value::Bits(constants[k as usize]),
        Node::Width(_, class) => within(width, typing[class as usize].bits()),
        Node::Unary(function, operand) => function_value(function, width, before[operand as usize]),
        Node::Binary(opcode, left, right) => {
            let (left, right) = (before[left as usize], before[right as usize]);
            value_given(evaluate(opcode, Flags::NONE, width, left, right))
        }
        Node::Register(_) | Node::Choice(_) => unreachable!(),
    }
}

/// What a function gives at a value of `iN`.
fn function_value(function: Function, width: Width, value: Value) -> Value
    requires { IsValueOf width value }
    ensures value { result ≡ function_value function width value }
    ensures width { IsValueOf width result }
{
    match value {
        Value::Poison => Value::Poison,
        Value::Bits(a) => function_at(function, width, a),
    }
}

/// What a function gives at a number of `iN`.
fn function_at(function: Function, width: Width, a: Word) -> Value
    requires { a.width ≡ width }
    ensures value { result ≡ function_at function width a.number }
    ensures width { IsValueOf width result }
{
    match function {
        Function::Negate => value_given(evaluate(
            Opcode::Sub,
            Flags::NONE,
            width,
            Value::Bits(Word::fitting(width, 0)),
            Value::Bits(a),
        )),
        Function::Not => value_given(evaluate(
            Opcode::Xor,
            Flags::NONE,
            width,
            Value::Bits(Word::fitting(width, minus_one(width))),
            Value::Bits(a),
        )),
        Function::Log2 => logarithm(width, a),
        Function::Abs => Value::Bits(absolute(width, a)),
    }
}

/// What an instruction gives, and poison where it is undefined behaviour.
fn value_given(effect: Effect) -> Value
    ensures { result ≡ value_given effect }
{
    match effect {
        Effect::Undefined => Value::Poison,
        Effect::Gives(value) => value,
    }
}

/// The number, if it is one of `iN`, and else poison.
fn within(width: Width, number: u32) -> Value
    ensures value { result ≡ within width number }
    ensures width { IsValueOf width result }
{
    match Word::new(width, u64::from(number)) {
        Some(word) => Value::Bits(word),
        None => Value::Poison,
    }
}

/// The exponent k where the number is 2^k, if it is a power of two.
pub fn exponent(a: Word) -> Option<u32>
    ensures power { (k : ℕ) → (result ≡ Some k) ↔ (a.number ≡ 2 ^ k) }
    ensures none { (result ≡ None) ↔ ((k : ℕ) → a.number ≢ 2 ^ k) }
    // the same by the definition that the values of terms use
    ensures value { result ≡ exponent a.width a.number }
{
    let number = a.number();
    for k in 0..a.width().bits() {
        if 1u64 << k == number {
            return Some(k);
        }
    }
    None
}

/// The logarithm of a power of two, and else poison.
fn logarithm(width: Width, a: Word) -> Value
    requires { a.width ≡ width }
    ensures value { result ≡ option_map_or (bits width) (exponent width a.number) Poison }
    ensures width { IsValueOf width result }
{
    match exponent(a) {
        Some(k) => Value::Bits(Word::fitting(width, u64::from(k))),
        None => Value::Poison,
    }
}

/// The absolute value, taking the number as one in two's complement.
fn absolute(width: Width, a: Word) -> Word
    requires { a.width ≡ width }
    ensures { result ≡ record { width = width; number = (if nat_lt a.number (least width) then a.number else 2 ^ width - a.number) } }
{
    if a.number() < 1u64 << (width.bits() - 1) {
        a
    } else {
        Word::fitting(
            width,
            ((1u128 << width.bits()) - u128::from(a.number())) as u64,
        )
    }
}

/// The number that a value is, and 0 for poison.
pub(crate) fn number_or_zero(value: Value) -> u64
    ensures { result ≡ number_or_zero value }
{
    match value {
        Value::Poison => 0,
        Value::Bits(word) => word.number(),
    }
}
