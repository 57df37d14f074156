//! Runs of the two halves of a rule.

ghost use Rattle.std.specs.Prelude.{◌≡◌, ◌+◌, ◌≤◌, ℕ, [], length, take, slice_get, IsSome, IfOk, option_map, Some};
ghost use Rattle.ops.specs.Value.{IsValueOf, IsEffectOf};
ghost use Rattle.rule_core.specs.Checks.{IsRule};
ghost use Rattle.rule_core.specs.Typing.{IsTyping};
ghost use Rattle.rule_core.specs.Run.{frozen, value_of, OperandGives, StatementGives};
ghost use Rattle.rule_core.specs.Run.{SourceGives, TargetGives, TargetGoesOn};
ghost use Rattle.rule_core.specs.Terms.{constant_values, number_or_zero, value_at};
ghost use Rattle.rule_core.specs.Valid.{InputsFit, ConstantsFit, SourceChoicesFit, TargetChoicesFit};
ghost use Rattle.rule_core.specs.Readiness.{seen, shown, OperandIsReady, StatementIsReady, ValuesFit, GivenFits, SourceRan, TargetRan};

use crate::rule::{Argument, Op, Operand, Register, Rule, Statement, Typing};
use crate::term::{number_or_zero, term_value};
use lists::List;
use ops::{Effect, Value, Width, Word, choose, compare, convert, evaluate, residue, unary};
use std::alloc::{AllocError, Global};

/// What the registers hold: the inputs, and what the statements so far have assigned.
#[derive(Clone, Copy)]
pub(crate) struct Held<'a> {
    inputs: &'a [Value],
    source: &'a [Value],
    target: &'a [Value],
}

/// What a half is run on beside the inputs.
#[derive(Clone, Copy)]
pub(crate) struct Given<'a> {
    typing: &'a [Width],
    constants: &'a [Word],
    /// A number for each choice of the half.
    choices: &'a [Word],
    /// What the rule's terms give.
    terms: &'a [Value],
}

/// What the source does on these inputs, constants and one number for each of its choices: its statements in order, and
/// then the root. Undefined behaviour of one is its effect. It takes as many steps as there are statements.
pub fn run_source(
    alloc: Global,
    rule: &Rule,
    typing: &Typing,
    inputs: &List<Value>,
    constants: &List<Word>,
    choices: &List<Word>,
) -> Result<Effect, AllocError>
    requires rule { IsRule rule.now }
    requires typing { IsTyping rule.now typing.now }
    requires inputs { InputsFit rule.now typing.now inputs.now }
    requires constants { ConstantsFit rule.now typing.now constants.now }
    requires choices { SourceChoicesFit rule.now typing.now choices.now }
    ensures { IfOk result (λ effect. SourceGives typing.now constants.now choices.now rule.now inputs.now effect) }
{
    let terms = constant_values(alloc, rule, typing.as_slice(), constants.as_slice())?;
    let given = Given {
        typing: typing.as_slice(),
        constants: constants.as_slice(),
        choices: choices.as_slice(),
        terms: &terms,
    };
    let count = rule.source.len();
    let Some(values) = source_values(alloc, rule, given, inputs.as_slice(), count)? else {
        return Ok(Effect::Undefined);
    };
    Ok(Effect::Gives(values[count - 1]))
}

/// What the target does on these inputs, constants and one number for each of its choices: the statements of the source
/// but the root's, then its own in order, and then the root. Undefined behaviour of one is its effect. It takes as many
/// steps as there are statements.
pub fn run_target(
    alloc: Global,
    rule: &Rule,
    typing: &Typing,
    inputs: &List<Value>,
    constants: &List<Word>,
    choices: &List<Word>,
) -> Result<Effect, AllocError>
    requires rule { IsRule rule.now }
    requires typing { IsTyping rule.now typing.now }
    requires inputs { InputsFit rule.now typing.now inputs.now }
    requires constants { ConstantsFit rule.now typing.now constants.now }
    requires choices { TargetChoicesFit rule.now typing.now choices.now }
    ensures { IfOk result (λ effect. TargetGives typing.now constants.now choices.now rule.now inputs.now effect) }
{
    let typing = typing.as_slice();
    let constants = constants.as_slice();
    let terms = constant_values(alloc, rule, typing, constants)?;
    let given = Given {
        typing,
        constants,
        choices: choices.as_slice(),
        terms: &terms,
    };
    target_effect(alloc, rule, given, inputs.as_slice())
}

/// What the target does on what is given: first the source's temporaries, in which no choice stands.
fn target_effect(
    alloc: Global,
    rule: &Rule,
    given: Given,
    inputs: &[Value],
) -> Result<Effect, AllocError>
    requires rule { IsRule rule.now }
    requires typing { IsTyping rule.now given.typing.now }
    requires constants { ConstantsFit rule.now given.typing.now given.constants.now }
    requires choices { TargetChoicesFit rule.now given.typing.now given.choices.now }
    requires terms { given.terms.now ≡ constant_values given.typing.now given.constants.now rule.now }
    requires inputs { InputsFit rule.now given.typing.now inputs.now }
    ensures { IfOk result (λ effect.
        TargetGives given.entry.typing.now given.entry.constants.now given.entry.choices.now rule.now inputs.now effect) }
{
    let before = Given {
        choices: &[],
        ..given
    };
    let count = rule.source.len() - 1;
    let Some(source) = source_values(alloc, rule, before, inputs, count)? else {
        return Ok(Effect::Undefined);
    };
    effect_after(alloc, rule, given, inputs, &source)
}

/// What the target does after the source's temporaries have these values.
fn effect_after(
    alloc: Global,
    rule: &Rule,
    given: Given,
    inputs: &[Value],
    source: &[Value],
) -> Result<Effect, AllocError>
    requires rule { IsRule rule.now }
    requires typing { IsTyping rule.now given.typing.now }
    requires given { GivenFits rule.now given.typing.now rule.now.target (shown given) }
    requires terms { given.terms.now ≡ constant_values given.typing.now given.constants.now rule.now }
    requires inputs { InputsFit rule.now given.typing.now inputs.now }
    requires count { length source.now + 1 ≡ length rule.now.source }
    requires source { ValuesFit given.typing.now rule.now.source source.now }
    ensures { IfOk result (λ effect.
        TargetGoesOn given.entry.typing.now given.entry.constants.now given.entry.choices.now rule.now
        (record { inputs = inputs.now; source = source.now; target = [] }) effect) }
{
    let Some(values) = target_values(alloc, rule, given, inputs, source)? else {
        return Ok(Effect::Undefined);
    };
    Ok(Effect::Gives(values[values.len() - 1]))
}

/// What the constant terms of the rule give.
fn constant_values(
    alloc: Global,
    rule: &Rule,
    typing: &[Width],
    constants: &[Word],
) -> Result<Vec<Value>, AllocError>
    requires rule { IsRule rule.now }
    requires typing { IsTyping rule.now typing.now }
    requires constants { ConstantsFit rule.now typing.now constants.now }
    ensures { IfOk result (λ values. values.items ≡ constant_values typing.now constants.now rule.now) }
{
    let mut values = Vec::new(alloc);
    for term in rule.terms.as_slice() {
        let value = term_value(typing, constants, &values, *term);
        values.push(value)?;
    }
    Ok(values)
}

/// What the first `count` statements of the source assign, or `None` where one of them is undefined behaviour.
fn source_values(
    alloc: Global,
    rule: &Rule,
    given: Given,
    inputs: &[Value],
    count: usize,
) -> Result<Option<Vec<Value>>, AllocError>
    requires rule { IsRule rule.now }
    requires typing { IsTyping rule.now given.typing.now }
    requires given { GivenFits rule.now given.typing.now (take count rule.now.source) (shown given) }
    requires inputs { InputsFit rule.now given.typing.now inputs.now }
    requires count { count ≤ length rule.now.source }
    ensures { IfOk result (λ values. SourceRan given.entry.typing.now (shown given.entry) rule.now inputs.now count (option_map (λ v. v.items) values)) }
{
    let mut values = Vec::new(alloc);
    for place in 0..count {
        let held = Held {
            inputs,
            source: &values,
            target: &[],
        };
        match effect_of(given, held, &rule.source.as_slice()[place]) {
            Effect::Undefined => return Ok(None),
            Effect::Gives(value) => values.push(value)?,
        }
    }
    Ok(Some(values))
}

/// What the statements of the target assign after the source's temporaries, or `None` where one is undefined behaviour.
fn target_values(
    alloc: Global,
    rule: &Rule,
    given: Given,
    inputs: &[Value],
    source: &[Value],
) -> Result<Option<Vec<Value>>, AllocError>
    requires rule { IsRule rule.now }
    requires typing { IsTyping rule.now given.typing.now }
    requires given { GivenFits rule.now given.typing.now rule.now.target (shown given) }
    requires inputs { InputsFit rule.now given.typing.now inputs.now }
    requires count { length source.now + 1 ≡ length rule.now.source }
    requires source { ValuesFit given.typing.now rule.now.source source.now }
    ensures { IfOk result (λ values. TargetRan given.entry.typing.now (shown given.entry) rule.now inputs.now source.now (option_map (λ v. v.items) values)) }
{
    let mut values = Vec::new(alloc);
    for statement in rule.target.as_slice() {
        let held = Held {
            inputs,
            source,
            target: &values,
        };
        match effect_of(given, held, statement) {
            Effect::Undefined => return Ok(None),
            Effect::Gives(value) => values.push(value)?,
        }
    }
    Ok(Some(values))
}

/// What a statement does, given what the registers hold.
fn effect_of(given: Given, held: Held, statement: &Statement) -> Effect
    requires { StatementIsReady given.typing.now (shown given) (seen held) statement.now }
    ensures gives { StatementGives given.entry.typing.now (shown given.entry) (seen held.entry) statement.now result }
    ensures width { (N : ℕ) → slice_get given.entry.typing.now statement.now.class ≡ Some N → IsEffectOf N result }
{
    match statement.op {
        Op::Binary(opcode, flags, left, right) => evaluate(
            opcode,
            flags,
            width_of(given, statement.class),
            operand_value(given, held, left),
            operand_value(given, held, right),
        ),
        Op::Compare(pred, samesign, left, right) => Effect::Gives(compare(
            pred,
            samesign,
            width_of(given, left.class),
            operand_value(given, held, left),
            operand_value(given, held, right),
        )),
        Op::Unary(op, truth, operand) => Effect::Gives(unary(
            op,
            truth,
            width_of(given, statement.class),
            operand_value(given, held, operand),
        )),
        Op::Select(condition, yes, no) => Effect::Gives(choose(
            operand_value(given, held, condition),
            operand_value(given, held, yes),
            operand_value(given, held, no),
        )),
        Op::Convert(cast, flags, operand, _) => Effect::Gives(convert(
            cast,
            flags,
            width_of(given, operand.class),
            width_of(given, statement.class),
            operand_value(given, held, operand),
        )),
        Op::Freeze(operand, k) => Effect::Gives(frozen(
            operand_value(given, held, operand),
            number_at(given.choices, k),
        )),
        Op::Copy(operand) => Effect::Gives(operand_value(given, held, operand)),
    }
}

/// What a freeze gives: the value, or this number where that is poison.
fn frozen(value: Value, number: Word) -> Value
    ensures { result ≡ frozen value number }
{
    match value {
        Value::Poison => Value::Bits(number),
        Value::Bits(word) => Value::Bits(word),
    }
}

/// What an operand gives.
fn operand_value(given: Given, held: Held, operand: Operand) -> Value
    requires { (N : ℕ) × OperandIsReady given.typing.now (shown given) (seen held) N operand }
    ensures gives { OperandGives given.entry.typing.now (shown given.entry) (seen held.entry) operand result }
    ensures width { (N : ℕ) → slice_get given.entry.typing.now operand.class ≡ Some N → IsValueOf N result }
{
    let width = width_of(given, operand.class);
    match operand.value {
        Argument::Register(register) => register_value(held, register),
        Argument::Literal(literal) => Value::Bits(Word::fitting(width, residue(width, literal))),
        Argument::Truth(truth) => Value::Bits(Word::fitting(width, if truth { 1 } else { 0 })),
        Argument::Constant(k) => Value::Bits(number_at(given.constants, k)),
        Argument::Undef(k) => Value::Bits(number_at(given.choices, k)),
        Argument::Term(n) => Value::Bits(or_zero(width, value_at(given.terms, n))),
    }
}

/// The number at a place.
fn number_at(numbers: &[Word], k: u32) -> Word
    requires { IsSome (slice_get numbers.now k) }
    ensures { slice_get numbers.now k ≡ Some result }
{
    numbers[k as usize]
}

/// The value at a place.
fn value_at(values: &[Value], n: u32) -> Value
    requires { IsSome (slice_get values.now n) }
    ensures value { value_at values.now n ≡ result }
    ensures there { slice_get values.now n ≡ Some result }
{
    values[n as usize]
}

/// The number that a value of `iN` is, and 0 for poison.
fn or_zero(width: Width, value: Value) -> Word
    requires { IsValueOf width value }
    ensures { result ≡ record { width = width; number = number_or_zero value } }
{
    Word::fitting(width, number_or_zero(value))
}

/// What a register holds.
fn register_value(held: Held, register: Register) -> Value
    requires { IsSome (value_of (seen held) register) }
    ensures { value_of (seen held.entry) register ≡ Some result }
{
    match register {
        Register::Input(k) => held.inputs[k as usize],
        Register::Source(k) => held.source[k as usize],
        Register::Target(k) => held.target[k as usize],
    }
}

/// The width of a class.
fn width_of(given: Given, class: u32) -> Width
    requires { IsSome (slice_get given.typing.now class) }
    ensures { slice_get given.entry.typing.now class ≡ Some result }
{
    given.typing[class as usize]
}
