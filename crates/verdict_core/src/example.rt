//! Prints counterexamples.

ghost use Rattle.std.specs.Prelude.{◌≡◌, ◌++◌, OnOk};
ghost use Rattle.verdict_core.specs.Texts.{line_text, inputs_text, constants_text, choices_text, half_text, example_text};

use crate::words::{push_effect, push_value};
use itoa::Buffer;
use lists::Text;
use ops::{Effect, Value, Word};
use rule_core::{Example, Rule};
use std::alloc::AllocError;

/// Adds the lines of a counterexample of the rule.
#[tactic(auto, unfolding(crate::specs::Texts::example_text))]
pub(crate) fn push_example(
    out: &mut Vec<u8>,
    rule: &Rule,
    example: &Example,
) -> Result<(), AllocError>
    ensures { OnOk result (out.new.items ≡ out.old.items ++ example_text rule.now example.now) }
{
    push_inputs(out, rule.inputs.as_slice(), example.inputs.as_slice())?;
    push_constants(out, rule.constants.as_slice(), example.constants.as_slice())?;
    push_choices(out, b"t", example.target_undefs.as_slice())?;
    push_choices(out, b"u", example.source_undefs.as_slice())?;
    push_half(out, b"source", example.source)?;
    push_half(out, b"target", example.target)
}

/// Adds a line for each input, by its name.
fn push_inputs(out: &mut Vec<u8>, names: &[Text], values: &[Value]) -> Result<(), AllocError>
    ensures { OnOk result (out.new.items ≡ out.old.items ++ inputs_text names.now values.now) }
{
    for (name, value) in names.iter().zip(values) {
        push_line(out, b"%", name.as_slice(), *value)?;
    }
    Ok(())
}

/// Adds a line for each constant, by its name.
fn push_constants(out: &mut Vec<u8>, names: &[Text], numbers: &[Word]) -> Result<(), AllocError>
    ensures { OnOk result (out.new.items ≡ out.old.items ++ constants_text names.now numbers.now) }
{
    for (name, number) in names.iter().zip(numbers) {
        push_line(out, b"", name.as_slice(), Value::Bits(*number))?;
    }
    Ok(())
}

/// Adds a line for each choice of a half, named by the half's letter and a count from 1.
#[tactic(auto, unfolding(crate::specs::Texts::choices_text))]
fn push_choices(out: &mut Vec<u8>, letter: &[u8], numbers: &[Word]) -> Result<(), AllocError>
    ensures { OnOk result (out.new.items ≡ out.old.items ++ choices_text letter.now numbers.now) }
{
    for (place, number) in numbers.iter().enumerate() {
        let mut count = Buffer::new();
        let count = count.format(place + 1).as_bytes();
        push_line(out, letter, count, Value::Bits(*number))?;
    }
    Ok(())
}

/// Adds the line of a name and its value.
#[tactic(auto, unfolding(crate::specs::Texts::line_text))]
fn push_line(out: &mut Vec<u8>, sign: &[u8], name: &[u8], value: Value) -> Result<(), AllocError>
    ensures { OnOk result (out.new.items ≡ out.old.items ++ line_text (sign.now ++ name.now) value) }
{
    out.extend_from_slice(b"  ")?;
    out.extend_from_slice(sign)?;
    out.extend_from_slice(name)?;
    out.extend_from_slice(b" = ")?;
    push_value(out, value)?;
    out.extend_from_slice(b"\n")
}

/// Adds the line of the effect of a half.
#[tactic(auto, unfolding(crate::specs::Texts::half_text))]
fn push_half(out: &mut Vec<u8>, half: &[u8], effect: Effect) -> Result<(), AllocError>
    ensures { OnOk result (out.new.items ≡ out.old.items ++ half_text half.now effect) }
{
    out.extend_from_slice(b"  ")?;
    out.extend_from_slice(half)?;
    out.extend_from_slice(b" ")?;
    push_effect(out, effect)?;
    out.extend_from_slice(b"\n")
}
