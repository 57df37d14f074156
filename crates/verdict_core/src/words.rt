//! Prints numbers, values and effects.

ghost use Rattle.std.specs.Prelude.{◌≡◌, ◌++◌, OnOk, decimal, map};
ghost use Rattle.std.specs.List.{join_with_byte};
ghost use Rattle.verdict_core.specs.Texts.{value_text, effect_text};

use itoa::Buffer;
use ops::{Effect, Value, Width};
use std::alloc::AllocError;

/// Adds a number in decimal.
pub(crate) fn push_decimal(out: &mut Vec<u8>, number: u64) -> Result<(), AllocError>
    ensures { OnOk result (out.new.items ≡ out.old.items ++ decimal number) }
{
    let mut buffer = Buffer::new();
    out.extend_from_slice(buffer.format(number).as_bytes())
}

/// Adds widths, joined by spaces.
pub(crate) fn push_widths(out: &mut Vec<u8>, widths: &[Width]) -> Result<(), AllocError>
    ensures { OnOk result (out.new.items ≡ out.old.items ++ join_with_byte 32 (map decimal widths.now)) }
{
    for (place, width) in widths.iter().enumerate() {
        if place > 0 {
            out.push(b' ')?;
        }
        push_decimal(out, u64::from(width.bits()))?;
    }
    Ok(())
}

/// Adds a value: its number without a sign, or `poison`.
#[tactic(auto, unfolding(crate::specs::Texts::value_text))]
pub(crate) fn push_value(out: &mut Vec<u8>, value: Value) -> Result<(), AllocError>
    ensures { OnOk result (out.new.items ≡ out.old.items ++ value_text value) }
{
    match value {
        Value::Poison => out.extend_from_slice(b"poison"),
        Value::Bits(word) => push_decimal(out, word.number()),
    }
}

/// Adds an effect: `undefined`, or the value that it gives.
#[tactic(auto, unfolding(crate::specs::Texts::effect_text))]
pub(crate) fn push_effect(out: &mut Vec<u8>, effect: Effect) -> Result<(), AllocError>
    ensures { OnOk result (out.new.items ≡ out.old.items ++ effect_text effect) }
{
    match effect {
        Effect::Undefined => out.extend_from_slice(b"undefined"),
        Effect::Gives(value) => push_value(out, value),
    }
}
