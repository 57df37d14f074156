//! The values that the arguments of a run spell.

ghost use Rattle.std.specs.Prelude.{◌≡◌, ◌≤◌, map, IfOk, IfSome, None};
ghost use Rattle.run_text.specs.Arguments.{begins_as_none};
ghost use Rattle.run_text.specs.Arguments.{AreSaid, DoNotFit, decimal_said, value_said};

use ir_core::Parameter;
use lists::List;
use ops::{Value, Width, Word};
use std::alloc::{AllocError, Global};

/// Whether the text begins with a plus sign, or with a zero before other bytes: `parse` may take it, but it is no
/// decimal here.
fn begins_as_none(text: &str) -> bool
    ensures { result ≡ begins_as_none text.now }
{
    let bytes = text.as_bytes();
    match bytes.first() {
        Some(b'+') => true,
        Some(b'0') => bytes.len() > 1,
        _ => false,
    }
}

/// The number of this width that a decimal spells, without a leading zero but for 0 itself.
fn decimal_said(width: Width, text: &str) -> Option<Value>
    requires { width ≤ 64 }
    ensures { result ≡ decimal_said width text.now }
{
    if begins_as_none(text) {
        return None;
    }
    match text.parse::<u64>() {
        Ok(number) => Word::new(width, number).map(Value::Bits),
        Err(_) => None,
    }
}

/// The value of this width that a word spells: `poison`, at i1 `true` or `false`, or a decimal.
fn value_said(width: Width, text: &str) -> Option<Value>
    ensures { result ≡ value_said width text.now }
{
    if text == "poison" {
        return Some(Value::Poison);
    }
    let is_truth = width.bits() == 1;
    if is_truth && text == "true" {
        return Some(Value::Bits(Word::wrapped(width, 1)));
    }
    if is_truth && text == "false" {
        return Some(Value::Bits(Word::wrapped(width, 0)));
    }
    decimal_said(width, text)
}

/// The values that words spell for parameters, or `None` where they don't fit.
pub(crate) fn values_said(
    alloc: Global,
    parameters: &[Parameter],
    words: &[&str],
) -> Result<Option<List<Value>>, AllocError>
    ensures said { IfOk result (λ found. IfSome found (AreSaid parameters.now (map (λ w. w.now) words.now))) }
    ensures unfit { IfOk result (λ found. found ≡ None → DoNotFit parameters.now (map (λ w. w.now) words.now)) }
{
    if words.len() != parameters.len() {
        return Ok(None);
    }
    let mut values = List::new(alloc);
    for (place, parameter) in parameters.iter().enumerate() {
        match value_said(parameter.width, words[place]) {
            Some(value) => values.push(value)?,
            None => return Ok(None),
        }
    }
    Ok(Some(values))
}
