//! Settings of a rule, read from the truth values of the circuit's inputs.
ghost use Rattle.std.specs.Prelude.{◌≡◌, ◌<◌, ◌^◌, false, IfOk, take, drop, sum_by, slice_index_or};
ghost use Rattle.rule_core.specs.Checks.{IsRule};
ghost use Rattle.rule_core.specs.Typing.{IsTyping};
ghost use Rattle.circuits.specs.Word.{number};
ghost use Rattle.blast_setting.specs.Inputs.{value_bits, number_bits};
ghost use Rattle.blast_setting.specs.Settings.{setting_of, value_read, values_read, numbers_read};

use crate::setting_widths::SettingWidths;
use lists::List;
use ops::{Value, Width, Word};
use rule_core::{Rule, Typing};
use std::alloc::{AllocError, Global};

/// What both halves of a rule are run on, to be compared.
#[derive(Drop)]
pub struct Setting {
    /// A value for each input.
    pub inputs: List<Value>,
    /// A number for each abstract constant.
    pub constants: List<Word>,
    /// A number for each choice of the target: for each of its `undef`s and its freezes.
    pub target_choices: List<Word>,
}

/// The setting that truth values of the circuit's inputs are read as, in the order in which
/// [`blast_rule`](crate::blast_rule) makes these: for each input of the rule its bits, the lowest first, and then its
/// poison bit; then the bits of each constant, and then those of each choice of the target. Past its end the list
/// counts as false.
pub fn setting_of(
    alloc: Global,
    rule: &Rule,
    typing: &Typing,
    bits: &[bool],
) -> Result<Setting, AllocError>
    requires rule { IsRule rule.now }
    requires typing { IsTyping rule.now typing.now }
    ensures inputs { IfOk result (λ setting. setting.inputs ≡ (setting_of rule.now typing.now bits.now).inputs) }
    ensures constants { IfOk result (λ setting. setting.constants ≡ (setting_of rule.now typing.now bits.now).constants) }
    ensures target_choices { IfOk result (λ setting.
        setting.target_choices ≡ (setting_of rule.now typing.now bits.now).target_choices) }
{
    let widths = SettingWidths::of(alloc, rule, typing.as_slice())?;
    let (inputs, rest) = values_read(alloc, &widths.inputs, bits)?;
    let (constants, rest) = numbers_read(alloc, &widths.constants, rest)?;
    let (target_choices, _) = numbers_read(alloc, &widths.choices, rest)?;
    Ok(Setting {
        inputs,
        constants,
        target_choices,
    })
}

/// The values of these widths that the truth values are read as, and the truth values behind theirs.
fn values_read<'a>(
    alloc: Global,
    widths: &[Width],
    bits: &'a [bool],
) -> Result<(List<Value>, &'a [bool]), AllocError>
    ensures values { IfOk result (λ read. read.0 ≡ values_read widths.now bits.now) }
    ensures rest { IfOk result (λ read. read.1.now ≡ drop (sum_by value_bits widths.now) bits.now) }
{
    let mut values = List::new(alloc);
    let mut rest = bits;
    for width in widths {
        values.push(value_read(*width, rest))?;
        rest = after(rest, width.bits() as usize + 1);
    }
    Ok((values, rest))
}

/// The numbers of these widths that the truth values are read as, and the truth values behind theirs.
fn numbers_read<'a>(
    alloc: Global,
    widths: &[Width],
    bits: &'a [bool],
) -> Result<(List<Word>, &'a [bool]), AllocError>
    ensures numbers { IfOk result (λ read. read.0 ≡ numbers_read widths.now bits.now) }
    ensures rest { IfOk result (λ read. read.1.now ≡ drop (sum_by number_bits widths.now) bits.now) }
{
    let mut numbers = List::new(alloc);
    let mut rest = bits;
    for width in widths {
        numbers.push(Word::wrapped(*width, number_read(*width, rest)))?;
        rest = after(rest, width.bits() as usize);
    }
    Ok((numbers, rest))
}

/// The value that the first truth values are read as.
fn value_read(width: Width, bits: &[bool]) -> Value
    ensures { result ≡ value_read width bits.now }
{
    if bit_at(bits, width.bits()) {
        Value::Poison
    } else {
        Value::Bits(Word::wrapped(width, number_read(width, bits)))
    }
}

/// The number that the first truth values are read as, its lowest bit first.
fn number_read(width: Width, bits: &[bool]) -> u64
    ensures number { result ≡ number (take width bits.now) }
    ensures fits { result < 2 ^ width }
{
    let mut number = 0;
    for i in 0..width.bits() {
        if bit_at(bits, i) {
            number += 1u64 << i;
        }
    }
    number
}

/// The truth value at a place; past the end it is false.
fn bit_at(bits: &[bool], place: u32) -> bool
    ensures { result ≡ slice_index_or bits.now place false }
{
    if (place as usize) < bits.len() {
        bits[place as usize]
    } else {
        false
    }
}

/// The truth values behind the first `count`.
fn after(bits: &[bool], count: usize) -> &[bool]
    ensures { result.now ≡ drop count bits.now }
{
    if count < bits.len() {
        &bits[count..]
    } else {
        &[]
    }
}
