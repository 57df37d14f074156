//! A setting as literals.
ghost use Rattle.std.specs.Prelude.{◌≡◌, Bool, List as Seq, drop, IfOk, OnOk};
ghost use Rattle.circuits.specs.Circuit.{Keeps};
ghost use Rattle.rule_core.specs.Checks.{IsRule};
ghost use Rattle.rule_core.specs.Typing.{IsTyping};
ghost use Rattle.blast_setting.specs.Inputs.{input_bits};
ghost use Rattle.blast_setting.specs.Settings.{setting_of};
ghost use Rattle.blast_setting.specs.SettingBits.{setting_held, SettingIsOwn, HasWidths};

use crate::inputs::{make_numbers, make_values};
use crate::setting_widths::SettingWidths;
use blast_value::Held;
use circuits::{Bits, Circuit};
use lists::List;
use ops::Width;
use rule_core::Rule;
use std::alloc::{AllocError, Global};

/// What both halves of a rule are run on, as literals.
#[derive(Drop)]
pub struct SettingBits<L> {
    /// A value for each input.
    pub inputs: List<Held<L>>,
    /// A number for each abstract constant.
    pub constants: List<Bits<L>>,
    /// A number for each choice of the target.
    pub target_choices: List<Bits<L>>,
}

/// Makes the circuit's inputs for a setting of the rule. The circuit has none before.
pub fn make_setting<C: Circuit>(
    alloc: Global,
    c: &mut C,
    rule: &Rule,
    typing: &[Width],
) -> Result<SettingBits<C::Literal>, AllocError>
    requires rule { IsRule rule.now }
    requires typing { IsTyping rule.now typing.now }
    requires no_inputs { C.inputs_made c.old ≡ 0 }
    ensures setting { IfOk result (λ made. (inputs : Seq Bool) → C.admits c.old inputs →
        setting_held (C.value c.new inputs) made ≡ setting_of rule.now typing.now inputs) }
    ensures widths { IfOk result (HasWidths rule.now typing.now) }
    ensures own { IfOk result (SettingIsOwn (C.has_literal c.new)) }
    ensures inputs { OnOk result ((inputs : Seq Bool) → C.admits c.old inputs →
        drop (C.inputs_made c.new) inputs ≡ drop (input_bits rule.now typing.now) inputs) }
    ensures gates { C.gates_made c.new ≡ C.gates_made c.old }
    ensures keeps { Keeps C.State c.old c.new }
{
    let widths = SettingWidths::of(alloc, rule, typing)?;
    let inputs = make_values(alloc, c, &widths.inputs)?;
    let constants = make_numbers(alloc, c, &widths.constants)?;
    let target_choices = make_numbers(alloc, c, &widths.choices)?;
    Ok(SettingBits {
        inputs: List::from_vec(inputs),
        constants: List::from_vec(constants),
        target_choices: List::from_vec(target_choices),
    })
}
