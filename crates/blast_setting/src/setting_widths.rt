//! The widths of the parts of a setting.
ghost use Rattle.std.specs.Prelude.{◌≡◌, IfOk};
ghost use Rattle.rule_core.specs.Checks.{IsRule};
ghost use Rattle.rule_core.specs.Typing.{IsTyping};
ghost use Rattle.blast_setting.specs.Inputs.{input_widths, constant_widths, choice_widths};

use crate::choices::choice_widths;
use crate::named::{Kind, named_widths};
use ops::Width;
use rule_core::Rule;
use std::alloc::{AllocError, Global};

/// The widths of the parts of a setting, in order.
#[derive(Drop)]
pub(crate) struct SettingWidths {
    /// The width of each input.
    pub(crate) inputs: Vec<Width>,
    /// The width of each abstract constant.
    pub(crate) constants: Vec<Width>,
    /// The width of each choice of the target.
    pub(crate) choices: Vec<Width>,
}

impl SettingWidths {
    /// The widths of a rule's setting. For each input and constant it takes a pass over the statements of the source.
    pub(crate) fn of(
        alloc: Global,
        rule: &Rule,
        typing: &[Width],
    ) -> Result<SettingWidths, AllocError>
        requires rule { IsRule rule.now }
        requires typing { IsTyping rule.now typing.now }
        ensures inputs { IfOk result (λ widths. widths.inputs.items ≡ input_widths rule.now typing.now) }
        ensures constants { IfOk result (λ widths. widths.constants.items ≡ constant_widths rule.now typing.now) }
        ensures choices { IfOk result (λ widths. widths.choices.items ≡ choice_widths rule.now typing.now) }
    {
        let source = rule.source.as_slice();
        let (inputs, constants) = (rule.inputs.len(), rule.constants.len());
        Ok(SettingWidths {
            inputs: named_widths(alloc, typing, source, Kind::Input, inputs)?,
            constants: named_widths(alloc, typing, source, Kind::Constant, constants)?,
            choices: choice_widths(alloc, typing, rule.target.as_slice())?,
        })
    }
}
