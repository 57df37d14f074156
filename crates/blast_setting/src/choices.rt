//! The widths of the choices of statements: of their `undef`s and their freezes.
ghost use Rattle.std.specs.Prelude.{◌≡◌, ◌++◌, ◌<◌, IfOk, OnOk};
ghost use Rattle.rule_core.specs.Positions.{choices_among};
ghost use Rattle.blast_setting.specs.Inputs.{widths_chosen};
ghost use Rattle.blast_setting.specs.Names.{HaveWidths};

use ops::Width;
use rule_core::{Choice, Choices, Statement};
use std::alloc::{AllocError, Global};

/// The widths of the choices of statements, in the order of the text.
pub(crate) fn choice_widths(
    alloc: Global,
    typing: &[Width],
    statements: &[Statement],
) -> Result<Vec<Width>, AllocError>
    requires { HaveWidths typing.now (choices_among statements.now) }
    ensures { IfOk result (λ widths. widths.items ≡ widths_chosen typing.now (choices_among statements.now)) }
{
    let mut widths = Vec::new(alloc);
    for statement in statements {
        let choices = Choices::of(statement);
        push_widths(&mut widths, typing, choices.as_slice())?;
    }
    Ok(widths)
}

/// Adds the widths of these choices.
fn push_widths(
    widths: &mut Vec<Width>,
    typing: &[Width],
    choices: &[Choice],
) -> Result<(), AllocError>
    requires { HaveWidths typing.now choices.now }
    ensures { OnOk result (widths.new.items ≡ widths.old.items ++ widths_chosen typing.now choices.now) }
{
    for choice in choices {
        widths.push(typing[choice.class as usize])?;
    }
    Ok(())
}
