//! Printing the headers of functions (LangRef, "Functions").

ghost use Rattle.std.specs.Prelude.{◌≡◌, ◌==◌, if◌then◌else◌, [], ◌++◌, codes, OnOk};
ghost use Rattle.std.specs.List.{flat_map, join_by, enumerate_from};
ghost use Rattle.ir_text.specs.PrintedText.{type_text, function_name_text, item_text, parameter_text, header_text};

use crate::identifiers::Identifiers;
use crate::name::{push_function_name, push_parameter_name};
use crate::number::push_type;
use crate::piece::{Piece, push_comma, push_pieces};
use ir_core::Parameter;
use lists::Text;
use std::alloc::AllocError;

/// Appends a space and an item of a header.
#[tactic(auto, unfolding(ir_text::specs::PrintedText::item_text))]
fn push_item(out: &mut Vec<u8>, item: &Text) -> Result<(), AllocError>
    ensures { OnOk result (out.new.items ≡ out.old.items ++ item_text item.now) }
{
    out.push(b' ')?;
    out.extend_from_slice(item.as_slice())
}

fn push_items(out: &mut Vec<u8>, items: &[Text]) -> Result<(), AllocError>
    ensures { OnOk result (out.new.items ≡ out.old.items ++ flat_map item_text items.now) }
{
    for item in items {
        push_item(out, item)?;
    }
    Ok(())
}

/// Appends the parameter at an index, with a comma before it if it is not the first.
#[tactic(auto, unfolding(ir_text::specs::PrintedText::parameter_text))]
fn push_parameter(
    out: &mut Vec<u8>,
    called: &Identifiers<'_>,
    place: usize,
    parameter: &Parameter,
) -> Result<(), AllocError>
    ensures { OnOk result (out.new.items
        ≡ out.old.items ++ ((if place == 0 then [] else codes ", ")
        ++ parameter_text called.now.function.now (place, parameter.now))) }
{
    push_comma(out, place)?;
    push_type(out, parameter.width)?;
    push_items(out, parameter.items.as_slice())?;
    push_parameter_name(out, called, place)
}

/// Appends the parameters, as they stand between the parentheses.
fn push_parameters(
    out: &mut Vec<u8>,
    called: &Identifiers<'_>,
    parameters: &[Parameter],
) -> Result<(), AllocError>
    ensures { OnOk result (out.new.items ≡ out.old.items
        ++ join_by (parameter_text called.now.function.now) (codes ", ")
        (enumerate_from 0 parameters.now)) }
{
    for (place, parameter) in parameters.iter().enumerate() {
        push_parameter(out, called, place, parameter)?;
    }
    Ok(())
}

/// Appends the part of the header before the parameters.
fn push_start(out: &mut Vec<u8>, called: &Identifiers<'_>) -> Result<(), AllocError>
    ensures { OnOk result (out.new.items ≡ out.old.items ++ (codes "define"
        ++ flat_map item_text called.now.function.now.before ++ codes " " ++ type_text called.now.function.now.width
        ++ codes " " ++ function_name_text called.now.function.now.name)) }
{
    out.extend_from_slice(b"define")?;
    push_items(out, called.function.before.as_slice())?;
    let result = Piece::Type(called.function.width);
    push_pieces(out, called, &[Piece::Text(b" "), result, Piece::Text(b" ")])?;
    push_function_name(out, called.function.name.as_slice())
}

/// Appends the first line of a function.
#[tactic(auto, unfolding(ir_text::specs::PrintedText::header_text))]
pub(crate) fn push_header(out: &mut Vec<u8>, called: &Identifiers<'_>) -> Result<(), AllocError>
    ensures { OnOk result (out.new.items ≡ out.old.items ++ header_text called.now.function.now) }
{
    push_start(out, called)?;
    out.push(b'(')?;
    push_parameters(out, called, called.function.parameters.as_slice())?;
    out.push(b')')?;
    push_items(out, called.function.after.as_slice())?;
    out.extend_from_slice(b" {\n")
}
