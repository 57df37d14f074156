//! Printing names (LangRef, "Identifiers").

ghost use Rattle.std.specs.Prelude.{◌≡◌, ◌<◌, ◌==◌, ◌++◌, ◌||◌, ◌&&◌, not, codes, option_map, OnOk, OnErr};
ghost use Rattle.scan.specs.Bytes.{is_printable};
ghost use Rattle.ir_text.specs.NameText.{hex_digit, escaped, quoted_text, name_text};
ghost use Rattle.ir_text.specs.PrintedText.{identifier_text, register_text, block_name_text, target_text, function_name_text, label_text};
ghost use Rattle.ir_printer.specs.Series.{seen};

use crate::identifier::Identifier;
use crate::identifiers::Identifiers;
use crate::number::push_decimal;
use ir_core::Register;
use ir_tokens::is_plain_name;
use std::alloc::AllocError;

/// Appends a name of a register, a block or a function as it is printed, without the sigil before it: a plain name as
/// it is, and every other between quotes.
///
/// The only error is want of memory.
#[tactic(auto, unfolding(ir_text::specs::NameText::name_text))]
pub fn push_name(out: &mut Vec<u8>, name: &[u8]) -> Result<(), AllocError>
    ensures ok { OnOk result (out.new.items ≡ out.old.items ++ name_text name.now) }
    ensures unmoved { OnErr result (out.new.items ≡ out.old.items) }
{
    if is_plain_name(name) {
        return out.extend_from_slice(name);
    }
    let mut quoted = Vec::new(*out.allocator());
    push_quoted(&mut quoted, name)?;
    out.extend_from_slice(quoted.as_slice())
}

/// Appends a name between quotes.
#[tactic(auto, unfolding(ir_text::specs::NameText::quoted_text))]
fn push_quoted(out: &mut Vec<u8>, name: &[u8]) -> Result<(), AllocError>
    ensures { OnOk result (out.new.items ≡ out.old.items ++ quoted_text name.now) }
{
    out.push(b'"')?;
    for byte in name {
        push_escaped(out, *byte)?;
    }
    out.push(b'"')?;
    Ok(())
}

/// Appends a byte of a name as it is written between quotes.
#[tactic(auto, unfolding(ir_text::specs::NameText::escaped))]
fn push_escaped(out: &mut Vec<u8>, byte: u8) -> Result<(), AllocError>
    ensures { OnOk result (out.new.items ≡ out.old.items ++ escaped byte) }
{
    if stands_for_itself(byte) {
        out.push(byte)?;
    } else {
        out.push(b'\\')?;
        out.push(hex_digit(byte / 16))?;
        out.push(hex_digit(byte % 16))?;
    }
    Ok(())
}

/// Whether a byte stands for itself between quotes.
#[tactic(auto, unfolding(scan::specs::Bytes::is_printable))]
fn stands_for_itself(byte: u8) -> bool
    ensures { result ≡ (is_printable byte && not ((byte == 34) || (byte == 92))) }
{
    (b' ' <= byte && byte <= b'~') && !(byte == b'"' || byte == b'\\')
}

/// The hexadecimal digit of a number below 16.
#[tactic(auto, unfolding(ir_text::specs::NameText::hex_digit))]
fn hex_digit(number: u8) -> u8
    requires { number < 16 }
    ensures { result ≡ hex_digit number }
{
    if number < 10 {
        b'0' + number
    } else {
        b'A' + (number - 10)
    }
}

/// Appends the identifier of a register or a block, without the `%`.
#[tactic(auto, unfolding(ir_text::specs::PrintedText::identifier_text))]
fn push_identifier(out: &mut Vec<u8>, identifier: Option<Identifier<'_>>) -> Result<(), AllocError>
    ensures { OnOk result (out.new.items
        ≡ out.old.items ++ identifier_text (option_map seen identifier.entry)) }
{
    match identifier {
        Some(Identifier::Named(name)) => push_name(out, name),
        Some(Identifier::Numbered(number)) => push_decimal(out, number),
        None => Ok(()),
    }
}

/// Appends a register.
#[tactic(auto, unfolding(ir_text::specs::PrintedText::register_text))]
pub(crate) fn push_register(
    out: &mut Vec<u8>,
    called: &Identifiers<'_>,
    register: Register,
) -> Result<(), AllocError>
    ensures { OnOk result (out.new.items
        ≡ out.old.items ++ register_text called.now.function.now register) }
{
    out.push(b'%')?;
    push_identifier(out, called.register(register))
}

/// Appends the start of an instruction's line: the indent, its result, by the index of its block and its own there, and
/// ` = `.
#[tactic(auto, unfolding(ir_text::specs::PrintedText::register_text))]
pub(crate) fn push_assigned(
    out: &mut Vec<u8>,
    called: &Identifiers<'_>,
    block: usize,
    inst: usize,
) -> Result<(), AllocError>
    ensures { OnOk result (out.new.items ≡ out.old.items ++ (codes "  "
        ++ register_text called.now.function.now (Register.Result block inst) ++ codes " = ")) }
{
    out.extend_from_slice(b"  %")?;
    push_identifier(out, called.result(block, inst))?;
    out.extend_from_slice(b" = ")
}

/// Appends a space and the register of a parameter, by its index.
#[tactic(auto, unfolding(ir_text::specs::PrintedText::register_text))]
pub(crate) fn push_parameter_name(
    out: &mut Vec<u8>,
    called: &Identifiers<'_>,
    parameter: usize,
) -> Result<(), AllocError>
    ensures { OnOk result (out.new.items ≡ out.old.items ++ (codes " "
        ++ register_text called.now.function.now (Register.Parameter parameter))) }
{
    out.extend_from_slice(b" %")?;
    push_identifier(out, called.parameter(parameter))
}

/// Appends a block where it is named.
#[tactic(auto, unfolding(ir_text::specs::PrintedText::block_name_text))]
pub(crate) fn push_block_name(
    out: &mut Vec<u8>,
    called: &Identifiers<'_>,
    block: u32,
) -> Result<(), AllocError>
    ensures { OnOk result (out.new.items
        ≡ out.old.items ++ block_name_text called.now.function.now block) }
{
    out.push(b'%')?;
    push_identifier(out, called.block(block as usize))
}

/// Appends a block as the target of a terminator.
#[tactic(auto, unfolding(ir_text::specs::PrintedText::target_text))]
pub(crate) fn push_target(
    out: &mut Vec<u8>,
    called: &Identifiers<'_>,
    block: u32,
) -> Result<(), AllocError>
    ensures { OnOk result (out.new.items
        ≡ out.old.items ++ target_text called.now.function.now block) }
{
    out.extend_from_slice(b"label ")?;
    push_block_name(out, called, block)
}

/// Appends the line of a label.
#[tactic(auto, unfolding(ir_text::specs::PrintedText::label_text))]
pub(crate) fn push_label(
    out: &mut Vec<u8>,
    identifier: Option<Identifier<'_>>,
) -> Result<(), AllocError>
    ensures { OnOk result (out.new.items
        ≡ out.old.items ++ label_text (option_map seen identifier.entry)) }
{
    push_identifier(out, identifier)?;
    out.extend_from_slice(b":\n")
}

/// Appends the name of a function, with its `@`.
#[tactic(auto, unfolding(ir_text::specs::PrintedText::function_name_text))]
pub(crate) fn push_function_name(out: &mut Vec<u8>, name: &[u8]) -> Result<(), AllocError>
    ensures { OnOk result (out.new.items ≡ out.old.items ++ function_name_text name.now) }
{
    out.push(b'@')?;
    push_name(out, name)
}
