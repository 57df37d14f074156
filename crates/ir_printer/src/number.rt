//! Printing numbers and types (LangRef, "Simple Constants", "Integer Type").

ghost use Rattle.std.specs.Prelude.{◌≡◌, ◌++◌, OnOk, OnErr, decimal};
ghost use Rattle.ir_text.specs.NumberText.{number_text};
ghost use Rattle.ir_text.specs.PrintedText.{type_text};

use itoa::Buffer;
use ops::{Width, Word};
use std::alloc::AllocError;

/// Appends a number in decimal.
pub(crate) fn push_decimal(out: &mut Vec<u8>, number: u64) -> Result<(), AllocError>
    ensures ok { OnOk result (out.new.items ≡ out.old.items ++ decimal number) }
    ensures unmoved { OnErr result (out.new.items ≡ out.old.items) }
{
    let mut buffer = Buffer::new();
    out.extend_from_slice(buffer.format(number).as_bytes())
}

/// Appends an integer type.
#[tactic(auto, unfolding(ir_text::specs::PrintedText::type_text))]
pub(crate) fn push_type(out: &mut Vec<u8>, width: Width) -> Result<(), AllocError>
    ensures { OnOk result (out.new.items ≡ out.old.items ++ type_text width) }
{
    out.push(b'i')?;
    push_decimal(out, u64::from(width.bits()))
}

/// Appends a number of an integer type as it is printed: read in two's complement, and one bit as `true` or `false`.
///
/// The only error is want of memory.
#[tactic(auto, unfolding(ir_text::specs::NumberText::number_text))]
pub fn push_number(out: &mut Vec<u8>, number: Word) -> Result<(), AllocError>
    ensures ok { OnOk result (out.new.items ≡ out.old.items ++ number_text number) }
    ensures unmoved { OnErr result (out.new.items ≡ out.old.items) }
{
    let value = number.number();
    if number.width().bits() == 1 {
        let text: &[u8] = if value == 0 { b"false" } else { b"true" };
        return out.extend_from_slice(text);
    }
    let half = 1u64 << (number.width().bits() - 1);
    if value < half {
        return push_decimal(out, value);
    }
    let length = out.len();
    out.push(b'-')?;
    let pushed = push_decimal(out, half - (value - half));
    if pushed.is_err() {
        out.truncate(length);
    }
    pushed
}
