//! The names in a generated function.

ghost use Rattle.std.specs.Prelude.{◌≡◌, ◌++◌, IfOk, decimal};

use itoa::Buffer;
use lists::{List, Text};
use std::alloc::{AllocError, Global};

/// A copy of the text, as a name.
pub(crate) fn name(alloc: Global, text: &[u8]) -> Result<Text, AllocError>
    ensures { IfOk result (λ name. name ≡ text.now) }
{
    Ok(List::from_vec(Vec::from_slice(alloc, text)?))
}

/// The text with a number at its end, as a name.
pub(crate) fn numbered(alloc: Global, text: &[u8], number: u32) -> Result<Text, AllocError>
    ensures { IfOk result (λ name. name ≡ text.now ++ decimal number) }
{
    let mut buffer = Buffer::new();
    let mut name = Vec::from_slice(alloc, text)?;
    name.extend_from_slice(buffer.format(number).as_bytes())?;
    Ok(List::from_vec(name))
}
