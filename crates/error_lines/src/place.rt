//! Where a fault is.

ghost use Rattle.std.specs.Prelude.{◌≡◌, ◌++◌, codes, decimal, OnOk};

use itoa::Buffer;
use std::alloc::AllocError;

/// Appends the name of the text and the number of a line in it.
pub(crate) fn push_place(out: &mut Vec<u8>, text: &[u8], line: usize) -> Result<(), AllocError>
    ensures { OnOk result (out.new.items ≡ out.old.items ++ (text.now ++ decimal line ++ codes ": ")) }
{
    out.extend_from_slice(text)?;
    let mut digits = Buffer::new();
    out.extend_from_slice(digits.format(line).as_bytes())?;
    out.extend_from_slice(b": ")
}
