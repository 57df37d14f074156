//! The line on a file that could not be read.

ghost use Rattle.std.specs.Prelude.{◌≡◌, IfOk};
ghost use Rattle.error_lines.specs.Lines.{read_fault_line};

use std::alloc::{AllocError, Global};

/// The line that names a file that could not be read.
pub fn read_fault_line(alloc: Global, name: &str) -> Result<Vec<u8>, AllocError>
    ensures { IfOk result (λ line. line.items ≡ read_fault_line name.now) }
{
    let mut line = Vec::from_slice(alloc, b"read fault: ")?;
    line.extend_from_slice(name.as_bytes())?;
    line.extend_from_slice(b"\n")?;
    Ok(line)
}
