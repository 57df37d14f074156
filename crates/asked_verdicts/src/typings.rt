//! The widths of typings, as tables keep them.

ghost use Rattle.std.specs.Prelude.{◌≡◌, IfOk};

use rule_core::Typing;
use std::alloc::{AllocError, Global};

/// The widths of a typing, as numbers.
pub(crate) fn widths_of(alloc: Global, typing: &Typing) -> Result<Vec<u32>, AllocError>
    ensures { IfOk result (λ widths. widths.items ≡ typing.now) }
{
    let mut widths = Vec::new(alloc);
    for width in typing.as_slice() {
        widths.push(width.bits())?;
    }
    Ok(widths)
}
