//! The name and the widths as the text of a proof has them.

ghost use Rattle.std.specs.Prelude.{◌≡◌, IfOk, ◌↔◌, IsTrue};

use lists::{List, Text};
use rule_core::Typing;
use std::alloc::{AllocError, Global};
use verdict_core::Verdict;

/// A copy of a name.
pub(crate) fn copied(alloc: Global, name: &[u8]) -> Result<Text, AllocError>
    ensures { IfOk result (λ copy. copy ≡ name.now) }
{
    Ok(Text::from_vec(Vec::from_slice(alloc, name)?))
}

/// The widths of a typing, as numbers.
pub(crate) fn numbers_of(alloc: Global, typing: &Typing) -> Result<List<u32>, AllocError>
    ensures { IfOk result (λ numbers. numbers ≡ typing.now) }
{
    let mut numbers = List::new(alloc);
    for width in typing.as_slice() {
        numbers.push(width.bits())?;
    }
    Ok(numbers)
}

/// Whether the verdict is `Admitted`.
pub(crate) fn is_admitted(verdict: &Verdict) -> bool
    ensures { IsTrue result ↔ (verdict.now ≡ Verdict.Admitted) }
{
    matches!(verdict, Verdict::Admitted)
}
