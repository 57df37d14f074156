//! Copies of texts and of identifiers.

ghost use Rattle.std.specs.Prelude.{◌≡◌, IfOk};

use ir_tokens::Identifier;
use lists::Text;
use std::alloc::{AllocError, Global};

/// A copy of a text.
pub(crate) fn text(alloc: Global, text: &Text) -> Result<Text, AllocError>
    ensures { IfOk result (λ copy. copy ≡ text.now) }
{
    Ok(Text::from_vec(Vec::from_slice(alloc, text.as_slice())?))
}

/// A copy of an identifier.
pub(crate) fn identifier(alloc: Global, written: &Identifier) -> Result<Identifier, AllocError>
    ensures { IfOk result (λ copy. copy ≡ written.now) }
{
    match written {
        Identifier::Named(name) => Ok(Identifier::Named(text(alloc, name)?)),
        Identifier::Numbered(number) => Ok(Identifier::Numbered(*number)),
    }
}
