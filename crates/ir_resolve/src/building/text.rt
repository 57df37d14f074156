//! Copies of texts.

ghost use Rattle.std.specs.Prelude.{◌≡◌, IfOk, Some};
ghost use Rattle.std.specs.Option.{option_copied};
ghost use Rattle.ir_resolve.specs.Written.{name_in, given};

use ir_tokens::{Identifier, RawIdentifier};
use lists::{List, Text};
use std::alloc::{AllocError, Global};

/// A copy of a text.
pub(crate) fn text(alloc: Global, text: &Text) -> Result<Text, AllocError>
    ensures { IfOk result (λ copy. copy ≡ text.now) }
{
    Ok(Text::from_vec(Vec::from_slice(alloc, text.as_slice())?))
}

/// Copies of these texts.
pub(crate) fn texts(alloc: Global, written: &[Text]) -> Result<List<Text>, AllocError>
    ensures { IfOk result (λ copies. copies ≡ written.now) }
{
    let mut copies = List::new(alloc);
    for written in written {
        copies.push(text(alloc, written)?)?;
    }
    Ok(copies)
}

/// A copy of the name that an identifier is; `None` for a number.
pub(crate) fn name(alloc: Global, identifier: &Identifier) -> Result<Option<Text>, AllocError>
    ensures { IfOk result (λ name. name ≡ name_in identifier.now) }
{
    match identifier {
        Identifier::Named(name) => Ok(Some(text(alloc, name)?)),
        Identifier::Numbered(_) => Ok(None),
    }
}

/// A copy of the name that is written, if there is one.
pub(crate) fn name_given(
    alloc: Global,
    written: Option<&RawIdentifier>,
) -> Result<Option<Text>, AllocError>
    ensures { IfOk result (λ name. name ≡ given (option_copied written.entry)) }
{
    match written {
        Some(written) => name(alloc, &written.identifier),
        None => Ok(None),
    }
}
