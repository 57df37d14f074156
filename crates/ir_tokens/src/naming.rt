//! The identifiers that are written for registers, functions and blocks.

ghost use Rattle.std.specs.Prelude.{◌≡◌, IfOk};
ghost use Rattle.scan.specs.Quoted as quoted;
ghost use Rattle.ir_tokens.specs.Identifiers as identifiers;

use crate::bytes::{are_digits, without_last};
use crate::called::Identifier;
use crate::number::decimal_number;
use lists::Text;
use scan::unescaped;
use std::alloc::{AllocError, Global};

/// The identifier that is written: digits are a number, a quoted text is the name that it spells, and other bytes are
/// the name itself.
#[tactic(auto, unfolding(crate::specs::Identifiers::identifier_of))]
pub fn identifier(alloc: Global, written: &[u8]) -> Result<Identifier, AllocError>
    ensures { IfOk result (λ i. i ≡ identifiers.identifier_of written.now) }
{
    if are_digits(written) {
        Ok(Identifier::Numbered(decimal_number(written).unwrap_or(u64::MAX)))
    } else {
        Ok(Identifier::Named(Text::from_vec(name(alloc, written)?)))
    }
}

/// The bytes of the name that is written.
#[tactic(auto, unfolding(crate::specs::Identifiers::name_of))]
fn name(alloc: Global, written: &[u8]) -> Result<Vec<u8>, AllocError>
    ensures { IfOk result (λ x. x.items ≡ identifiers.name_of written.now) }
{
    match written {
        [b'"', rest @ ..] => unquoted(alloc, without_last(rest)),
        plain => Ok(Vec::from_slice(alloc, plain)?),
    }
}

/// The bytes that these, between quotes, stand for.
fn unquoted(alloc: Global, inner: &[u8]) -> Result<Vec<u8>, AllocError>
    ensures { IfOk result (λ x. x.items ≡ quoted.unquoted inner.now) }
{
    let mut bytes = Vec::new(alloc);
    let mut rest = inner;
    while let Some((byte, behind)) = unescaped(rest) {
        bytes.push(byte)?;
        rest = behind;
    }
    Ok(bytes)
}
