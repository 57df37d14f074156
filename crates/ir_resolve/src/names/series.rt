//! The series of numbers for those parameters, blocks and results that have no name.

ghost use Rattle.std.specs.Prelude.{◌≡◌, ℕ, [], ◌∷◌, map, IfOk};
ghost use Rattle.std.specs.Option.{option_copied};
ghost use Rattle.ir_resolve.specs.Identifiers.{identifiers_from};
ghost use Rattle.ir_resolve.specs.FirstLines.{IsFirst};
ghost use Rattle.ir_resolve.specs.Written.{given};
ghost use Rattle.ir_resolve.specs.FaultKinds.{IsMisnumbered, MisnumbersHere};
ghost use Rattle.ir_resolve.specs.Views.{seen, seen_written, AreKeysOf};

use crate::least::lesser;
use crate::names::definition::Definition;
use crate::names::key::Key;
use ir_tokens::{Identifier, RawIdentifier};
use std::alloc::{AllocError, Global};

/// The key of a definition where this is written, if the series goes on with this number.
fn key_of<'a>(written: Option<&'a RawIdentifier>, next_number: u64) -> Key<'a>
    ensures { seen result ∷ []
        ≡ identifiers_from next_number (given (option_copied written.entry) ∷ []) }
{
    match written {
        Some(
            RawIdentifier {
                identifier: Identifier::Named(name),
                ..
            },
        ) => Key::Named(name.as_slice()),
        _ => Key::Numbered(next_number),
    }
}

/// The keys of all definitions: those without a name take one series of numbers from 0.
pub(crate) fn keys<'a>(
    alloc: Global,
    definitions: &[Definition<'a>],
) -> Result<Vec<Key<'a>>, AllocError>
    ensures { IfOk result (λ keys. AreKeysOf definitions.now keys.items) }
{
    let mut keys = Vec::with_capacity(alloc, definitions.len())?;
    let mut next_number = 0;
    for definition in definitions {
        let key = key_of(definition.written, next_number);
        keys.push(key)?;
        if let Key::Numbered(_) = key {
            next_number += 1;
        }
    }
    Ok(keys)
}

/// The line of what is written, if it is a number other than the one in the series.
fn number_fault(written: Option<&RawIdentifier>, key: Key<'_>) -> Option<usize>
    ensures { IsFirst (IsMisnumbered (option_copied written.entry) (seen key.entry)) result }
{
    match (written, key) {
        (
            Some(
                RawIdentifier {
                    identifier: Identifier::Numbered(written),
                    ..
                },
            ),
            Key::Numbered(number),
        ) if *written == number => None,
        (
            Some(
                RawIdentifier {
                    line,
                    identifier: Identifier::Numbered(_),
                },
            ),
            _,
        ) => Some(*line),
        _ => None,
    }
}

/// The first line on which a number is written that is not the one in the series.
pub(crate) fn misnumbered(definitions: &[Definition<'_>], keys: &[Key<'_>]) -> Option<usize>
    requires { AreKeysOf definitions.now keys.now }
    ensures { IsFirst
        (λ line. (p : ℕ) × MisnumbersHere (map seen_written definitions.now) p line) result }
{
    let mut found = None;
    for place in 0..definitions.len() {
        found = lesser(found, number_fault(definitions[place].written, keys[place]));
    }
    found
}
