//! The symbol table of a function.

ghost use Rattle.std.specs.Prelude.{◌≡◌, [], ◌∷◌, ◌++◌, ◌||◌, false, None, map, if◌then◌else◌, option_map, IfOk, OnOk};
ghost use Rattle.std.specs.List.{zip};
ghost use Rattle.std.specs.Option.{option_copied};
ghost use Rattle.ir_tokens.specs.declared.called.Identifier.{Identifier as identifier};
ghost use Rattle.ir_resolve.specs.FirstLines.{IsFirst};
ghost use Rattle.ir_resolve.specs.FaultKinds.{Repeats, HasName, IsWrittenOn};
ghost use Rattle.ir_resolve.specs.Views.{seen, seen_written, known_by, AreKeysOf, knows, same, entity_in, register_of, block_of};

use crate::least::lesser;
use crate::names::definition::{Definition, Entity};
use crate::names::key::Key;
use indexmap::IndexMap;
use ir_core::Register;
use ir_tokens::{Identifier, RawIdentifier};
use std::alloc::{AllocError, Global};

/// The symbol table: what each key refers to.
pub(crate) type Names<'a> = IndexMap<Key<'a>, Entity>;

/// The line of what is written, if its key was in the table before.
fn repeated(written: Option<&RawIdentifier>, was_there: bool) -> Option<usize>
    ensures { result ≡
        (if was_there then option_map (λ w. w.line) (option_copied written.entry) else None) }
{
    if was_there { Some(written?.line) } else { None }
}

/// Enters a key into the table, and says whether it was there before.
fn define<'a>(names: &mut Names<'a>, key: Key<'a>, entity: Entity) -> Result<bool, AllocError>
    ensures was_there { IfOk result (λ was_there.
        was_there ≡ knows (known_by names.old) (seen key.entry)) }
    ensures known { OnOk result ((x : identifier) →
        knows (known_by names.new) x ≡ (knows (known_by names.old) x || same x (seen key.entry))) }
    ensures added { IfOk result (λ was_there. was_there ≡ false →
        known_by names.new ≡ known_by names.old ++ (seen key.entry, entity) ∷ []) }
{
    Ok(names.insert(key, entity)?.is_some())
}

/// The table of these definitions, and the first line on which a name is given that was given before.
pub(crate) fn names<'a>(
    alloc: Global,
    definitions: &[Definition<'a>],
    keys: &[Key<'a>],
) -> Result<(Names<'a>, Option<usize>), AllocError>
    requires { AreKeysOf definitions.now keys.now }
    ensures repeated { IfOk result (λ found.
        IsFirst (Repeats HasName IsWrittenOn (map seen_written definitions.now)) found.1) }
    ensures names { IfOk result (λ found. found.1 ≡ None →
        known_by found.0 ≡ zip (map seen keys.now) (map (λ d. d.entity) definitions.now)) }
{
    let mut names = IndexMap::with_capacity(alloc, definitions.len())?;
    let mut found = None;
    for place in 0..definitions.len() {
        let was_there = define(&mut names, keys[place], definitions[place].entity)?;
        found = lesser(found, repeated(definitions[place].written, was_there));
    }
    Ok((names, found))
}

/// What an identifier refers to.
fn entity(names: &Names<'_>, identifier: &Identifier) -> Option<Entity>
    ensures { result ≡ entity_in (known_by names.now) identifier.now }
{
    names.get(&Key::of(identifier)).copied()
}

/// The register that an identifier refers to, and how many bits it has.
pub(crate) fn register(names: &Names<'_>, identifier: &Identifier) -> Option<(Register, u32)>
    ensures { result ≡ register_of (entity_in (known_by names.now) identifier.now) }
{
    match entity(names, identifier)? {
        Entity::Register(register, width) => Some((register, width)),
        Entity::Block(_) => None,
    }
}

/// The block that an identifier refers to, by its index.
pub(crate) fn block(names: &Names<'_>, identifier: &Identifier) -> Option<u32>
    ensures { result ≡ block_of (entity_in (known_by names.now) identifier.now) }
{
    match entity(names, identifier)? {
        Entity::Register(_, _) => None,
        Entity::Block(number) => Some(number),
    }
}
