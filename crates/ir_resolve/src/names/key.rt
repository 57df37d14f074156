//! The identifiers by which definitions are looked up.

ghost use Rattle.std.specs.Prelude.{◌≡◌};
ghost use Rattle.ir_resolve.specs.Views.{seen};

use ir_tokens::Identifier;

/// The identifier of a parameter, a block or a result: its name, or its number in the series of those without a name.
#[derive(Clone, Copy, PartialEq, Eq, Hash)]
pub(crate) enum Key<'a> {
    Named(&'a [u8]),
    Numbered(u64),
}

impl<'a> Key<'a> {
    /// The key of an identifier.
    pub(crate) fn of(identifier: &'a Identifier) -> Self
        ensures { seen result ≡ identifier.now }
    {
        match identifier {
            Identifier::Named(name) => Key::Named(name.as_slice()),
            Identifier::Numbered(number) => Key::Numbered(*number),
        }
    }
}
