//! Lists of values, as the fields of other types hold them.

ghost use Rattle.std.specs.Prelude.{◌≡◌, ◌==◌, ◌<◌, List as Seq, [], ◌∷◌, ◌++◌, length, slice_index_or, OnOk, OnErr};

use std::alloc::{AllocError, Global};
use std::marker::Model;

/// A list of values, in order.
#[derive(Debug, Drop)]
pub struct List<T> {
    items: Vec<T>,
}

/// A list of bytes: a name, or a text that is kept as it was written.
pub type Text = List<u8>;

impl<T> Model for List<T> {
    ghost use Rattle.std.specs.Prelude.{List as Seq};

    ghost Value = { Seq T };

    ghost view = { λ l. l.items.items };
}

impl<T> List<T> {
    ghost use Rattle.std.specs.Borrow.{sem};
    ghost use Rattle.lists.specs.Lends.{lends_item};

    /// The empty list. It takes no memory.
    pub fn new(alloc: Global) -> Self
        ensures { result ≡ [] }
    {
        List {
            items: Vec::new(alloc),
        }
    }

    /// The values of a vector. It takes no memory.
    pub fn from_vec(items: Vec<T>) -> Self
        ensures { result ≡ items.items }
    {
        List { items }
    }

    /// The values as a vector. It takes no memory.
    pub fn into_vec(self) -> Vec<T>
        ensures { result.items ≡ self }
    {
        let List { items } = self;
        items
    }

    /// The values as a slice.
    pub fn as_slice(&self) -> &[T]
        ensures { result.now ≡ self.now }
    {
        self.items.as_slice()
    }

    /// A mutable reference to the value at an index.
    pub fn get_mut(&mut self, index: usize) -> &mut T
        requires { index < length self.old }
        ensures* writes_back { sem 𝓛 (lends_item T.row self.entry index result) }
        ensures value { result.now ≡ slice_index_or self.old index result.now }
    {
        &mut self.items[index]
    }

    /// How many values there are.
    pub fn len(&self) -> usize
        ensures { result ≡ length self.now }
    {
        self.items.len()
    }

    /// Whether there are no values.
    pub fn is_empty(&self) -> bool
        ensures { result ≡ (length self.now == 0) }
    {
        self.items.is_empty()
    }
}

impl<T: Drop> List<T> {
    /// Adds a value at the end. Where memory is refused the list stays as it was, and the value is dropped.
    pub fn push(&mut self, value: T) -> Result<(), AllocError>
        ensures ok { OnOk result (self.new ≡ self.old ++ value ∷ []) }
        ensures err { OnErr result (self.new ≡ self.old) }
    {
        self.items.push(value)?;
        Ok(())
    }
}
