//! Lists that hold a few values in place.

ghost use Rattle.std.specs.Prelude.{◌≡◌, ◌==◌, List as Seq, [], ◌∷◌, ◌++◌, length, OnOk, OnErr, IfOk};

use smallvec::SmallVec;
use std::alloc::{AllocError, Global};
use std::marker::Model;

/// A list that keeps up to `N` values in place, and takes memory only for more.
#[derive(Debug, Drop)]
pub struct ShortList<T, const N: usize> {
    items: SmallVec<T, N>,
}

impl<T, const N: usize> Model for ShortList<T, N> {
    ghost use Rattle.std.specs.Prelude.{List as Seq};

    ghost Value = { Seq T };

    ghost view = { λ l. l.items.items };
}

impl<T: Drop + Default, const N: usize> ShortList<T, N> {
    /// The empty list. It takes no memory.
    pub fn new(alloc: Global) -> Self
        ensures { result ≡ [] }
    {
        ShortList {
            items: SmallVec::new(alloc),
        }
    }

    /// The values as a slice.
    pub fn as_slice(&self) -> &[T]
        ensures { result.now ≡ self.now }
    {
        self.items.as_slice()
    }

    /// How many values there are.
    pub fn len(&self) -> usize
        ensures { result ≡ length self.now }
    {
        self.items.len()
    }

    /// Whether there are no values.
    pub fn is_empty(&self) -> bool
        ensures { result ≡ (length self.now == 0) }
    {
        self.items.is_empty()
    }

    /// Adds a value at the end. Where memory is refused the list stays as it was, and the value is dropped.
    pub fn push(&mut self, value: T) -> Result<(), AllocError>
        ensures ok { OnOk result (self.new ≡ self.old ++ value ∷ []) }
        ensures err { OnErr result (self.new ≡ self.old) }
    {
        self.items.push(value)?;
        Ok(())
    }
}

impl<T: Copy + Default, const N: usize> ShortList<T, N> {
    /// A copy of a slice. The only error is want of memory.
    pub fn from_slice(alloc: Global, values: &[T]) -> Result<Self, AllocError>
        ensures { IfOk result (λ list. list ≡ values.now) }
    {
        Ok(ShortList {
            items: SmallVec::from_slice(alloc, values)?,
        })
    }
}
