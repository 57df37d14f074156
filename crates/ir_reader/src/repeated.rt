//! Functions with the name of an earlier one.

ghost use Rattle.std.specs.Prelude.{◌↔◌, ◌⊎◌, ℕ, List as Seq, IfOk, OnOk, IsTrue};
ghost use Rattle.ir_reader.specs.RepeatedNames.{IsNameOf, HasText};

use indexmap::IndexSet;
use ir_tokens::RawEntry;
use std::alloc::{AllocError, Global};

/// Whether the entry is a function whose name is among these; its name is added to them.
pub(crate) fn is_repeated(
    alloc: Global,
    names: &mut IndexSet<Vec<u8>>,
    entry: &RawEntry,
) -> Result<bool, AllocError>
    ensures mark { IfOk result (λ is_repeated. IsTrue is_repeated ↔ ((name : Seq ℕ) × IsNameOf entry.now name × HasText names.old name)) }
    ensures names { OnOk result ((name : Seq ℕ) → HasText names.new name ↔ (HasText names.old name ⊎ IsNameOf entry.now name)) }
{
    match entry {
        RawEntry::Kept(_) => Ok(false),
        RawEntry::Function(raw) => {
            let name = Vec::from_slice(alloc, raw.name.as_slice())?;
            Ok(!names.insert(name)?)
        }
    }
}
