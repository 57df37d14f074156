//! The result of reading a text so far, entry by entry.

ghost use Rattle.std.specs.Prelude.{[], ◌∷◌, ◌++◌, List as Seq, IfOk, OnOk, IfErr, IfSome, IfNone};
ghost use Rattle.ir_tokens.specs.declared.raw.RawEntry.{RawEntry as written_entry};
ghost use Rattle.ir_reader.specs.declared.reading.Reading.TheVariants.{Faultless, Faulty};
ghost use Rattle.ir_reader.specs.EntriesRead.{IsReadingOf};
ghost use Rattle.ir_reader.specs.Faults.{AreEntriesOf, IsFaultOfEntries};
ghost use Rattle.ir_reader.specs.WellWritten.{IsWellWrittenEntry};

use crate::reader::entry;
use crate::repeated::is_repeated;
use indexmap::IndexSet;
use ir_core::{Entry, Module};
use ir_tokens::{IrError, IrFault, RawEntry};
use lists::List;
use std::alloc::{AllocError, Global};

/// What the entries of a text so far mean, or their first fault.
#[derive(Drop)]
pub(crate) enum Reading {
    /// The entries, and the names of the functions among them.
    Faultless(List<Entry>, IndexSet<Vec<u8>>),
    /// The fault of the first entry that has one.
    Faulty(IrFault),
}

impl Reading {
    /// The result before the first entry.
    pub(crate) fn new(alloc: Global) -> Reading
        ensures { IsReadingOf [] result }
    {
        Reading::Faultless(List::new(alloc), IndexSet::new(alloc))
    }

    /// Resolves and checks one more entry. After a fault entries are not looked at.
    pub(crate) fn push(&mut self, alloc: Global, written: RawEntry) -> Result<(), AllocError>
        requires { IsWellWrittenEntry written }
        ensures { OnOk result ((front : Seq written_entry) →
            IsReadingOf front self.old → IsReadingOf (front ++ written ∷ []) self.new) }
    {
        self.read(alloc, &written)
    }

    fn read(&mut self, alloc: Global, written: &RawEntry) -> Result<(), AllocError>
        requires { IsWellWrittenEntry written.now }
        ensures { OnOk result ((front : Seq written_entry) →
            IsReadingOf front self.old → IsReadingOf (front ++ written.now ∷ []) self.new) }
    {
        let Reading::Faultless(entries, names) = self else {
            return Ok(());
        };
        if let Some(fault) = push_entry(alloc, entries, names, written)? {
            *self = Reading::Faulty(fault);
        }
        Ok(())
    }

    /// The module of these entries, or their first fault.
    pub(crate) fn module(self) -> Result<Module, IrFault>
        ensures ok { IfOk result (λ m. (written : Seq written_entry) →
            IsReadingOf written self → AreEntriesOf written m.entries) }
        ensures refused { IfErr result (λ fault. (written : Seq written_entry) →
            IsReadingOf written self → IsFaultOfEntries written fault) }
    {
        match self {
            Reading::Faultless(entries, _) => Ok(Module { entries }),
            Reading::Faulty(fault) => Err(fault),
        }
    }
}

/// Resolves and checks one more entry, where none before has a fault, and adds it; or gives its first fault.
fn push_entry(
    alloc: Global,
    entries: &mut List<Entry>,
    names: &mut IndexSet<Vec<u8>>,
    written: &RawEntry,
) -> Result<Option<IrFault>, AllocError>
    requires { IsWellWrittenEntry written.now }
    ensures none { IfOk result (λ found. IfNone found ((front : Seq written_entry) →
        IsReadingOf front (Faultless entries.old names.old) →
        IsReadingOf (front ++ written.now ∷ []) (Faultless entries.new names.new))) }
    ensures some { IfOk result (λ found. IfSome found (λ fault. (front : Seq written_entry) →
        IsReadingOf front (Faultless entries.old names.old) →
        IsReadingOf (front ++ written.now ∷ []) (Faulty fault))) }
{
    let is_repeated = is_repeated(alloc, names, written)?;
    match entry(alloc, written, is_repeated) {
        Ok(entry) => {
            entries.push(entry)?;
            Ok(None)
        }
        Err(IrError::Refused(fault)) => Ok(Some(fault)),
        Err(IrError::NoMemory) => Err(AllocError),
    }
}
