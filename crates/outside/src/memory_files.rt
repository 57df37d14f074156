//! Files in memory, some of whose reads fail.

ghost use Rattle.std.specs.Prelude.{◌≡◌, ◌≤◌, [], ◌∷◌, ◌++◌, take, vec_len, IfOk, IfSome, IsErr, OnOk, OnErr, IsErrOf, Some, MatchOption, IsTrue, ◌↔◌, ◌⊎◌};
ghost use Rattle.outside.specs.Faults.{Rose, raised};
ghost use Rattle.outside.specs.StoredFiles.{bytes_of};
ghost use Rattle.outside.specs.MemoryFiles.{IsListed, IsMissing, IsReadOf, files_after};

use crate::errors::ReadError;
use crate::files::Files;
use crate::stored_file::{StoredFile, copied, find_bytes, first_bytes};
use lists::{List, Text};
use std::alloc::{AllocError, Global};
use std::marker::Model;

/// Files in memory. The reads that are listed fail, and so does the read of a name that nothing
/// is held under. Where one name is held twice, the first file counts.
#[derive(Drop)]
pub struct MemoryFiles {
    held: List<StoredFile>,
    failing: List<u64>,
    asked: List<Text>,
    faults: u64,
}

impl Model for MemoryFiles {
    ghost use Rattle.outside.specs.MemoryFiles.{MemoryFilesState};

    ghost Value = { MemoryFilesState };

    ghost view = { λ files. record { held = files.held; failing = files.failing; asked = files.asked; faults = files.faults } };
}

impl MemoryFiles {
    /// No files, and no reads that fail.
    pub fn new(alloc: Global) -> Self
        ensures { result ≡ record { held = []; failing = []; asked = []; faults = 0 } }
    {
        MemoryFiles {
            held: List::new(alloc),
            failing: List::new(alloc),
            asked: List::new(alloc),
            faults: 0,
        }
    }

    /// Holds copies of these bytes under a name.
    pub fn add(&mut self, alloc: Global, name: &str, bytes: &[u8]) -> Result<(), AllocError>
        ensures ok { OnOk result (self.new ≡ record self.old { held = self.old.held ++ record { name = name.now; bytes = bytes.now } ∷ [] }) }
        ensures err { OnErr result (self.new ≡ self.old) }
    {
        self.held.push(StoredFile::new(alloc, name, bytes)?)
    }

    /// Makes the read with this number fail; reads are numbered from 0. A read that is refused memory gets no number.
    pub fn fail_at(&mut self, read: u64) -> Result<(), AllocError>
        ensures ok { OnOk result (self.new ≡ record self.old { failing = self.old.failing ++ read ∷ [] }) }
        ensures err { OnErr result (self.new ≡ self.old) }
    {
        self.failing.push(read)
    }

    /// The names asked for, in order.
    pub fn asked(&self) -> &[Text]
        ensures { result.now ≡ self.now.asked }
    {
        self.asked.as_slice()
    }

    /// How many faults there were.
    pub fn faults(&self) -> u64
        ensures { result ≡ self.now.faults }
    {
        self.faults
    }

    /// Whether the next read is one that was listed to fail.
    fn is_listed(&self) -> bool
        ensures { IsTrue result ↔ IsListed self.now }
    {
        let next = self.asked.len() as u64;
        self.failing.as_slice().contains(&next)
    }

    /// A copy of the first `most` bytes under a name, unless the next read of it fails.
    fn copy_of(&self, alloc: Global, name: &str, most: usize) -> Result<Option<Vec<u8>>, AllocError>
        ensures { IfOk result (λ read. MatchOption read (IsListed self.now ⊎ IsMissing self.now name.now)
            (λ bytes. IsReadOf self.now name.now most bytes.items)) }
    {
        if self.is_listed() {
            return Ok(None);
        }
        let Some(bytes) = find_bytes(self.held.as_slice(), name) else {
            return Ok(None);
        };
        Ok(Some(first_bytes(alloc, bytes, most)?))
    }

    /// Records that a name was asked for.
    fn note(&mut self, alloc: Global, name: &str) -> Result<(), AllocError>
        ensures ok { OnOk result (self.new ≡ record self.old { asked = self.old.asked ++ name.now ∷ [] }) }
        ensures err { OnErr result (self.new ≡ self.old) }
    {
        let name = copied(alloc, name.as_bytes())?;
        self.asked.push(name)
    }

    /// The bytes that a read gives, or `None` where it fails. The name is recorded unless memory is refused.
    fn answer(
        &mut self,
        alloc: Global,
        name: &str,
        most: usize,
    ) -> Result<Option<Vec<u8>>, AllocError>
        ensures read { IfOk result (λ read. MatchOption read (IsListed self.old ⊎ IsMissing self.old name.now)
            (λ bytes. IsReadOf self.old name.now most bytes.items)) }
        ensures ok { OnOk result (self.new ≡ record self.old { asked = self.old.asked ++ name.now ∷ [] }) }
        ensures err { OnErr result (self.new ≡ self.old) }
    {
        let read = self.copy_of(alloc, name, most)?;
        self.note(alloc, name)?;
        Ok(read)
    }

    /// Counts a read that fails.
    fn fail(&mut self) -> ReadError
        ensures failed { result ≡ ReadError.Failed }
        ensures counted { self.new ≡ record self.old { faults = raised self.old.faults } }
        ensures grows { self.old.faults ≤ self.new.faults }
    {
        self.faults = self.faults.saturating_add(1);
        ReadError::Failed
    }
}

impl Files for MemoryFiles {
    ghost state = { λ files. record { told = bytes_of files.held; asked = Some files.asked; faults = files.faults } };

    fn read(&mut self, alloc: Global, name: &str, most: usize) -> Result<Vec<u8>, ReadError>
        ensures bytes { IfOk result (λ read. IfSome (bytes_of self.old.held name.now) (λ held. read.items ≡ take most held)) }
        ensures within { IfOk result (λ read. vec_len read ≤ most) }
        ensures faults_grow { self.old.faults ≤ self.new.faults }
        ensures failed { IsErrOf result ReadError.Failed → Rose self.old.faults self.new.faults }

        // It fails exactly at a listed read and at a missing name, unless memory is refused.
        ensures listed { IsListed self.old → IsErr result }
        ensures missing { IsMissing self.old name.now → IsErr result }
        ensures only { IsErrOf result ReadError.Failed → IsListed self.old ⊎ IsMissing self.old name.now }
        ensures after { self.new ≡ files_after result self.old name.now }
    {
        match self.answer(alloc, name, most)? {
            Some(bytes) => Ok(bytes),
            None => Err(self.fail()),
        }
    }
}
