//! Files in memory whose reads never fail.

ghost use Rattle.std.specs.Prelude.{◌≡◌, ◌≤◌, [], ◌∷◌, ◌++◌, take, vec_len, IfOk, IfSome, IsOkUnless, OnOk, OnErr, Some};
ghost use Rattle.outside.specs.Files.{names_after};
ghost use Rattle.outside.specs.StoredFiles.{bytes_or_none};

use crate::errors::ReadError;
use crate::files::Files;
use crate::stored_file::{StoredFile, copied, find_bytes, first_bytes};
use lists::{List, Text};
use std::alloc::{AllocError, Global};
use std::marker::Model;

/// Files in memory whose reads never fail: a name that nothing is held under reads as an empty file.
#[derive(Drop)]
pub struct SureFiles {
    held: List<StoredFile>,
    asked: List<Text>,
}

impl Model for SureFiles {
    ghost use Rattle.outside.specs.SureFiles.{SureFilesState};

    ghost Value = { SureFilesState };

    ghost view = { λ files. record { held = files.held; asked = files.asked } };
}

impl SureFiles {
    /// No files.
    pub fn new(alloc: Global) -> Self
        ensures { result ≡ record { held = []; asked = [] } }
    {
        SureFiles {
            held: List::new(alloc),
            asked: List::new(alloc),
        }
    }

    /// Holds copies of these bytes under a name. Where one name is held twice, the first counts.
    pub fn add(&mut self, alloc: Global, name: &str, bytes: &[u8]) -> Result<(), AllocError>
        ensures ok { OnOk result (self.new ≡ record self.old { held = self.old.held ++ record { name = name.now; bytes = bytes.now } ∷ [] }) }
        ensures err { OnErr result (self.new ≡ self.old) }
    {
        self.held.push(StoredFile::new(alloc, name, bytes)?)
    }

    /// The names asked for, in order.
    pub fn asked(&self) -> &[Text]
        ensures { result.now ≡ self.now.asked }
    {
        self.asked.as_slice()
    }
}

impl Files for SureFiles {
    ghost state = { λ files. record { told = bytes_or_none files.held; asked = Some files.asked; faults = 0 } };

    fn read(&mut self, alloc: Global, name: &str, most: usize) -> Result<Vec<u8>, ReadError>
        ensures bytes { IfOk result (λ read. IfSome (bytes_or_none self.old.held name.now) (λ told. read.items ≡ take most told)) }
        ensures within { IfOk result (λ read. vec_len read ≤ most) }
        ensures held_stay { self.new.held ≡ self.old.held }
        ensures asked { Some self.new.asked ≡ names_after result (Some self.old.asked) name.now }
        ensures sure { IsOkUnless result ReadError.NoMemory }
    {
        let copy = copied(alloc, name.as_bytes())?;
        let read = match find_bytes(self.held.as_slice(), name) {
            Some(bytes) => first_bytes(alloc, bytes, most)?,
            None => Vec::new(alloc),
        };
        self.asked.push(copy)?;
        Ok(read)
    }
}
