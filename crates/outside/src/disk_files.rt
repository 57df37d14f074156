//! The files of the system.

ghost use Rattle.std.specs.Prelude.{◌≡◌, ◌≤◌, None, take, vec_len, IfOk, IfSome, IsErrOf};
ghost use Rattle.outside.specs.Faults.{faults_after_read, Rose};

use crate::errors::ReadError;
use crate::files::Files;
use std::alloc::Global;
use std::io::Read;
use std::marker::Model;
use std::{fs, rt};

/// How many bytes one read of a real file asks for.
const CHUNK: usize = 4096;

/// The files of the system. Contracts don't tell what they hold.
///
/// A fault is an error of the system when a file is opened or read. A refused allocation is no fault.
#[derive(Drop)]
pub struct DiskFiles<R> {
    runtime: R,
    faults: u64,
}

impl<R> Model for DiskFiles<R> {
    ghost use Rattle.outside.specs.DiskFiles.{DiskFilesState};

    ghost Value = { DiskFilesState };

    ghost view = { λ files. record { faults = files.faults } };
}

impl<R: rt::Files> DiskFiles<R> {
    /// The files that a runtime opens, with no faults yet.
    pub fn new(runtime: R) -> Self
        ensures { result ≡ record { faults = 0 } }
    {
        DiskFiles { runtime, faults: 0 }
    }

    /// How many faults there were.
    pub fn faults(&self) -> u64
        ensures { result ≡ self.now.faults }
    {
        self.faults
    }
}

/// The bytes that a reader gives up to its end, or the first `most` of them. A read of 0 bytes is taken as the end.
fn read_up_to<F: Read>(alloc: Global, file: &mut F, most: usize) -> Result<Vec<u8>, ReadError>
    ensures within { IfOk result (λ read. vec_len read ≤ most) }
    // A reader that tells what it has left, as one in memory, gives exactly that.
    ensures told { IfOk result (λ read. IfSome (F.remaining file.old) (λ told. read.items ≡ take most told)) }
{
    let mut bytes = Vec::new(alloc);
    let mut chunk = [0u8; CHUNK];
    while bytes.len() < most {
        let wanted = CHUNK.min(most - bytes.len());
        match file.read(&mut chunk[..wanted]) {
            Ok(0) => return Ok(bytes),
            Ok(count) => bytes.extend_from_slice(&chunk[..count])?,
            Err(_) => return Err(ReadError::Failed),
        }
    }
    Ok(bytes)
}

/// The bytes of a file of the system, or its first `most`.
fn read_file<R: rt::Files>(
    runtime: &R,
    alloc: Global,
    name: &str,
    most: usize,
) -> Result<Vec<u8>, ReadError>
    ensures { IfOk result (λ read. vec_len read ≤ most) }
{
    match fs::open(runtime, name) {
        Ok(mut file) => read_up_to(alloc, &mut file, most),
        Err(_) => Err(ReadError::Failed),
    }
}

impl<R: rt::Files> Files for DiskFiles<R> {
    ghost state = { λ files. record { told = λ _. None; asked = None; faults = files.faults } };

    fn read(&mut self, alloc: Global, name: &str, most: usize) -> Result<Vec<u8>, ReadError>
        ensures within { IfOk result (λ read. vec_len read ≤ most) }
        ensures faults_grow { self.old.faults ≤ self.new.faults }
        ensures failed { IsErrOf result ReadError.Failed → Rose self.old.faults self.new.faults }
        ensures faults { self.new.faults ≡ faults_after_read result self.old.faults }
    {
        let read = read_file(&self.runtime, alloc, name, most);
        if let Err(ReadError::Failed) = &read {
            self.faults = self.faults.saturating_add(1);
        }
        read
    }
}
