//! Reads modules of LLVM IR, and says how large they are.
//!
//! The word is the name of the module's file. Three modules are generated: a chain of 20,000 blocks, a cycle of 5,000
//! blocks that no run reaches, and a switch of 20,000 cases.

mod counts;
mod made;

use crate::failure::Failure;
use counts::Counts;
use ir_reader::read_module;
use made::{cases, chain, ring};
use outside::{DiskFiles, Files, ReadError};

/// One byte more than a text of a module may have.
const TOO_MANY_BYTES: usize = 16_777_217;

/// The bytes of the file of this name, up to one more than a module may have.
fn bytes_of(rt: HostRuntime, name: &str) -> Result<Vec<u8>, Failure> {
    let mut files = DiskFiles::new(rt);
    match files.read(rt.alloc(), name, TOO_MANY_BYTES) {
        Ok(bytes) => Ok(bytes),
        Err(ReadError::Failed) => Err(Failure::Unreadable),
        Err(ReadError::NoMemory) => Err(Failure::NoMemory),
    }
}

/// Reads the module of a text, and prints its sizes.
fn tell(rt: &HostRuntime, text: &[u8]) -> Result<(), Failure> {
    let module = read_module(rt.alloc(), text)?;
    println!(rt; "{}", Counts::of(&module)).map_err(|_| Failure::Output)
}

/// Reads the module of the file that the word names.
pub(crate) fn read(rt: HostRuntime, words: &[String]) -> Result<(), Failure> {
    match words {
        [name] => tell(&rt, bytes_of(rt, name.as_str())?.as_slice()),
        _ => Err(Failure::Usage),
    }
}

/// Reads the modules that are generated.
pub(crate) fn read_made(rt: &HostRuntime) -> Result<(), Failure> {
    tell(rt, chain(rt.alloc(), 20_000)?.as_bytes())?;
    tell(rt, ring(rt.alloc(), 5_000)?.as_bytes())?;
    tell(rt, cases(rt.alloc(), 20_000)?.as_bytes())
}
