//! The files of the library of rules, decided at widths 1 to 4.

use super::words_of;
use crate::failure::Failure;
use alive_top::alive;
use outside::{DiskFiles, MemorySink};
use std::alloc::{AllocError, Global};

const FILES: [&str; 8] = [
    "add-sub.alive",
    "mul-div-rem.alive",
    "and-or-xor.alive",
    "shift.alive",
    "icmp.alive",
    "select.alive",
    "cast.alive",
    "with-intrinsics.alive",
];

/// The most bytes of verdicts and of a refusal that are kept, and not printed.
const ROOM: usize = 1 << 20;

/// The words of the command that decides a file.
fn words_for(alloc: Global, name: &str) -> Result<Vec<String>, AllocError> {
    let mut words = words_of(alloc, "alive verify --widths 1-4")?;
    words.push(String::from_str(alloc, name)?)?;
    Ok(words)
}

/// Decides a file, and prints the status and the count of its verdicts.
fn decide(rt: HostRuntime, name: &str) -> Result<(), Failure> {
    let words = words_for(rt.alloc(), name)?;
    let mut files = DiskFiles::new(rt);
    let mut out = MemorySink::with_room(rt.alloc(), ROOM)?;
    let mut err = MemorySink::with_room(rt.alloc(), ROOM)?;
    let ended = alive(rt.alloc(), &words, &mut files, &mut out, &mut err);
    println!(rt;
        "{name}: status {}, {} verdicts",
        ended.status.code(),
        ended.table.len()
    )
    .map_err(|_| Failure::Output)
}

/// Decides each file, and prints its line.
pub(crate) fn decide_library(rt: HostRuntime) -> Result<(), Failure> {
    for name in FILES {
        decide(rt, name)?;
    }
    Ok(())
}
