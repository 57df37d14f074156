//! Whole commands, over files and sinks in memory or on the files of the library of rules.
//!
//! What a command leaves in memory is written to the standard streams, and its status is the exit status, so that a
//! bench can refuse each of its allocations in turn.

mod library;
mod memory;

use crate::failure::Failure;
use alive_top::{Status, alive};
pub(crate) use library::decide_library;
use memory::{World, prepared};
use std::alloc::{AllocError, Global};
use std::io::Write;

/// The command that runs where there are no words: a loop of two phis that are swapped.
const LOOP: &str = "alive run --blocks 10 s swap 2";

/// The words of a line, with one blank between two.
fn words_of(alloc: Global, line: &str) -> Result<Vec<String>, AllocError> {
    let mut words = Vec::new(alloc);
    for word in line.split(' ') {
        words.push(String::from_str(alloc, word)?)?;
    }
    Ok(words)
}

/// Writes what a command left to the standard streams.
fn tell(rt: &HostRuntime, world: &World) -> Result<(), std::io::Error> {
    rt.stdout().write_all(world.out.contents())?;
    rt.stderr().write_all(world.err.contents())
}

/// Runs the command of the words, the first of which names the program, in memory.
pub(crate) fn run_command(rt: &HostRuntime, words: &Vec<String>) -> Result<Status, Failure> {
    let mut world = prepared(rt.alloc())?;
    let ended = alive(
        rt.alloc(),
        words,
        &mut world.files,
        &mut world.out,
        &mut world.err,
    );
    tell(rt, &world).map_err(|_| Failure::Output)?;
    Ok(ended.status)
}

/// Runs the loop.
pub(crate) fn run_loop(rt: &HostRuntime) -> Result<Status, Failure> {
    run_command(rt, &words_of(rt.alloc(), LOOP)?)
}
