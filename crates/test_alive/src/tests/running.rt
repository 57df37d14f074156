//! Files and sinks in memory, and commands that run with them.

use alive_top::alive;
use outside::{MemoryFiles, MemorySink};
use std::alloc::{AllocError, Global};

/// The output and the error stream.
#[derive(Drop)]
pub(super) struct Sinks {
    pub(super) out: MemorySink,
    pub(super) err: MemorySink,
}

/// The files that a command reads, and the sinks that it writes to.
#[derive(Drop)]
pub(super) struct World {
    pub(super) files: MemoryFiles,
    pub(super) sinks: Sinks,
}

/// How many bytes each sink has room for: more than any test writes.
const ROOM: usize = 1 << 20;

/// Puts a rule file `r` and a module `m` into memory.
fn add_files(
    alloc: Global,
    files: &mut MemoryFiles,
    rules: &[u8],
    source: &[u8],
) -> Result<(), AllocError> {
    files.add(alloc, "r", rules)?;
    files.add(alloc, "m", source)
}

/// No files, and empty sinks.
fn empty_world(alloc: Global) -> Result<World, AllocError> {
    let out = MemorySink::with_room(alloc, ROOM)?;
    let err = MemorySink::with_room(alloc, ROOM)?;
    Ok(World {
        files: MemoryFiles::new(alloc),
        sinks: Sinks { out, err },
    })
}

/// A rule file `r` and a module `m`, and empty sinks.
pub(super) fn world_of(alloc: Global, rules: &[u8], source: &[u8]) -> Result<World, AllocError> {
    let mut world = empty_world(alloc)?;
    add_files(alloc, &mut world.files, rules, source)?;
    Ok(world)
}

/// Appends a word.
fn push_word(alloc: Global, words: &mut Vec<String>, word: &str) -> Result<(), AllocError> {
    let word = String::from_str(alloc, word)?;
    words.push(word)?;
    Ok(())
}

/// The words of a line, with one blank between two.
pub(super) fn words_of(alloc: Global, line: &str) -> Result<Vec<String>, AllocError> {
    let mut all = Vec::new(alloc);
    for word in line.split(' ') {
        push_word(alloc, &mut all, word)?;
    }
    Ok(all)
}

/// How the words of a command end.
pub(super) fn status_of(alloc: Global, words: &Vec<String>, world: &mut World) -> u8 {
    let ended = alive(
        alloc,
        words,
        &mut world.files,
        &mut world.sinks.out,
        &mut world.sinks.err,
    );
    ended.status.code()
}

/// Runs the command of a line, and gives its status.
pub(super) fn run(alloc: Global, line: &str, world: &mut World) -> Result<u8, AllocError> {
    let words = words_of(alloc, line)?;
    Ok(status_of(alloc, &words, world))
}
