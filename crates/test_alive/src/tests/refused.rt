//! Words that are no command. What the error stream gets are texts of `clap`.

use super::running::{status_of, words_of};
use super::*;

const ROWS: [&str; 9] = [
    "alive optimise r",
    "alive optimise r m m",
    "alive verify r m",
    "alive load 4294967296",
    "alive load -1",
    "alive load x",
    "alive load ",
    "alive load",
    "alive load 7 7",
];

/// The status of words over a rule file and a module, and how many bytes the output gets.
fn refused(alloc: Global, words: &Vec<String>) -> Result<(u8, usize), AllocError> {
    let mut world = world_of(alloc, b"; none", IDENTITY.as_bytes())?;
    let status = status_of(alloc, words, &mut world);
    Ok((status, world.sinks.out.contents().len()))
}

/// The same of the words of a line.
fn line_refused(alloc: Global, line: &str) -> Result<(u8, usize), AllocError> {
    let words = words_of(alloc, line)?;
    refused(alloc, &words)
}

#[test]
fn words_that_are_no_command_do_nothing(rt: HostRuntime) -> Result<(), Fail> {
    for line in &ROWS {
        assert_eq!(rt; line_refused(rt.alloc(), line)?, (2, 0), "{line}");
    }
    Ok(())
}

#[test]
fn no_words_are_no_command(rt: HostRuntime) -> Result<(), Fail> {
    assert_eq!(rt; refused(rt.alloc(), &Vec::new(rt.alloc()))?, (2, 0));
    Ok(())
}
