//! A word longer than the system allows on a command line: a list of 64 widths, repeated.

use super::running::{status_of, words_of};
use super::*;
use std::fmt::Write;

const ADD_ZERO: &str = "Name: add-zero\n%r = add %x, 0\n=>\n%r = %x\n";

/// How often the widths stand in the list.
const TIMES: usize = 20_000;

/// How many lines `verify` writes for the rule.
const LINES: usize = 64;

/// The widths from 1 to 64.
fn widths_once(alloc: Global) -> Result<String, AllocError> {
    let mut text = String::new(alloc);
    for width in 1u32..=64 {
        write!(text, "{width},")?;
    }
    Ok(text)
}

/// The widths from 1 to 64, that often.
fn widths(alloc: Global) -> Result<String, AllocError> {
    let once = widths_once(alloc)?;
    let mut all = String::new(alloc);
    for _ in 0..TIMES {
        all.push_str(once.as_str())?;
    }
    all.push_str("1")?;
    Ok(all)
}

/// The words of `verify` over that list.
fn words(alloc: Global) -> Result<Vec<String>, AllocError> {
    let mut words = words_of(alloc, "alive verify r --widths")?;
    words.push(widths(alloc)?)?;
    Ok(words)
}

/// The status of `verify` over that list, and how many lines it writes.
fn verified(alloc: Global, words: &Vec<String>) -> Result<(u8, usize), AllocError> {
    let mut world = world_of(alloc, ADD_ZERO.as_bytes(), b"")?;
    let status = status_of(alloc, words, &mut world);
    let written = world.sinks.out.contents();
    let lines = written.iter().filter(|byte| **byte == b'\n').count();
    Ok((status, lines))
}

#[test]
fn widths_may_stand_again_and_again(rt: HostRuntime) -> Result<(), Fail> {
    let words = words(rt.alloc())?;
    assert_eq!(rt; verified(rt.alloc(), &words)?, (0, LINES));
    Ok(())
}
