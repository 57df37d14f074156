//! The whole program, with files and sinks in memory.

mod across;
mod facts;
mod faults;
mod folding;
mod freezes;
mod intrinsics;
mod loads;
mod logs;
mod long_words;
mod modules;
mod refused;
mod rewriting;
mod rows;
mod rules;
mod running;
mod sure;
mod texts;

use running::{World, run, world_of};
use std::alloc::{AllocError, Global};
use std::process::Abort;
use std::test::Fail;

const OPTIMISE: &str = "alive optimise r m";

/// The flags to fold and to match across blocks, in each mix.
const MIXES: [&str; 4] = ["", " --fold", " --across", " --fold --across"];

const VERIFY: &str = "alive verify r";

const RECHECK: &str = "alive recheck r m";

const XOR_SELF: &str = "Name: xor-self\n%r = xor i4 %x, %x\n=>\n%r = and i4 %x, 0\n";

const OR_ZERO: &str = "Name: or-zero\n%r = or i1 %x, 0\n=>\n%r = 0\n";

const NOT_ADD: &str = "Name: not-add\n%1 = xor %x, -1\n%2 = add %1, C\n=>\n%2 = sub C-1, %x\n";

const NOT_ADD_SOURCE: &str =
    "define i4 @f(i4 %a) {\n  %1 = xor i4 %a, -1\n  %2 = add i4 %1, 5\n  ret i4 %2\n}\n";

const NOT_ADD_WRITTEN: &str = "define i4 @f(i4 %a) {\n  %1 = sub i4 4, %a\n  ret i4 %1\n}\n";

const IDENTITY: &str = "define i8 @f(i8 %a) {\n  ret i8 %a\n}\n";

/// A command, a rule file `r` and a module `m`, and the status and what is written.
struct Row {
    words: &'static str,
    rules: &'static str,
    source: &'static str,
    status: u8,
    out: &'static str,
    err: &'static str,
}

/// Runs a row's command, and says whether its status and what it wrote are the row's.
fn leaves(alloc: Global, row: &Row) -> Result<bool, AllocError> {
    let mut world = world_of(alloc, row.rules.as_bytes(), row.source.as_bytes())?;
    leaves_in(alloc, row, &mut world)
}

/// The same in a world that holds the row's files.
fn leaves_in(alloc: Global, row: &Row, world: &mut World) -> Result<bool, AllocError> {
    let status = run(alloc, row.words, world)?;
    Ok(is_left(status, world, row))
}

/// Whether status and texts are the row's.
fn is_left(status: u8, world: &World, row: &Row) -> bool {
    status == row.status
        && world.sinks.out.contents() == row.out.as_bytes()
        && world.sinks.err.contents() == row.err.as_bytes()
}

/// Runs a row's command with more flags, and says whether its status and what it wrote are the row's.
fn leaves_with(alloc: Global, row: &Row, flags: &str) -> Result<bool, AllocError> {
    let mut world = world_of(alloc, row.rules.as_bytes(), row.source.as_bytes())?;
    let line = format!(in alloc; "{}{flags}", row.words)?;
    let status = run(alloc, line.as_str(), &mut world)?;
    Ok(is_left(status, &world, row))
}

/// Runs the command of each row with more flags, and compares.
fn all_leave_with(rt: &impl Abort, alloc: Global, rows: &[Row], flags: &str) -> Result<(), Fail> {
    for row in rows {
        assert!(rt;
            leaves_with(alloc, row, flags)?,
            "what {}{flags} leaves of {}{}",
            row.words,
            row.rules,
            row.source
        );
    }
    Ok(())
}

/// Runs the command of each row, and compares.
fn all_leave(rt: &impl Abort, alloc: Global, rows: &[Row]) -> Result<(), Fail> {
    for row in rows {
        assert!(rt;
            leaves(alloc, row)?,
            "what {} leaves of {}{}",
            row.words,
            row.rules,
            row.source
        );
    }
    Ok(())
}
