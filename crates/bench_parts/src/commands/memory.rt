//! The files and the sinks of a command.

use outside::{MemoryFiles, MemorySink};
use std::alloc::{AllocError, Global};

const NOT_ADD: &str = "Name: not-add\n%1 = xor %x, -1\n%2 = add %1, C\n=>\n%2 = sub C-1, %x\n";

const MATCHED: &str =
    "define i4 @f(i4 %a) {\n  %1 = xor i4 %a, -1\n  %2 = add i4 %1, 5\n  ret i4 %2\n}\n";

const SWAP: &str =
    "define i8 @swap(i8 %n) {\nentry:\n  br label %loop\n\nloop:\n  %a = phi i8 [ 1, %entry ], [ %b, %loop ]\n  %b = phi i8 [ 2, %entry ], [ %a, %loop ]\n  %i = phi i8 [ 0, %entry ], [ %j, %loop ]\n  %j = add i8 %i, 1\n  %c = icmp ult i8 %j, %n\n  br i1 %c, label %loop, label %exit\n\nexit:\n  ret i8 %b\n}\n";

/// How many bytes each sink has room for.
const ROOM: usize = 1000;

/// What a command reads and writes.
#[derive(Drop)]
pub(super) struct World {
    pub(super) files: MemoryFiles,
    pub(super) out: MemorySink,
    pub(super) err: MemorySink,
}

/// The rule file and the modules.
fn files(alloc: Global) -> Result<MemoryFiles, AllocError> {
    let mut files = MemoryFiles::new(alloc);
    files.add(alloc, "r", NOT_ADD.as_bytes())?;
    files.add(alloc, "m", MATCHED.as_bytes())?;
    files.add(alloc, "s", SWAP.as_bytes())?;
    Ok(files)
}

/// The files, and empty sinks.
pub(super) fn prepared(alloc: Global) -> Result<World, AllocError> {
    Ok(World {
        files: files(alloc)?,
        out: MemorySink::with_room(alloc, ROOM)?,
        err: MemorySink::with_room(alloc, ROOM)?,
    })
}
