//! Each status that is possible with files and sinks that never fail.

use super::running::words_of;
use super::{NOT_ADD, NOT_ADD_SOURCE};
use crate::sure_status;
use outside::SureFiles;
use std::alloc::{AllocError, Global};
use std::test::Fail;

/// A command, and its status. A file of any other name than those held is empty.
struct Row {
    line: &'static str,
    status: u8,
}

const ROWS: [Row; 8] = [
    Row {
        line: "alive optimise r m",
        status: 0,
    },
    Row {
        line: "alive verify r --widths 1-5",
        status: 0,
    },
    Row {
        line: "alive optimise r missing",
        status: 0,
    },
    Row {
        line: "alive optimise r",
        status: 2,
    },
    Row {
        line: "alive optimise m m",
        status: 3,
    },
    Row {
        line: "alive optimise r r",
        status: 4,
    },
    Row {
        line: "alive run m f 16",
        status: 8,
    },
    Row {
        line: "alive recheck r m",
        status: 9,
    },
];

/// A rule file `r` and a module `m`.
fn files_of(alloc: Global) -> Result<SureFiles, AllocError> {
    let mut files = SureFiles::new(alloc);
    files.add(alloc, "r", NOT_ADD.as_bytes())?;
    files.add(alloc, "m", NOT_ADD_SOURCE.as_bytes())?;
    Ok(files)
}

/// The status of words with these files.
fn status_of(alloc: Global, words: &Vec<String>) -> Result<u8, AllocError> {
    let mut files = files_of(alloc)?;
    Ok(sure_status(alloc, words, &mut files).code())
}

/// The status of the command of a line.
fn line_status(alloc: Global, line: &str) -> Result<u8, AllocError> {
    let words = words_of(alloc, line)?;
    status_of(alloc, &words)
}

#[test]
fn each_status_comes_over_what_never_fails(rt: HostRuntime) -> Result<(), Fail> {
    for row in &ROWS {
        assert_eq!(rt;
            line_status(rt.alloc(), row.line)?,
            row.status,
            "{}",
            row.line
        );
    }
    Ok(())
}
