//! The program: its words, the files of the disk and the standard streams go to `alive`, and its status is the exit
//! status.
#![tactic(auto)]

use alive_top::{Status, alive};
use outside::{DiskFiles, StreamSink};
use std::io::ErrorKind;
use std::process::ExitCode;
use std::{env, rt};

/// The words of the command line. Where one isn't UTF-8, they are no command.
fn words<R: rt::Env + AllocGlobal>(rt: &R) -> Result<Vec<String>, Status> {
    match env::args(rt) {
        Ok(words) => words.collect(rt.alloc()).map_err(|_| Status::NoMemory),
        Err(error) if error.kind() == ErrorKind::OutOfMemory => Err(Status::NoMemory),
        Err(_) => Err(Status::Usage),
    }
}

fn main(rt: HostRuntime) -> ExitCode {
    let words = match words(&rt) {
        Ok(words) => words,
        Err(status) => return ExitCode::from(status.code()),
    };
    let mut files = DiskFiles::new(rt);
    let mut out = StreamSink::new(rt.stdout());
    let mut err = StreamSink::new(rt.stderr());
    let ended = alive(rt.alloc(), &words, &mut files, &mut out, &mut err);
    ExitCode::from(ended.status.code())
}
