//! Measures parts of the work: how modules are read, how sets of clauses are searched, and how rules are decided; and
//! runs whole commands, so that each of their allocations can be refused in turn.
//!
//! Its words are `read MODULE`, `search SET [untimed]`, `verify RULES CONFLICTS [untimed | --dimacs FOLDER]` or
//! `command WORD ..`; the modules `reading`, `searching`, `deciding` and `commands` say more. Without words it reads
//! three modules that it generates, searches the pigeonhole set of 7 pigeons, decides the rules of `rules.alive` and
//! the files of the library at widths 1 to 4, so that a rule that goes wrong changes a line, and runs a loop, without
//! times. Its status is 0, or the command's; where it fails it is 10 or 11, which no command has, and a line on the
//! error stream says why.
#![tactic(auto)]

mod commands;
mod deciding;
mod failure;
mod reading;
mod searched;
mod searching;

use crate::commands::{decide_library, run_command, run_loop};
use crate::deciding::{decide, decide_few};
use crate::failure::Failure;
use crate::reading::{read, read_made};
use crate::searching::{search_named, search_pigeons};
use alive_top::Status;
use std::env;
use std::io::ErrorKind;
use std::process::ExitCode;

/// The program's words. A word that isn't UTF-8 is no word of a command.
fn words(rt: &HostRuntime) -> Result<Vec<String>, Failure> {
    match env::args(rt) {
        Ok(words) => Ok(words.collect(rt.alloc())?),
        Err(error) if error.kind() == ErrorKind::OutOfMemory => Err(Failure::NoMemory),
        Err(_) => Err(Failure::Usage),
    }
}

/// Does a little of each part.
fn run_each(rt: HostRuntime) -> Result<Status, Failure> {
    read_made(&rt)?;
    search_pigeons(&rt)?;
    decide_few(rt)?;
    decide_library(rt)?;
    run_loop(&rt)
}

/// Measures the part that the words name, of which the first is the program's own name.
fn measure_part(rt: HostRuntime, words: &[String]) -> Result<(), Failure> {
    let [_, part, rest @ ..] = words else {
        return Err(Failure::Usage);
    };
    match part.as_str() {
        "read" => read(rt, rest),
        "search" => search_named(&rt, rest),
        "verify" => decide(rt, rest),
        _ => Err(Failure::Usage),
    }
}

/// Does what the program's words ask for.
fn run(rt: HostRuntime) -> Result<Status, Failure> {
    let mut words = words(&rt)?;
    if words.len() == 1 {
        return run_each(rt);
    }
    if words.len() > 1 && words[1].as_str() == "command" {
        words.remove(0);
        return run_command(&rt, &words);
    }
    measure_part(rt, &words)?;
    Ok(Status::Done)
}

fn main(rt: HostRuntime) -> ExitCode {
    match run(rt) {
        Ok(status) => ExitCode::from(status.code()),
        Err(failure) => {
            // the status tells of the failure even where the error stream can't be written
            let _ = eprintln!(rt; "{failure}");
            ExitCode::from(failure.status())
        }
    }
}
