//! Command lines, and the commands that they are.

use command_line::{Command, CommandError, VerifyOptions, read_command};
use ops::Width;
use std::alloc::{AllocError, Global};
use std::fmt::Write;
use std::test::Fail;

/// Appends widths.
fn push_widths(text: &mut String, widths: &[Width]) -> Result<(), AllocError> {
    for width in widths {
        write!(text, " {}", width.bits())?;
    }
    Ok(())
}

/// Appends words.
fn push_words(text: &mut String, words: &[&str]) -> Result<(), AllocError> {
    for word in words {
        write!(text, " {word}")?;
    }
    Ok(())
}

/// `verify` as a text.
fn verify_shown(alloc: Global, rules: &str, options: &VerifyOptions) -> Result<String, AllocError> {
    let logs = if options.logs { " logs" } else { "" };
    let mut text = format!(in alloc; "verify {rules} {}{logs}:", options.conflicts)?;
    push_widths(&mut text, options.widths.as_slice())?;
    Ok(text)
}

/// `run` as a text.
fn run_shown(
    alloc: Global,
    module: &str,
    name: &str,
    arguments: &[&str],
    blocks: u32,
) -> Result<String, AllocError> {
    let mut text = format!(in alloc; "run {module} {name} {blocks}:")?;
    push_words(&mut text, arguments)?;
    Ok(text)
}

/// A command as a text.
fn shown(alloc: Global, command: &Command<'_>) -> Result<String, AllocError> {
    match command {
        Command::Verify { rules, options } => verify_shown(alloc, rules, options),
        Command::Optimise {
            rules,
            module,
            logs,
            options,
        } => format!(in alloc;
            "optimise {rules} {module} {} {}{}{}",
            options.conflicts,
            options.steps,
            if logs.is_some() { " logs " } else { "" },
            logs.unwrap_or("")
        ),
        Command::Run {
            module,
            name,
            arguments,
            options,
        } => run_shown(alloc, module, name, arguments.as_slice(), options.blocks),
        Command::Load { number } => format!(in alloc; "load {number}"),
        Command::Recheck {
            rules,
            logs,
            options,
        } => format!(in alloc; "recheck {rules} {logs} {}", options.conflicts),
    }
}

/// Appends a word.
fn push_word(alloc: Global, words: &mut Vec<String>, word: &str) -> Result<(), AllocError> {
    let word = String::from_str(alloc, word)?;
    words.push(word)?;
    Ok(())
}

/// Appends the program's name and the words behind it.
fn push_line(alloc: Global, line: &mut Vec<String>, words: &[&str]) -> Result<(), AllocError> {
    push_word(alloc, line, "alive")?;
    for word in words {
        push_word(alloc, line, word)?;
    }
    Ok(())
}

/// Of a usage text only the part that is compared: `clap`'s own texts are shortened to `usage`.
fn usage(text: &[u8]) -> &str {
    if text.starts_with(b"error: widths ") {
        std::str::from_utf8(text).unwrap_or("no text")
    } else {
        "usage"
    }
}

/// The command that a line is, as a text.
fn line_said(alloc: Global, line: &[String]) -> Result<String, AllocError> {
    match read_command(alloc, line) {
        Ok(command) => shown(alloc, &command),
        Err(CommandError::Usage(text)) => String::from_str(alloc, usage(text.as_slice())),
        Err(CommandError::NoMemory) => Err(AllocError),
    }
}

/// The command that the words behind the program's name are, as a text.
fn said(alloc: Global, words: &[&str]) -> Result<String, AllocError> {
    let mut line = Vec::new(alloc);
    push_line(alloc, &mut line, words)?;
    line_said(alloc, line.as_slice())
}

const TABLE: &[(&[&str], &str)] = &[
    (&["verify", "r"], "verify r 20000: 1 2 3 4 5 6 7 8 16 32 64"),
    (
        &["verify", "--widths", "3,1-2,2", "r", "--conflicts=0"],
        "verify r 0: 1 2 3",
    ),
    (
        &["verify", "--conflicts", "1000000", "r", "--widths=64"],
        "verify r 1000000: 64",
    ),
    (&["verify", "r", "--conflicts", "1000001"], "usage"),
    (&["verify", "r", "--conflicts", "ten"], "usage"),
    (&["verify", "r", "--widths", "0-3"], "error: widths 0-3\n"),
    (&["verify", "r", "--widths", "5-4"], "error: widths 5-4\n"),
    (
        &["verify", "r", "--widths", "1-3,,4"],
        "error: widths 1-3,,4\n",
    ),
    (&["verify", "r", "--widths", "01"], "error: widths 01\n"),
    (&["verify", "r", "--widths", "+1"], "error: widths +1\n"),
    (
        &["verify", "r", "--widths", "64-65"],
        "error: widths 64-65\n",
    ),
    (&["verify", "r", "--widths", ""], "error: widths \n"),
    (
        &["verify", "r", "--widths", "1-2-3"],
        "error: widths 1-2-3\n",
    ),
    (
        &["verify", "--logs", "r", "--widths", "7"],
        "verify r 20000 logs: 7",
    ),
    (&["verify", "r", "--logs", "l"], "usage"),
    (&["verify", "--logs", "--logs", "r"], "usage"),
    (&["recheck", "r", "l"], "recheck r l 20000"),
    (&["recheck", "--conflicts", "0", "r", "l"], "recheck r l 0"),
    (&["recheck", "r"], "usage"),
    (&["recheck", "r", "l", "m"], "usage"),
    (&["recheck", "r", "l", "--widths", "1"], "usage"),
    (&["optimise", "r", "m"], "optimise r m 20000 10000"),
    (
        &["optimise", "r", "--steps", "100000", "m"],
        "optimise r m 20000 100000",
    ),
    (
        &["optimise", "--steps", "0", "--conflicts", "7", "r", "m"],
        "optimise r m 7 0",
    ),
    (
        &["optimise", "r", "--logs", "l", "m"],
        "optimise r m 20000 10000 logs l",
    ),
    (
        &["optimise", "r", "m", "--logs="],
        "optimise r m 20000 10000 logs ",
    ),
    (&["optimise", "r", "m", "--logs"], "usage"),
    (
        &["optimise", "r", "m", "--logs", "l", "--logs", "l"],
        "usage",
    ),
    (&["optimise", "r", "m", "--steps", "100001"], "usage"),
    (&["optimise", "r"], "usage"),
    (&["optimise", "r", "m", "--widths", "1"], "usage"),
    (&["optimise", "r", "m", "n"], "usage"),
    (&["run", "m", "f"], "run m f 1000000:"),
    (
        &["run", "--blocks", "10", "m", "swap", "2"],
        "run m swap 10: 2",
    ),
    (
        &["run", "--blocks=4", "m", "f", "1", "poison"],
        "run m f 4: 1 poison",
    ),
    (
        &["run", "m", "f", "3", "--blocks", "0", "1", "3"],
        "run m f 0: 3 1 3",
    ),
    (
        &["run", "--blocks=100000000", "m", "f", "-", "--", "-1"],
        "run m f 100000000: - -1",
    ),
    (
        &["run", "verify", "help", "run"],
        "run verify help 1000000: run",
    ),
    (&["run", "m"], "usage"),
    (&["run", "m", "f", "-1"], "usage"),
    (&["run", "m", "f", "--blocks", "100000001"], "usage"),
    (&["load", "0"], "load 0"),
    (&["load", "7"], "load 7"),
    (&["load", "4294967295"], "load 4294967295"),
    (&["load", "4294967296"], "usage"),
    (&["load", "-1"], "usage"),
    (&["load", "x"], "usage"),
    (&["load", "7", "7"], "usage"),
    (&["load"], "usage"),
    (&["--help"], "usage"),
    (&["--version"], "usage"),
    (&["help"], "usage"),
    (&[], "usage"),
];

#[test]
fn command_lines_say_their_commands(rt: HostRuntime) -> Result<(), Fail> {
    for (words, expected) in TABLE {
        let text = said(rt.alloc(), words)?;
        assert_eq!(rt; text.as_str(), *expected);
    }
    Ok(())
}
