//! Reads the words of a command line.

ghost use Rattle.std.specs.Prelude.{◌≡◌, ℕ, List, Some, true, map, codes, string_bytes, IfOk, OnOk, IfErr, IsErrAnd, is_some, option_map};
ghost use Rattle.clap.specs.Words.{first_of, rows_of, found_of, kind_of, subcommand_rows_of};
ghost use Rattle.clap.specs.declared.error.kind.ErrorKind.TheVariants.{OutOfMemory};
ghost use Rattle.command_line.specs.Limits.{IsWithinLimits};
ghost use Rattle.command_line.specs.Usage.{HasBadList, IsUsageOf, IsRefusalOf, refusal_of_list};
ghost use Rattle.command_line.specs.Words.{are_taken, command_and_rows, Says, SaysOf, HasFlag, HasNumber, MayHaveText, HasTexts};
ghost use Rattle.command_line.specs.Arguments.{HasValue, HasNumberUpTo, HasTruth, HasVerify, HasOptimise, HasRun, HasLoad, HasRecheck, IsKnown, IsUntaken, RefusesGiven, RefusesList};

use crate::command::{
    Command, CommandError, OptimiseOptions, RecheckOptions, RunOptions, VerifyOptions,
};
use crate::definition::definition;
use crate::widths::read_widths;
use clap::error::ErrorKind;
use clap::{ArgMatches, Error};
use lists::List;
use std::alloc::{AllocError, Global};

/// The text of an argument that has one.
fn text_of<'a>(found: &ArgMatches<'a>, argument: &str) -> &'a str
    requires { HasValue (rows_of (found_of found.now)) argument.now }
    ensures { first_of argument.now (rows_of (found_of found.now)) ≡ Some result.now }
{
    found.get_str(argument).unwrap()
}

/// The text of an argument, where it has one.
fn optional_text_of<'a>(found: &ArgMatches<'a>, argument: &str) -> Option<&'a str>
    ensures { MayHaveText (rows_of (found_of found.now)) argument.now (option_map (λ text. text.now) result) }
{
    found.get_str(argument)
}

/// The texts of an argument, in order, of which there may be none.
fn texts_of<'a>(
    alloc: Global,
    found: &ArgMatches<'a>,
    argument: &str,
) -> Result<List<&'a str>, AllocError>
    ensures { IfOk result (λ texts. HasTexts (rows_of (found_of found.now)) argument.now (map (λ text. text.now) texts)) }
{
    match found.get_raw(argument) {
        Some(texts) => Ok(List::from_vec(texts.to_vec(alloc)?)),
        None => Ok(List::new(alloc)),
    }
}

/// The number of an argument that has one.
fn number_of(found: &ArgMatches<'_>, argument: &str) -> u32
    requires { HasNumberUpTo 4294967295 (rows_of (found_of found.now)) argument.now }
    ensures { HasNumber (rows_of (found_of found.now)) argument.now result }
{
    found.get_one::<u32>(argument).unwrap()
}

/// Whether a flag stands among the words.
fn flag_of(found: &ArgMatches<'_>, argument: &str) -> bool
    requires { HasTruth (rows_of (found_of found.now)) argument.now }
    ensures { HasFlag (rows_of (found_of found.now)) argument.now result }
{
    found.get_flag(argument)
}

/// `clap`'s text for words that it doesn't take.
fn usage(alloc: Global, error: Error) -> CommandError
    ensures { kind_of error ≡ OutOfMemory → result ≡ CommandError.NoMemory }
{
    if error.kind() == ErrorKind::OutOfMemory {
        return CommandError::NoMemory;
    }
    match error.to_string(alloc) {
        Ok(text) => CommandError::Usage(text.into_bytes()),
        Err(_) => CommandError::NoMemory,
    }
}

/// What `clap` takes from the words.
fn parse<'a>(alloc: Global, words: &'a [String]) -> Result<ArgMatches<'a>, CommandError>
    ensures taken { OnOk result (are_taken (map string_bytes words.entry.now) ≡ true) }
    ensures rows { IfOk result (λ found. subcommand_rows_of found ≡ command_and_rows (map string_bytes words.entry.now)) }
    ensures usage { IfErr result (IsUntaken (map string_bytes words.entry.now)) }
{
    let definition = definition(alloc)?;
    match definition.try_get_matches_from(words) {
        Ok(matches) => Ok(matches),
        Err(error) => Err(usage(alloc, error)),
    }
}

/// The text for a list of widths that is malformed.
fn refusal_text(alloc: Global, list: &str) -> Result<Vec<u8>, AllocError>
    ensures { IfOk result (λ text. text.items ≡ refusal_of_list list.now) }
{
    let mut text = Vec::new(alloc);
    text.extend_from_slice(b"error: widths ")?;
    text.extend_from_slice(list.as_bytes())?;
    text.push(b'\n')?;
    Ok(text)
}

/// The command `verify`.
fn read_verify<'a>(alloc: Global, found: &ArgMatches<'a>) -> Result<Command<'a>, CommandError>
    requires { HasVerify (rows_of (found_of found.now)) }
    ensures says { IfOk result (SaysOf (Some (codes "verify", rows_of (found_of found.now)))) }
    ensures limits { IfOk result IsWithinLimits }
    ensures refusal { IfErr result (RefusesList (rows_of (found_of found.now))) }
{
    let list = text_of(found, "widths");
    let Some(widths) = read_widths(alloc, list)? else {
        return Err(CommandError::Usage(refusal_text(alloc, list)?));
    };
    Ok(Command::Verify {
        rules: text_of(found, "rules"),
        options: VerifyOptions {
            widths,
            conflicts: number_of(found, "conflicts"),
            logs: flag_of(found, "logs"),
        },
    })
}

/// The command `optimise`.
fn read_optimise<'a>(found: &ArgMatches<'a>) -> Command<'a>
    requires { HasOptimise (rows_of (found_of found.now)) }
    ensures says { SaysOf (Some (codes "optimise", rows_of (found_of found.now))) result }
    ensures limits { IsWithinLimits result }
{
    Command::Optimise {
        rules: text_of(found, "rules"),
        module: text_of(found, "module"),
        logs: optional_text_of(found, "logs"),
        options: OptimiseOptions {
            conflicts: number_of(found, "conflicts"),
            steps: number_of(found, "steps"),
            fold: flag_of(found, "fold"),
            across: flag_of(found, "across"),
        },
    }
}

/// The command `run`.
fn read_run<'a>(alloc: Global, found: &ArgMatches<'a>) -> Result<Command<'a>, AllocError>
    requires { HasRun (rows_of (found_of found.now)) }
    ensures says { IfOk result (SaysOf (Some (codes "run", rows_of (found_of found.now)))) }
    ensures limits { IfOk result IsWithinLimits }
{
    Ok(Command::Run {
        module: text_of(found, "module"),
        name: text_of(found, "name"),
        arguments: texts_of(alloc, found, "arguments")?,
        options: RunOptions {
            blocks: number_of(found, "blocks"),
        },
    })
}

/// The command `load`.
fn read_load<'a>(found: &ArgMatches<'a>) -> Command<'a>
    requires { HasLoad (rows_of (found_of found.now)) }
    ensures says { SaysOf (Some (codes "load", rows_of (found_of found.now))) result }
    ensures limits { IsWithinLimits result }
{
    Command::Load {
        number: number_of(found, "number"),
    }
}

/// The command `recheck`.
fn read_recheck<'a>(found: &ArgMatches<'a>) -> Command<'a>
    requires { HasRecheck (rows_of (found_of found.now)) }
    ensures says { SaysOf (Some (codes "recheck", rows_of (found_of found.now))) result }
    ensures limits { IsWithinLimits result }
{
    Command::Recheck {
        rules: text_of(found, "rules"),
        logs: text_of(found, "logs"),
        options: RecheckOptions {
            conflicts: number_of(found, "conflicts"),
        },
    }
}

/// The name of the command, and what `clap` took for its arguments.
fn named<'a, 'm>(matches: &'m ArgMatches<'a>) -> (&'a str, &'m ArgMatches<'a>)
    requires { is_some (subcommand_rows_of matches.now) ≡ true }
    ensures { subcommand_rows_of matches.now ≡ Some (result.0.now, rows_of (found_of result.1.now)) }
{
    matches.subcommand().unwrap()
}

/// The command of this name.
fn read_named<'a>(
    alloc: Global,
    name: &str,
    found: &ArgMatches<'a>,
) -> Result<Command<'a>, CommandError>
    requires { IsKnown (name.now, rows_of (found_of found.now)) }
    ensures says { IfOk result (SaysOf (Some (name.now, rows_of (found_of found.now)))) }
    ensures limits { IfOk result IsWithinLimits }
    ensures refusal { IfErr result (RefusesGiven (name.now, rows_of (found_of found.now))) }
{
    if name == "verify" {
        read_verify(alloc, found)
    } else if name == "optimise" {
        Ok(read_optimise(found))
    } else if name == "run" {
        Ok(read_run(alloc, found)?)
    } else if name == "load" {
        Ok(read_load(found))
    } else {
        Ok(read_recheck(found))
    }
}

/// Reads the command that the words say; the first word is the program's own name.
///
/// `Usage` has `clap`'s text where that doesn't take the words, and else names the list of widths, which is malformed.
pub fn read_command<'a>(alloc: Global, words: &'a [String]) -> Result<Command<'a>, CommandError>
    ensures taken { OnOk result (are_taken (map string_bytes words.entry.now) ≡ true) }
    ensures says { IfOk result (Says (map string_bytes words.entry.now)) }
    ensures limits { IfOk result IsWithinLimits }
    ensures usage { IfErr result (IsUsageOf (map string_bytes words.entry.now)) }
    ensures refusal { (list : List ℕ) → are_taken (map string_bytes words.entry.now) ≡ true
        → HasBadList (map string_bytes words.entry.now) list
        → IsErrAnd result (IsRefusalOf list) }
{
    let matches = parse(alloc, words)?;
    let (name, found) = named(&matches);
    read_named(alloc, name, found)
}
