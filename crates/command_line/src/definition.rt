//! The definition of the command line for `clap`.

ghost use Rattle.std.specs.Prelude.{◌≡◌, true, false, IfOk};
ghost use Rattle.std.specs.List.{AllZip};
ghost use Rattle.clap.specs.Words.{app_of, rule_of};
ghost use Rattle.clap.specs.Simple.{new_shape};
ghost use Rattle.command_line.specs.Definition.{required_argument, required_number, repeated_argument, optional_argument, option_argument, number_argument, flag_argument, program};
ghost use Rattle.command_line.specs.Descriptions.{rule_described, shape_described, app_described, IsDescribedArgument};
ghost use Rattle.command_line.specs.Leaf.{IsLeaf};

use crate::descriptions::{Argument, COMMANDS, Described, Kind};
use clap::builder::ValueParser;
use clap::{Arg, ArgAction, Command};
use lists::List;
use std::alloc::{AllocError, Global};

/// A positional argument that has to be given.
fn required_argument<'a>(alloc: Global, name: &'a str, shown: &'a str, help: &'a str) -> Arg<'a>
    ensures rule { rule_of result ≡ required_argument name.entry.now }
    ensures local { result.global ≡ false }
{
    Arg::new(alloc, name)
        .value_name(shown)
        .help(help)
        .required(true)
}

/// A positional argument that has to be given, a number from 0 to `most`.
fn required_number<'a>(
    alloc: Global,
    name: &'a str,
    shown: &'a str,
    most: u64,
    help: &'a str,
) -> Arg<'a>
    ensures rule { rule_of result ≡ required_number name.entry.now most }
    ensures local { result.global ≡ false }
{
    required_argument(alloc, name, shown, help).value_parser(ValueParser::unsigned(0, most))
}

/// All further positional arguments, of which there may be none.
fn repeated_argument<'a>(alloc: Global, name: &'a str, shown: &'a str, help: &'a str) -> Arg<'a>
    ensures rule { rule_of result ≡ repeated_argument name.entry.now }
    ensures local { result.global ≡ false }
{
    Arg::new(alloc, name)
        .value_name(shown)
        .help(help)
        .action(ArgAction::Append)
}

/// An option with a value, which may be left out.
fn optional_argument<'a>(alloc: Global, name: &'a str, shown: &'a str, help: &'a str) -> Arg<'a>
    ensures rule { rule_of result ≡ optional_argument name.entry.now }
    ensures local { result.global ≡ false }
{
    Arg::new(alloc, name)
        .long(name)
        .value_name(shown)
        .help(help)
}

/// An option with a value, and its default.
fn option_argument<'a>(
    alloc: Global,
    name: &'a str,
    shown: &'a str,
    default: &'a str,
    help: &'a str,
) -> Arg<'a>
    ensures rule { rule_of result ≡ option_argument name.entry.now default.entry.now }
    ensures local { result.global ≡ false }
{
    optional_argument(alloc, name, shown, help).default_value(default)
}

/// An option with a number from 0 to `most`, and its default.
fn number_argument<'a>(
    alloc: Global,
    name: &'a str,
    most: u64,
    default: &'a str,
    help: &'a str,
) -> Arg<'a>
    ensures rule { rule_of result ≡ number_argument name.entry.now most default.entry.now }
    ensures local { result.global ≡ false }
{
    option_argument(alloc, name, "N", default, help).value_parser(ValueParser::unsigned(0, most))
}

/// A flag.
fn flag_argument<'a>(alloc: Global, name: &'a str, help: &'a str) -> Arg<'a>
    ensures rule { rule_of result ≡ flag_argument name.entry.now }
    ensures local { result.global ≡ false }
{
    Arg::new(alloc, name)
        .long(name)
        .help(help)
        .action(ArgAction::SetTrue)
}

/// The argument that is described.
fn described_argument<'a>(alloc: Global, described: &Argument) -> Arg<'a>
    ensures rule { rule_of result ≡ rule_described described.now }
    ensures local { result.global ≡ false }
{
    let name = described.name;
    let help = described.help;
    match described.kind {
        Kind::Required { shown } => required_argument(alloc, name, shown, help),
        Kind::RequiredNumber { shown, most } => required_number(alloc, name, shown, most, help),
        Kind::Repeated { shown } => repeated_argument(alloc, name, shown, help),
        Kind::Optional { shown } => optional_argument(alloc, name, shown, help),
        Kind::Defaulted { shown, default } => option_argument(alloc, name, shown, default, help),
        Kind::Number { most, default } => number_argument(alloc, name, most, default, help),
        Kind::Flag => flag_argument(alloc, name, help),
    }
}

/// The arguments that are described, in order.
fn described_arguments<'a>(
    alloc: Global,
    described: &[Argument],
) -> Result<List<Arg<'a>>, AllocError>
    ensures { IfOk result (AllZip IsDescribedArgument described.now) }
{
    let mut arguments = List::new(alloc);
    for argument in described {
        arguments.push(described_argument(alloc, argument))?;
    }
    Ok(arguments)
}

/// A command of this name, without arguments.
fn new_command<'a>(alloc: Global, name: &'a str, about: &'a str) -> Command<'a>
    ensures { IsLeaf (new_shape name.entry.now) result }
{
    Command::new(alloc, name).about(about)
}

/// The command that is described.
fn described_command<'a>(
    alloc: Global,
    described: &Described<'_>,
) -> Result<Command<'a>, AllocError>
    ensures { IfOk result (IsLeaf (shape_described described.entry.now)) }
{
    let arguments = described_arguments(alloc, described.arguments)?;
    new_command(alloc, described.name, described.about).args(arguments.into_vec())
}

/// The commands that are described, in order.
fn described_commands<'a>(
    alloc: Global,
    described: &[Described<'_>],
) -> Result<List<Command<'a>>, AllocError>
    ensures { IfOk result (AllZip (λ one. IsLeaf (shape_described one)) described.entry.now) }
{
    let mut commands = List::new(alloc);
    for one in described {
        commands.push(described_command(alloc, one)?)?;
    }
    Ok(commands)
}

/// The program without its commands; one command has to be given.
fn program_alone<'a>(alloc: Global) -> Command<'a>
    ensures { IsLeaf (record program.top { is_leaf = true }) result }
{
    new_command(
        alloc,
        "alive",
        "Verifies rewrite rules, optimises LLVM IR by them, and runs it",
    )
    .version("0.1.0")
    .subcommand_required(true)
    .disable_help_subcommand(true)
}

/// The program with the commands that are described.
fn described_program<'a>(
    alloc: Global,
    described: &[Described<'_>],
) -> Result<Command<'a>, AllocError>
    ensures { IfOk result (λ command. app_of command ≡ app_described described.entry.now) }
{
    let commands = described_commands(alloc, described)?;
    program_alone(alloc).subcommands(commands.into_vec())
}

/// The program with its commands.
pub(crate) fn definition<'a>(alloc: Global) -> Result<Command<'a>, AllocError>
    ensures { IfOk result (λ command. app_of command ≡ program) }
{
    described_program(alloc, &COMMANDS)
}
