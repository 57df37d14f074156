//! Commands, and why words are none.

use lists::List;
use ops::Width;
use std::alloc::AllocError;

/// A command, with the names of its files as they stand among the words.
#[derive(Drop)]
pub enum Command<'a> {
    /// Decides each rule of a file.
    Verify {
        rules: &'a str,
        options: VerifyOptions,
    },
    /// Rewrites a module by the rules of a file.
    Optimise {
        rules: &'a str,
        module: &'a str,
        /// A file of proofs, which are tried before a search.
        logs: Option<&'a str>,
        options: OptimiseOptions,
    },
    /// Runs the function of this name, given without its `@`, on these arguments.
    Run {
        module: &'a str,
        name: &'a str,
        /// The words behind the name, in order.
        arguments: List<&'a str>,
        options: RunOptions,
    },
    /// Optimises the module that is generated from a number, by the built-in rules.
    Load {
        number: u32,
    },
    /// Decides the rules that the proofs in a file are of, by their logs.
    Recheck {
        rules: &'a str,
        logs: &'a str,
        options: RecheckOptions,
    },
}

/// The options of `verify`.
#[derive(Drop)]
pub struct VerifyOptions {
    /// The widths that types may have, in ascending order and each once.
    pub widths: List<Width>,
    /// How many clauses a search learns before its verdict is `budget`; with at most 12 bits of input it is never that.
    pub conflicts: u32,
    /// Whether proofs are to be written in place of verdicts.
    pub logs: bool,
}

/// The options of `optimise`.
#[derive(Clone, Copy)]
pub struct OptimiseOptions {
    /// How many clauses a search learns before its verdict is `budget`; with at most 12 bits of input it is never that.
    pub conflicts: u32,
    /// The most rewrites of a function.
    pub steps: u32,
    /// Whether branches on numbers are folded.
    pub fold: bool,
    /// Whether what a rule matches may stand in several blocks.
    pub across: bool,
}

/// The options of `run`.
#[derive(Clone, Copy)]
pub struct RunOptions {
    /// The most blocks that a run may enter.
    pub blocks: u32,
}

/// The options of `recheck`.
#[derive(Clone, Copy)]
pub struct RecheckOptions {
    /// How many clauses a search learns before its verdict is `budget`; with at most 12 bits of input it is never that.
    pub conflicts: u32,
}

/// Why words are no command.
#[derive(Drop)]
pub enum CommandError {
    /// The words are no command, or ask for help or the version: the text for the error stream.
    Usage(Vec<u8>),
    /// There was no memory.
    NoMemory,
}

impl From<AllocError> for CommandError {
    ghost use Rattle.std.specs.Prelude.{◌≡◌};
    ghost use Rattle.command_line.specs.declared.command.CommandError.TheVariants.{NoMemory};

    ghost from_gives = { λ _ error. error ≡ NoMemory };

    fn from(_error: AllocError) -> CommandError {
        CommandError::NoMemory
    }
}
