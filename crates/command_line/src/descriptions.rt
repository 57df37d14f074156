//! Descriptions of the commands and of their arguments, from which the definition is built.

/// The greatest value of `--conflicts`.
const MOST_CONFLICTS: u64 = 1_000_000;

/// The greatest value of `--steps`.
const MOST_STEPS: u64 = 100_000;

/// The greatest value of `--blocks`.
const MOST_BLOCKS: u64 = 100_000_000;

/// The greatest NUMBER of `load`.
const MOST_NUMBER: u64 = 4_294_967_295;

/// The default of `--conflicts`: how many clauses a search learns before its verdict is `budget`.
pub const DEFAULT_CONFLICTS: u32 = 20_000;

/// The default of `--steps`: the most rewrites of a function.
pub const DEFAULT_STEPS: u32 = 10_000;

/// Kinds of arguments, with how a value is shown in the help.
#[derive(Clone, Copy)]
pub(crate) enum Kind {
    /// A positional argument that has to be given.
    Required {
        shown: &'static str,
    },
    /// A positional argument that has to be given, a number from 0 to `most`.
    RequiredNumber {
        shown: &'static str,
        most: u64,
    },
    /// All further positional arguments, of which there may be none.
    Repeated {
        shown: &'static str,
    },
    /// An option with a value, which may be left out.
    Optional {
        shown: &'static str,
    },
    /// An option with a value, and its default.
    Defaulted {
        shown: &'static str,
        default: &'static str,
    },
    /// An option with a number from 0 to `most`, and its default.
    Number {
        most: u64,
        default: &'static str,
    },
    /// A flag.
    Flag,
}

/// The description of an argument.
#[derive(Clone, Copy)]
pub(crate) struct Argument {
    pub(crate) name: &'static str,
    pub(crate) kind: Kind,
    pub(crate) help: &'static str,
}

/// The description of a command.
#[derive(Clone, Copy)]
pub(crate) struct Described<'a> {
    pub(crate) name: &'static str,
    pub(crate) about: &'static str,
    /// Its arguments, in order.
    pub(crate) arguments: &'a [Argument],
}

const RULES: Argument = Argument {
    name: "rules",
    kind: Kind::Required { shown: "RULES" },
    help: "The file of rules",
};

const MODULE: Argument = Argument {
    name: "module",
    kind: Kind::Required { shown: "MODULE" },
    help: "The file of the module",
};

const WIDTHS: Argument = Argument {
    name: "widths",
    kind: Kind::Defaulted {
        shown: "LIST",
        default: "1-8,16,32,64",
    },
    help: "The widths that types may have, as 1-8,16",
};

const CONFLICTS: Argument = Argument {
    name: "conflicts",
    kind: Kind::Number {
        most: MOST_CONFLICTS,
        default: "20000",
    },
    help: "How many clauses a search learns before it ends as budget; with at most 12 bits of input it may learn more",
};

const STEPS: Argument = Argument {
    name: "steps",
    kind: Kind::Number {
        most: MOST_STEPS,
        default: "10000",
    },
    help: "The most rewrites of a function",
};

const NAME: Argument = Argument {
    name: "name",
    kind: Kind::Required { shown: "NAME" },
    help: "The name of the function, without its @",
};

const ARGUMENTS: Argument = Argument {
    name: "arguments",
    kind: Kind::Repeated { shown: "ARG" },
    help: "The function's arguments",
};

const BLOCKS: Argument = Argument {
    name: "blocks",
    kind: Kind::Number {
        most: MOST_BLOCKS,
        default: "1000000",
    },
    help: "The most blocks that are entered",
};

const NUMBER: Argument = Argument {
    name: "number",
    kind: Kind::RequiredNumber {
        shown: "NUMBER",
        most: MOST_NUMBER,
    },
    help: "The number that the module is made of",
};

/// `--logs` of `verify`: proofs are written.
const LOGS_FLAG: Argument = Argument {
    name: "logs",
    kind: Kind::Flag,
    help: "Writes proofs in place of verdicts",
};

/// `--logs` of `optimise`: proofs are tried before searches.
const LOGS_OPTION: Argument = Argument {
    name: "logs",
    kind: Kind::Optional { shown: "LOGS" },
    help: "The file of proofs that are asked before a search",
};

const FOLD: Argument = Argument {
    name: "fold",
    kind: Kind::Flag,
    help: "Fold branches on numbers, and empty blocks that are not reached",
};

const ACROSS: Argument = Argument {
    name: "across",
    kind: Kind::Flag,
    help: "Match what stands in several blocks",
};

/// LOGS of `recheck`.
const LOGS: Argument = Argument {
    name: "logs",
    kind: Kind::Required { shown: "LOGS" },
    help: "The file of proofs",
};

/// The commands:
///
/// - `verify RULES [--widths LIST] [--conflicts N] [--logs]`
/// - `optimise RULES MODULE [--conflicts N] [--steps N] [--logs LOGS] [--fold] [--across]`
/// - `run [--blocks N] MODULE NAME [ARG..]`
/// - `load NUMBER`
/// - `recheck RULES LOGS [--conflicts N]`
pub(crate) static COMMANDS: [Described<'static>; 5] = [
    Described {
        name: "verify",
        about: "Decides each rule of a file",
        arguments: &[RULES, WIDTHS, CONFLICTS, LOGS_FLAG],
    },
    Described {
        name: "optimise",
        about: "Rewrites a module by the rules of a file",
        arguments: &[RULES, MODULE, CONFLICTS, STEPS, LOGS_OPTION, FOLD, ACROSS],
    },
    Described {
        name: "run",
        about: "Runs a function of a module",
        arguments: &[MODULE, NAME, ARGUMENTS, BLOCKS],
    },
    Described {
        name: "load",
        about: "Optimises a generated module by built-in rules",
        arguments: &[NUMBER],
    },
    Described {
        name: "recheck",
        about: "Decides what the proofs in a file are of, by their logs",
        arguments: &[RULES, LOGS, CONFLICTS],
    },
];
