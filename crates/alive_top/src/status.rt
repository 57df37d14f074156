//! How a call ends.

ghost use Rattle.std.specs.Prelude.{◌≡◌};
ghost use Rattle.alive_top.specs.Statuses.{code_of};

use stored_logs::Refutations;
use verdict_core::Table;

/// The status of a command.
#[derive(Clone, Copy, PartialEq, Eq)]
pub enum Status {
    /// The work was done and written.
    Done,
    /// The work was done and written, and a verdict isn't admitted, or a rule has too many typings.
    NotAll,
    /// The words are not those of a command.
    Usage,
    /// The rule file was read, and its bytes are no rule file, or more than 1 MiB.
    RuleRefused,
    /// The module was read, and its bytes are no module, or more than 16 MiB.
    ModuleRefused,
    /// A file could not be read.
    ReadFault,
    /// The work was done, and could not be written whole.
    WriteFault,
    /// There was no memory for the work.
    NoMemory,
    /// The module has no function of the name, or the arguments do not fit its parameters.
    Argument,
    /// The proofs were read, and are none of the rules, or more than 64 MiB.
    LogRefused,
}

impl Status {
    /// The exit status of the program.
    pub fn code(self) -> u8
        ensures { result ≡ code_of self }
    {
        match self {
            Status::Done => 0,
            Status::NotAll => 1,
            Status::Usage => 2,
            Status::RuleRefused => 3,
            Status::ModuleRefused => 4,
            Status::ReadFault => 5,
            Status::WriteFault => 6,
            Status::NoMemory => 7,
            Status::Argument => 8,
            Status::LogRefused => 9,
        }
    }
}

/// What a call gives beside what it wrote.
#[derive(Drop)]
pub struct Ended {
    pub status: Status,
    /// The verdicts that were decided, where the work was done: under `verify` and `recheck` in the order of rules and
    /// typings or of proofs, and under `optimise` and `load` in the order in which they were first asked for.
    pub table: Table,
    /// Under `verify --logs`, where the work was done, a refutation for each verdict that is `Admitted`, in order.
    pub proofs: Refutations,
}
