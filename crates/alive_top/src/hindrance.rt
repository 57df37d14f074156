//! Why a command's work was not done.

ghost use Rattle.std.specs.Prelude.{◌≡◌};
ghost use Rattle.alive_top.specs.declared.hindrance.Hindrance.TheVariants.{Memory};

use ir_reader::IrFault;
use rule_reader::RuleFault;
use std::alloc::AllocError;
use stored_logs::LogFault;

/// Why the work was not done.
#[derive(Drop)]
pub(crate) enum Hindrance<'a> {
    /// The rule file is not one.
    Rules(RuleFault),
    /// The module is not one.
    Module(IrFault),
    /// The module has no function of the name, or the arguments do not fit it.
    Argument,
    /// The proofs have a fault, given the rules.
    Logs(LogFault),
    /// The file of this name could not be read.
    Read(&'a str),
    /// There was no memory.
    Memory,
}

impl From<AllocError> for Hindrance<'_> {
    ghost from_gives = { λ _ e. e ≡ Memory };

    fn from(_error: AllocError) -> Self {
        Hindrance::Memory
    }
}
