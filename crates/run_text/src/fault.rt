//! Why nothing was run.

ghost use Rattle.std.specs.Prelude.{◌≡◌};
ghost use Rattle.run_text.specs.RunFaults.{of_text};

use ir_reader::{IrError, IrFault};
use refusal::Refusal;

/// Why a function can't be run.
#[derive(Drop)]
pub enum RunFault {
    /// The text is no module.
    Module(IrFault),
    /// The module has no function of the name, or the arguments do not fit its parameters.
    Argument,
}

/// Why a function was not run.
pub type RunError = Refusal<RunFault>;

/// The refusal of a module's text as that of a run.
pub(crate) fn of_text(error: IrError) -> RunError
    ensures { result ≡ of_text error }
{
    match error {
        Refusal::Refused(fault) => Refusal::Refused(RunFault::Module(fault)),
        Refusal::NoMemory => Refusal::NoMemory,
    }
}
