//! The errors of the check.

use ir_core::Register;
use std::alloc::AllocError;

/// Why the registers of a function are not known to be assigned wherever they are read.
#[derive(Drop)]
pub enum FlowError {
    /// A register is read where it isn't assigned. This is the first such read: all operands before it are assigned.
    Unassigned {
        register: Register,
        /// The block of the instruction or the terminator whose operand it is.
        block: u32,
        /// The place of that instruction; the terminator's is the number of instructions.
        place: u32,
        /// Which operand it is, counted from 0; of a `phi`, which entry.
        operand: u32,
    },
    /// There was no memory for the check.
    NoMemory,
}

impl From<AllocError> for FlowError {
    ghost use Rattle.std.specs.Prelude.{◌≡◌};
    ghost use Rattle.assigned_flow.specs.declared.error.FlowError.TheVariants.{NoMemory};

    ghost from_gives = { λ _ e. e ≡ NoMemory };

    fn from(_error: AllocError) -> FlowError {
        FlowError::NoMemory
    }
}
