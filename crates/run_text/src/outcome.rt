//! The line of an outcome.

ghost use Rattle.std.specs.Prelude.{◌≡◌, ◌++◌, IfOk, OnOk};
ghost use Rattle.run_text.specs.OutcomeText.{outcome_text, value_text};

use ir_core::Outcome;
use ir_printer::push_number;
use itoa::Buffer;
use ops::Value;
use std::alloc::{AllocError, Global};

/// Adds a value as a literal.
fn push_value(out: &mut Vec<u8>, value: Value) -> Result<(), AllocError>
    ensures { OnOk result (out.new.items ≡ out.old.items ++ value_text value) }
{
    match value {
        Value::Poison => {
            out.extend_from_slice(b"poison")?;
            Ok(())
        }
        Value::Bits(number) => push_number(out, number),
    }
}

/// The line of an outcome.
pub(crate) fn outcome_line(alloc: Global, outcome: Outcome) -> Result<Vec<u8>, AllocError>
    ensures { IfOk result (λ text. text.items ≡ outcome_text outcome) }
{
    let mut out = Vec::new(alloc);
    match outcome {
        Outcome::Return(value) => {
            out.extend_from_slice(b"return ")?;
            push_value(&mut out, value)?;
            out.push(b'\n')?;
        }
        Outcome::Undefined => out.extend_from_slice(b"undefined\n")?,
        Outcome::Running(block) => {
            let mut buffer = Buffer::new();
            out.extend_from_slice(b"running block ")?;
            out.extend_from_slice(buffer.format(block).as_bytes())?;
            out.push(b'\n')?;
        }
    }
    Ok(out)
}
