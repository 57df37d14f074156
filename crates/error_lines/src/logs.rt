//! The line on a text of proofs.

ghost use Rattle.std.specs.Prelude.{◌≡◌, IfOk};
ghost use Rattle.error_lines.specs.Lines.{log_kind_text, logs_line};

use crate::place::push_place;
use proof_text::{LogFault, LogFaultKind};
use std::alloc::{AllocError, Global};

/// The name of a kind of fault.
#[tactic(auto, unfolding(crate::specs::Lines::log_kind_text))]
fn word_of(kind: &LogFaultKind) -> &[u8]
    ensures { result.now ≡ log_kind_text kind.now }
{
    match kind {
        LogFaultKind::TooLong => b"TooLong",
        LogFaultKind::BadByte => b"BadByte",
        LogFaultKind::Syntax => b"Syntax",
        LogFaultKind::UnknownRule => b"UnknownRule",
        LogFaultKind::BadTyping => b"BadTyping",
        LogFaultKind::Repeated => b"Repeated",
    }
}

/// The line on a text of proofs: the line and the kind of its first fault.
pub fn logs_line(alloc: Global, fault: &LogFault) -> Result<Vec<u8>, AllocError>
    ensures { IfOk result (λ line. line.items ≡ logs_line fault.now) }
{
    let mut line = Vec::new(alloc);
    push_place(&mut line, b"logs: line ", fault.line)?;
    line.extend_from_slice(word_of(&fault.kind))?;
    line.extend_from_slice(b"\n")?;
    Ok(line)
}
