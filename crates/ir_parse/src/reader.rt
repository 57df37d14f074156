//! Parsing the text of a module.

ghost use Rattle.std.specs.Prelude.{◌≤◌, length, IfOk, OnOk, IfErr};
ghost use Rattle.refusal.specs.Refusals.{IfRefused};
ghost use Rattle.ir_parse.specs.Text.{most_bytes, IsRaw, IsTextFault};

use crate::entries::raw_module;
use ir_tokens::{IrError, IrFaultKind, RawModule, tokens_of};
use refusal::refused;
use std::alloc::Global;

/// How many bytes a text may have at most.
pub const MOST_BYTES: usize = 1 << 24;

/// Parses a text as a module as written, in time linear in its length. The error is the text's first fault.
pub fn parse(alloc: Global, bytes: &[u8]) -> Result<RawModule, IrError>
    ensures ok { IfOk result (λ m. IsRaw bytes.now m) }
    ensures limit { OnOk result (length bytes.now ≤ most_bytes) }
    ensures refused { IfErr result (λ e. IfRefused e (IsTextFault bytes.now)) }
{
    if bytes.len() > MOST_BYTES {
        return Err(refused(1, IrFaultKind::TooLong));
    }
    let tokens = tokens_of(alloc, bytes)?;
    raw_module(alloc, tokens.as_slice())
}
