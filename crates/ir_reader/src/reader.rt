//! Reading the text of a module.

ghost use Rattle.std.specs.Prelude.{◌≡◌, ◌≤◌, ℕ, [], ◌∷◌, ◌++◌, List as Seq, length, Ok, IfOk, OnOk, IfErr};
ghost use Rattle.ir_core.specs.Checks.{ModuleMeetsChecks};
ghost use Rattle.ir_parse.specs.ModuleReaders.{entry_at};
ghost use Rattle.ir_parse.specs.Text.{most_bytes, IsTextFault};
ghost use Rattle.ir_tokens.specs.SeenTokens.{seen};
ghost use Rattle.ir_tokens.specs.declared.raw.RawEntry.{RawEntry as entry_written};
ghost use Rattle.ir_tokens.specs.declared.raw.RawFunction.{RawFunction as written_function};
ghost use Rattle.refusal.specs.Refusals.{Fails, IfRefused};
ghost use Rattle.ir_reader.specs.RepeatedNames.{MarksEntry};
ghost use Rattle.ir_reader.specs.WellWritten.{IsWellWrittenEntry};
ghost use Rattle.ir_reader.specs.EntriesRead.{HasLeft, IsReadingOf, Continues, IsReadingOfText};
ghost use Rattle.ir_reader.specs.Faults.{IsEntryOf, IsFaultOfEntry, IsModuleText, IsFault};

use crate::following::{ends, take_rest, whole_entry};
use crate::function::function;
use crate::reading::Reading;
use crate::text::text;
use ir_core::{Entry, Module};
use ir_parse::{MOST_BYTES, entry as written_entry};
use ir_tokens::{IrError, IrFaultKind, Placed, RawEntry, TokenReader};
use refusal::refused;
use std::alloc::{AllocError, Global};

/// The module of a text, or the text's first fault: its length, then the first token that does not fit, and then
/// function by function the first kind of [`IrFaultKind`](crate::IrFaultKind) in their order that the function has, at
/// its first line.
///
/// The time is linear in the text's length, but for look-ups in tables of names, numbers and blocks, and but for
/// [`check_assigned`](assigned_flow::check_assigned), which states its worst case. A function of 2^32 blocks,
/// instructions of a block or entries of a `phi` is refused as for want of memory, and no text within the limit has
/// one.
pub fn read_module(alloc: Global, bytes: &[u8]) -> Result<Module, IrError>
    ensures ok { IfOk result (IsModuleText bytes.now) }
    ensures limit { OnOk result (length bytes.now ≤ most_bytes) }
    ensures refused { IfErr result (λ e. IfRefused e (IsFault bytes.now)) }
    ensures checks { IfOk result ModuleMeetsChecks }
{
    module_of(alloc, bytes)
}

/// The module of a text, or the text's first fault. A fault of an entry is kept while the rest of the text is parsed,
/// since a fault of the text as written comes before it.
fn module_of(alloc: Global, bytes: &[u8]) -> Result<Module, IrError>
    ensures ok { IfOk result (IsModuleText bytes.now) }
    ensures limit { OnOk result (length bytes.now ≤ most_bytes) }
    ensures refused { IfErr result (λ e. IfRefused e (IsFault bytes.now)) }
{
    if bytes.len() > MOST_BYTES {
        return Err(refused(1, IrFaultKind::TooLong));
    }
    let mut reading = Reading::new(alloc);
    push_entries(alloc, bytes, &mut reading)?;
    Ok(reading.module()?)
}

/// Parses and checks the entries of a text. The error is the first fault of the text as written.
fn push_entries(alloc: Global, bytes: &[u8], reading: &mut Reading) -> Result<(), IrError>
    requires limit { length bytes.now ≤ most_bytes }
    requires none { IsReadingOf [] reading.old }
    ensures ok { OnOk result (IsReadingOfText bytes.now reading.new) }
    ensures refused { IfErr result (λ e. IfRefused e (IsTextFault bytes.now)) }
{
    let mut tokens = Vec::new(alloc);
    first_entries(alloc, bytes, &mut tokens, reading)?;
    last_entries(alloc, tokens.as_slice(), reading)
}

/// Parses and checks entries from the start of a text one by one. Each is parsed from its own tokens, so that their
/// memory is used again for the next one. It stops at the last tokens of the text, or at tokens that are not exactly
/// one entry, and leaves all tokens from there on in `tokens`.
fn first_entries<'a>(
    alloc: Global,
    bytes: &'a [u8],
    tokens: &mut Vec<Placed<'a>>,
    reading: &mut Reading,
) -> Result<(), AllocError>
    requires { IsReadingOf [] reading.old }
    ensures { OnOk result ((front : Seq entry_written)
        × HasLeft bytes.now front (seen tokens.new.items) × IsReadingOf front reading.new) }
{
    let mut reader = TokenReader::new(bytes);
    loop {
        tokens.clear();
        let (behind, are_last) = reader.take_entry(tokens)?;
        if are_last {
            return Ok(());
        }
        if !push_whole(alloc, tokens.as_slice(), reading)? {
            return take_rest(behind, tokens);
        }
        reader = behind;
    }
}

/// Parses and checks these tokens as one entry, and says whether they are exactly one.
fn push_whole(
    alloc: Global,
    tokens: &[Placed<'_>],
    reading: &mut Reading,
) -> Result<bool, AllocError>
    ensures { IfOk result (λ is_whole. (front : Seq entry_written) →
        IsReadingOf front reading.old → Continues front (seen tokens.now) is_whole reading.new) }
{
    let Some(written) = whole_entry(alloc, tokens)? else {
        return Ok(false);
    };
    reading.push(alloc, written)?;
    Ok(true)
}

/// Parses and checks the entries that these last tokens of a text are. The error is the first fault of the text as
/// written.
fn last_entries(alloc: Global, tokens: &[Placed<'_>], reading: &mut Reading) -> Result<(), IrError>
    ensures ok { OnOk result ((text : Seq ℕ) (front : Seq entry_written) →
        HasLeft text front (seen tokens.now) → IsReadingOf front reading.old → IsReadingOfText text reading.new) }
    ensures refused { IfErr result (λ e. (text : Seq ℕ) (front : Seq entry_written) →
        HasLeft text front (seen tokens.now) → length text ≤ most_bytes → IfRefused e (IsTextFault text)) }
{
    let mut left = tokens;
    while !ends(left) {
        push_next(alloc, &mut left, reading)?;
    }
    Ok(())
}

/// Parses and checks the entry at the front of the tokens, which are then those behind it. The error is the fault of
/// the first token that does not fit.
fn push_next(
    alloc: Global,
    tokens: &mut &[Placed<'_>],
    reading: &mut Reading,
) -> Result<(), IrError>
    ensures ok { OnOk result ((entry : entry_written)
        × (entry_at (seen tokens.old.now) ≡ Ok (entry, seen tokens.new.now))
        × ((front : Seq entry_written) →
        IsReadingOf front reading.old → IsReadingOf (front ++ entry ∷ []) reading.new)) }
    ensures refused { IfErr result (λ e. Fails e (entry_at (seen tokens.old.now))) }
{
    let written = written_entry(alloc, tokens)?;
    reading.push(alloc, written)?;
    Ok(())
}

/// Resolves and checks an entry. The error is its first fault.
pub(crate) fn entry(alloc: Global, written: &RawEntry, is_repeated: bool) -> Result<Entry, IrError>
    requires { IsWellWrittenEntry written.now }
    ensures ok { IfOk result (λ entry. (earlier : Seq written_function) → MarksEntry is_repeated earlier written.now → IsEntryOf earlier written.now entry) }
    ensures refused { IfErr result (λ e. IfRefused e (λ fault. (earlier : Seq written_function) → MarksEntry is_repeated earlier written.now → IsFaultOfEntry earlier written.now fault)) }
{
    match written {
        RawEntry::Kept(kept) => Ok(Entry::Kept(text(alloc, kept)?)),
        RawEntry::Function(raw) => Ok(Entry::Function(function(alloc, raw, is_repeated)?)),
    }
}
