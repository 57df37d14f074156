//! Printing modules (LangRef, "Module Structure").

ghost use Rattle.std.specs.Prelude.{◌≡◌, ◌<◌, ◌++◌, length, IfOk, OnOk};
ghost use Rattle.ir_core.specs.Checks.{ModuleMeetsChecks};
ghost use Rattle.ir_text.specs.Forms.{ModuleHasForms};
ghost use Rattle.ir_reader.specs.Faults.{IsModuleText};
ghost use Rattle.ir_text.specs.Laws.{HasFewThings};
ghost use Rattle.ir_text.specs.PrintedText.{function_text, entry_text, between_text, text_of};
ghost use Rattle.ir_printer.specs.FewNames.{HasFewNames, EntryHasFewNames};
ghost use Rattle.ir_printer.specs.Gaps.{gap_before};

use crate::block::push_blocks;
use crate::header::push_header;
use crate::identifiers::{Identifiers, identifiers_in};
use ir_core::{Entry, Function, Module};
use std::alloc::{AllocError, Global};

/// Appends the lines of a function whose identifiers these are.
#[tactic(auto, unfolding(ir_text::specs::PrintedText::function_text))]
fn push_lines(out: &mut Vec<u8>, called: &Identifiers<'_>) -> Result<(), AllocError>
    ensures { OnOk result (out.new.items ≡ out.old.items ++ function_text called.now.function.now) }
{
    push_header(out, called)?;
    push_blocks(out, called, called.function.blocks.as_slice())?;
    out.extend_from_slice(b"}\n")
}

/// Appends the lines of a function.
fn push_function(alloc: Global, out: &mut Vec<u8>, function: &Function) -> Result<(), AllocError>
    ensures text { OnOk result (out.new.items ≡ out.old.items ++ function_text function.now) }
    ensures few { OnOk result (HasFewNames function.now) }
{
    let called = identifiers_in(alloc, function)?;
    push_lines(out, &called)
}

/// Appends the lines of an entry.
#[tactic(auto, unfolding(ir_text::specs::PrintedText::entry_text))]
fn push_entry(alloc: Global, out: &mut Vec<u8>, entry: &Entry) -> Result<(), AllocError>
    ensures text { OnOk result (out.new.items ≡ out.old.items ++ entry_text entry.now) }
    ensures few { OnOk result (EntryHasFewNames entry.now) }
{
    match entry {
        Entry::Kept(line) => {
            out.extend_from_slice(line.as_slice())?;
            out.extend_from_slice(b"\n")
        }
        Entry::Function(function) => push_function(alloc, out, function),
    }
}

/// Appends what is printed between two entries.
#[tactic(auto, unfolding(ir_text::specs::PrintedText::between_text))]
fn push_between(out: &mut Vec<u8>, entry: &Entry, next: &Entry) -> Result<(), AllocError>
    ensures { OnOk result (out.new.items ≡ out.old.items ++ between_text entry.now next.now) }
{
    match (entry, next) {
        (Entry::Kept(_), Entry::Kept(_)) => Ok(()),
        _ => out.extend_from_slice(b"\n"),
    }
}

/// Appends what is printed between the entry at an index and the one before it, if there is one.
fn push_gap(out: &mut Vec<u8>, entries: &[Entry], place: usize) -> Result<(), AllocError>
    requires { place < length entries.now }
    ensures { OnOk result (out.new.items ≡ out.old.items ++ gap_before entries.now place) }
{
    match place.checked_sub(1) {
        Some(before) => push_between(out, &entries[before], &entries[place]),
        None => Ok(()),
    }
}

/// The text of a module: its entries in order, with an empty line between two of which one is a function. However long,
/// it is the text of that module, if the module meets its checks and its parts have the forms of what is read.
///
/// The only error is want of memory.
pub fn print_module(alloc: Global, m: &Module) -> Result<Vec<u8>, AllocError>
    ensures text { IfOk result (λ text. text.items ≡ text_of m.now) }
    ensures few { OnOk result (HasFewThings m.now) }
    ensures reads { IfOk result (λ text. ModuleHasForms m.now → ModuleMeetsChecks m.now
        → IsModuleText text.items m.now) }
{
    ir_round_trip::printed_texts_read();
    let entries = m.entries.as_slice();
    let mut out = Vec::new(alloc);
    for (place, entry) in entries.iter().enumerate() {
        push_gap(&mut out, entries, place)?;
        push_entry(alloc, &mut out, entry)?;
    }
    Ok(out)
}
