//! Printing the report on a module.

ghost use Rattle.std.specs.Prelude.{◌≡◌, ◌++◌, [], ◌∷◌, if◌then◌else◌, codes, List as Seq, IfOk, OnOk};
ghost use Rattle.ir_core.specs.declared.module.Entry.{Entry as any_entry};
ghost use Rattle.ir_text.specs.Report.{function_report, report_of};
ghost use Rattle.ir_printer.specs.Rest.{rest_of_report};

use crate::name::push_function_name;
use crate::number::push_decimal;
use ir_core::{Entry, Function, Module};
use std::alloc::{AllocError, Global};

/// The part of a function's line behind the count.
fn behind_count(is_limited: bool) -> &'static [u8]
    ensures { result.now ≡ codes " rewrites" ++ (if is_limited then codes ", limit" else []) ++ codes "\n" }
{
    if is_limited {
        b" rewrites, limit\n"
    } else {
        b" rewrites\n"
    }
}

/// Appends the line of a function.
#[tactic(auto, unfolding(ir_text::specs::Report::function_report))]
fn push_line(
    out: &mut Vec<u8>,
    function: &Function,
    rewrites: u32,
    is_limited: bool,
) -> Result<(), AllocError>
    ensures { OnOk result (out.new.items ≡ out.old.items ++ function_report function.now rewrites is_limited) }
{
    push_function_name(out, function.name.as_slice())?;
    out.extend_from_slice(b": ")?;
    push_decimal(out, u64::from(rewrites))?;
    out.extend_from_slice(behind_count(is_limited))
}

/// Appends the line of an entry, if it is a function, whose index among the functions this is. Returns the index of the
/// next function.
fn push_entry(
    out: &mut Vec<u8>,
    entry: &Entry,
    counts: &[u32],
    limited: &[bool],
    place: usize,
) -> Result<usize, AllocError>
    ensures { IfOk result (λ next. (es : Seq any_entry)
        → out.new.items ++ rest_of_report es counts.now limited.now next
        ≡ out.old.items ++ rest_of_report (entry.now ∷ es) counts.now limited.now place) }
{
    let Entry::Function(function) = entry else {
        return Ok(place);
    };
    let Some(rewrites) = counts.get(place).copied() else {
        return Ok(place);
    };
    let Some(is_limited) = limited.get(place).copied() else {
        return Ok(place);
    };
    push_line(out, function, rewrites, is_limited)?;
    Ok(place + 1)
}

/// The report on a module: a line for each function, with how often it was rewritten and whether it is limited.
///
/// The only error is want of memory.
pub fn print_report(
    alloc: Global,
    m: &Module,
    counts: &[u32],
    limited: &[bool],
) -> Result<Vec<u8>, AllocError>
    ensures { IfOk result (λ text. text.items ≡ report_of m.now counts.now limited.now) }
{
    let mut out = Vec::new(alloc);
    let mut place = 0;
    for entry in m.entries.as_slice() {
        place = push_entry(&mut out, entry, counts, limited, place)?;
    }
    Ok(out)
}
