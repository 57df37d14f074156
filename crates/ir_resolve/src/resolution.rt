//! Resolving a function as written.

ghost use Rattle.std.specs.Prelude.{◌≡◌, ℕ, None, List as Seq, IfOk, OnOk, IfErr};
ghost use Rattle.ir_tokens.specs.declared.raw.RawFunction.{RawFunction as written_function};
ghost use Rattle.ir_resolve.specs.FirstLines.{IsFirst};
ghost use Rattle.ir_resolve.specs.Written.{written_names};
ghost use Rattle.ir_resolve.specs.Means.{Means};
ghost use Rattle.ir_resolve.specs.FaultKinds.{Repeats, HasName, IsWrittenOn, NumberingAt, DuplicateAt, UnknownAt, TypeClashAt};
ghost use Rattle.ir_resolve.specs.Views.{known_by};
ghost use Rattle.ir_resolve.specs.NameTable.{Tabulates, IsFaultOfUses};
ghost use Rattle.ir_resolve.specs.Formed.{IsWellWritten, IsWellNamed};
ghost use Rattle.ir_resolve.specs.Faults.{HasNoFault, IsFirstNameFault, MarksFunction};
ghost use Rattle.refusal.specs.Refusals.{IfRefused};

use crate::building::build;
use crate::cases::repeated_case;
use crate::least::lesser;
use crate::names::{Names, definitions, keys, misnumbered, names};
use crate::types::{block_clash, read_clash};
use crate::unknown::unknown;
use crate::uses::Uses;
use ir_core::Function;
use ir_tokens::{IrError, IrFaultKind, RawFunction};
use refusal::refused;
use std::alloc::{AllocError, Global};

/// The first line of a duplicate: the function's name if an earlier function has it, a name of a register or a block,
/// or the number of a case. `repeated_name` is the first line for registers and blocks.
fn duplicate(
    alloc: Global,
    raw: &RawFunction,
    is_repeated: bool,
    repeated_name: Option<usize>,
) -> Result<Option<usize>, AllocError>
    requires { IsFirst (Repeats HasName IsWrittenOn (written_names raw.now)) repeated_name }
    ensures first { IfOk result (λ found. (earlier : Seq written_function) →
        MarksFunction is_repeated earlier raw.now → IsFirst (DuplicateAt earlier raw.now) found) }
    ensures none { IfOk result (λ found. found ≡ None → repeated_name ≡ None) }
{
    let repeated_function = is_repeated.then_some(raw.line);
    let repeated_case = repeated_case(alloc, raw.blocks.as_slice())?;
    Ok(lesser(repeated_function, lesser(repeated_name, repeated_case)))
}

/// The symbol table of a function, or its first fault of the kinds `Numbering` and `Duplicate`.
fn named(alloc: Global, raw: &RawFunction, is_repeated: bool) -> Result<Names<'_>, IrError>
    ensures table { IfOk result (λ names. Tabulates raw.now (known_by names)) }
    ensures numbered { OnOk result ((line : ℕ) → ¬ NumberingAt raw.now line) }
    ensures once { OnOk result ((earlier : Seq written_function) →
        MarksFunction is_repeated earlier raw.now → (line : ℕ) → ¬ DuplicateAt earlier raw.now line) }
    ensures refused { IfErr result (λ e. IfRefused e (λ fault. (earlier : Seq written_function) →
        MarksFunction is_repeated earlier raw.now → IsFirstNameFault earlier raw.now fault)) }
{
    let definitions = definitions(alloc, raw)?;
    let keys = keys(alloc, definitions.as_slice())?;
    if let Some(line) = misnumbered(definitions.as_slice(), keys.as_slice()) {
        return Err(refused(line, IrFaultKind::Numbering));
    }
    let (names, repeated_name) = names(alloc, definitions.as_slice(), keys.as_slice())?;
    match duplicate(alloc, raw, is_repeated, repeated_name)? {
        Some(line) => Err(refused(line, IrFaultKind::Duplicate)),
        None => Ok(names),
    }
}

/// Checks that the registers and blocks that are used are defined, and that types are as written.
fn check_uses(alloc: Global, names: &Names<'_>, raw: &RawFunction) -> Result<(), IrError>
    requires { Tabulates raw.now (known_by names.now) }
    ensures known { OnOk result ((line : ℕ) → ¬ UnknownAt raw.now line) }
    ensures typed { OnOk result ((line : ℕ) → ¬ TypeClashAt raw.now line) }
    ensures refused { IfErr result (λ e. IfRefused e (IsFaultOfUses raw.now)) }
{
    let uses = Uses::of(alloc, raw)?;
    if let Some(line) = unknown(names, &uses) {
        return Err(refused(line, IrFaultKind::Unknown));
    }
    let clash = lesser(
        read_clash(names, uses.reads.as_slice()),
        block_clash(raw.width, raw.blocks.as_slice()),
    );
    match clash {
        Some(line) => Err(refused(line, IrFaultKind::TypeClash)),
        None => Ok(()),
    }
}

/// The function that the syntax tree means, whose registers and blocks are identified by index, or the first fault: of
/// the first kind in the order of [`IrFaultKind`] that the function has, at the least line (LLVM Language Reference,
/// "Identifiers", and the types that each instruction asks for). The caller says whether an earlier function of the
/// module has the function's name.
///
/// Time and memory are linear in the function's size, but for look-ups in hash tables.
pub fn resolve(alloc: Global, raw: &RawFunction, is_repeated: bool) -> Result<Function, IrError>
    ensures means { IfOk result (Means raw.now) }
    ensures faultless { OnOk result ((earlier : Seq written_function) →
        MarksFunction is_repeated earlier raw.now → HasNoFault earlier raw.now) }
    ensures refused { IfErr result (λ e. IfRefused e (λ fault. (earlier : Seq written_function) →
        MarksFunction is_repeated earlier raw.now → IsFirstNameFault earlier raw.now fault)) }

    // If the grammar spells what is read, the function meets these checks.
    ensures formed { IfOk result (λ f. IsWellWritten raw.now → IsWellNamed f) }
{
    let names = named(alloc, raw, is_repeated)?;
    check_uses(alloc, &names, raw)?;
    Ok(build(alloc, &names, raw)?)
}
