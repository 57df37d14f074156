//! Uses of registers and blocks that the function does not define.

ghost use Rattle.std.specs.Prelude.{◌≡◌, ◌↔◌, map, IsTrue};
ghost use Rattle.ir_resolve.specs.FirstLines.{IsFirst, SomeAt};
ghost use Rattle.ir_resolve.specs.FaultKinds.{IsUnknownValue, IsUnknownBlock, UnknownIn};
ghost use Rattle.ir_resolve.specs.Views.{known_by, CallsIn};
ghost use Rattle.ir_resolve.specs.Uses.{seen_read, seen_reads, seen_targets};

use crate::least::lesser;
use crate::names::{Names, block, register};
use crate::uses::{Read, Uses};
use ir_tokens::{Identifier, RawIdentifier, RawValue};

/// Whether the value is a register that is not defined.
fn is_unknown(names: &Names<'_>, value: &RawValue) -> bool
    ensures { IsTrue result ↔ IsUnknownValue (CallsIn (known_by names.now)) value.now }
{
    match value {
        RawValue::Register(identifier) => register(names, identifier).is_none(),
        RawValue::Number(_)
        | RawValue::True
        | RawValue::False
        | RawValue::Undef
        | RawValue::Poison => false,
    }
}

/// Whether the identifier refers to no block.
fn is_unknown_block(names: &Names<'_>, identifier: &Identifier) -> bool
    ensures { IsTrue result ↔ IsUnknownBlock (CallsIn (known_by names.now)) identifier.now }
{
    block(names, identifier).is_none()
}

/// The first line on which a register is read that is not defined.
fn unknown_register(names: &Names<'_>, reads: &[Read<'_>]) -> Option<usize>
    ensures { IsFirst (SomeAt (map seen_read reads.now)
        (λ t at. IsUnknownValue (CallsIn (known_by names.now)) t.operand.value
        × (t.operand.line ≡ at))) result }
{
    let mut found = None;
    for read in reads {
        let is_unknown = is_unknown(names, &read.operand.value);
        found = lesser(found, is_unknown.then_some(read.operand.line));
    }
    found
}

/// The first line on which a block is named that is not defined.
fn unknown_block(names: &Names<'_>, targets: &[&RawIdentifier]) -> Option<usize>
    ensures { IsFirst (SomeAt (map (λ w. w.now) targets.now)
        (λ w at. IsUnknownBlock (CallsIn (known_by names.now)) w.identifier × (w.line ≡ at))) result }
{
    let mut found = None;
    for target in targets {
        let is_unknown = is_unknown_block(names, &target.identifier);
        found = lesser(found, is_unknown.then_some(target.line));
    }
    found
}

/// The first line on which a register or a block is used that is not defined.
pub(crate) fn unknown(names: &Names<'_>, uses: &Uses<'_>) -> Option<usize>
    ensures { IsFirst
        (UnknownIn (CallsIn (known_by names.now)) (seen_reads uses.now) (seen_targets uses.now)) result }
{
    lesser(
        unknown_register(names, uses.reads.as_slice()),
        unknown_block(names, uses.targets.as_slice()),
    )
}
