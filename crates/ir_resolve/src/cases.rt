//! Cases of one switch with the same number.

ghost use Rattle.std.specs.Prelude.{◌≡◌, ◌↔◌, ◌⊎◌, ℕ, IsTrue, IfOk, OnOk, nat_eq};
ghost use Rattle.indexmap.specs.IndexSet.{contains};
ghost use Rattle.ir_resolve.specs.FirstLines.{IsFirst, SomeAt};
ghost use Rattle.ir_resolve.specs.TypedReads.{cases_of};
ghost use Rattle.ir_resolve.specs.FaultKinds.{Repeats, HasNumber, IsCaseOn};

use crate::least::lesser;
use crate::literal::literal;
use indexmap::IndexSet;
use ir_tokens::{RawBlock, RawCase, RawTerminator};
use std::alloc::{AllocError, Global};

/// The cases of a terminator.
fn cases(end: &RawTerminator) -> &[RawCase]
    ensures { result.now ≡ cases_of end.now }
{
    match end {
        RawTerminator::Switch(_, _, _, cases) => cases.as_slice(),
        RawTerminator::Return(_, _)
        | RawTerminator::Unreachable
        | RawTerminator::Jump(_)
        | RawTerminator::Branch(_, _, _, _) => &[],
    }
}

/// The line of a case, if its number is among these; the number is added to them.
fn repeated(numbers: &mut IndexSet<u64>, case: &RawCase) -> Result<Option<usize>, AllocError>
    ensures line { IfOk result (IsFirst (λ at. (k : ℕ)
        × HasNumber case.now k × IsTrue (contains nat_eq numbers.old k) × IsCaseOn case.now at)) }
    ensures numbers { OnOk result ((k : ℕ) →
        IsTrue (contains nat_eq numbers.new k)
        ↔ (IsTrue (contains nat_eq numbers.old k) ⊎ HasNumber case.now k)) }
{
    let Some(word) = literal(&case.value.value) else {
        return Ok(None);
    };
    let is_new = numbers.insert(word.number())?;
    Ok((!is_new).then_some(case.value.line))
}

/// The first line of a case that has the number of an earlier one.
fn repeated_in(alloc: Global, cases: &[RawCase]) -> Result<Option<usize>, AllocError>
    ensures { IfOk result (IsFirst (Repeats HasNumber IsCaseOn cases.now)) }
{
    let mut numbers = IndexSet::new(alloc);
    let mut found = None;
    for case in cases {
        found = lesser(found, repeated(&mut numbers, case)?);
    }
    Ok(found)
}

/// The first line of a case that has the number of an earlier case of its switch.
pub(crate) fn repeated_case(alloc: Global, blocks: &[RawBlock]) -> Result<Option<usize>, AllocError>
    ensures { IfOk result (IsFirst (SomeAt blocks.now
        (λ block. Repeats HasNumber IsCaseOn (cases_of block.end)))) }
{
    let mut found = None;
    for block in blocks {
        found = lesser(found, repeated_in(alloc, cases(&block.end))?);
    }
    Ok(found)
}
