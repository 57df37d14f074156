//! Building terminators.

ghost use Rattle.std.specs.Prelude.{◌≡◌, ◌≢◌, None, map, IfOk};
ghost use Rattle.std.specs.List.{AllZip, AllByRecursion};
ghost use Rattle.ir_resolve.specs.FaultKinds.{literal_of};
ghost use Rattle.ir_resolve.specs.Means.{CaseMeans, EndMeans};
ghost use Rattle.ir_resolve.specs.Views.{known_by, CallsIn};
ghost use Rattle.ir_resolve.specs.KnownNames.{TargetsAreKnown, IsReadyEnd};

use crate::building::operand::{operand, target};
use crate::literal::literal;
use crate::names::Names;
use ir_core::Terminator;
use ir_tokens::{RawCase, RawTerminator, RawValue};
use lists::List;
use ops::Word;
use std::alloc::{AllocError, Global};

/// The number of a case's value.
fn number(value: &RawValue) -> Word
    requires { literal_of value.now ≢ None }
    ensures { literal_of value.now ≡ Some result }
{
    match literal(value) {
        Some(word) => word,
        None => unreachable!(),
    }
}

/// Builds the cases of a `switch`.
fn cases(
    alloc: Global,
    names: &Names<'_>,
    written: &[RawCase],
) -> Result<List<(Word, u32)>, AllocError>
    requires numbers { AllByRecursion (λ c. literal_of c.value.value ≢ None) written.now }
    requires blocks { TargetsAreKnown (known_by names.now) (map (λ c. c.target) written.now) }
    ensures { IfOk result (AllZip (CaseMeans (CallsIn (known_by names.now))) written.now) }
{
    let mut cases = List::new(alloc);
    for written in written {
        cases.push((
            number(&written.value.value),
            target(names, &written.target.identifier),
        ))?;
    }
    Ok(cases)
}

/// Builds a terminator.
pub(crate) fn terminator(
    alloc: Global,
    names: &Names<'_>,
    written: &RawTerminator,
) -> Result<Terminator, AllocError>
    requires { IsReadyEnd (known_by names.now) written.now }
    ensures { IfOk result (EndMeans (CallsIn (known_by names.now)) written.now) }
{
    match written {
        RawTerminator::Return(_, returned) => {
            Ok(Terminator::Return(operand(names, &returned.value)))
        }
        RawTerminator::Unreachable => Ok(Terminator::Unreachable),
        RawTerminator::Jump(to) => Ok(Terminator::Jump(target(names, &to.identifier))),
        RawTerminator::Branch(_, condition, to, other) => Ok(Terminator::Branch(
            operand(names, &condition.value),
            target(names, &to.identifier),
            target(names, &other.identifier),
        )),
        RawTerminator::Switch(width, switched, other, written) => Ok(Terminator::Switch(
            operand(names, &switched.value),
            *width,
            target(names, &other.identifier),
            cases(alloc, names, written.as_slice())?,
        )),
    }
}
