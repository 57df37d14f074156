//! The hints of steps as bytes: how many there are, and each as its difference from the one before, the first from 0.

ghost use Rattle.std.specs.Prelude.{◌≡◌, ◌<◌, ◌^◌, OnOk, IfOk};
ghost use Rattle.packed_log.specs.Numbers.{behind_list};
ghost use Rattle.packed_log.specs.Steps.{moved, first_hints, HintsFit};
ghost use Rattle.packed_log.specs.Words.{Adds, AreHints};

use crate::number::{push_number, take_number};
use lists::List;
use std::alloc::{AllocError, Global};

/// The difference of a number from the one before (zigzag code): twice as much as the number is more, or one less than
/// twice as much as it is less.
fn difference(before: u32, number: u32) -> u64
    ensures { moved before result ≡ number }
{
    if before <= number {
        2 * u64::from(number - before)
    } else {
        2 * u64::from(before - number) - 1
    }
}

/// The number that has this difference from the one before.
fn number_after(before: u32, difference: u64) -> u32
    requires { moved before difference < 2 ^ 32 }
    ensures { result ≡ moved before difference }
{
    let before = u64::from(before);
    if difference % 2 == 0 {
        (before + difference / 2) as u32
    } else {
        before.saturating_sub(difference / 2 + 1) as u32
    }
}

/// Adds the hints of one step at the end of the bytes.
pub(crate) fn push_hints(bytes: &mut Vec<u8>, hints: &[u32]) -> Result<(), AllocError>
    ensures { OnOk result (Adds (AreHints hints.now) bytes.old.items bytes.new.items) }
{
    push_number(bytes, hints.len() as u64)?;
    let mut before = 0;
    for hint in hints {
        push_number(bytes, difference(before, *hint))?;
        before = *hint;
    }
    Ok(())
}

/// Reads the hints that the bytes begin with, and leaves the bytes behind them in `rest`.
pub(crate) fn take_hints(alloc: Global, rest: &mut &[u8]) -> Result<List<u32>, AllocError>
    requires { HintsFit rest.old.now }
    ensures hints { IfOk result (λ hints. hints ≡ first_hints rest.old.now) }
    ensures behind { OnOk result (rest.new.now ≡ behind_list rest.old.now) }
{
    let count = take_number(rest);
    let mut hints = List::new(alloc);
    let mut before = 0;
    for _place in 0..count {
        before = number_after(before, take_number(rest));
        hints.push(before)?;
    }
    Ok(hints)
}
