//! Counts of a module and of what the strategy gives. A count beyond `usize` is answered as want of memory; no module
//! that fits in memory has one.

ghost use Rattle.std.specs.Prelude.{◌≡◌, ◌+◌, sum, count_by, IfOk};
ghost use Rattle.load_text.specs.Load.{instructions_of, instructions_of_entry, instructions_in};

use ir_core::{Entry, Function, Module};
use std::alloc::AllocError;

/// A sum, if it fits a `usize`.
fn plus(a: usize, b: usize) -> Result<usize, AllocError>
    ensures { IfOk result (λ sum. sum ≡ a + b) }
{
    a.checked_add(b).ok_or(AllocError)
}

/// The sum of these numbers.
pub(crate) fn sum_of(numbers: &[u32]) -> Result<usize, AllocError>
    ensures { IfOk result (λ n. n ≡ sum numbers.now) }
{
    let mut total = 0;
    for number in numbers {
        total = plus(total, *number as usize)?;
    }
    Ok(total)
}

/// How many of these are true.
pub(crate) fn count_true(truths: &[bool]) -> usize
    ensures { result ≡ count_by (λ truth. truth) truths.now }
{
    let mut count = 0;
    for truth in truths {
        if *truth {
            count += 1;
        }
    }
    count
}

/// How many instructions a function has, terminators not counted.
fn instructions_of(function: &Function) -> Result<usize, AllocError>
    ensures { IfOk result (λ n. n ≡ instructions_of function.now) }
{
    let mut count = 0;
    for block in function.blocks.as_slice() {
        count = plus(count, block.insts.len())?;
    }
    Ok(count)
}

/// The same of an entry; a kept line has none.
fn instructions_of_entry(entry: &Entry) -> Result<usize, AllocError>
    ensures { IfOk result (λ n. n ≡ instructions_of_entry entry.now) }
{
    match entry {
        Entry::Kept(_) => Ok(0),
        Entry::Function(function) => instructions_of(function),
    }
}

/// The same of a module.
pub(crate) fn instructions_in(module: &Module) -> Result<usize, AllocError>
    ensures { IfOk result (λ n. n ≡ instructions_in module.now) }
{
    let mut count = 0;
    for entry in module.entries.as_slice() {
        count = plus(count, instructions_of_entry(entry)?)?;
    }
    Ok(count)
}
