//! Marks on the clauses that hints of a step name and that have propagated a literal. A clause that is named again
//! propagates nothing new, so it is read once in a step, however often hints name it.
ghost use Rattle.std.specs.Prelude.{◌≡◌, ◌==◌, ◌&&◌, ◌||◌, ◌<◌, ℕ, not, length};
ghost use Rattle.rup_checker.specs.Table.{used_in};

use crate::table::Entry;

/// Whether the clause of the number is marked.
pub(crate) fn is_used(used: &[Entry], number: u32) -> bool
    ensures { result ≡ used_in used.now number }
{
    match used.get(number as usize) {
        None => false,
        Some(entry) => entry.used,
    }
}

/// Marks the clause of the number.
pub(crate) fn mark(used: &mut [Entry], number: u32)
    requires { number < length used.old }
    ensures { (n : ℕ) → used_in used.new n ≡ ((n == number) || used_in used.old n) }
{
    used[number as usize].used = true;
}

/// Takes the mark of the clause away, and says whether it had one.
pub(crate) fn take_mark(used: &mut [Entry], number: u32) -> bool
    ensures had { result ≡ used_in used.old number }
    ensures taken { (n : ℕ) → used_in used.new n ≡ (used_in used.old n && not (n == number)) }
{
    let had = is_used(used, number);
    if had {
        used[number as usize].used = false;
    }
    had
}
