//! A law of counts of faults.

ghost use Rattle.std.specs.Prelude.{◌≤◌, ℕ};
ghost use Rattle.outside.specs.Faults.{Rose};

/// A count that rose in one of several calls rose in all of them together.
pub fn rose_within()
    ensures { (first before after last : ℕ) → first ≤ before → before ≤ after → after ≤ last → Rose before after → Rose first last }
{}
