//! The lesser of two lines.

ghost use Rattle.std.specs.Prelude.{◌≡◌};
ghost use Rattle.ir_resolve.specs.FirstLines.{lesser};

/// The lesser of two lines if both are there, and else the one that is there.
pub fn lesser(one: Option<usize>, other: Option<usize>) -> Option<usize>
    ensures { result ≡ lesser one other }
{
    match (one, other) {
        (Some(line), Some(other)) => Some(if line <= other { line } else { other }),
        (found, None) => found,
        (None, found) => found,
    }
}
