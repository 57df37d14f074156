//! Counts of the bits of a number. (LLVM Language Reference, "Bit Manipulation Intrinsics".)

ghost use Rattle.std.specs.Prelude.{◌≡◌, ◌≤◌, ◌<◌, ◌^◌};
ghost use Rattle.ops.specs.Counts.{ctlz, ctpop, cttz};

use crate::width::Width;

/// How many bits of the number are 1.
pub(crate) fn ctpop(width: Width, a: u64) -> u64
    requires { a < 2 ^ width }
    ensures count { result ≡ ctpop width a }
    ensures most { result ≤ width }
{
    u64::from(a.count_ones())
}

/// How many bits are 0 from the highest of the width down to the first that is 1.
pub(crate) fn ctlz(width: Width, a: u64) -> u64
    requires { a < 2 ^ width }
    ensures count { result ≡ ctlz width a }
    ensures most { result ≤ width }
{
    let above = 64 - width.bits();
    u64::from(a.leading_zeros() - above)
}

/// How many bits are 0 from the lowest up to the first that is 1.
pub(crate) fn cttz(width: Width, a: u64) -> u64
    requires { a < 2 ^ width }
    ensures count { result ≡ cttz width a }
    ensures most { result ≤ width }
{
    u64::from(a.trailing_zeros().min(width.bits()))
}
