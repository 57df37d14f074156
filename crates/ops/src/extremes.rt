//! The smaller and the larger of two numbers. (LLVM Language Reference, "Standard C/C++ Library Intrinsics".)

ghost use Rattle.std.specs.Prelude.{◌≡◌, ◌<◌, ◌^◌};
ghost use Rattle.ops.specs.Extremes.{smax, smin, umax, umin};
ghost use Rattle.ops.specs.Integer.{bits};

use crate::integer::signed;
use crate::value::Value;
use crate::width::Width;
use crate::word::Word;

/// `umin` of two numbers.
pub(crate) fn umin(width: Width, a: u64, b: u64) -> Value
    requires left { a < 2 ^ width }
    requires right { b < 2 ^ width }
    ensures { result ≡ bits width (umin a b) }
{
    Value::Bits(Word::fitting(width, a.min(b)))
}

/// `umax` of two numbers.
pub(crate) fn umax(width: Width, a: u64, b: u64) -> Value
    requires left { a < 2 ^ width }
    requires right { b < 2 ^ width }
    ensures { result ≡ bits width (umax a b) }
{
    Value::Bits(Word::fitting(width, a.max(b)))
}

/// `smin` of two numbers.
pub(crate) fn smin(width: Width, a: u64, b: u64) -> Value
    requires left { a < 2 ^ width }
    requires right { b < 2 ^ width }
    ensures { result ≡ bits width (smin width a b) }
{
    let smaller = if signed(width, a) < signed(width, b) {
        a
    } else {
        b
    };
    Value::Bits(Word::fitting(width, smaller))
}

/// `smax` of two numbers.
pub(crate) fn smax(width: Width, a: u64, b: u64) -> Value
    requires left { a < 2 ^ width }
    requires right { b < 2 ^ width }
    ensures { result ≡ bits width (smax width a b) }
{
    let larger = if signed(width, a) < signed(width, b) {
        b
    } else {
        a
    };
    Value::Bits(Word::fitting(width, larger))
}
