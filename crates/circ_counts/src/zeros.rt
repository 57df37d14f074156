//! How many bits of a word are false before the first that is true, from either end.
ghost use Rattle.std.specs.Prelude.{◌≡◌, Bool, not, List as Seq, length, reverse, IfOk};
ghost use Rattle.std.specs.List.{All, prefix_len};
ghost use Rattle.circuits.specs.Circuit.{Adds};
ghost use Rattle.circuits.specs.Word.{number_of};
ghost use Rattle.circ_counts.specs.Gates.{zeros_gates};

use crate::clear_run::clear_run;
use crate::ones::count_ones;
use circuits::{Bits, Circuit};
use std::alloc::{AllocError, Global};

/// How many bits of a word of width N are false from the highest down to the first that is true, as a word of that
/// width; N where none is true. It adds at most N + 5 N ⌈log2 (N + 1)⌉ gates.
pub fn leading_zeros<C: Circuit>(
    alloc: Global,
    c: &mut C,
    a: &Bits<C::Literal>,
) -> Result<Bits<C::Literal>, AllocError>
    requires { All (C.has_literal c.old) a.now }
    ensures own { IfOk result (All (C.has_literal c.new)) }
    ensures width { IfOk result (λ count. length count ≡ length a.now) }
    ensures number { IfOk result (λ count. (inputs : Seq Bool) → C.admits c.old inputs →
        number_of (C.value c.new inputs) count ≡ prefix_len (λ l. not (C.value c.old inputs l)) (reverse a.now)) }
    ensures adds { Adds C.State c.old c.new (zeros_gates (length a.now)) }
{
    let mut highest_first = Vec::from_slice(alloc, a.as_slice())?;
    highest_first.reverse();
    let run = clear_run(alloc, c, &highest_first)?;
    count_ones(alloc, c, &run)
}

/// How many bits of a word of width N are false from the lowest up to the first that is true, as a word of that width;
/// N where none is true. It adds at most N + 5 N ⌈log2 (N + 1)⌉ gates.
pub fn trailing_zeros<C: Circuit>(
    alloc: Global,
    c: &mut C,
    a: &Bits<C::Literal>,
) -> Result<Bits<C::Literal>, AllocError>
    requires { All (C.has_literal c.old) a.now }
    ensures own { IfOk result (All (C.has_literal c.new)) }
    ensures width { IfOk result (λ count. length count ≡ length a.now) }
    ensures number { IfOk result (λ count. (inputs : Seq Bool) → C.admits c.old inputs →
        number_of (C.value c.new inputs) count ≡ prefix_len (λ l. not (C.value c.old inputs l)) a.now) }
    ensures adds { Adds C.State c.old c.new (zeros_gates (length a.now)) }
{
    let run = clear_run(alloc, c, a.as_slice())?;
    count_ones(alloc, c, &run)
}
