//! How many bits of a word are true.
ghost use Rattle.std.specs.Prelude.{◌≡◌, ◌+◌, ◌*◌, ◌<◌, ◌^◌, Bool, List as Seq, filter, length, IfOk};
ghost use Rattle.std.specs.List.{All};
ghost use Rattle.circuits.specs.Circuit.{Adds};
ghost use Rattle.circuits.specs.Gates.{adder_gates, stages};
ghost use Rattle.circuits.specs.Word.{number_of};
ghost use Rattle.circ_counts.specs.Gates.{count_gates};

use circuits::{Bits, Circuit, add_with_carry, extend, repeated};
use lists::List;
use std::alloc::{AllocError, Global};

/// How many bits of a word of width N are true (population count), as a word of that width. Each bit is added to a
/// counter of ⌈log2 (N + 1)⌉ bits, as the carry into its lowest. It adds at most 5 N ⌈log2 (N + 1)⌉ gates.
pub fn count_ones<C: Circuit>(
    alloc: Global,
    c: &mut C,
    a: &Bits<C::Literal>,
) -> Result<Bits<C::Literal>, AllocError>
    requires { All (C.has_literal c.old) a.now }
    ensures own { IfOk result (All (C.has_literal c.new)) }
    ensures width { IfOk result (λ count. length count ≡ length a.now) }
    ensures number { IfOk result (λ count. (inputs : Seq Bool) → C.admits c.old inputs →
        number_of (C.value c.new inputs) count ≡ length (filter (C.value c.old inputs) a.now)) }
    ensures adds { Adds C.State c.old c.new (count_gates (length a.now)) }
{
    let zero = c.zero();
    let zeros = repeated(alloc, zero, digit_count(a.len()))?;
    let count = counted(alloc, c, a.as_slice(), zeros.as_slice())?;
    extend(alloc, c, &count, a.len(), zero)
}

/// How many binary digits are enough for each number up to this one.
fn digit_count(most: usize) -> usize
    ensures { result ≡ stages (most + 1) }
{
    if most == 0 {
        0
    } else {
        most.ilog2() as usize + 1
    }
}

/// How many bits of a word are true: each is added to a counter, which begins as this word of zeros.
fn counted<C: Circuit>(
    alloc: Global,
    c: &mut C,
    a: &[C::Literal],
    zeros: &[C::Literal],
) -> Result<Bits<C::Literal>, AllocError>
    requires room { length a.now < 2 ^ length zeros.now }
    requires own_a { All (C.has_literal c.old) a.now }
    requires own_zeros { All (C.has_literal c.old) zeros.now }
    requires zeros { (inputs : Seq Bool) → C.admits c.old inputs → number_of (C.value c.old inputs) zeros.now ≡ 0 }
    ensures own { IfOk result (All (C.has_literal c.new)) }
    ensures width { IfOk result (λ count. length count ≡ length zeros.now) }
    ensures number { IfOk result (λ count. (inputs : Seq Bool) → C.admits c.old inputs →
        number_of (C.value c.new inputs) count ≡ length (filter (C.value c.old inputs) a.now)) }
    ensures adds { Adds C.State c.old c.new (adder_gates (length zeros.now) * length a.now) }
{
    let mut count = List::from_vec(Vec::from_slice(alloc, zeros)?);
    for bit in a {
        let sum = add_with_carry(alloc, c, count.as_slice(), zeros, *bit)?;
        count = sum.bits;
    }
    Ok(count)
}
