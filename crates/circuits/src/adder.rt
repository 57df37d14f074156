//! The full adder, and the chain of full adders that adds two words.
ghost use Rattle.std.specs.Prelude.{◌≡◌, ◌+◌, ◌*◌, ◌^◌, Bool, ◌||◌, ◌&&◌, List as Seq, length, map, IfOk};
ghost use Rattle.std.specs.Bool.{xor};
ghost use Rattle.std.specs.List.{All};
ghost use Rattle.circuits.specs.Circuit.{Adds};
ghost use Rattle.circuits.specs.Gates.{adder_gates};
ghost use Rattle.circuits.specs.Kleene.{known_xor};
ghost use Rattle.circuits.specs.KnownSum.{known_carry, known_sum};
ghost use Rattle.circuits.specs.Word.{bit, number_of};

use crate::disjunction::or;
use crate::gates::Gates;
use crate::word::Bits;
use lists::List;
use std::alloc::{AllocError, Global};

/// What a full adder gives: the number of true ones of three bits is `sum + 2 * carry`.
struct Added<L> {
    sum: L,
    carry: L,
}

/// The full adder: the sum is `a xor b xor carry`, and the next carry `(a and b) or (carry and (a xor b))`.
fn full_adder<C: Gates>(
    alloc: Global,
    c: &mut C,
    a: C::Literal,
    b: C::Literal,
    carry: C::Literal,
) -> Result<Added<C::Literal>, AllocError>
    requires own_a { C.has_literal c.old a }
    requires own_b { C.has_literal c.old b }
    requires own_carry { C.has_literal c.old carry }
    ensures own_sum { IfOk result (λ made. C.has_literal c.new made.sum) }
    ensures own_carry { IfOk result (λ made. C.has_literal c.new made.carry) }
    ensures sum { IfOk result (λ made. (inputs : Seq Bool) → C.admits c.old inputs →
        C.value c.new inputs made.sum
        ≡ xor (xor (C.value c.old inputs a) (C.value c.old inputs b)) (C.value c.old inputs carry)) }
    ensures carry { IfOk result (λ made. (inputs : Seq Bool) → C.admits c.old inputs →
        C.value c.new inputs made.carry
        ≡ ((C.value c.old inputs a && C.value c.old inputs b)
        || (C.value c.old inputs carry && xor (C.value c.old inputs a) (C.value c.old inputs b)))) }
    ensures sum_known { IfOk result (λ made. (inputs : Seq Bool) →
        C.known c.new inputs made.sum
        ≡ known_xor (known_xor (C.known c.old inputs a) (C.known c.old inputs b)) (C.known c.old inputs carry)) }
    ensures carry_known { IfOk result (λ made. (inputs : Seq Bool) →
        C.known c.new inputs made.carry
        ≡ known_carry (C.known c.old inputs a) (C.known c.old inputs b) (C.known c.old inputs carry)) }
    ensures adds { Adds C.State c.old c.new 5 }
{
    let differ = c.xor(alloc, a, b)?;
    let sum = c.xor(alloc, differ, carry)?;
    let both = c.and(alloc, a, b)?;
    let passed = c.and(alloc, carry, differ)?;
    let carry = or(alloc, c, both, passed)?;
    Ok(Added { sum, carry })
}

/// What adding two words of one width N gives: their whole sum is the number of the bits, and 2^N more where the carry
/// is true.
#[derive(Drop)]
pub struct Sum<L> {
    /// The lowest N bits of the sum.
    pub bits: Bits<L>,
    /// The bit that is worth 2^N.
    pub carry: L,
}

/// The sum of two words of one width N and a first carry, by a chain of full adders. It adds at most 5 N gates.
pub fn add_with_carry<C: Gates>(
    alloc: Global,
    c: &mut C,
    a: &[C::Literal],
    b: &[C::Literal],
    first: C::Literal,
) -> Result<Sum<C::Literal>, AllocError>
    requires same_width { length b.now ≡ length a.now }
    requires own_a { All (C.has_literal c.old) a.now }
    requires own_b { All (C.has_literal c.old) b.now }
    requires own_first { C.has_literal c.old first }
    ensures own_bits { IfOk result (λ sum. All (C.has_literal c.new) sum.bits) }
    ensures own_carry { IfOk result (λ sum. C.has_literal c.new sum.carry) }
    ensures width { IfOk result (λ sum. length sum.bits ≡ length a.now) }
    ensures number { IfOk result (λ sum. (inputs : Seq Bool) → C.admits c.old inputs →
        number_of (C.value c.new inputs) sum.bits + 2 ^ length a.now * bit (C.value c.new inputs sum.carry)
        ≡ number_of (C.value c.old inputs) a.now + number_of (C.value c.old inputs) b.now
        + bit (C.value c.old inputs first)) }
    ensures known { IfOk result (λ sum. (inputs : Seq Bool) →
        map (C.known c.new inputs) sum.bits
        ≡ known_sum (C.known c.old inputs first) (map (C.known c.old inputs) a.now)
        (map (C.known c.old inputs) b.now)) }
    ensures adds { Adds C.State c.old c.new (adder_gates (length a.now)) }
{
    let mut bits = List::new(alloc);
    let mut carry = first;
    for i in 0..a.len() {
        let Added { sum, carry: next } = full_adder(alloc, c, a[i], b[i], carry)?;
        bits.push(sum)?;
        carry = next;
    }
    Ok(Sum { bits, carry })
}
