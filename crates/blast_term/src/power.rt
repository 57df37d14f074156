//! Powers of two: whether exactly one bit is set, and which.
ghost use Rattle.std.specs.Prelude.{◌≡◌, ◌^◌, ◌<◌, ◌≤◌, Bool, if◌then◌else◌, List as Seq, Some, None, length, IfOk};
ghost use Rattle.std.specs.List.{All};
ghost use Rattle.circuits.specs.Circuit.{Adds};
ghost use Rattle.circuits.specs.Gates.{select_gates};
ghost use Rattle.circuits.specs.Word.{number_of};
ghost use Rattle.rule_core.specs.Terms.{exponent};
ghost use Rattle.blast_term.specs.Gates.{power_gates};

use blast_value::constant;
use circuits::{Bits, Circuit, extend, select};
use std::alloc::{AllocError, Global};

/// The exponent of a number that may be a power of two.
#[derive(Drop)]
pub(crate) struct Exponent<L> {
    /// Whether the number is one: exactly one bit is set.
    pub(crate) exists: L,
    /// The exponent, where the number is a power of two.
    pub(crate) bits: Bits<L>,
}

/// How many bits the place of a bit in a number takes, up to 64 bits.
const PLACE_BITS: usize = 6;

/// The exponent of the power of two that a word's number is. It adds at most eight gates for each
/// bit.
pub(crate) fn blast_exponent<C: Circuit>(
    alloc: Global,
    c: &mut C,
    word: &Bits<C::Literal>,
) -> Result<Exponent<C::Literal>, AllocError>
    requires least { 1 ≤ length word.now }
    requires most { length word.now ≤ 64 }
    requires own { All (C.has_literal c.old) word.now }
    ensures value { IfOk result (λ made. (inputs : Seq Bool) → C.admits c.old inputs →
        exponent (length word.now) (number_of (C.value c.old inputs) word.now)
        ≡ (if C.value c.new inputs made.exists then Some (number_of (C.value c.new inputs) made.bits) else None)) }
    ensures width { IfOk result (λ made. length made.bits ≡ length word.now) }
    ensures own_exists { IfOk result (λ made. C.has_literal c.new made.exists) }
    ensures own_bits { IfOk result (λ made. All (C.has_literal c.new) made.bits) }
    ensures adds { Adds C.State c.old c.new
        (power_gates (length word.now)) }
{
    let width = word.len();
    let found = place(alloc, c, word.as_slice(), width.min(PLACE_BITS))?;
    let zero = c.zero();
    let bits = extend(alloc, c, &found.bits, width, zero)?;
    Ok(Exponent {
        exists: found.exists,
        bits,
    })
}

/// The place of the only bit that is set, as a word of so many bits.
fn place<C: Circuit>(
    alloc: Global,
    c: &mut C,
    word: &[C::Literal],
    width: usize,
) -> Result<Exponent<C::Literal>, AllocError>
    requires few { width ≤ 6 }
    requires enough { length word.now ≤ 2 ^ width }
    requires own { All (C.has_literal c.old) word.now }
    ensures value { IfOk result (λ made. (inputs : Seq Bool) → C.admits c.old inputs →
        exponent (length word.now) (number_of (C.value c.old inputs) word.now)
        ≡ (if C.value c.new inputs made.exists then Some (number_of (C.value c.new inputs) made.bits) else None)) }
    ensures width { IfOk result (λ made. length made.bits ≡ width) }
    ensures own_exists { IfOk result (λ made. C.has_literal c.new made.exists) }
    ensures own_bits { IfOk result (λ made. All (C.has_literal c.new) made.bits) }
    ensures adds { Adds C.State c.old c.new
        (power_gates (length word.now)) }
{
    let mut none = c.one();
    let mut one = c.zero();
    let mut bits = constant(alloc, c, 0, width)?;
    for i in 0..word.len() {
        let bit = word[i];
        bits = place_where(alloc, c, bit, i as u64, &bits)?;
        one = c.mux(alloc, bit, none, one)?;
        none = c.and(alloc, none, c.not(bit))?;
    }
    Ok(Exponent { exists: one, bits })
}

/// The number of a place where the literal is true, and else this word.
fn place_where<C: Circuit>(
    alloc: Global,
    c: &mut C,
    here: C::Literal,
    place: u64,
    bits: &Bits<C::Literal>,
) -> Result<Bits<C::Literal>, AllocError>
    requires fits { place < 2 ^ length bits.now }
    requires own_here { C.has_literal c.old here }
    requires own { All (C.has_literal c.old) bits.now }
    ensures number { IfOk result (λ made. (inputs : Seq Bool) → C.admits c.old inputs →
        number_of (C.value c.new inputs) made
        ≡ (if C.value c.old inputs here then place else number_of (C.value c.old inputs) bits.now)) }
    ensures width { IfOk result (λ made. length made ≡ length bits.now) }
    ensures own { IfOk result (All (C.has_literal c.new)) }
    ensures adds { Adds C.State c.old c.new
        (select_gates (length bits.now)) }
{
    let places = constant(alloc, c, place, bits.len())?;
    select(alloc, c, here, places.as_slice(), bits.as_slice())
}
