//! One row of a product by shifting and adding.
ghost use Rattle.std.specs.Prelude.{◌≡◌, ◌+◌, ◌-◌, ◌*◌, ◌%◌, ◌^◌, ◌≤◌, Bool, ◌||◌, ◌&&◌, List as Seq, length, IfOk};
ghost use Rattle.std.specs.List.{All};
ghost use Rattle.circuits.specs.Circuit.{Adds};
ghost use Rattle.circuits.specs.Word.{bit, number_of};
ghost use Rattle.circ_muldiv.specs.Gates.{row_gates};

use crate::joining::joined;
use circuits::{Bits, Circuit, Sum, add_with_carry, or};
use lists::List;
use std::alloc::{AllocError, Global};

/// A word masked by a literal: the word where `digit` is true, and else 0. It adds at most a gate a bit.
pub(crate) fn masked<C: Circuit>(
    alloc: Global,
    c: &mut C,
    word: &[C::Literal],
    digit: C::Literal,
) -> Result<Bits<C::Literal>, AllocError>
    requires own_word { All (C.has_literal c.old) word.now }
    requires own_digit { C.has_literal c.old digit }
    ensures own { IfOk result (All (C.has_literal c.new)) }
    ensures width { IfOk result (λ masked. length masked ≡ length word.now) }
    ensures number { IfOk result (λ masked. (inputs : Seq Bool) → C.admits c.old inputs →
        number_of (C.value c.new inputs) masked
        ≡ bit (C.value c.old inputs digit) * number_of (C.value c.old inputs) word.now) }
    ensures adds { Adds C.State c.old c.new (length word.now) }
{
    let mut masked = List::new(alloc);
    for bit in word {
        let both = c.and(alloc, *bit, digit)?;
        masked.push(both)?;
    }
    Ok(masked)
}

/// The sum of a word of width N and, where `digit` is true, of `a` shifted up by `place` and cut to N bits.
pub(crate) fn add_row<C: Circuit>(
    alloc: Global,
    c: &mut C,
    word: &[C::Literal],
    a: &[C::Literal],
    digit: C::Literal,
    place: usize,
) -> Result<Sum<C::Literal>, AllocError>
    requires place { place ≤ length a.now }
    requires same_width { length word.now ≡ length a.now }
    requires own_word { All (C.has_literal c.old) word.now }
    requires own_a { All (C.has_literal c.old) a.now }
    requires own_digit { C.has_literal c.old digit }
    ensures own_bits { IfOk result (λ sum. All (C.has_literal c.new) sum.bits) }
    ensures own_carry { IfOk result (λ sum. C.has_literal c.new sum.carry) }
    ensures width { IfOk result (λ sum. length sum.bits ≡ length a.now) }
    ensures number { IfOk result (λ sum. (inputs : Seq Bool) → C.admits c.old inputs →
        number_of (C.value c.new inputs) sum.bits + 2 ^ length a.now * bit (C.value c.new inputs sum.carry)
        ≡ number_of (C.value c.old inputs) word.now + 2 ^ place * (bit (C.value c.old inputs digit)
        * (number_of (C.value c.old inputs) a.now % 2 ^ (length a.now - place)))) }
    ensures adds { Adds C.State c.old c.new
        (row_gates (length a.now - place)) }
{
    let upper = add_where(alloc, c, &word[place..], &a[..a.len() - place], digit)?;
    let bits = joined(alloc, &word[..place], upper.bits.as_slice())?;
    Ok(Sum {
        bits,
        carry: upper.carry,
    })
}

/// The sum of two words of one width, where the second counts only if `digit` is true.
fn add_where<C: Circuit>(
    alloc: Global,
    c: &mut C,
    word: &[C::Literal],
    added: &[C::Literal],
    digit: C::Literal,
) -> Result<Sum<C::Literal>, AllocError>
    requires same_width { length added.now ≡ length word.now }
    requires own_word { All (C.has_literal c.old) word.now }
    requires own_added { All (C.has_literal c.old) added.now }
    requires own_digit { C.has_literal c.old digit }
    ensures own_bits { IfOk result (λ sum. All (C.has_literal c.new) sum.bits) }
    ensures own_carry { IfOk result (λ sum. C.has_literal c.new sum.carry) }
    ensures width { IfOk result (λ sum. length sum.bits ≡ length word.now) }
    ensures number { IfOk result (λ sum. (inputs : Seq Bool) → C.admits c.old inputs →
        number_of (C.value c.new inputs) sum.bits + 2 ^ length word.now * bit (C.value c.new inputs sum.carry)
        ≡ number_of (C.value c.old inputs) word.now
        + bit (C.value c.old inputs digit) * number_of (C.value c.old inputs) added.now) }
    ensures adds { Adds C.State c.old c.new
        (row_gates (length word.now)) }
{
    let shown = masked(alloc, c, added, digit)?;
    let first = c.zero();
    add_with_carry(alloc, c, word, shown.as_slice(), first)
}

/// Whether a product lost a true bit in a row or before it: in an earlier row, by the carry of this one, or by its cut,
/// where its digit is true and `a`, shifted to its place, has a true bit past the width.
pub(crate) fn loses<C: Circuit>(
    alloc: Global,
    c: &mut C,
    before: C::Literal,
    carry: C::Literal,
    digit: C::Literal,
    past: C::Literal,
) -> Result<C::Literal, AllocError>
    requires own_before { C.has_literal c.old before }
    requires own_carry { C.has_literal c.old carry }
    requires own_digit { C.has_literal c.old digit }
    requires own_past { C.has_literal c.old past }
    ensures own { IfOk result (λ made. C.has_literal c.new made) }
    ensures value { IfOk result (λ made. (inputs : Seq Bool) → C.admits c.old inputs →
        C.value c.new inputs made
        ≡ ((C.value c.old inputs before || C.value c.old inputs carry)
        || (C.value c.old inputs digit && C.value c.old inputs past))) }
    ensures adds { Adds C.State c.old c.new 3 }
{
    let dropped = c.and(alloc, digit, past)?;
    let earlier = or(alloc, c, before, carry)?;
    or(alloc, c, earlier, dropped)
}
