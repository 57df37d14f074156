//! Shifts of words by a word, in either direction.
//!
//! A barrel shifter: a stage for each of the amount's lowest bits moves the word by that bit's power of two, as far as
//! the powers are below the width N. A higher bit is worth at least N, so where one is true the whole word is what
//! comes in.
ghost use Rattle.std.specs.Prelude.{◌≡◌, ◌+◌, ◌-◌, ◌*◌, ◌/◌, ◌%◌, ◌^◌, ◌≤◌, Bool, if◌then◌else◌, List as Seq, map, replicate, length, IfOk};
ghost use Rattle.std.specs.List.{All, list_any};
ghost use Rattle.circuits.specs.Circuit.{Adds};
ghost use Rattle.circuits.specs.Gates.{any_gates, select_gates, shift_gates, stages};
ghost use Rattle.circuits.specs.Move.{moved};
ghost use Rattle.circuits.specs.Word.{bit, number_of};

use crate::circuit::Circuit;
use crate::disjunction::any;
use crate::word::{Bits, repeated, select};
use lists::List;
use std::alloc::{AllocError, Global};

/// A word of width N shifted left by the number of another: times 2^amount, modulo 2^N, so that zeros come in, and an
/// amount not below N leaves zeros alone. It adds at most N gates for each of the amount's ⌈log2 N⌉ lowest bits, one
/// for each higher bit, and N more.
pub fn shift_left<C: Circuit>(
    alloc: Global,
    c: &mut C,
    a: &Bits<C::Literal>,
    amount: &Bits<C::Literal>,
) -> Result<Bits<C::Literal>, AllocError>
    requires own_a { All (C.has_literal c.old) a.now }
    requires own_amount { All (C.has_literal c.old) amount.now }
    ensures own { IfOk result (All (C.has_literal c.new)) }
    ensures width { IfOk result (λ shifted. length shifted ≡ length a.now) }
    ensures number { IfOk result (λ shifted. (inputs : Seq Bool) → C.admits c.old inputs →
        number_of (C.value c.new inputs) shifted
        ≡ (number_of (C.value c.old inputs) a.now * 2 ^ number_of (C.value c.old inputs) amount.now)
        % 2 ^ length a.now) }
    ensures adds { Adds C.State c.old c.new
        (shift_gates (length a.now) (length amount.now)) }
{
    let zero = c.zero();
    shift(alloc, c, Direction::Up, a, amount, zero)
}

/// A word of width N shifted right by the number of another, with `top` coming in: the word with `top` above it as
/// often as the amount says, divided by 2^amount. It adds at most as many gates as [`shift_left`].
pub fn shift_right<C: Circuit>(
    alloc: Global,
    c: &mut C,
    a: &Bits<C::Literal>,
    amount: &Bits<C::Literal>,
    top: C::Literal,
) -> Result<Bits<C::Literal>, AllocError>
    requires own_a { All (C.has_literal c.old) a.now }
    requires own_amount { All (C.has_literal c.old) amount.now }
    requires own_top { C.has_literal c.old top }
    ensures own { IfOk result (All (C.has_literal c.new)) }
    ensures width { IfOk result (λ shifted. length shifted ≡ length a.now) }
    ensures number { IfOk result (λ shifted. (inputs : Seq Bool) → C.admits c.old inputs →
        number_of (C.value c.new inputs) shifted
        ≡ (number_of (C.value c.old inputs) a.now + bit (C.value c.old inputs top)
        * (2 ^ (length a.now + number_of (C.value c.old inputs) amount.now) - 2 ^ length a.now))
        / 2 ^ number_of (C.value c.old inputs) amount.now) }
    ensures adds { Adds C.State c.old c.new
        (shift_gates (length a.now) (length amount.now)) }
{
    shift(alloc, c, Direction::Down, a, amount, top)
}

/// Where the bits of a word go.
#[derive(Clone, Copy)]
pub enum Direction {
    /// To the left, so that the lowest places are free.
    Up,
    /// To the right, so that the highest are.
    Down,
}

/// A word moved by the number of another, with `fill` at the places that become free.
fn shift<C: Circuit>(
    alloc: Global,
    c: &mut C,
    direction: Direction,
    a: &Bits<C::Literal>,
    amount: &Bits<C::Literal>,
    fill: C::Literal,
) -> Result<Bits<C::Literal>, AllocError>
    requires own_a { All (C.has_literal c.old) a.now }
    requires own_amount { All (C.has_literal c.old) amount.now }
    requires own_fill { C.has_literal c.old fill }
    ensures own { IfOk result (All (C.has_literal c.new)) }
    ensures width { IfOk result (λ shifted. length shifted ≡ length a.now) }
    ensures values { IfOk result (λ shifted. (inputs : Seq Bool) → C.admits c.old inputs →
        map (C.value c.new inputs) shifted
        ≡ moved direction (C.value c.old inputs fill) (number_of (C.value c.old inputs) amount.now)
        (map (C.value c.old inputs) a.now)) }
    ensures adds { Adds C.State c.old c.new (shift_gates (length a.now) (length amount.now)) }
{
    let amount = amount.as_slice();
    let low = stage_count(a.len()).min(amount.len());
    let near = by_stages(alloc, c, direction, a.as_slice(), &amount[..low], fill)?;
    filled_where_any(alloc, c, &amount[low..], fill, near.as_slice())
}

/// The least k with `width` ≤ 2^k.
fn stage_count(width: usize) -> usize
    ensures { result ≡ stages width }
{
    if width <= 1 {
        0
    } else {
        (width - 1).ilog2() as usize + 1
    }
}

/// The word moved by the amount's number: a stage for each bit of the amount.
fn by_stages<C: Circuit>(
    alloc: Global,
    c: &mut C,
    direction: Direction,
    a: &[C::Literal],
    amount: &[C::Literal],
    fill: C::Literal,
) -> Result<Bits<C::Literal>, AllocError>
    requires few { length amount.now ≤ stages (length a.now) }
    requires own_a { All (C.has_literal c.old) a.now }
    requires own_amount { All (C.has_literal c.old) amount.now }
    requires own_fill { C.has_literal c.old fill }
    ensures own { IfOk result (All (C.has_literal c.new)) }
    ensures width { IfOk result (λ word. length word ≡ length a.now) }
    ensures values { IfOk result (λ word. (inputs : Seq Bool) → C.admits c.old inputs →
        map (C.value c.new inputs) word
        ≡ moved direction (C.value c.old inputs fill) (number_of (C.value c.old inputs) amount.now)
        (map (C.value c.old inputs) a.now)) }
    ensures adds { Adds C.State c.old c.new (select_gates (length a.now) * length amount.now) }
{
    let mut word = List::from_vec(Vec::from_slice(alloc, a)?);
    for (i, bit) in amount.iter().enumerate() {
        let further = moved_by(alloc, direction, word.as_slice(), 1 << i, fill)?;
        word = select(alloc, c, *bit, further.as_slice(), word.as_slice())?;
    }
    Ok(word)
}

/// The word, or `fill` at each of its places where some literal of another word is true.
fn filled_where_any<C: Circuit>(
    alloc: Global,
    c: &mut C,
    far: &[C::Literal],
    fill: C::Literal,
    word: &[C::Literal],
) -> Result<Bits<C::Literal>, AllocError>
    requires own_far { All (C.has_literal c.old) far.now }
    requires own_fill { C.has_literal c.old fill }
    requires own_word { All (C.has_literal c.old) word.now }
    ensures own { IfOk result (All (C.has_literal c.new)) }
    ensures width { IfOk result (λ filled. length filled ≡ length word.now) }
    ensures values { IfOk result (λ filled. (inputs : Seq Bool) → C.admits c.old inputs →
        map (C.value c.new inputs) filled
        ≡ (if list_any (C.value c.old inputs) far.now
        then replicate (length word.now) (C.value c.old inputs fill) else map (C.value c.old inputs) word.now)) }
    ensures adds { Adds C.State c.old c.new
        (any_gates (length far.now) + select_gates (length word.now)) }
{
    let is_far = any(alloc, c, far)?;
    let filled = repeated(alloc, fill, word.len())?;
    select(alloc, c, is_far, filled.as_slice(), word)
}

/// The word with its bits moved by a distance, and `fill` at the places that become free.
pub fn moved_by<L: Copy>(
    alloc: Global,
    direction: Direction,
    word: &[L],
    distance: usize,
    fill: L,
) -> Result<Bits<L>, AllocError>
    requires { distance ≤ length word.now }
    ensures bits { IfOk result (λ bits. bits ≡ moved direction fill distance word.now) }
    ensures width { IfOk result (λ bits. length bits ≡ length word.now) }
{
    match direction {
        Direction::Up => {
            let mut bits = Vec::new(alloc);
            bits.resize(distance, fill)?;
            bits.extend_from_slice(&word[..word.len() - distance])?;
            Ok(List::from_vec(bits))
        }
        Direction::Down => {
            let mut bits = Vec::from_slice(alloc, &word[distance..])?;
            bits.resize(word.len(), fill)?;
            Ok(List::from_vec(bits))
        }
    }
}
