//! `and`, `or` and `xor`. (LLVM Language Reference, "Bitwise Binary Operations".)
ghost use Rattle.std.specs.Prelude.{◌≡◌, ◌==◌, ◌+◌, Bool, not, ◌&&◌, bit_and, List as Seq, length, IfOk};
ghost use Rattle.std.specs.List.{All};
ghost use Rattle.ops.specs.declared.value.Effect.TheVariants.{Gives};
ghost use Rattle.ops.specs.Instruction.{on_numbers};
ghost use Rattle.circuits.specs.Circuit.{Adds};
ghost use Rattle.circuits.specs.Word.{bit, number_of};
ghost use Rattle.blast_value.specs.Effect.{held_value, IsOwn};
ghost use Rattle.blast_value.specs.Gates.{bitwise_gates, sharing_gates};
ghost use Rattle.blast_value.specs.Families.{bitwise, bitwise_opcode, promises_disjoint};

use crate::held::Held;
use crate::known::equals;
use circuits::{Bits, Circuit, or};
use lists::List;
use ops::{Flags, Width};
use std::alloc::{AllocError, Global};

/// The instructions that go bit by bit.
#[derive(Clone, Copy)]
pub(crate) enum Bitwise {
    And,
    Or,
    Xor,
}

impl Bitwise {
    /// Whether the operands are promised to have no 1 at the same place (`or disjoint`).
    fn promises_disjoint(self, flags: Flags) -> bool
        ensures { result ≡ promises_disjoint self flags }
    {
        match self {
            Bitwise::Or => flags.disjoint,
            Bitwise::And | Bitwise::Xor => false,
        }
    }
}

/// The word of the gates of each pair of bits; poison where both words have a 1 at a place that `disjoint` rules out.
pub(crate) fn bit_by_bit<C: Circuit>(
    alloc: Global,
    c: &mut C,
    op: Bitwise,
    flags: Flags,
    width: Width,
    a: &Bits<C::Literal>,
    b: &Bits<C::Literal>,
) -> Result<Held<C::Literal>, AllocError>
    requires width_a { length a.now ≡ width }
    requires width_b { length b.now ≡ width }
    requires own_a { All (C.has_literal c.old) a.now }
    requires own_b { All (C.has_literal c.old) b.now }
    ensures value { IfOk result (λ made. (inputs : Seq Bool) → C.admits c.old inputs →
        Gives (held_value (C.value c.new inputs) made)
        ≡ on_numbers (bitwise_opcode op) flags width
        (number_of (C.value c.old inputs) a.now) (number_of (C.value c.old inputs) b.now)) }
    ensures width { IfOk result (λ made. length made.bits ≡ width) }
    ensures own { IfOk result (IsOwn (C.has_literal c.new)) }
    ensures adds { Adds C.State c.old c.new (bitwise_gates width) }
{
    let bits = each_bit(alloc, c, op, a.as_slice(), b.as_slice())?;
    let poison = share_where(alloc, c, op.promises_disjoint(flags), a, b)?;
    Ok(Held { bits, poison })
}

/// The same where it is asked, and else false.
fn share_where<C: Circuit>(
    alloc: Global,
    c: &mut C,
    asked: bool,
    a: &Bits<C::Literal>,
    b: &Bits<C::Literal>,
) -> Result<C::Literal, AllocError>
    requires same_width { length b.now ≡ length a.now }
    requires own_a { All (C.has_literal c.old) a.now }
    requires own_b { All (C.has_literal c.old) b.now }
    ensures own { IfOk result (λ share. C.has_literal c.new share) }
    ensures value { IfOk result (λ share. (inputs : Seq Bool) → C.admits c.old inputs →
        C.value c.new inputs share
        ≡ (asked && not (bit_and (number_of (C.value c.old inputs) a.now) (number_of (C.value c.old inputs) b.now) == 0))) }
    ensures adds { Adds C.State c.old c.new (sharing_gates (length a.now)) }
{
    if !asked {
        return Ok(c.zero());
    }
    share_bits(alloc, c, a, b)
}

/// Whether two words of one width N have a 1 at one place. It adds at most 3 N gates.
pub fn share_bits<C: Circuit>(
    alloc: Global,
    c: &mut C,
    a: &Bits<C::Literal>,
    b: &Bits<C::Literal>,
) -> Result<C::Literal, AllocError>
    requires same_width { length b.now ≡ length a.now }
    requires own_a { All (C.has_literal c.old) a.now }
    requires own_b { All (C.has_literal c.old) b.now }
    ensures own { IfOk result (λ share. C.has_literal c.new share) }
    ensures value { IfOk result (λ share. (inputs : Seq Bool) → C.admits c.old inputs →
        C.value c.new inputs share
        ≡ not (bit_and (number_of (C.value c.old inputs) a.now) (number_of (C.value c.old inputs) b.now) == 0)) }
    ensures adds { Adds C.State c.old c.new (sharing_gates (length a.now)) }
{
    let both = each_bit(alloc, c, Bitwise::And, a.as_slice(), b.as_slice())?;
    let none = equals(alloc, c, &both, 0)?;
    Ok(c.not(none))
}

/// The word of the gates of each pair of bits.
fn each_bit<C: Circuit>(
    alloc: Global,
    c: &mut C,
    op: Bitwise,
    a: &[C::Literal],
    b: &[C::Literal],
) -> Result<Bits<C::Literal>, AllocError>
    requires same_width { length b.now ≡ length a.now }
    requires own_a { All (C.has_literal c.old) a.now }
    requires own_b { All (C.has_literal c.old) b.now }
    ensures own { IfOk result (All (C.has_literal c.new)) }
    ensures width { IfOk result (λ word. length word ≡ length a.now) }
    ensures number { IfOk result (λ word. (inputs : Seq Bool) → C.admits c.old inputs →
        number_of (C.value c.new inputs) word
        ≡ bitwise op (number_of (C.value c.old inputs) a.now) (number_of (C.value c.old inputs) b.now)) }
    ensures adds { Adds C.State c.old c.new (length a.now) }
{
    let mut word = List::new(alloc);
    for i in 0..a.len() {
        let bit = gate(alloc, c, op, a[i], b[i])?;
        word.push(bit)?;
    }
    Ok(word)
}

/// The gate of a pair of bits.
fn gate<C: Circuit>(
    alloc: Global,
    c: &mut C,
    op: Bitwise,
    x: C::Literal,
    y: C::Literal,
) -> Result<C::Literal, AllocError>
    requires own_x { C.has_literal c.old x }
    requires own_y { C.has_literal c.old y }
    ensures own { IfOk result (λ made. C.has_literal c.new made) }
    ensures value { IfOk result (λ made. (inputs : Seq Bool) → C.admits c.old inputs →
        bit (C.value c.new inputs made)
        ≡ bitwise op (bit (C.value c.old inputs x)) (bit (C.value c.old inputs y))) }
    ensures adds { Adds C.State c.old c.new 1 }
{
    match op {
        Bitwise::And => c.and(alloc, x, y),
        Bitwise::Or => or(alloc, c, x, y),
        Bitwise::Xor => c.xor(alloc, x, y),
    }
}
