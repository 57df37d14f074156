//! Words of literals, and the plain ways to make one.
ghost use Rattle.std.specs.Prelude.{◌≡◌, Bool, not, if◌then◌else◌, List as Seq, map, replicate, length, IfOk};
ghost use Rattle.std.specs.List.{All};
ghost use Rattle.circuits.specs.Circuit.{Adds};
ghost use Rattle.circuits.specs.Gates.{select_gates};
ghost use Rattle.circuits.specs.Kleene.{known_not};

use crate::circuit::Circuit;
use crate::gates::Gates;
use lists::List;
use std::alloc::{AllocError, Global};

/// A word: its bits as literals, the lowest first. So its width is the number of its literals.
pub type Bits<L> = List<L>;

/// The word of the negations of a word's bits. It makes no gate.
pub fn inverted<C: Gates>(
    alloc: Global,
    c: &C,
    a: &[C::Literal],
) -> Result<Bits<C::Literal>, AllocError>
    requires { All (C.has_literal c.now) a.now }
    ensures own { IfOk result (All (C.has_literal c.now)) }
    ensures width { IfOk result (λ word. length word ≡ length a.now) }
    ensures values { IfOk result (λ word. (inputs : Seq Bool) → C.admits c.now inputs →
        map (C.value c.now inputs) word ≡ map not (map (C.value c.now inputs) a.now)) }
    ensures known { IfOk result (λ word. (inputs : Seq Bool) →
        map (C.known c.now inputs) word ≡ map known_not (map (C.known c.now inputs) a.now)) }
{
    let mut word = List::new(alloc);
    for bit in a {
        word.push(c.not(*bit))?;
    }
    Ok(word)
}

/// The word of a literal a number of times. It makes no gate.
pub fn repeated<L: Copy>(alloc: Global, literal: L, width: usize) -> Result<Bits<L>, AllocError>
    ensures { IfOk result (λ word. word ≡ replicate width literal) }
{
    let mut word = Vec::new(alloc);
    word.resize(width, literal)?;
    Ok(List::from_vec(word))
}

/// Bit by bit the word `yes` where `condition` is true, and else the word `no`. It adds at most a gate a bit.
pub fn select<C: Circuit>(
    alloc: Global,
    c: &mut C,
    condition: C::Literal,
    yes: &[C::Literal],
    no: &[C::Literal],
) -> Result<Bits<C::Literal>, AllocError>
    requires same_width { length no.now ≡ length yes.now }
    requires own_condition { C.has_literal c.old condition }
    requires own_yes { All (C.has_literal c.old) yes.now }
    requires own_no { All (C.has_literal c.old) no.now }
    ensures own { IfOk result (All (C.has_literal c.new)) }
    ensures width { IfOk result (λ word. length word ≡ length yes.now) }
    ensures values { IfOk result (λ word. (inputs : Seq Bool) → C.admits c.old inputs →
        map (C.value c.new inputs) word
        ≡ (if C.value c.old inputs condition
        then map (C.value c.old inputs) yes.now else map (C.value c.old inputs) no.now)) }
    ensures adds { Adds C.State c.old c.new (select_gates (length yes.now)) }
{
    let mut word = List::new(alloc);
    for i in 0..yes.len() {
        let bit = c.mux(alloc, condition, yes[i], no[i])?;
        word.push(bit)?;
    }
    Ok(word)
}
