//! Either of two literals, and any of a word's.
ghost use Rattle.std.specs.Prelude.{◌≡◌, Bool, ◌||◌, List as Seq, length, IfOk};
ghost use Rattle.std.specs.List.{All, list_any};
ghost use Rattle.circuits.specs.Circuit.{Adds};
ghost use Rattle.circuits.specs.Gates.{any_gates};
ghost use Rattle.circuits.specs.Kleene.{known_or};

use crate::circuit::Circuit;
use crate::gates::Gates;
use std::alloc::{AllocError, Global};

/// Either of two literals, or both. It adds at most one gate.
#[tactic(auto, using(crate::proofs::Truth::either_known))]
pub fn or<C: Gates>(
    alloc: Global,
    c: &mut C,
    a: C::Literal,
    b: C::Literal,
) -> Result<C::Literal, AllocError>
    requires own_a { C.has_literal c.old a }
    requires own_b { C.has_literal c.old b }
    ensures own { IfOk result (λ made. C.has_literal c.new made) }
    ensures value { IfOk result (λ made. (inputs : Seq Bool) → C.admits c.old inputs →
        C.value c.new inputs made ≡ (C.value c.old inputs a || C.value c.old inputs b)) }
    ensures known { IfOk result (λ made. (inputs : Seq Bool) →
        C.known c.new inputs made ≡ known_or (C.known c.old inputs a) (C.known c.old inputs b)) }
    ensures adds { Adds C.State c.old c.new 1 }
{
    let neither = c.and(alloc, c.not(a), c.not(b))?;
    Ok(c.not(neither))
}

/// Whether some literal of a word of width N is true. It adds at most N gates.
pub fn any<C: Circuit>(alloc: Global, c: &mut C, a: &[C::Literal]) -> Result<C::Literal, AllocError>
    requires { All (C.has_literal c.old) a.now }
    ensures own { IfOk result (λ some. C.has_literal c.new some) }
    ensures value { IfOk result (λ some. (inputs : Seq Bool) → C.admits c.old inputs →
        C.value c.new inputs some ≡ list_any (C.value c.old inputs) a.now) }
    ensures adds { Adds C.State c.old c.new (any_gates (length a.now)) }
{
    let mut some = c.zero();
    for bit in a {
        some = or(alloc, c, some, *bit)?;
    }
    Ok(some)
}
