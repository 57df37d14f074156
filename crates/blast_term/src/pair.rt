//! Instructions on two operands.
ghost use Rattle.std.specs.Prelude.{◌≡◌, [], ◌∷◌, Bool, List as Seq, length, IfOk};
ghost use Rattle.circuits.specs.Circuit.{Adds};
ghost use Rattle.blast_value.specs.Effect.{held_value, effect_of, IsOwn, IsOwnEffect};
ghost use Rattle.blast_value.specs.Gates.{gates_of, greatest};
ghost use Rattle.blast_value.specs.Meaning.{Takes, HasEffect};

use crate::scope::copied;
use blast_value::{Blasted, Held, Instruction, blast_value};
use circuits::Circuit;
use lists::List;
use ops::Width;
use std::alloc::{AllocError, Global};

/// The effect of an instruction on two operands.
pub(crate) fn blast_pair<C: Circuit>(
    alloc: Global,
    c: &mut C,
    what: Instruction,
    width: Width,
    left: &Held<C::Literal>,
    right: &Held<C::Literal>,
) -> Result<Blasted<C::Literal>, AllocError>
    requires operands { Takes what width (length left.now.bits ∷ length right.now.bits ∷ []) }
    requires own_left { IsOwn (C.has_literal c.old) left.now }
    requires own_right { IsOwn (C.has_literal c.old) right.now }
    ensures effect { IfOk result (λ made. (inputs : Seq Bool) → C.admits c.old inputs →
        HasEffect what width
        (held_value (C.value c.old inputs) left.now ∷ held_value (C.value c.old inputs) right.now ∷ [])
        (effect_of (C.value c.new inputs) made)) }
    ensures width { IfOk result (λ made. length made.bits ≡ width) }
    ensures own { IfOk result (IsOwnEffect (C.has_literal c.new)) }
    ensures adds { Adds C.State c.old c.new
        (gates_of what width (greatest (length left.now.bits ∷ length right.now.bits ∷ []))) }
{
    let operands = pair(alloc, left, right)?;
    blast_value(alloc, c, what, width, &operands)
}

/// The two operands as a list, copied.
fn pair<L: Copy>(
    alloc: Global,
    left: &Held<L>,
    right: &Held<L>,
) -> Result<List<Held<L>>, AllocError>
    ensures { IfOk result (λ operands. operands ≡ left.now ∷ right.now ∷ []) }
{
    let mut operands = List::new(alloc);
    operands.push(copied(alloc, left)?)?;
    operands.push(copied(alloc, right)?)?;
    Ok(operands)
}
