//! The run of false bits that a word begins with.
ghost use Rattle.std.specs.Prelude.{◌≡◌, Bool, not, List as Seq, filter, length, IfOk};
ghost use Rattle.std.specs.List.{All, prefix_len};
ghost use Rattle.circuits.specs.Circuit.{Adds};

use circuits::{Bits, Circuit};
use lists::List;
use std::alloc::{AllocError, Global};

/// For each bit of a word in order, whether it and all before it are false. As many of these are true as bits are false
/// before the first that is true. It adds at most a gate a bit.
pub(crate) fn clear_run<C: Circuit>(
    alloc: Global,
    c: &mut C,
    a: &[C::Literal],
) -> Result<Bits<C::Literal>, AllocError>
    requires { All (C.has_literal c.old) a.now }
    ensures own { IfOk result (All (C.has_literal c.new)) }
    ensures width { IfOk result (λ run. length run ≡ length a.now) }
    ensures count { IfOk result (λ run. (inputs : Seq Bool) → C.admits c.old inputs →
        length (filter (C.value c.new inputs) run) ≡ prefix_len (λ l. not (C.value c.old inputs l)) a.now) }
    ensures adds { Adds C.State c.old c.new (length a.now) }
{
    let mut run = List::new(alloc);
    let mut clear = c.one();
    for bit in a {
        clear = c.and(alloc, clear, c.not(*bit))?;
        run.push(clear)?;
    }
    Ok(run)
}
