//! What a reader or a check returns in place of a value.

ghost use Rattle.std.specs.Prelude.{◌≡◌};
ghost use Rattle.refusal.specs.declared.refusal.Refusal.TheVariants as refusals;

use crate::fault::Fault;
use std::alloc::{AllocError, AllocFailed};

/// Why there is no answer.
#[derive(Drop)]
pub enum Refusal<F> {
    /// What was given has this fault.
    Refused(F),
    /// There was no memory.
    NoMemory,
}

impl<F> From<AllocError> for Refusal<F> {
    ghost from_gives = { λ _ refusal. refusal ≡ refusals.NoMemory };

    fn from(_error: AllocError) -> Refusal<F> {
        Refusal::NoMemory
    }
}

impl<F, T: Drop> From<AllocFailed<T>> for Refusal<F> {
    ghost from_gives = { λ _ refusal. refusal ≡ refusals.NoMemory };

    fn from(_error: AllocFailed<T>) -> Refusal<F> {
        Refusal::NoMemory
    }
}

/// A check that allocates nothing returns a bare `Fault`; `?` makes it a refusal.
impl<K> From<Fault<K>> for Refusal<Fault<K>> {
    ghost from_gives = { λ fault refusal. refusal ≡ refusals.Refused fault };

    fn from(fault: Fault<K>) -> Refusal<Fault<K>> {
        Refusal::Refused(fault)
    }
}

/// The refusal for a fault of this kind on a line.
pub fn refused<K>(line: usize, kind: K) -> Refusal<Fault<K>>
    ensures { result ≡ refusals.Refused (record { line = line; kind = kind }) }
{
    Refusal::Refused(Fault { line, kind })
}
