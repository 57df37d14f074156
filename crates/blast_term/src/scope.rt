//! What statements and terms may read, as literals.
ghost use Rattle.std.specs.Prelude.{◌≡◌, ◌<◌, length, slice_get, Some, IsSome, IfOk};
ghost use Rattle.blast_term.specs.Scope.{held_at};

use blast_value::Held;
use circuits::Bits;
use lists::List;
use rule_core::Register;
use std::alloc::{AllocError, Global};

/// What statements and terms may read: the values of registers, and the numbers of everything else.
#[derive(Clone, Copy)]
pub struct Scope<'a, L> {
    pub inputs: &'a [Held<L>],
    /// The values that the statements of the source before this point have assigned.
    pub source: &'a [Held<L>],
    /// The values that the statements of the target before this point have assigned.
    pub target: &'a [Held<L>],
    /// The number of each abstract constant.
    pub constants: &'a [Bits<L>],
    /// The number of each choice (of an `undef` or a freeze) of a half.
    pub choices: &'a [Bits<L>],
    /// The number of each node of the rule's constant terms, 0 where it has no value.
    pub terms: &'a [Bits<L>],
}

/// The literals of a register.
pub fn register_held<'a, L>(scope: Scope<'a, L>, register: Register) -> &'a Held<L>
    requires { IsSome (held_at scope register) }
    ensures { held_at scope.entry register ≡ Some result.now }
{
    match register {
        Register::Input(k) => at(scope.inputs, k),
        Register::Source(k) => at(scope.source, k),
        Register::Target(k) => at(scope.target, k),
    }
}

/// The element at a place.
pub fn at<T>(items: &[T], place: u32) -> &T
    requires { place < length items.now }
    ensures { slice_get items.now place ≡ Some result.now }
{
    &items[place as usize]
}

/// A copy of the literals.
pub fn copied<L: Copy>(alloc: Global, held: &Held<L>) -> Result<Held<L>, AllocError>
    ensures { IfOk result (λ copy. copy ≡ held.now) }
{
    Ok(Held {
        bits: word_copied(alloc, &held.bits)?,
        poison: held.poison,
    })
}

/// A copy of the word.
pub(crate) fn word_copied<L: Copy>(alloc: Global, word: &Bits<L>) -> Result<Bits<L>, AllocError>
    ensures { IfOk result (λ copy. copy ≡ word.now) }
{
    Ok(List::from_vec(Vec::from_slice(alloc, word.as_slice())?))
}
