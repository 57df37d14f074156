//! Repeated productions.

ghost use Rattle.std.specs.Prelude.{◌≡◌, OnErr};
ghost use Rattle.ir_tokens.specs.SeenTokens.{seen};
ghost use Rattle.refusal.specs.Refusals.{Gives};
ghost use Rattle.ir_instructions.specs.Readers.{TakesSome, each_at};

use ir_tokens::{IrError, Placed};
use lists::List;
use std::alloc::Global;

/// A production of the grammar that may be repeated, one behind the other.
pub trait Part {
    ghost use Rattle.std.specs.Prelude.{◌≡◌, Bool, List as Seq};
    ghost use Rattle.ir_tokens.specs.Tokens.{Placed as PlacedToken};
    ghost use Rattle.ir_instructions.specs.Readers.{Reader};

    /// Its syntax tree.
    type Value: Drop;

    /// Whether another one begins with the first token: the lookahead.
    ghost begins: { Seq PlacedToken → Bool };

    /// The specification of `read`.
    ghost reader: { Reader Self.Value };

    /// Whether another one is next.
    fn is_next(tokens: &[Placed<'_>]) -> bool
        ensures { result ≡ begins (seen tokens.now) };

    /// Parses one, and moves behind it.
    fn read(alloc: Global, tokens: &mut &[Placed<'_>]) -> Result<Self::Value, IrError>
        ensures { Gives (λ x. (x, seen tokens.new.now)) result (reader (seen tokens.old.now)) };
}

/// Parses the production as long as another one is next, and appends what it parses to those in front. Where one is
/// refused the tokens stay where they were.
pub fn each<P: Part>(
    alloc: Global,
    front: List<P::Value>,
    tokens: &mut &[Placed<'_>],
) -> Result<List<P::Value>, IrError>
    requires { TakesSome P.begins P.reader }
    ensures read { Gives (λ x. (x, seen tokens.new.now)) result (each_at P.begins P.reader front (seen tokens.old.now)) }
    ensures unmoved { OnErr result (tokens.new.now ≡ tokens.old.now) }
{
    let mut parts = front;
    let mut rest = *tokens;
    'parts: while P::is_next(rest) {
        parts.push(P::read(alloc, &mut rest)?)?;
    }
    *tokens = rest;
    Ok(parts)
}
