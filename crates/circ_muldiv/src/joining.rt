//! Words that are put together from the bits of others.
ghost use Rattle.std.specs.Prelude.{◌≡◌, ◌∷◌, ◌++◌, IfOk};

use circuits::Bits;
use lists::List;
use std::alloc::{AllocError, Global};

/// The word of these lower bits and, above them, of these upper ones.
pub(crate) fn joined<L: Copy>(
    alloc: Global,
    lower: &[L],
    upper: &[L],
) -> Result<Bits<L>, AllocError>
    ensures { IfOk result (λ word. word ≡ lower.now ++ upper.now) }
{
    let mut word = Vec::from_slice(alloc, lower)?;
    word.extend_from_slice(upper)?;
    Ok(List::from_vec(word))
}

/// A word with one more bit below its lowest.
pub(crate) fn with_lowest<L: Copy>(
    alloc: Global,
    lowest: L,
    higher: &[L],
) -> Result<Bits<L>, AllocError>
    ensures { IfOk result (λ word. word ≡ lowest ∷ higher.now) }
{
    let mut word = Vec::new(alloc);
    word.push(lowest)?;
    word.extend_from_slice(higher)?;
    Ok(List::from_vec(word))
}
