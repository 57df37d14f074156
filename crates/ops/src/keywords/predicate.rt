//! The keywords of predicates.

ghost use Rattle.std.specs.Prelude.{◌≡◌};
ghost use Rattle.ops.specs.Keywords.{predicate_keyword, pred_in};

use crate::Pred;
use crate::keywords::spelling::is;

fn predicate_name(pred: Pred) -> &'static str
    ensures { result.now ≡ predicate_keyword pred }
{
    match pred {
        Pred::Eq => "eq",
        Pred::Ne => "ne",
        Pred::Ugt => "ugt",
        Pred::Uge => "uge",
        Pred::Ult => "ult",
        Pred::Ule => "ule",
        Pred::Sgt => "sgt",
        Pred::Sge => "sge",
        Pred::Slt => "slt",
        Pred::Sle => "sle",
    }
}

const PREDICATES: [Pred; 10] = [
    Pred::Eq,
    Pred::Ne,
    Pred::Ugt,
    Pred::Uge,
    Pred::Ult,
    Pred::Ule,
    Pred::Sgt,
    Pred::Sge,
    Pred::Slt,
    Pred::Sle,
];

/// The predicate that a keyword spells.
#[tactic(auto, unfolding(crate::specs::Keywords::pred_in))]
pub fn predicate_of(word: &[u8]) -> Option<Pred>
    ensures { result ≡ pred_in word.now }
{
    PREDICATES
        .iter()
        .copied()
        .find(|pred| is(word, predicate_name(*pred)))
}
