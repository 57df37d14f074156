//! The keywords of flags.

ghost use Rattle.std.specs.Prelude.{◌≡◌};
ghost use Rattle.ops.specs.FlagKeywords as keywords;

use crate::Flags;
use crate::keywords::spelling::is;

/// A flag of an instruction.
#[derive(Clone, Copy)]
pub enum Flag {
    Nuw,
    Nsw,
    Exact,
    NNeg,
    Disjoint,
    SameSign,
}

/// The keyword of a flag.
pub fn flag_name(flag: Flag) -> &'static str
    ensures { result.now ≡ keywords.flag_keyword flag }
{
    match flag {
        Flag::Nuw => "nuw",
        Flag::Nsw => "nsw",
        Flag::Exact => "exact",
        Flag::NNeg => "nneg",
        Flag::Disjoint => "disjoint",
        Flag::SameSign => "samesign",
    }
}

/// Whether these flags have this one.
pub fn has_flag(flags: Flags, flag: Flag) -> bool
    ensures { result ≡ keywords.has_flag flags flag }
{
    match flag {
        Flag::Nuw => flags.nuw,
        Flag::Nsw => flags.nsw,
        Flag::Exact => flags.exact,
        Flag::NNeg => flags.nneg,
        Flag::Disjoint => flags.disjoint,
        Flag::SameSign => flags.samesign,
    }
}

/// These flags, with this one added.
pub fn with_flag(flags: Flags, flag: Flag) -> Flags
    ensures { result ≡ keywords.with_flag flags flag }
{
    match flag {
        Flag::Nuw => Flags { nuw: true, ..flags },
        Flag::Nsw => Flags { nsw: true, ..flags },
        Flag::Exact => Flags {
            exact: true,
            ..flags
        },
        Flag::NNeg => Flags {
            nneg: true,
            ..flags
        },
        Flag::Disjoint => Flags {
            disjoint: true,
            ..flags
        },
        Flag::SameSign => Flags {
            samesign: true,
            ..flags
        },
    }
}

/// Every flag, in the order in which an instruction's flags are written.
pub const EVERY_FLAG: [Flag; 6] = [
    Flag::Nuw,
    Flag::Nsw,
    Flag::Exact,
    Flag::NNeg,
    Flag::Disjoint,
    Flag::SameSign,
];

/// The flag that a keyword spells, if it is among those that an instruction takes.
#[tactic(auto, unfolding(crate::specs::FlagKeywords::flag_in))]
pub fn flag_of(taken: Flags, word: &[u8]) -> Option<Flag>
    ensures { result ≡ keywords.flag_in taken word.now }
{
    EVERY_FLAG.iter().copied().find(|flag| is(word, flag_name(*flag)) && has_flag(taken, *flag))
}
