//! The words of the command line.

use super::clause_sets::Family;

/// What the words of the command line ask for.
#[derive(Clone, Copy, Debug)]
pub(super) struct Command {
    pub(super) family: Family,
    /// Whether the times are printed.
    pub(super) timed: bool,
}

impl Command {
    /// What the words ask for.
    pub(super) fn of_words(words: &[String]) -> Option<Command> {
        let (set, timed) = match words {
            [set @ .., last] if last.as_str() == "untimed" => (set, false),
            _ => (words, true),
        };
        Some(Command {
            family: family(set)?,
            timed,
        })
    }
}

/// The set that the words name.
fn family(words: &[String]) -> Option<Family> {
    let [kind, numbers @ ..] = words else {
        return None;
    };
    match (kind.as_str(), numbers) {
        ("random", [inputs, clauses, seed]) => Some(Family::Random {
            inputs: inputs.as_str().parse().ok()?,
            clauses: clauses.as_str().parse().ok()?,
            seed: seed.as_str().parse().ok()?,
        }),
        ("pigeonhole", [pigeons]) => Some(Family::Pigeonhole {
            pigeons: pigeons.as_str().parse().ok()?,
        }),
        ("parity", [inputs, seed]) => Some(Family::Parity {
            inputs: inputs.as_str().parse().ok()?,
            seed: seed.as_str().parse().ok()?,
        }),
        _ => None,
    }
}
