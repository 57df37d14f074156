//! Choices: one of the source has the width of the expression that gives its number, and one of the target that of each
//! position with its name.

ghost use Rattle.std.specs.Prelude.{◌≡◌};
ghost use Rattle.rule_typing.specs.Splits.{chosen_class, choice_pairs, choice_naming, IsPairIn, LineOf, ChoicesLine, Splits};

use crate::half::Half;
use crate::lines::split_classes;
use crate::names::{choice_naming, split_by_name};
use crate::term_lines::node_class;
use rule_core::{Choice, Rule};

/// Two different classes that one of these choices of a half asks to be of one width, or `None`.
pub(crate) fn split_by_choices(rule: &Rule, half: Half, choices: &[Choice]) -> Option<(u32, u32)>
    ensures { Splits (ChoicesLine rule.now half choices.now) result }
{
    for choice in choices {
        if let Some(pair) = split_by_choice(rule, half, *choice) {
            return Some(pair);
        }
    }
    None
}

/// The same for one choice.
fn split_by_choice(rule: &Rule, half: Half, choice: Choice) -> Option<(u32, u32)>
    ensures { Splits (LineOf rule.now (choice_pairs rule.now half) (choice_naming half) choice) result }
{
    match split_by_expression(rule, half, choice) {
        Some(pair) => Some(pair),
        None => split_by_name(rule, choice_naming(half, choice)),
    }
}

/// The class of a choice of the source and that of the expression that gives its number, if they differ.
fn split_by_expression(rule: &Rule, half: Half, choice: Choice) -> Option<(u32, u32)>
    ensures { Splits (IsPairIn (choice_pairs rule.now half choice)) result }
{
    match half {
        Half::Source => split_classes(Some(choice.class), chosen_class(rule, choice.place)),
        Half::Target => None,
    }
}

/// The class of the expression that `Wit:` has for a choice of the source.
fn chosen_class(rule: &Rule, place: u32) -> Option<u32>
    ensures { result ≡ chosen_class rule.now place }
{
    let witnesses = rule.witnesses.as_slice();
    if (place as usize) < witnesses.len() {
        node_class(rule.witness_terms.as_slice(), witnesses[place as usize])
    } else {
        None
    }
}
