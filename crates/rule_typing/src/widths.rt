//! Sets of widths.

ghost use Rattle.std.specs.Prelude.{◌≡◌, ◌<◌, ◌⊎◌};
ghost use Rattle.std.specs.Prelude.{Contains};
ghost use Rattle.rule_typing.specs.FittingWidths.{MayHaveWidth};
ghost use Rattle.rule_typing.specs.AllTypings.{MayChoose};
ghost use Rattle.rule_typing.specs.Solutions.{Has, HasExactly, IsLeast};

use crate::fits::class_fits;
use crate::fixed::fixed_width;
use ops::Width;
use rule_core::Rule;

/// A set of widths. It takes no memory.
#[derive(Clone, Copy)]
pub(crate) struct Widths {
    /// At place N: whether the width N is in the set.
    has: [bool; 65],
}

impl Widths {
    /// The empty set.
    pub(crate) fn none() -> Widths
        ensures { HasExactly result (λ N. ⊥) }
    {
        Widths { has: [false; 65] }
    }

    /// Adds a width.
    fn insert(&mut self, width: Width)
        ensures { HasExactly self.new (λ N. Has self.old N ⊎ (N ≡ width)) }
    {
        self.has[width.bits() as usize] = true;
    }

    /// The least width of the set with more bits than these.
    pub(crate) fn above(&self, bound: u32) -> Option<Width>
        ensures { IsLeast (λ N. Has self.now N × (bound < N)) result }
    {
        for bits in 1..=64 {
            if bits > bound && self.has[bits as usize] {
                return Width::new(bits);
            }
        }
        None
    }
}

/// The widths that a class may have, whatever the others have.
pub(crate) fn widths_of_class(rule: &Rule, class: usize) -> Widths
    ensures { HasExactly result (MayHaveWidth rule.now class) }
{
    let mut set = Widths::none();
    for bits in 1..=64 {
        let Some(width) = Width::new(bits) else {
            return set;
        };
        if class_fits(rule, class, width) {
            set.insert(width);
        }
    }
    set
}

/// Those of them that are fixed or in the list.
pub(crate) fn choices_of_class(rule: &Rule, widths: &[Width], class: usize) -> Widths
    ensures { HasExactly result (MayChoose rule.now widths.now class) }
{
    match fixed_width(rule, class) {
        Some(_) => widths_of_class(rule, class),
        None => listed_choices(rule, widths, class),
    }
}

/// The widths of the list that the class may have.
fn listed_choices(rule: &Rule, widths: &[Width], class: usize) -> Widths
    ensures { HasExactly result (λ N. Contains widths.now N × MayHaveWidth rule.now class N) }
{
    let mut set = Widths::none();
    for width in widths {
        if class_fits(rule, class, *width) {
            set.insert(*width);
        }
    }
    set
}
