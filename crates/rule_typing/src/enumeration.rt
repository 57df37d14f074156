//! The typings of a rule over a list of widths.

ghost use Rattle.std.specs.Prelude.{◌≡◌, ◌<◌, ℕ, length, slice_get, slice_index, Some, IfOk};
ghost use Rattle.rule_typing.specs.declared.widths.Widths.{Widths};
ghost use Rattle.rule_typing.specs.Classes.{IsClassified, HasClasses};
ghost use Rattle.rule_typing.specs.AllTypings.{IsAnswer, MayChoose, ComesBefore, IsFirstOf};
ghost use Rattle.rule_typing.specs.Solutions.{Has, HasExactly, IsLeast, GoesOn, FindsLeast, Solves, SolvesBehind};

use crate::answer::Typings;
use crate::fits::class_count;
use crate::solving::settle;
use crate::widths::{Widths, choices_of_class};
use lists::List;
use ops::Width;
use rule_core::{Rule, Typing};
use std::alloc::{AllocError, Global};

/// The typings of the rule, whose classes are written, over a list of widths: a class with a fixed width has that one,
/// and each other one of the list. The answer is `TooMany` exactly where there are more than `most`.
///
/// Each typing is found from the one before it, and after `most` of them at most one more is looked for. To find one,
/// widths are raised to the least that casts allow, at most once for each class: as `settle` says, in at most 64 steps
/// for each class.
pub fn typings(
    alloc: Global,
    rule: &Rule,
    widths: &List<Width>,
    most: u32,
) -> Result<Typings, AllocError>
    requires { IsClassified rule.now }
    ensures { IfOk result (IsAnswer rule.now widths.now most) }
{
    let sets = choices(alloc, rule, widths.as_slice())?;
    let mut found = List::new(alloc);
    let mut next = least_typing(alloc, rule, &sets, &[], 0)?;
    while let Some(typing) = next {
        if found.len() >= most as usize {
            return Ok(Typings::TooMany);
        }
        next = next_typing(alloc, rule, &sets, typing.as_slice())?;
        found.push(typing)?;
    }
    Ok(Typings::All(found))
}

/// The set of widths that each class may have, in the order of the classes.
fn choices(alloc: Global, rule: &Rule, widths: &[Width]) -> Result<Vec<Widths>, AllocError>
    requires classes { IsClassified rule.now }
    ensures count { IfOk result (λ sets. HasClasses rule.now (length sets.items)) }
    ensures each { IfOk result (λ sets. (c : ℕ) (set : Widths) → slice_get sets.items c ≡ Some set → HasExactly set (MayChoose rule.now widths.now c)) }
{
    let mut sets = Vec::new(alloc);
    for class in 0..class_count(rule) {
        sets.push(choices_of_class(rule, widths, class))?;
    }
    Ok(sets)
}

/// The next typing in lexicographic order: it shares as long a beginning with this one as can be, and has a larger
/// width behind that.
fn next_typing(
    alloc: Global,
    rule: &Rule,
    sets: &[Widths],
    typing: &[Width],
) -> Result<Option<Typing>, AllocError>
    requires count { HasClasses rule.now (length sets.now) }
    requires solves { Solves rule.now sets.now typing.now }
    ensures { IfOk result (IsFirstOf (λ other. Solves rule.now sets.now other × ComesBefore typing.now other)) }
{
    for place in (0..typing.len()).rev() {
        let (beginning, bound) = (&typing[..place], typing[place].bits());
        if let Some(next) = least_typing(alloc, rule, sets, beginning, bound)? {
            return Ok(Some(next));
        }
    }
    Ok(None)
}

/// The least typing that begins with these widths and has one above the bound next.
fn least_typing(
    alloc: Global,
    rule: &Rule,
    sets: &[Widths],
    beginning: &[Width],
    bound: u32,
) -> Result<Option<Typing>, AllocError>
    requires count { HasClasses rule.now (length sets.now) }
    requires beginning { (c : ℕ) (set : Widths) → c < length beginning.now → slice_get sets.now c ≡ Some set → Has set (slice_index beginning.now c) }
    ensures { IfOk result (FindsLeast (SolvesBehind rule.now sets.now beginning.now bound)) }
{
    let mut widths = Vec::new(alloc);
    for (class, set) in sets.iter().enumerate() {
        match least_width(set, beginning, bound, class) {
            None => return Ok(None),
            Some(width) => widths.push(width)?,
        }
    }
    if settle(rule, sets, beginning.len(), &mut widths) {
        Ok(Some(List::from_vec(widths)))
    } else {
        Ok(None)
    }
}

/// The least width of a set that may stand at the place of the class in such a typing.
fn least_width(set: &Widths, beginning: &[Width], bound: u32, class: usize) -> Option<Width>
    requires { class < length beginning.now → Has set.now (slice_index beginning.now class) }
    ensures { IsLeast (λ N. Has set.now N × GoesOn beginning.now bound class N) result }
{
    if class < beginning.len() {
        Some(beginning[class])
    } else if class == beginning.len() {
        set.above(bound)
    } else {
        set.above(0)
    }
}
