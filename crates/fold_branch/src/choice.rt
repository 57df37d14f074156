//! Where branches and switches on numbers go.

ghost use Rattle.std.specs.Prelude.{◌≡◌, IfOk};
ghost use Rattle.ir_core.specs.Run.{switch_target};
ghost use Rattle.fold_branch.specs.Choices.{literal, chosen, decided_end};
ghost use Rattle.fold_branch.specs.Folded.{choices_of};

use ir_core::{Function, Operand, Terminator};
use ops::Word;
use std::alloc::{AllocError, Global};

/// The number that an operand is, if it is a literal one.
fn number(operand: Operand) -> Option<u64>
    ensures { result ≡ literal operand }
{
    match operand {
        Operand::Number(word) => Some(word.number()),
        _ => None,
    }
}

/// The block of the case with the number, and else the other.
fn case_target(cases: &[(Word, u32)], other: u32, n: u64) -> u32
    ensures { result ≡ switch_target cases.now other n }
{
    for (case, to) in cases {
        if case.number() == n {
            return *to;
        }
    }
    other
}

/// The block to which a branch or a switch goes, if its condition is a number.
pub(crate) fn choice(end: &Terminator) -> Option<u32>
    ensures { result ≡ chosen end.now }
{
    match end {
        Terminator::Branch(condition, to, other) => match number(*condition) {
            Some(1) => Some(*to),
            Some(_) => Some(*other),
            None => None,
        },
        Terminator::Switch(value, _, other, cases) => match number(*value) {
            Some(n) => Some(case_target(cases.as_slice(), *other, n)),
            None => None,
        },
        Terminator::Return(_) | Terminator::Jump(_) | Terminator::Unreachable => None,
    }
}

/// For each block of a function, the one that a number chooses at its end.
pub(crate) fn choices(alloc: Global, f: &Function) -> Result<Vec<Option<u32>>, AllocError>
    ensures { IfOk result (λ choices. choices.items ≡ choices_of f.now) }
{
    let mut choices = Vec::new(alloc);
    for block in f.blocks.as_slice() {
        choices.push(choice(&block.end))?;
    }
    Ok(choices)
}

/// Makes a branch or a switch on a number a jump to the block that the number chooses.
pub(crate) fn decide(end: &mut Terminator)
    ensures { end.new ≡ decided_end end.old }
{
    if let Some(to) = choice(end) {
        *end = Terminator::Jump(to);
    }
}
