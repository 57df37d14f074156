//! The one binding that a match can have.

ghost use Rattle.std.specs.Prelude.{◌≡◌, ◌<◌, ◌^◌, Bool, length, All, IfOk, IfSome, Some};
ghost use Rattle.rule_core.specs.Checks.{IsRule};
ghost use Rattle.rule_typing.specs.Classes.{IsClassified};
ghost use Rattle.rule_typing.specs.Faults.{HasNoFault};
ghost use Rattle.bindings.specs.Known.{Knowledge};
ghost use Rattle.bindings.specs.Match.{MatchesInAnyOrder};
ghost use Rattle.bindings.specs.declared.binding.Binding.{Binding};

use crate::slots::Slots;
use bindings::Binding;
use ir_core::{Function, Register};
use rule_core::Rule;
use std::alloc::{AllocError, Global};

/// The one binding with which the rule can match at an instruction. It is read off from the root down: a later
/// statement reads the result of each other one, so what that is bound to is known when its turn comes, in whatever
/// block it stands.
pub(crate) fn candidate(
    alloc: Global,
    f: &Function,
    block: u32,
    place: u32,
    rule: &Rule,
) -> Result<Option<Binding>, AllocError>
    requires insts { All (λ b. length b.insts < 2 ^ 32) f.now.blocks }
    requires rule { IsRule rule.now }
    requires classes { IsClassified rule.now }
    requires typed { HasNoFault rule.now }
    ensures forced { IfOk result (λ found.
        (across : Bool) (known : Knowledge) (m : Binding) → MatchesInAnyOrder across known f.now block place rule.now m → found ≡ Some m) }
    ensures place { IfOk result (λ found. IfSome found (λ binding. (binding.block ≡ block) × (binding.place ≡ place))) }
{
    let mut slots = Slots::new(alloc, rule, Register::Result(block, place))?;
    let source = rule.source.as_slice();
    for j in (0..source.len()).rev() {
        if !slots.take_statement(f, j, &source[j]) {
            return Ok(None);
        }
    }
    slots.binding(alloc, block, place)
}
