//! Where a rule matches.

ghost use Rattle.std.specs.Prelude.{◌<◌, ◌≤◌, ◌^◌, length, All, IfOk, IfSome, IfNone};
ghost use Rattle.ir_core.specs.Blocks.{HasInst};
ghost use Rattle.ir_core.specs.Checks.{MeetsChecks};
ghost use Rattle.rule_core.specs.Checks.{IsRule};
ghost use Rattle.rule_typing.specs.Classes.{IsClassified};
ghost use Rattle.rule_typing.specs.Faults.{HasNoFault};
ghost use Rattle.bindings.specs.Facts.{AreFactsOf};
ghost use Rattle.bindings.specs.Known.{known_by};
ghost use Rattle.bindings.specs.Match.{IsMatch, MatchesInAnyOrder};
ghost use Rattle.bindings.specs.declared.binding.Binding.{Binding};

use crate::candidate::candidate;
use bindings::{
    Binding, FunctionFacts, is_match, is_root_operation, temporaries_stand_before_roots,
};
use ir_core::Function;
use known_bits::{Facts, facts_before};
use rule_core::Rule;
use std::alloc::{AllocError, Global};

/// The binding with which a rule matches at an instruction of a function, or `None` where it doesn't match there. Its
/// temporaries stand in the instruction's block or, with `across`, in whatever blocks, where they are assigned at it.
///
/// Where the instruction is the same operation as the rule's root, all blocks are searched for reached ones and for
/// uses of registers, and the bits of the results before it are found: [`match_in`] takes these as arguments. Elsewhere
/// it takes no memory.
pub fn match_at(
    alloc: Global,
    f: &Function,
    block: u32,
    place: u32,
    rule: &Rule,
    across: bool,
) -> Result<Option<Binding>, AllocError>
    requires checks { MeetsChecks f.now }
    // Blocks, and the instructions of each, are counted in 32 bits.
    requires blocks { length f.now.blocks < 2 ^ 32 }
    requires insts { All (λ b. length b.insts < 2 ^ 32) f.now.blocks }
    requires place { HasInst f.now block place }

    // The rule is one that was read from a file.
    requires rule { IsRule rule.now }
    requires classes { IsClassified rule.now }
    requires typed { HasNoFault rule.now }
    ensures ok { IfOk result (λ found. IfSome found (IsMatch across f.now block place rule.now)) }
    ensures none { IfOk result (λ found. IfNone found ((binding : Binding) → ¬ IsMatch across f.now block place rule.now binding)) }
{
    temporaries_stand_before_roots();
    if !is_root_operation(f, block, place, rule) {
        return Ok(None);
    }
    let facts = FunctionFacts::of(alloc, f)?;
    let known = facts_before(alloc, f, block, place)?;
    match_in(alloc, f, &facts, &known, block, place, rule, across)
}

/// The same, with the facts of the whole function and what is known of the results of the block as arguments, and
/// without regard to the order of instructions.
///
/// It takes as many steps as the rule has operands and nodes, for each of its classes; and no memory where the block
/// isn't reached, or the instruction isn't the same operation as the rule's root.
pub fn match_in(
    alloc: Global,
    f: &Function,
    facts: &FunctionFacts,
    known: &Facts,
    block: u32,
    place: u32,
    rule: &Rule,
    across: bool,
) -> Result<Option<Binding>, AllocError>
    requires insts { All (λ b. length b.insts < 2 ^ 32) f.now.blocks }
    requires facts { AreFactsOf f.now facts.now }
    requires few { All (λ bits. length bits ≤ 64) known.now.results }
    requires place { HasInst f.now block place }
    requires rule { IsRule rule.now }
    requires classes { IsClassified rule.now }
    requires typed { HasNoFault rule.now }
    ensures ok { IfOk result (λ found. IfSome found (MatchesInAnyOrder across (known_by known.now) f.now block place rule.now)) }
    ensures none { IfOk result (λ found. IfNone found ((binding : Binding)
        → ¬ MatchesInAnyOrder across (known_by known.now) f.now block place rule.now binding)) }
{
    if !facts.flow.reached(block) || !is_root_operation(f, block, place, rule) {
        return Ok(None);
    }
    let Some(binding) = candidate(alloc, f, block, place, rule)? else {
        return Ok(None);
    };
    if is_match(f, facts, known, rule, &binding, across) {
        Ok(Some(binding))
    } else {
        Ok(None)
    }
}
