//! The matches of rules at the instructions of a function.

ghost use Rattle.std.specs.Prelude.{◌≡◌, ◌<◌, ◌≤◌, ◌^◌, ◌++◌, length, option_to_list, All, IfOk, OnOk};
ghost use Rattle.ir_core.specs.Blocks.{HasInst};
ghost use Rattle.ir_core.specs.Checks.{IsInst, MeetsChecks};
ghost use Rattle.bindings.specs.Facts.{AreFactsOf};
ghost use Rattle.rule_matches.specs.Found.{IsOf};
ghost use Rattle.ir_core.specs.declared.operand.Operand.{Operand as Named};
ghost use Rattle.bindings.specs.Known.{AskBits, known_by, known_in};
ghost use Rattle.bindings.specs.Ready.{AreReady};
ghost use Rattle.bindings.specs.Matches.{AreMatchesInAnyOrder, AreMatchesWhere, IsAt};
ghost use Rattle.rule_matches.specs.Roots.{AreByRoot};

use crate::roots::RulesByRoot;
use bindings::{FunctionFacts, Match, temporaries_stand_before_roots};
use ir_core::{Function, Inst};
use known_bits::Facts;
use lists::List;
use matcher::match_in;
use rule_core::Rule;
use std::alloc::{AllocError, Global};

/// The rules that are applied.
#[derive(Clone, Copy)]
pub struct Rules<'a> {
    pub all: &'a [Rule],
    pub by_root: &'a RulesByRoot,
    /// Whether what a rule matches may stand in several blocks.
    pub across: bool,
}

/// All matches of the rules at an instruction, in the order of the rules. What is known of the results before it in its
/// block is an argument, which is asked for only where a rule says something of bits.
///
/// Only rules whose root is of the instruction's kind are tried. The only error is want of memory.
pub fn matches_at(
    alloc: Global,
    f: &Function,
    facts: &FunctionFacts,
    known: &Facts,
    rules: &Rules<'_>,
    block: u32,
    place: u32,
) -> Result<List<Match>, AllocError>
    requires checks { MeetsChecks f.now }
    requires insts { All (λ b. length b.insts < 2 ^ 32) f.now.blocks }
    requires facts { AreFactsOf f.now facts.now }
    requires few { All (λ bits. length bits ≤ 64) known.now.results }
    requires ready { AreReady rules.now.all.now }
    requires by_root { AreByRoot rules.now.all.now rules.now.by_root.now }
    requires place { HasInst f.now block place }
    requires known { AskBits rules.now.all.now → (x : Named) → known_by known.now block place x ≡ known_in f.now block place x }
    ensures { IfOk result (AreMatchesWhere rules.now.across rules.now.all.now f.now (IsAt block place)) }
{
    temporaries_stand_before_roots();
    matches_in_any_order(alloc, f, facts, known, rules, block, place)
}

/// The same without regard to the order of instructions, as in the arena of a draft, and by what is known of the
/// results of the block, whatever that is.
pub fn matches_in_any_order(
    alloc: Global,
    f: &Function,
    facts: &FunctionFacts,
    known: &Facts,
    rules: &Rules<'_>,
    block: u32,
    place: u32,
) -> Result<List<Match>, AllocError>
    requires insts { All (λ b. length b.insts < 2 ^ 32) f.now.blocks }
    requires facts { AreFactsOf f.now facts.now }
    requires few { All (λ bits. length bits ≤ 64) known.now.results }
    requires ready { AreReady rules.now.all.now }
    requires by_root { AreByRoot rules.now.all.now rules.now.by_root.now }
    requires place { HasInst f.now block place }
    ensures { IfOk result (AreMatchesInAnyOrder rules.now.across (known_by known.now) rules.now.all.now f.now (IsAt block place)) }
{
    let inst = inst_at(f, block, place);
    let mut found = List::new(alloc);
    for rule in rules.by_root.at(&inst.op) {
        let matched = match_of(alloc, f, facts, known, rules, block, place, *rule)?;
        push_if_any(&mut found, matched)?;
    }
    Ok(found)
}

/// The instruction at a place.
fn inst_at(f: &Function, block: u32, place: u32) -> &Inst
    requires { HasInst f.now block place }
    ensures { IsInst f.now block place result.now }
{
    let written_in = &f.blocks.as_slice()[block as usize];
    &written_in.insts.as_slice()[place as usize]
}

/// The match of a rule at an instruction, if it matches there.
fn match_of(
    alloc: Global,
    f: &Function,
    facts: &FunctionFacts,
    known: &Facts,
    rules: &Rules<'_>,
    block: u32,
    place: u32,
    rule: u32,
) -> Result<Option<Match>, AllocError>
    requires insts { All (λ b. length b.insts < 2 ^ 32) f.now.blocks }
    requires facts { AreFactsOf f.now facts.now }
    requires few { All (λ bits. length bits ≤ 64) known.now.results }
    requires ready { AreReady rules.now.all.now }
    requires place { HasInst f.now block place }
    requires rule { rule < length rules.now.all.now }
    ensures { IfOk result (λ matched. AreMatchesInAnyOrder rules.now.across (known_by known.now) rules.now.all.now f.now (IsOf block place rule) (option_to_list matched)) }
{
    let tried = &rules.all[rule as usize];
    let matched = match_in(alloc, f, facts, known, block, place, tried, rules.across)?;
    let Some(binding) = matched else {
        return Ok(None);
    };
    Ok(Some(Match { rule, binding }))
}

/// Adds a match at the end, if there is one.
fn push_if_any(found: &mut List<Match>, matched: Option<Match>) -> Result<(), AllocError>
    ensures { OnOk result (found.new ≡ found.old ++ option_to_list matched) }
{
    if let Some(one) = matched {
        found.push(one)?;
    }
    Ok(())
}
