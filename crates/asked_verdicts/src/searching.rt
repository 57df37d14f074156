//! Searches for an admitted match, among some matches and in a function, instruction by instruction: no more matches
//! are held in memory than those at one instruction.

ghost use Rattle.std.specs.Prelude.{◌≡◌, ◌+◌, ◌<◌, ◌≤◌, ◌^◌, Bool, map, length, take, All, Any, IsTrue, MatchBool, IfOk, OnOk};
ghost use Rattle.ir_core.specs.Blocks.{HasInst};
ghost use Rattle.ir_core.specs.Checks.{IsFormed, IsInst, MeetsChecks};
ghost use Rattle.ir_core.specs.declared.function.Function.{Function as FunctionSearched};
ghost use Rattle.bindings.specs.Facts.{AreFactsOf};
ghost use Rattle.cdcl_log.specs.Found.{most_conflicts};
ghost use Rattle.bindings.specs.Known.{AskBits, Knowledge};
ghost use Rattle.known_bits.specs.KnownBits.{insts_of, known_results};
ghost use Rattle.bindings.specs.Ready.{AreReady};
ghost use Rattle.rule_matches.specs.Roots.{AreByRoot};
ghost use Rattle.bindings.specs.Matches.{IsMatchAmong, IsMatchInAnyOrder};
ghost use Rattle.strategy_core.specs.Asked.{IsAdmitted, IsTurnedDown, pair_of};
ghost use Rattle.asked_verdicts.specs.Asks.{AreVerdicts, Asks, AsksAll, IsAnywhere};
ghost use Rattle.asked_verdicts.specs.Parts.{AsksToPlace, IsInBlock};

use crate::verdicts::Verdicts;
use bindings::{FunctionFacts, Match, ask_bits};
use ir_core::{Function, Inst, end_of};
use known_bits::{Facts, result_bits};
use lists::List;
use rule_core::Rule;
use rule_matches::{Rules, matches_at};
use std::alloc::{AllocError, Global};

/// The place of the first of these matches that is admitted. The verdicts up to it are asked for, or all, if none is.
pub fn first_admitted(
    alloc: Global,
    rules: &[Rule],
    matches: &[Match],
    verdicts: &mut Verdicts,
    conflicts: u32,
) -> Result<Option<usize>, AllocError>
    requires ready { AreReady rules.now }
    requires matches { (across : Bool) × (known : Knowledge) × (f : FunctionSearched) × All (IsMatchInAnyOrder across known rules.now f) matches.now }
    requires conflicts { conflicts ≤ most_conflicts }
    requires verdicts { AreVerdicts rules.now conflicts verdicts.old }
    ensures { IfOk result (AsksToPlace rules.now conflicts matches.now verdicts.old verdicts.new) }
{
    for (place, asking) in matches.iter().enumerate() {
        if verdicts.admits(alloc, rules, asking, conflicts)? {
            return Ok(Some(place));
        }
    }
    Ok(None)
}

/// Whether a match of the function is admitted. The verdicts of all matches are asked for.
pub fn any_admitted(
    alloc: Global,
    f: &Function,
    rules: &Rules<'_>,
    verdicts: &mut Verdicts,
    conflicts: u32,
) -> Result<bool, AllocError>
    requires checks { MeetsChecks f.now }
    requires blocks { length f.now.blocks < 2 ^ 32 }
    requires insts { All (λ b. length b.insts < 2 ^ 32) f.now.blocks }
    requires ready { AreReady rules.now.all.now }
    requires by_root { AreByRoot rules.now.all.now rules.now.by_root.now }
    requires conflicts { conflicts ≤ most_conflicts }
    requires verdicts { AreVerdicts rules.now.all.now conflicts verdicts.old }
    ensures { IfOk result (AsksAll rules.now.across rules.now.all.now conflicts f.now IsAnywhere verdicts.old verdicts.new) }
{
    let facts = FunctionFacts::of(alloc, f)?;
    let asks = ask_bits(rules.all);
    let mut any = false;
    for block in 0..f.blocks.len() as u32 {
        let admitted = any_in_block(alloc, f, &facts, rules, asks, block, verdicts, conflicts)?;
        any |= admitted;
    }
    Ok(any)
}

/// Whether a match in a block is admitted; asks for the verdicts of all in it. Where a rule asks for bits, what is
/// known of the results is found on the way.
fn any_in_block(
    alloc: Global,
    f: &Function,
    facts: &FunctionFacts,
    rules: &Rules<'_>,
    asks: bool,
    block: u32,
    verdicts: &mut Verdicts,
    conflicts: u32,
) -> Result<bool, AllocError>
    requires checks { MeetsChecks f.now }
    requires insts { All (λ b. length b.insts < 2 ^ 32) f.now.blocks }
    requires facts { AreFactsOf f.now facts.now }
    requires ready { AreReady rules.now.all.now }
    requires by_root { AreByRoot rules.now.all.now rules.now.by_root.now }
    requires asks { AskBits rules.now.all.now → IsTrue asks }
    requires block { block < length f.now.blocks }
    requires conflicts { conflicts ≤ most_conflicts }
    requires verdicts { AreVerdicts rules.now.all.now conflicts verdicts.old }
    ensures { IfOk result (AsksAll rules.now.across rules.now.all.now conflicts f.now (IsInBlock block) verdicts.old verdicts.new) }
{
    let mut known = Facts {
        block,
        results: List::new(alloc),
    };
    let mut any = false;
    for place in 0..end_of(f, block) {
        let found = matches_at(alloc, f, facts, &known, rules, block, place)?;
        let matches = found.as_slice();
        let admitted = any_of(alloc, rules.all, matches, verdicts, conflicts)?;
        any |= admitted;
        note_result(alloc, f, &mut known, asks, place)?;
    }
    Ok(any)
}

/// Where it is asked for, adds what is known of the result of the next instruction of a block.
fn note_result(
    alloc: Global,
    f: &Function,
    known: &mut Facts,
    asks: bool,
    place: u32,
) -> Result<(), AllocError>
    requires formed { IsFormed f.now }
    requires place { HasInst f.now known.old.block place }
    requires few { All (λ bits. length bits ≤ 64) known.old.results }
    requires results { IsTrue asks → known.old.results ≡ known_results known.old.block (take place (insts_of f.now known.old.block)) }
    ensures block { known.new.block ≡ known.old.block }
    ensures few { OnOk result (All (λ bits. length bits ≤ 64) known.new.results) }
    ensures results { OnOk result (IsTrue asks → known.new.results ≡ known_results known.old.block (take (place + 1) (insts_of f.now known.old.block))) }
{
    if !asks {
        return Ok(());
    }
    let inst = inst_at(f, known.block, place);
    let bits = result_bits(alloc, known, inst.width, &inst.op)?;
    known.results.push(bits)
}

/// The instruction at a place.
fn inst_at(f: &Function, block: u32, place: u32) -> &Inst
    requires { HasInst f.now block place }
    ensures { IsInst f.now block place result.now }
{
    let written_in = &f.blocks.as_slice()[block as usize];
    &written_in.insts.as_slice()[place as usize]
}

/// Whether one of these matches is admitted. The verdicts of all are asked for.
fn any_of(
    alloc: Global,
    rules: &[Rule],
    matches: &[Match],
    verdicts: &mut Verdicts,
    conflicts: u32,
) -> Result<bool, AllocError>
    requires ready { AreReady rules.now }
    requires matches { (across : Bool) × (f : FunctionSearched) × All (IsMatchAmong across rules.now f) matches.now }
    requires conflicts { conflicts ≤ most_conflicts }
    requires verdicts { AreVerdicts rules.now conflicts verdicts.old }
    ensures asks { OnOk result (Asks rules.now conflicts (map pair_of matches.now) verdicts.old verdicts.new) }
    ensures answer { IfOk result (λ any. MatchBool any (Any (IsAdmitted verdicts.new.table) matches.now) (All (IsTurnedDown verdicts.new.table) matches.now)) }
{
    let mut any = false;
    for asking in matches {
        let admitted = verdicts.admits(alloc, rules, asking, conflicts)?;
        any |= admitted;
    }
    Ok(any)
}
