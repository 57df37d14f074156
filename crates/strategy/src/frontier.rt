//! What the strategy makes of one function, with a worklist of the places where an admitted match may be.

ghost use Rattle.std.specs.Prelude.{◌≡◌, ◌<◌, ◌≤◌, ◌^◌, ℕ, suc, Bool, List as Seq, length, true, false, All, Contains, IfOk, OnOk};
ghost use Rattle.fold_branch.specs.Folded.{IsFolded};
ghost use Rattle.ir_core.specs.Blocks.{HasInst};
ghost use Rattle.ir_core.specs.Checks.{MeetsChecks};
ghost use Rattle.ir_meaning.specs.HistoryLaws.{NumbersFit};
ghost use Rattle.verdict_core.specs.declared.verdicts.Row.{Row as VerdictRow};
ghost use Rattle.rule_core.specs.declared.rule.Register.{Register as Named};
ghost use Rattle.bindings.specs.Known.{AsksBitsOf, known_by};
ghost use Rattle.bindings.specs.Matches.{IsMatchAmong};
ghost use Rattle.draft_bits.specs.DraftBits.{HasFewBits};
ghost use Rattle.bindings.specs.Ready.{AreReady};
ghost use Rattle.draft_steps.specs.DeadCode.{AllNeeded, HasNoDeadCode};
ghost use Rattle.draft.specs.Drafts.{AreTouched, HasRoomFor, arena_of, function_of, orders_of};
ghost use Rattle.draft.specs.KeptOrders.{KeepsOrders};
ghost use Rattle.places.specs.Orders.{none};
ghost use Rattle.draft_steps.specs.DraftWorklists.{IsWorklistOf, members_of};
ghost use Rattle.readers.specs.Readers.{IsPlaceIn};
ghost use Rattle.draft.specs.Whole.{IsSettled, IsWhole};
ghost use Rattle.draft_steps.specs.MatchLaws.{AreSourcesWithin, placed_match};
ghost use Rattle.asked_verdicts.specs.Asks.{AsksAll, IsAnywhere};
ghost use Rattle.strategy_core.specs.Countable.{IsCountable};
ghost use Rattle.strategy.specs.Asking.{MayAsk};
ghost use Rattle.strategy.specs.Folding.{HasNothingToFold};
ghost use Rattle.strategy.specs.Frontiers.{AreTurnedDownBut, AsksAt, HasBitsFor, IsFrontier, IsSteppedAt, LooksAt, Nowhere, PlaceOf, SearchesTo};
ghost use Rattle.strategy.specs.Searches.{OptimisesTidied, OptimisesFunction, StepsOrEnds};

use crate::folding::{may_choose, rewritten_at};
use crate::size::size_of;
use crate::steps::{Options, Turns, tidy_checked};
use asked_verdicts::{Verdicts, any_admitted, first_admitted};
use bindings::{Match, ask_bits, asks_bits};
use draft::Draft;
use draft_bits::{DraftBits, draft_bits_are_known_bits, update};
use draft_steps::{DraftWorklist, matches_of_the_arena, matches_of_the_untouched, orders_are_kept};
use fold_branch::cleaning_keeps_functions_folded;
use ir_core::Function;
use known_bits::Facts;
use needed::{every_cleaned_function_refines_the_old, every_cleaned_number_was_there};
use places::Place;
use rewriter::rewritten_functions_meet_checks;
use rule_core::Rule;
use rule_matches::{Rules, matches_in_any_order};
use std::alloc::{AllocError, Global};

/// So many instructions may be put into the draft of any function before it is made anew, so that a small function is
/// not made anew at each step.
const LEAST_LEFT: usize = 1_024;

/// A function while it is rewritten, and the worklist.
#[derive(Drop)]
pub(crate) struct Frontier {
    draft: Draft,
    /// What is known of the bits of its results; nothing where no rule asks for them.
    bits: DraftBits,
    /// The worklist: at every other place all matches are known to be turned down.
    worklist: DraftWorklist,
    /// The most steps from a root to an instruction on which a match stands, over all rules.
    depth: usize,
    /// How many instructions may still be put into the draft before it is made anew.
    left: usize,
}

/// Tidies a function, and rewrites and tidies it, at most as often as the steps say.
///
/// A search looks at the places on the worklist only. So a step takes as long as what it changes, the bits that are
/// known of results among it, and the users of that, as far as a match may reach.
pub(crate) fn optimise_function(
    alloc: Global,
    f: Function,
    rules: &Rules<'_>,
    verdicts: &mut Verdicts,
    options: Options,
) -> Result<(Function, Turns), AllocError>
    requires checks { MeetsChecks f }
    requires numbers { NumbersFit f }
    requires countable { IsCountable options.steps f }
    requires asks { MayAsk rules.now options.conflicts verdicts.old }
    ensures { IfOk result (λ made. OptimisesFunction options.fold rules.now.across rules.now.all.now options.conflicts options.steps f made.0 verdicts.old verdicts.new made.1.count made.1.limited) }
{
    let mut tidied = f;
    tidy_checked(alloc, &mut tidied, options.fold)?;
    let made = optimise_tidied(alloc, tidied, rules, verdicts, options)?;
    Ok(made)
}

/// The same for a function that is tidied already.
fn optimise_tidied(
    alloc: Global,
    f: Function,
    rules: &Rules<'_>,
    verdicts: &mut Verdicts,
    options: Options,
) -> Result<(Function, Turns), AllocError>
    requires checks { MeetsChecks f }
    requires needed { AllNeeded f }
    requires folded { HasNothingToFold options.fold f }
    requires numbers { NumbersFit f }
    requires countable { IsCountable options.steps f }
    requires asks { MayAsk rules.now options.conflicts verdicts.old }
    ensures { IfOk result (λ made. OptimisesTidied options.fold rules.now.across rules.now.all.now options.conflicts options.steps f made.0 verdicts.old verdicts.new made.1.count made.1.limited) }
{
    if options.steps == 0 {
        let made = search_last(alloc, f, rules, verdicts, options)?;
        return Ok(made);
    }
    let made = rewrite_tidied(alloc, f, rules, verdicts, options)?;
    Ok(made)
}

/// The same where at least one step is allowed.
fn rewrite_tidied(
    alloc: Global,
    f: Function,
    rules: &Rules<'_>,
    verdicts: &mut Verdicts,
    options: Options,
) -> Result<(Function, Turns), AllocError>
    requires some { 0 < options.steps }
    requires checks { MeetsChecks f }
    requires needed { AllNeeded f }
    requires folded { HasNothingToFold options.fold f }
    requires numbers { NumbersFit f }
    requires countable { IsCountable options.steps f }
    requires asks { MayAsk rules.now options.conflicts verdicts.old }
    ensures { IfOk result (λ made. OptimisesTidied options.fold rules.now.across rules.now.all.now options.conflicts options.steps f made.0 verdicts.old verdicts.new made.1.count made.1.limited) }
{
    let mut frontier = Frontier::of(alloc, f, rules.all)?;
    for count in 0..options.steps {
        let (stepped, next) = step(alloc, frontier, rules, verdicts, options)?;
        frontier = next;
        if !stepped {
            let last = draft::function_of(alloc, frontier.draft)?;
            return Ok((
                last,
                Turns {
                    count,
                    limited: false,
                },
            ));
        }
    }
    let last = draft::function_of(alloc, frontier.draft)?;
    let made = search_last(alloc, last, rules, verdicts, options)?;
    Ok(made)
}

/// The last search, where no step is left: it asks for the verdicts of all matches of the function.
fn search_last(
    alloc: Global,
    f: Function,
    rules: &Rules<'_>,
    verdicts: &mut Verdicts,
    options: Options,
) -> Result<(Function, Turns), AllocError>
    requires checks { MeetsChecks f }
    requires countable { IsCountable 0 f }
    requires asks { MayAsk rules.now options.conflicts verdicts.old }
    ensures function { IfOk result (λ made. made.0 ≡ f) }
    ensures count { IfOk result (λ made. made.1.count ≡ options.steps) }
    ensures asks { IfOk result (λ made. AsksAll rules.now.across rules.now.all.now options.conflicts f IsAnywhere verdicts.old verdicts.new made.1.limited) }
{
    let limited = any_admitted(alloc, &f, rules, verdicts, options.conflicts)?;
    Ok((
        f,
        Turns {
            count: options.steps,
            limited,
        },
    ))
}

impl Frontier {
    /// At first every place is on the worklist.
    fn of(alloc: Global, f: Function, rules: &[Rule]) -> Result<Frontier, AllocError>
        requires checks { MeetsChecks f }
        requires needed { AllNeeded f }
        requires blocks { length f.blocks < 2 ^ 32 }
        requires insts { All (λ b. length b.insts ≤ none) f.blocks }
        ensures frontier { IfOk result (λ made. (across : Bool) (table : Seq VerdictRow) → IsFrontier across rules.now table made) }
        ensures function { IfOk result (λ made. function_of made.draft ≡ f) }
        ensures arena { IfOk result (λ made. arena_of made.draft ≡ f) }
    {
        let left = size_of(&f).max(rules.len()).max(LEAST_LEFT);
        let draft = Draft::of(alloc, f)?;
        Ok(Frontier {
            bits: bits_for(alloc, rules, &draft)?,
            worklist: DraftWorklist::all(alloc, &draft)?,
            depth: depth_of(rules),
            left,
            draft,
        })
    }
}

/// What is known of the bits of a new draft's results, where a rule asks for it.
fn bits_for(alloc: Global, rules: &[Rule], draft: &Draft) -> Result<DraftBits, AllocError>
    requires whole { IsWhole draft.now }
    requires checks { MeetsChecks (arena_of draft.now) }
    ensures bits { IfOk result (HasBitsFor rules.now draft.now) }
    ensures few { IfOk result HasFewBits }
{
    if !ask_bits(rules) {
        return Ok(DraftBits::none(alloc));
    }
    let bits = DraftBits::of(alloc, draft)?;
    Ok(bits)
}

/// The most steps from a root to an instruction on which a match stands: to that of an operand, one less than the
/// statements of the longest source, and one further where a rule asks for the bits of what it names.
fn depth_of(rules: &[Rule]) -> usize
    ensures { AreSourcesWithin result rules.now }
{
    let mut depth: usize = 0;
    for rule in rules {
        depth = depth.max(depth_in(rule));
    }
    depth
}

/// The same of one rule.
fn depth_in(rule: &Rule) -> usize
    ensures source { length rule.now.source ≤ suc result }
    ensures bits { (name : Named) → AsksBitsOf rule.now name → length rule.now.source ≤ result }
{
    let count = rule.source.len();
    if asks_bits(rule) {
        return count;
    }
    count.saturating_sub(1)
}

/// Rewrites the function at its first admitted match, and tidies it. The answer is false where there is none; then the
/// verdicts of all its matches were asked for.
fn step(
    alloc: Global,
    frontier: Frontier,
    rules: &Rules<'_>,
    verdicts: &mut Verdicts,
    options: Options,
) -> Result<(bool, Frontier), AllocError>
    requires frontier { IsFrontier rules.now.across rules.now.all.now verdicts.old.table frontier }
    requires checks { MeetsChecks (function_of frontier.draft) }
    requires numbers { NumbersFit (function_of frontier.draft) }
    requires folded { HasNothingToFold options.fold (function_of frontier.draft) }
    requires room { HasRoomFor 1 frontier.draft }
    requires countable { IsCountable 1 (function_of frontier.draft) }
    requires asks { MayAsk rules.now options.conflicts verdicts.old }
    ensures steps { IfOk result (λ made. StepsOrEnds options.fold rules.now.across rules.now.all.now options.conflicts (function_of frontier.draft) (function_of made.1.draft) verdicts.old verdicts.new made.0) }
    ensures frontier { IfOk result (λ made. IsFrontier rules.now.across rules.now.all.now verdicts.new.table made.1) }
    ensures checks { IfOk result (λ made. MeetsChecks (function_of made.1.draft)) }
    ensures numbers { IfOk result (λ made. NumbersFit (function_of made.1.draft)) }
    ensures folded { IfOk result (λ made. HasNothingToFold options.fold (function_of made.1.draft)) }
    ensures room { IfOk result (λ made. (steps : ℕ) → HasRoomFor (suc steps) frontier.draft → IsCountable (suc steps) (function_of frontier.draft)
        → HasRoomFor steps made.1.draft) }
{
    let mut frontier = frontier;
    let found = next_admitted(
        alloc,
        &frontier.draft,
        &frontier.bits,
        &mut frontier.worklist,
        rules,
        verdicts,
        options.conflicts,
    )?;
    let Some(chosen) = found else {
        return Ok((false, frontier));
    };
    let put = rules.all[chosen.rule as usize].target.len();
    let rewritten = rewrite_at(alloc, frontier, rules, &chosen, options.fold)?;
    let next = made_anew_where_full(alloc, rewritten, rules.all, put)?;
    Ok((true, next))
}

/// After a step that put at most so many instructions: the same frontier, or one whose draft is made anew.
///
/// The arena keeps the numbers of instructions that were taken out. So a draft is made anew of its function once as
/// many may have been put into it as that function was large: memory is linear in the largest function that there was,
/// and not in the steps. To make one and to search it once more takes a time that is linear in the rules, in the
/// function of which the last one was made, and in what was put since; and neither of the first two is more than that.
/// So it costs each instruction that is put a constant time, on the average over all steps.
fn made_anew_where_full(
    alloc: Global,
    frontier: Frontier,
    rules: &[Rule],
    put: usize,
) -> Result<Frontier, AllocError>
    requires settled { IsSettled frontier.draft }
    requires clean { HasNoDeadCode frontier.draft }
    requires checks { MeetsChecks (function_of frontier.draft) }
    requires countable { IsCountable 0 (function_of frontier.draft) }
    ensures function { IfOk result (λ made. function_of made.draft ≡ function_of frontier.draft) }
    ensures frontier { IfOk result (λ made. (across : Bool) (table : Seq VerdictRow) → IsFrontier across rules.now table frontier → IsFrontier across rules.now table made) }
    ensures room { IfOk result (λ made. (steps : ℕ) → HasRoomFor steps frontier.draft → IsCountable steps (function_of frontier.draft) → HasRoomFor steps made.draft) }
{
    if put < frontier.left {
        let mut same = frontier;
        same.left -= put;
        return Ok(same);
    }
    let f = draft::function_of(alloc, frontier.draft)?;
    let made = Frontier::of(alloc, f, rules)?;
    Ok(made)
}

/// The first admitted match of a draft, in order. The verdicts of all matches up to it are asked for, or of all
/// matches, if there is none.
///
/// Only places on the worklist are looked at: at every other place all matches were turned down before.
fn next_admitted(
    alloc: Global,
    draft: &Draft,
    bits: &DraftBits,
    worklist: &mut DraftWorklist,
    rules: &Rules<'_>,
    verdicts: &mut Verdicts,
    conflicts: u32,
) -> Result<Option<Match>, AllocError>
    requires settled { IsSettled draft.now }
    requires bits { HasBitsFor rules.now.all.now draft.now bits.now }
    requires few { HasFewBits bits.now }
    requires worklist { IsWorklistOf draft.now worklist.old }
    requires turned_down { AreTurnedDownBut rules.now.across rules.now.all.now verdicts.old.table Nowhere draft.now bits.now (members_of worklist.old) }
    requires checks { MeetsChecks (function_of draft.now) }
    requires asks { MayAsk rules.now conflicts verdicts.old }
    ensures worklist { OnOk result (IsWorklistOf draft.now worklist.new) }
    ensures found { IfOk result (SearchesTo rules.now.across rules.now.all.now conflicts draft.now bits.now (members_of worklist.new) verdicts.old verdicts.new) }
{
    matches_of_the_arena();
    draft_bits_are_known_bits();
    while let Some(place) = worklist.take_first(draft) {
        let found = look_at(
            alloc,
            draft,
            bits.at(place.block),
            rules,
            place,
            verdicts,
            conflicts,
        )?;
        if let Some(chosen) = found {
            return Ok(Some(chosen));
        }
    }
    Ok(None)
}

/// The first admitted match at an instruction of a draft; none where the instruction was removed.
fn look_at(
    alloc: Global,
    draft: &Draft,
    known: &Facts,
    rules: &Rules<'_>,
    place: Place,
    verdicts: &mut Verdicts,
    conflicts: u32,
) -> Result<Option<Match>, AllocError>
    requires settled { IsSettled draft.now }
    requires place { HasInst (arena_of draft.now) place.block place.number }
    requires few { All (λ word. length word ≤ 64) known.now.results }
    requires asks { MayAsk rules.now conflicts verdicts.old }
    ensures { IfOk result (LooksAt rules.now.across rules.now.all.now conflicts draft.now (known_by known.now) place verdicts.old verdicts.new) }
{
    if !draft.stands(place) {
        return Ok(None);
    }
    let found = admitted_at(alloc, draft, known, rules, place, verdicts, conflicts)?;
    Ok(found)
}

/// The first admitted match at an instruction of a draft. The verdicts of all matches there up to it are asked for, or
/// of all there, if none is admitted.
fn admitted_at(
    alloc: Global,
    draft: &Draft,
    known: &Facts,
    rules: &Rules<'_>,
    place: Place,
    verdicts: &mut Verdicts,
    conflicts: u32,
) -> Result<Option<Match>, AllocError>
    requires settled { IsSettled draft.now }
    requires place { HasInst (arena_of draft.now) place.block place.number }
    requires few { All (λ word. length word ≤ 64) known.now.results }
    requires asks { MayAsk rules.now conflicts verdicts.old }
    ensures { IfOk result (AsksAt rules.now.across rules.now.all.now conflicts (known_by known.now) (arena_of draft.now) place.block place.number verdicts.old verdicts.new) }
{
    let found = matches_in_any_order(
        alloc,
        draft.arena(),
        draft.facts(),
        known,
        rules,
        place.block,
        place.number,
    )?;
    let matches = found.as_slice();
    let admitted = first_admitted(alloc, rules.all, matches, verdicts, conflicts)?;
    if let Some(first) = admitted {
        return Ok(Some(found.into_vec().swap_remove(first)));
    }
    Ok(None)
}

/// Rewrites the function at a match, and tidies it.
fn rewrite_at(
    alloc: Global,
    frontier: Frontier,
    rules: &Rules<'_>,
    chosen: &Match,
    folding: bool,
) -> Result<Frontier, AllocError>
    requires ready { AreReady rules.now.all.now }
    requires settled { IsSettled frontier.draft }
    requires clean { HasNoDeadCode frontier.draft }
    requires worklist { IsWorklistOf frontier.draft frontier.worklist }
    requires depth { AreSourcesWithin frontier.depth rules.now.all.now }
    requires bits { HasBitsFor rules.now.all.now frontier.draft frontier.bits }
    requires few { HasFewBits frontier.bits }
    requires matches { IsMatchAmong rules.now.across rules.now.all.now (function_of frontier.draft) (placed_match frontier.draft chosen.now) }
    requires checks { MeetsChecks (function_of frontier.draft) }
    requires numbers { NumbersFit (function_of frontier.draft) }
    requires folded { HasNothingToFold folding (function_of frontier.draft) }
    requires room { HasRoomFor 1 frontier.draft }
    requires countable { IsCountable 1 (function_of frontier.draft) }
    ensures stepped { IfOk result (λ made. IsSteppedAt folding rules.now.all.now frontier.draft made.draft chosen.now) }

    // At places that are not on the new worklist matches stay turned down, whatever the table is.
    ensures frontier { IfOk result (λ made. (table : Seq VerdictRow) → AreTurnedDownBut rules.now.across rules.now.all.now table (PlaceOf chosen.now) frontier.draft frontier.bits (members_of frontier.worklist)
        → IsFrontier rules.now.across rules.now.all.now table made) }
    ensures checks { IfOk result (λ made. MeetsChecks (function_of made.draft)) }
    ensures numbers { IfOk result (λ made. NumbersFit (function_of made.draft)) }
    ensures folded { IfOk result (λ made. HasNothingToFold folding (function_of made.draft)) }
    ensures room { IfOk result (λ made. (steps : ℕ) → HasRoomFor (suc steps) frontier.draft → IsCountable (suc steps) (function_of frontier.draft)
        → HasRoomFor steps made.draft) }
{
    if folding {
        let folded = rewrite_and_fold(alloc, frontier, rules, chosen)?;
        return Ok(folded);
    }
    let next = rewrite_and_clean(alloc, frontier, rules, chosen)?;
    Ok(next)
}

/// The same where folding is asked for. Nothing is left to fold before the rewrite, so there is nothing after it but
/// where a branch or a switch may get a number.
///
/// There the whole function is made anew. So each branch that a rule decides costs a time that is linear in the
/// function, and 10,000 in one function, decided one by one, a time that is quadratic. All other steps take as long as
/// they do without folding.
fn rewrite_and_fold(
    alloc: Global,
    frontier: Frontier,
    rules: &Rules<'_>,
    chosen: &Match,
) -> Result<Frontier, AllocError>
    requires ready { AreReady rules.now.all.now }
    requires settled { IsSettled frontier.draft }
    requires clean { HasNoDeadCode frontier.draft }
    requires worklist { IsWorklistOf frontier.draft frontier.worklist }
    requires depth { AreSourcesWithin frontier.depth rules.now.all.now }
    requires bits { HasBitsFor rules.now.all.now frontier.draft frontier.bits }
    requires few { HasFewBits frontier.bits }
    requires matches { IsMatchAmong rules.now.across rules.now.all.now (function_of frontier.draft) (placed_match frontier.draft chosen.now) }
    requires checks { MeetsChecks (function_of frontier.draft) }
    requires numbers { NumbersFit (function_of frontier.draft) }
    requires folded { IsFolded (function_of frontier.draft) (function_of frontier.draft) }
    requires room { HasRoomFor 1 frontier.draft }
    requires countable { IsCountable 1 (function_of frontier.draft) }
    ensures stepped { IfOk result (λ made. IsSteppedAt true rules.now.all.now frontier.draft made.draft chosen.now) }

    // At places that are not on the new worklist matches stay turned down, whatever the table is.
    ensures frontier { IfOk result (λ made. (table : Seq VerdictRow) → AreTurnedDownBut rules.now.across rules.now.all.now table (PlaceOf chosen.now) frontier.draft frontier.bits (members_of frontier.worklist)
        → IsFrontier rules.now.across rules.now.all.now table made) }
    ensures checks { IfOk result (λ made. MeetsChecks (function_of made.draft)) }
    ensures numbers { IfOk result (λ made. NumbersFit (function_of made.draft)) }
    ensures folded { IfOk result (λ made. IsFolded (function_of made.draft) (function_of made.draft)) }
    ensures room { IfOk result (λ made. (steps : ℕ) → HasRoomFor (suc steps) frontier.draft → IsCountable (suc steps) (function_of frontier.draft)
        → HasRoomFor steps made.draft) }
{
    cleaning_keeps_functions_folded();
    if may_choose(&frontier.draft, rules.all, chosen) {
        let anew = begin_anew(alloc, frontier.draft, rules, chosen)?;
        return Ok(anew);
    }
    let next = rewrite_and_clean(alloc, frontier, rules, chosen)?;
    Ok(next)
}

/// Rewrites the function of a draft at a match, tidies it, and begins with it anew: every place is on the worklist.
fn begin_anew(
    alloc: Global,
    draft: Draft,
    rules: &Rules<'_>,
    chosen: &Match,
) -> Result<Frontier, AllocError>
    requires ready { AreReady rules.now.all.now }
    requires settled { IsSettled draft }
    requires matches { IsMatchAmong rules.now.across rules.now.all.now (function_of draft) (placed_match draft chosen.now) }
    requires checks { MeetsChecks (function_of draft) }
    requires numbers { NumbersFit (function_of draft) }
    requires room { HasRoomFor 1 draft }
    requires countable { IsCountable 1 (function_of draft) }
    ensures stepped { IfOk result (λ made. IsSteppedAt true rules.now.all.now draft made.draft chosen.now) }
    ensures frontier { IfOk result (λ made. (table : Seq VerdictRow) → IsFrontier rules.now.across rules.now.all.now table made) }
    ensures checks { IfOk result (λ made. MeetsChecks (function_of made.draft)) }
    ensures numbers { IfOk result (λ made. NumbersFit (function_of made.draft)) }
    ensures folded { IfOk result (λ made. IsFolded (function_of made.draft) (function_of made.draft)) }
    ensures room { IfOk result (λ made. (steps : ℕ) → IsCountable (suc steps) (function_of draft) → HasRoomFor steps made.draft) }
{
    let mut f = rewritten_at(alloc, draft, rules.all, chosen)?;
    tidy_checked(alloc, &mut f, true)?;
    let made = Frontier::of(alloc, f, rules.all)?;
    Ok(made)
}

/// Rewrites the function at a match, and cleans it. The places that it touched, those at which other bits are known,
/// and the users from which a match may reach them, are put on the worklist.
fn rewrite_and_clean(
    alloc: Global,
    frontier: Frontier,
    rules: &Rules<'_>,
    chosen: &Match,
) -> Result<Frontier, AllocError>
    requires ready { AreReady rules.now.all.now }
    requires settled { IsSettled frontier.draft }
    requires clean { HasNoDeadCode frontier.draft }
    requires worklist { IsWorklistOf frontier.draft frontier.worklist }
    requires depth { AreSourcesWithin frontier.depth rules.now.all.now }
    requires bits { HasBitsFor rules.now.all.now frontier.draft frontier.bits }
    requires few { HasFewBits frontier.bits }
    requires matches { IsMatchAmong rules.now.across rules.now.all.now (function_of frontier.draft) (placed_match frontier.draft chosen.now) }
    requires checks { MeetsChecks (function_of frontier.draft) }
    requires numbers { NumbersFit (function_of frontier.draft) }
    requires room { HasRoomFor 1 frontier.draft }
    ensures stepped { IfOk result (λ made. IsSteppedAt false rules.now.all.now frontier.draft made.draft chosen.now) }

    // At places that are not on the new worklist matches stay turned down, whatever the table is.
    ensures frontier { IfOk result (λ made. (table : Seq VerdictRow) → AreTurnedDownBut rules.now.across rules.now.all.now table (PlaceOf chosen.now) frontier.draft frontier.bits (members_of frontier.worklist)
        → IsFrontier rules.now.across rules.now.all.now table made) }
    ensures checks { IfOk result (λ made. MeetsChecks (function_of made.draft)) }
    ensures numbers { IfOk result (λ made. NumbersFit (function_of made.draft)) }
    ensures room { IfOk result (λ made. (steps : ℕ) → HasRoomFor (suc steps) frontier.draft → HasRoomFor steps made.draft) }
{
    matches_of_the_untouched();
    orders_are_kept();
    let Frontier {
        draft,
        bits,
        worklist,
        depth,
        left,
    } = frontier;
    let (rewritten, touched) = rewrite_draft(alloc, draft, rules.all, chosen)?;
    let (bits, changed) = update(alloc, bits, &rewritten, touched)?;
    let places = changed.as_slice();
    let (waiting, last) = worklist.insert_reaching(alloc, rewritten, places, depth, rules.across)?;
    Ok(Frontier {
        draft: last,
        bits,
        worklist: waiting,
        depth,
        left,
    })
}

/// Rewrites a draft at a match, and gives the places that were touched, the match's own among them.
fn rewrite_draft(
    alloc: Global,
    draft: Draft,
    rules: &[Rule],
    chosen: &Match,
) -> Result<(Draft, Vec<Place>), AllocError>
    requires ready { AreReady rules.now }
    requires settled { IsSettled draft }
    requires clean { HasNoDeadCode draft }
    requires matches { (across : Bool) × IsMatchAmong across rules.now (function_of draft) (placed_match draft chosen.now) }
    requires checks { MeetsChecks (function_of draft) }
    requires numbers { NumbersFit (function_of draft) }
    requires room { HasRoomFor 1 draft }
    ensures settled { IfOk result (λ made. IsSettled made.0) }
    ensures clean { IfOk result (λ made. HasNoDeadCode made.0) }
    ensures stepped { IfOk result (λ made. IsSteppedAt false rules.now draft made.0 chosen.now) }
    ensures checks { IfOk result (λ made. MeetsChecks (function_of made.0)) }
    ensures numbers { IfOk result (λ made. NumbersFit (function_of made.0)) }
    ensures touched { IfOk result (λ made. AreTouched draft made.0 made.1.items) }
    ensures places { IfOk result (λ made. All (IsPlaceIn (arena_of made.0)) made.1.items) }
    ensures root { IfOk result (λ made. Contains made.1.items (record { block = chosen.now.binding.block; number = chosen.now.binding.place })) }
    ensures room { IfOk result (λ made. (steps : ℕ) → HasRoomFor (suc steps) draft → HasRoomFor steps made.0) }
    ensures orders { IfOk result (λ made. KeepsOrders (orders_of draft) (orders_of made.0)) }
{
    rewritten_functions_meet_checks();
    every_cleaned_function_refines_the_old();
    every_cleaned_number_was_there();
    let rule = &rules[chosen.rule as usize];
    draft_steps::step(alloc, draft, &chosen.binding, rule)
}
