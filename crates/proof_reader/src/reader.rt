//! Reads the proofs of some rules.

ghost use Rattle.std.specs.Prelude.{◌≡◌, ◌+◌, ◌≤◌, ◌<◌, ◌^◌, List as Seq, [], ◌∷◌, ◌++◌, map, length, All, IfOk, OnOk, IfErr, MatchOption};
ghost use Rattle.std.specs.List.{AllZip};
ghost use Rattle.refusal.specs.Refusals.{IfRefused};
ghost use Rattle.proof_text.specs.declared.proof.Proof.{Proof as ProofRead};
ghost use Rattle.proof_text.specs.Faults.{IsTextOf};
ghost use Rattle.proof_text.specs.Texts.{text_of};
ghost use Rattle.proof_text.specs.WellFormed.{IsWellFormed};
ghost use Rattle.rule_core.specs.Checks.{AreDistinct};
ghost use Rattle.rule_core.specs.Typing.{IsTyping};
ghost use Rattle.rule_core.specs.declared.rule.Rule.{Rule as RuleRead};
ghost use Rattle.rule_typing.specs.Classes.{IsClassified};
ghost use Rattle.proof_reader.specs.Names.{ArePlaces};
ghost use Rattle.proof_reader.specs.Faults.{AreGood, IsAtProof, IsFault};
ghost use Rattle.proof_reader.specs.Reading.{IsReadOf, IsProofOf, IsTypedAt, AreKeysOf, AreTaken, AddsKey, HasKey, TakesProof, RefusesProof};

use crate::names::{Places, place_of, places_of};
use crate::proof::RuleProof;
use indexmap::IndexSet;
use lists::List;
use ops::Width;
use proof_text::{LogError, LogFaultKind, Proof, read_proofs};
use refusal::refused;
use rule_core::{Rule, Typing};
use rule_typing::is_typing;
use std::alloc::{AllocError, Global};

/// Reads the text of proofs of these rules: the proofs in order, or the first fault.
///
/// It takes as many steps as the text has bytes, and for each proof as many more as the widths have classes, operands
/// and nodes.
pub fn read_logs(alloc: Global, rules: &[Rule], bytes: &[u8]) -> Result<Vec<RuleProof>, LogError>
    requires classes { All IsClassified rules.now }
    requires names { AreDistinct (map (λ rule. rule.name) rules.now) }
    requires few { length rules.now < 2 ^ 32 }
    ensures ok { IfOk result (λ read. IsReadOf rules.now bytes.now read.items) }
    ensures refused { IfErr result (λ e. IfRefused e (IsFault rules.now bytes.now)) }
{
    let proofs = read_proofs(alloc, bytes)?;
    let places = places_of(alloc, rules)?;
    taken(alloc, rules, &places, proofs)
}

/// Resolves the proofs of a text to rules, or tells the fault of the first that is bad.
fn taken(
    alloc: Global,
    rules: &[Rule],
    places: &Places<'_>,
    proofs: Vec<Proof>,
) -> Result<Vec<RuleProof>, LogError>
    requires classes { All IsClassified rules.now }
    requires names { AreDistinct (map (λ rule. rule.name) rules.now) }
    requires places { ArePlaces rules.now places.now }
    requires text { IsTextOf (text_of proofs.items) proofs.items }
    ensures ok { IfOk result (λ read. AreGood rules.now proofs.items × AllZip (IsProofOf rules.now) proofs.items read.items) }
    ensures refused { IfErr result (λ e. IfRefused e (IsAtProof rules.now proofs.items)) }
{
    let mut so_far = SoFar::new(alloc);
    for proof in proofs {
        so_far.take(alloc, rules, places, proof)?;
    }
    Ok(so_far.into_read())
}

/// The rules, by their places, and the widths of the proofs so far, hashed: finding a repeated one takes as long
/// however many there are.
type Seen = IndexSet<(u32, Vec<u32>)>;

/// What is known of the proofs so far.
#[derive(Drop)]
struct SoFar {
    seen: Seen,
    /// What is read of each, in order.
    read: List<RuleProof>,
    /// The number of the line behind the proofs so far.
    line: usize,
}

impl SoFar {
    /// Before the first proof.
    fn new(alloc: Global) -> Self
        ensures { (rules : Seq RuleRead) → AreTaken rules [] result.seen.keys result.read result.line }
    {
        SoFar {
            seen: IndexSet::new(alloc),
            read: List::new(alloc),
            line: 1,
        }
    }

    /// Resolves the next proof, or tells its fault.
    fn take(
        &mut self,
        alloc: Global,
        rules: &[Rule],
        places: &Places<'_>,
        proof: Proof,
    ) -> Result<(), LogError>
        requires classes { All IsClassified rules.now }
        requires names { AreDistinct (map (λ rule. rule.name) rules.now) }
        requires places { ArePlaces rules.now places.now }
        requires proof { IsWellFormed proof }
        requires fits { self.old.line + (2 + length proof.log) < 2 ^ 64 }
        ensures ok { OnOk result ((earlier : Seq ProofRead) → AreTaken rules.now earlier self.old.seen.keys self.old.read self.old.line
            → AreTaken rules.now (earlier ++ proof ∷ []) self.new.seen.keys self.new.read self.new.line) }
        ensures refused { IfErr result (λ e. IfRefused e (λ fault. (earlier : Seq ProofRead) → AreKeysOf rules.now earlier self.old.seen.keys
            → RefusesProof rules.now earlier proof self.old.line fault)) }
    {
        let lines = 2 + proof.log.len();
        let read = checked(alloc, rules, places, &mut self.seen, proof, self.line)?;
        self.read.push(read)?;
        self.line += lines;
        Ok(())
    }

    /// What is read of the proofs, in order.
    fn into_read(self) -> Vec<RuleProof>
        ensures { result.items ≡ self.read }
    {
        self.read.into_vec()
    }
}

/// Resolves the proof to a rule, or tells its fault, which is on this line.
fn checked(
    alloc: Global,
    rules: &[Rule],
    places: &Places<'_>,
    seen: &mut Seen,
    proof: Proof,
    line: usize,
) -> Result<RuleProof, LogError>
    requires classes { All IsClassified rules.now }
    requires names { AreDistinct (map (λ rule. rule.name) rules.now) }
    requires places { ArePlaces rules.now places.now }
    ensures ok { IfOk result (λ read. (earlier : Seq ProofRead) → AreKeysOf rules.now earlier seen.old.keys → TakesProof rules.now earlier proof read seen.new.keys) }
    ensures refused { IfErr result (λ e. IfRefused e (λ fault. (earlier : Seq ProofRead) → AreKeysOf rules.now earlier seen.old.keys
        → RefusesProof rules.now earlier proof line fault)) }
{
    let (rule, typing) = typed(alloc, rules, places, &proof, line)?;
    unless_repeated(seen, rule, typing, proof, line)
}

/// The proof as one of this rule at this typing, unless an earlier one is of the same rule at the same widths.
fn unless_repeated(
    seen: &mut Seen,
    rule: u32,
    typing: Typing,
    proof: Proof,
    line: usize,
) -> Result<RuleProof, LogError>
    ensures read { IfOk result (λ read. read ≡ record { rule = rule; typing = typing; log = proof.log }) }
    ensures added { OnOk result (AddsKey seen.old.keys rule proof.widths seen.new.keys) }
    ensures refused { IfErr result (λ e. IfRefused e (λ fault. (fault ≡ record { line = line; kind = LogFaultKind.Repeated })
        × HasKey seen.old.keys rule proof.widths)) }
{
    let widths = proof.widths.into_vec();
    add_key(seen, rule, widths, line)?;
    Ok(RuleProof {
        rule,
        typing,
        log: proof.log,
    })
}

/// Adds the rule, by its place, and the widths of a proof, unless they are those of an earlier one.
fn add_key(seen: &mut Seen, rule: u32, widths: Vec<u32>, line: usize) -> Result<(), LogError>
    ensures added { OnOk result (AddsKey seen.old.keys rule widths.items seen.new.keys) }
    ensures refused { IfErr result (λ e. IfRefused e (λ fault. (fault ≡ record { line = line; kind = LogFaultKind.Repeated })
        × HasKey seen.old.keys rule widths.items)) }
{
    if !seen.insert((rule, widths))? {
        return Err(refused(line, LogFaultKind::Repeated));
    }
    Ok(())
}

/// The rule that has the proof's name, by its place, and the typing of it that the proof's widths are; or the fault,
/// which is on this line.
fn typed(
    alloc: Global,
    rules: &[Rule],
    places: &Places<'_>,
    proof: &Proof,
    line: usize,
) -> Result<(u32, Typing), LogError>
    requires classes { All IsClassified rules.now }
    requires names { AreDistinct (map (λ rule. rule.name) rules.now) }
    requires places { ArePlaces rules.now places.now }
    ensures ok { IfOk result (λ read. IsTypedAt rules.now proof.now read.0 read.1) }
    ensures refused { IfErr result (λ e. IfRefused e (λ fault. (earlier : Seq ProofRead) → RefusesProof rules.now earlier proof.now line fault)) }
{
    let Some(rule) = place_of(rules, places, proof.name.as_slice()) else {
        return Err(refused(line, LogFaultKind::UnknownRule));
    };
    let Some(typing) = typing_of(alloc, &rules[rule as usize], proof.widths.as_slice())? else {
        return Err(refused(line, LogFaultKind::BadTyping));
    };
    Ok((rule, typing))
}

/// The widths as a typing of the rule, where they are one.
#[tactic(auto, using(crate::proofs::Typed::no_widths))]
fn typing_of(alloc: Global, rule: &Rule, widths: &[u32]) -> Result<Option<Typing>, AllocError>
    requires { IsClassified rule.now }
    ensures { IfOk result (λ read. MatchOption read (¬ IsTyping rule.now widths.now) (λ typing. (typing ≡ widths.now) × IsTyping rule.now typing)) }
{
    let Some(typing) = widths_of(alloc, widths)? else {
        return Ok(None);
    };
    if is_typing(rule, &typing) {
        Ok(Some(typing))
    } else {
        Ok(None)
    }
}

/// The numbers as widths, where each is one.
fn widths_of(alloc: Global, numbers: &[u32]) -> Result<Option<List<Width>>, AllocError>
    ensures { IfOk result (λ read. MatchOption read (¬ All (λ n. (1 ≤ n) × (n ≤ 64)) numbers.now) (λ widths. widths ≡ numbers.now)) }
{
    let mut widths = List::new(alloc);
    for number in numbers {
        let Some(width) = Width::new(*number) else {
            return Ok(None);
        };
        widths.push(width)?;
    }
    Ok(Some(widths))
}
