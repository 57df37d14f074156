//! Logs of proofs, each stored for its rule and typing.

ghost use Rattle.std.specs.Prelude.{◌<◌, ◌^◌, map, All, length, IfOk, IfErr};
ghost use Rattle.refusal.specs.Refusals.{IfRefused};
ghost use Rattle.rule_core.specs.Checks.{AreDistinct};
ghost use Rattle.rule_typing.specs.Classes.{IsClassified};
ghost use Rattle.proof_reader.specs.Faults.{IsFault};
ghost use Rattle.stored_logs.specs.Stored.{AreOfPairsOnce, AreStored, IsLogStored};

use asked_verdicts::StoredLogs;
use proof_reader::{LogError, RuleProof, read_logs};
use rule_core::Rule;
use std::alloc::{AllocError, Global};

/// Reads the text of proofs of these rules, and stores the log of each for its rule and typing.
pub fn read_stored(alloc: Global, rules: &[Rule], bytes: &[u8]) -> Result<StoredLogs, LogError>
    requires classes { All IsClassified rules.now }
    requires names { AreDistinct (map (λ rule. rule.name) rules.now) }
    requires few { length rules.now < 2 ^ 32 }
    ensures ok { IfOk result (AreStored rules.now bytes.now) }
    ensures refused { IfErr result (λ e. IfRefused e (IsFault rules.now bytes.now)) }
{
    let proofs = read_logs(alloc, rules, bytes)?;
    let stored = stored_of(alloc, proofs)?;
    Ok(stored)
}

/// The logs of proofs, no two of which are of one rule at one typing, each stored for its pair.
fn stored_of(alloc: Global, proofs: Vec<RuleProof>) -> Result<StoredLogs, AllocError>
    requires { AreOfPairsOnce proofs.items }
    ensures { IfOk result (λ stored. All (IsLogStored stored) proofs.items) }
{
    let mut stored = StoredLogs::new(alloc);
    for proof in proofs {
        let RuleProof { rule, typing, log } = proof;
        stored.insert(alloc, rule, &typing, log)?;
    }
    Ok(stored)
}
