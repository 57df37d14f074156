//! Reads the text of proofs.

ghost use Rattle.std.specs.Prelude.{◌≡◌, ◌≤◌, ◌++◌, length, IfOk, IfErr};
ghost use Rattle.refusal.specs.Refusals.{IfRefused};
ghost use Rattle.scan.specs.Lines as lines;
ghost use Rattle.proof_text.specs.Limits.{most_bytes};
ghost use Rattle.proof_text.specs.Texts.{proof_text};
ghost use Rattle.proof_text.specs.WellFormed.{IsWellFormed};
ghost use Rattle.proof_text.specs.Faults.{IsTextOf, IsLogFault, kind_of};
ghost use Rattle.proof_text.specs.Reading.{Proofs, FaultAt, StopsIn};

use crate::fault::{LogError, LogFault, LogFaultKind};
use crate::head::head;
use crate::log::log;
use crate::proof::Proof;
use crate::stop::Stopped;
use refusal::{Refusal, refused};
use std::alloc::Global;

/// The most bytes of a text.
pub const MOST_BYTES: usize = 67_108_864;

/// A proof: its line and its log.
#[tactic(auto, using(crate::proofs::LogReadings::proof_read, crate::proofs::Readings::behind_short))]
fn proof(alloc: Global, rest: &mut &[u8]) -> Result<Proof, Stopped>
    requires short { length rest.old.now ≤ most_bytes }
    ensures ok { IfOk result (λ p. IsWellFormed p × (rest.old.now ≡ proof_text p ++ rest.new.now)) }
    ensures stop { IfErr result (λ e. StopsIn Proofs e rest.old.now rest.new.now) }
{
    let (name, widths) = head(alloc, rest)?;
    let log = log(alloc, rest)?;
    Ok(Proof { name, widths, log })
}

/// How many line feeds there are.
fn feeds(text: &[u8]) -> usize
    ensures { result ≡ lines.feeds text.now }
{
    text.iter().filter(|byte| **byte == b'\n').count()
}

/// Whether the last byte is a line feed.
fn ends_line(text: &[u8]) -> bool
    ensures { result ≡ lines.ends_line text.now }
{
    !text.is_empty() && text[text.len() - 1] == b'\n'
}

/// The last line.
fn last_line(text: &[u8]) -> usize
    requires short { length text.now ≤ most_bytes }
    ensures { result ≡ lines.last_line text.now }
{
    let feeds = feeds(text);
    if ends_line(text) { feeds } else { feeds + 1 }
}

/// What a byte is where it does not fit.
#[tactic(auto, unfolding(scan::specs::Bytes::is_bad, scan::specs::Bytes::is_printable, scan::specs::Bytes::is_space, scan::specs::Bytes::is_blank))]
fn kind_of(byte: u8) -> LogFaultKind
    ensures { result ≡ kind_of byte }
{
    match byte {
        b' '..=b'~' | b'\t' | b'\r' | b'\n' => LogFaultKind::Syntax,
        _ => LogFaultKind::BadByte,
    }
}

/// The fault of a text whose reading stopped in front of its last bytes.
#[tactic(auto, using(crate::proofs::TextReadings::fault_at_byte, crate::proofs::TextReadings::fault_at_end))]
fn fault(text: &[u8], rest: &[u8]) -> LogFault
    requires short { length text.now ≤ most_bytes }
    requires within { length rest.now ≤ length text.now }
    ensures { FaultAt text.now rest.now result }
{
    match rest {
        [byte, ..] => LogFault {
            line: feeds(&text[..text.len() - rest.len()]) + 1,
            kind: kind_of(*byte),
        },
        [] => LogFault {
            line: last_line(text),
            kind: LogFaultKind::Syntax,
        },
    }
}

/// Reads the text of proofs.
pub fn read_proofs(alloc: Global, bytes: &[u8]) -> Result<Vec<Proof>, LogError>
    ensures ok { IfOk result (λ proofs. IsTextOf bytes.now proofs.items) }
    ensures refused { IfErr result (λ e. IfRefused e (IsLogFault bytes.now)) }
{
    if bytes.len() > MOST_BYTES {
        return Err(refused(1, LogFaultKind::TooLong));
    }
    let mut proofs = Vec::new(alloc);
    let mut rest = bytes;
    while !rest.is_empty() {
        match proof(alloc, &mut rest) {
            Ok(read) => proofs.push(read)?,
            Err(Refusal::Refused(_)) => return Err(Refusal::Refused(fault(bytes, rest))),
            Err(Refusal::NoMemory) => return Err(Refusal::NoMemory),
        }
    }
    Ok(proofs)
}
