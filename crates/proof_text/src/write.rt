//! Writes the text of proofs.

ghost use Rattle.std.specs.Prelude.{◌≡◌, ◌++◌, ◌<◌, IfOk, OnOk};
ghost use Rattle.proof_text.specs.Numerals.{numeral};
ghost use Rattle.proof_text.specs.Texts.{literal_text, clause_text, hints_text, step_text, log_text, widths_text, head_text, proof_text, text_of};

use crate::proof::Proof;
use clauses::{Lit, Step};
use itoa::Buffer;
use std::alloc::{AllocError, Global};

/// Adds a number in decimal.
#[tactic(auto, using(crate::proofs::Numerals::decimal_is))]
fn push_number(out: &mut Vec<u8>, number: u64) -> Result<(), AllocError>
    ensures { OnOk result (out.new.items ≡ out.old.items ++ numeral number) }
{
    let mut buffer = Buffer::new();
    out.extend_from_slice(buffer.format(number).as_bytes())
}

/// Adds a literal.
fn push_literal(out: &mut Vec<u8>, literal: Lit) -> Result<(), AllocError>
    ensures { OnOk result (out.new.items ≡ out.old.items ++ literal_text literal) }
{
    if literal.is_negated() {
        out.push(b'-')?;
    }
    push_number(out, u64::from(literal.variable()))
}

/// Adds a clause, with `:` behind it.
fn push_clause(out: &mut Vec<u8>, clause: &[Lit]) -> Result<(), AllocError>
    ensures { OnOk result (out.new.items ≡ out.old.items ++ clause_text clause.now) }
{
    for literal in clause {
        push_literal(out, *literal)?;
        out.push(b' ')?;
    }
    out.push(b':')?;
    Ok(())
}

/// Adds hints, with a line feed behind them.
fn push_hints(out: &mut Vec<u8>, hints: &[u32]) -> Result<(), AllocError>
    ensures { OnOk result (out.new.items ≡ out.old.items ++ hints_text hints.now) }
{
    for hint in hints {
        out.push(b' ')?;
        push_number(out, u64::from(*hint))?;
    }
    out.push(b'\n')?;
    Ok(())
}

/// Adds the line of a step.
fn push_step(out: &mut Vec<u8>, step: &Step) -> Result<(), AllocError>
    ensures { OnOk result (out.new.items ≡ out.old.items ++ step_text step.now) }
{
    push_clause(out, step.clause.as_slice())?;
    push_hints(out, step.hints.as_slice())
}

/// Adds the lines of a log.
fn push_log(out: &mut Vec<u8>, log: &[Step]) -> Result<(), AllocError>
    ensures { OnOk result (out.new.items ≡ out.old.items ++ log_text log.now) }
{
    out.extend_from_slice(b"log ")?;
    push_number(out, log.len() as u64)?;
    out.push(b'\n')?;
    for step in log {
        push_step(out, step)?;
    }
    Ok(())
}

/// Adds widths, joined by spaces.
fn push_widths(out: &mut Vec<u8>, widths: &[u32]) -> Result<(), AllocError>
    ensures { OnOk result (out.new.items ≡ out.old.items ++ widths_text widths.now) }
{
    for (place, width) in widths.iter().enumerate() {
        if place > 0 {
            out.push(b' ')?;
        }
        push_number(out, u64::from(*width))?;
    }
    Ok(())
}

/// Adds the line that a proof begins with.
fn push_head(out: &mut Vec<u8>, name: &[u8], widths: &[u32]) -> Result<(), AllocError>
    ensures { OnOk result (out.new.items ≡ out.old.items ++ head_text name.now widths.now) }
{
    out.extend_from_slice(b"proof ")?;
    out.extend_from_slice(name)?;
    out.extend_from_slice(b" [")?;
    push_widths(out, widths)?;
    out.extend_from_slice(b"]\n")
}

/// Adds the text of a proof.
pub fn push_proof(out: &mut Vec<u8>, proof: &Proof) -> Result<(), AllocError>
    ensures { OnOk result (out.new.items ≡ out.old.items ++ proof_text proof.now) }
{
    push_head(out, proof.name.as_slice(), proof.widths.as_slice())?;
    push_log(out, proof.log.as_slice())
}

/// The text of proofs.
pub fn write_proofs(alloc: Global, proofs: &[Proof]) -> Result<Vec<u8>, AllocError>
    ensures { IfOk result (λ text. text.items ≡ text_of proofs.now) }
{
    let mut out = Vec::new(alloc);
    for proof in proofs {
        push_proof(&mut out, proof)?;
    }
    Ok(out)
}
