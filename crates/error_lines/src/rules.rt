//! The line on a rule file.

ghost use Rattle.std.specs.Prelude.{◌≡◌, ◌++◌, IfOk, OnOk};
ghost use Rattle.error_lines.specs.Lines.{kind_text, rules_line};

use crate::place::push_place;
use rule_reader::{RuleFault, RuleFaultKind};
use std::alloc::{AllocError, Global};

/// The name of a kind of fault, and what was left out, if something was.
#[tactic(auto, unfolding(crate::specs::Lines::kind_text))]
fn words_of(kind: &RuleFaultKind) -> (&[u8], &[u8])
    ensures { result.0.now ++ result.1.now ≡ kind_text kind.now }
{
    match kind {
        RuleFaultKind::TooLong => (b"TooLong", b""),
        RuleFaultKind::BadByte => (b"BadByte", b""),
        RuleFaultKind::Syntax => (b"Syntax", b""),
        RuleFaultKind::LeftOut(word) => (b"LeftOut ", word.as_slice()),
        RuleFaultKind::TooMany => (b"TooMany", b""),
        RuleFaultKind::Duplicate => (b"Duplicate", b""),
        RuleFaultKind::Unbound => (b"Unbound", b""),
        RuleFaultKind::RootMissing => (b"RootMissing", b""),
        RuleFaultKind::Redefines => (b"Redefines", b""),
        RuleFaultKind::UnusedTemp => (b"UnusedTemp", b""),
        RuleFaultKind::UndefInside => (b"UndefInside", b""),
        RuleFaultKind::WitnessCount => (b"WitnessCount", b""),
        RuleFaultKind::NoType => (b"NoType", b""),
        RuleFaultKind::OpenType => (b"OpenType", b""),
    }
}

/// Appends the name of a kind of fault, with what was left out.
fn push_kind(out: &mut Vec<u8>, kind: &RuleFaultKind) -> Result<(), AllocError>
    ensures { OnOk result (out.new.items ≡ out.old.items ++ kind_text kind.now) }
{
    let (name, left_out) = words_of(kind);
    out.extend_from_slice(name)?;
    out.extend_from_slice(left_out)
}

/// The line on a rule file: the line and the kind of its first fault.
pub fn rules_line(alloc: Global, fault: &RuleFault) -> Result<Vec<u8>, AllocError>
    ensures { IfOk result (λ line. line.items ≡ rules_line fault.now) }
{
    let mut line = Vec::new(alloc);
    push_place(&mut line, b"rules: line ", fault.line)?;
    push_kind(&mut line, &fault.kind)?;
    line.extend_from_slice(b"\n")?;
    Ok(line)
}
