//! The line on a module.

ghost use Rattle.std.specs.Prelude.{◌≡◌, ◌++◌, codes, decimal, IfOk, OnOk};
ghost use Rattle.error_lines.specs.Lines.{register_text, ir_kind_text, module_line};

use crate::place::push_place;
use ir_printer::push_name;
use ir_reader::{Identifier, IrFault, IrFaultKind};
use itoa::Buffer;
use std::alloc::{AllocError, Global};

/// Appends a register as it is printed.
#[tactic(auto, unfolding(crate::specs::Lines::register_text))]
fn push_register(out: &mut Vec<u8>, register: &Identifier) -> Result<(), AllocError>
    ensures { OnOk result (out.new.items ≡ out.old.items ++ register_text register.now) }
{
    out.extend_from_slice(b"%")?;
    match register {
        Identifier::Named(name) => push_name(out, name.as_slice()),
        Identifier::Numbered(number) => {
            let mut digits = Buffer::new();
            out.extend_from_slice(digits.format(*number).as_bytes())
        }
    }
}

/// Appends which register isn't assigned where it is read, and in which block.
fn push_unassigned(out: &mut Vec<u8>, register: &Identifier, block: u32) -> Result<(), AllocError>
    ensures { OnOk result (out.new.items ≡ out.old.items ++ (codes "Unassigned " ++ register_text register.now ++ codes " in block " ++ decimal block)) }
{
    out.extend_from_slice(b"Unassigned ")?;
    push_register(out, register)?;
    out.extend_from_slice(b" in block ")?;
    let mut digits = Buffer::new();
    out.extend_from_slice(digits.format(block).as_bytes())?;
    Ok(())
}

/// Appends the name of a kind of fault of a module, with what was left out or is not assigned.
#[tactic(auto, unfolding(crate::specs::Lines::ir_kind_text))]
fn push_ir_kind(out: &mut Vec<u8>, kind: &IrFaultKind) -> Result<(), AllocError>
    ensures { OnOk result (out.new.items ≡ out.old.items ++ ir_kind_text kind.now) }
{
    match kind {
        IrFaultKind::TooLong => out.extend_from_slice(b"TooLong"),
        IrFaultKind::BadByte => out.extend_from_slice(b"BadByte"),
        IrFaultKind::Syntax => out.extend_from_slice(b"Syntax"),
        IrFaultKind::LeftOut(word) => {
            out.extend_from_slice(b"LeftOut ")?;
            out.extend_from_slice(word.as_slice())
        }
        IrFaultKind::Width => out.extend_from_slice(b"Width"),
        IrFaultKind::ConstRange => out.extend_from_slice(b"ConstRange"),
        IrFaultKind::Numbering => out.extend_from_slice(b"Numbering"),
        IrFaultKind::Duplicate => out.extend_from_slice(b"Duplicate"),
        IrFaultKind::Unknown => out.extend_from_slice(b"Unknown"),
        IrFaultKind::TypeClash => out.extend_from_slice(b"TypeClash"),
        IrFaultKind::BadPhi => out.extend_from_slice(b"BadPhi"),
        IrFaultKind::EntryPred => out.extend_from_slice(b"EntryPred"),
        IrFaultKind::Unassigned(register, block) => push_unassigned(out, register, *block),
    }
}

/// The line on a module: the line and the kind of its first fault.
pub fn module_line(alloc: Global, fault: &IrFault) -> Result<Vec<u8>, AllocError>
    ensures { IfOk result (λ line. line.items ≡ module_line fault.now) }
{
    let mut line = Vec::new(alloc);
    push_place(&mut line, b"module: line ", fault.line)?;
    push_ir_kind(&mut line, &fault.kind)?;
    line.extend_from_slice(b"\n")?;
    Ok(line)
}
