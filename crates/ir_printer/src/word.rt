//! Printing the words of instructions (LangRef, "Instruction Reference").

ghost use Rattle.std.specs.Prelude.{◌≡◌, ◌++◌, OnOk};
ghost use Rattle.ops.specs.Keywords.{predicate_keyword};
ghost use Rattle.std.specs.List.{flat_map};
ghost use Rattle.ir_text.specs.PrintedText.{flag_text, flags_text};

use ops::keywords::{EVERY_FLAG, Flag, flag_name, has_flag};
use ops::{Flags, Pred};
use std::alloc::AllocError;

/// The keyword of a predicate.
pub(crate) fn pred_name(pred: Pred) -> &'static [u8]
    ensures { result.now ≡ predicate_keyword pred }
{
    match pred {
        Pred::Eq => b"eq",
        Pred::Ne => b"ne",
        Pred::Ugt => b"ugt",
        Pred::Uge => b"uge",
        Pred::Ult => b"ult",
        Pred::Ule => b"ule",
        Pred::Sgt => b"sgt",
        Pred::Sge => b"sge",
        Pred::Slt => b"slt",
        Pred::Sle => b"sle",
    }
}

/// Appends a flag with a space before it, if it is among these.
fn push_flag(out: &mut Vec<u8>, flags: Flags, flag: Flag) -> Result<(), AllocError>
    ensures { OnOk result (out.new.items ≡ out.old.items ++ flag_text flags flag) }
{
    if has_flag(flags, flag) {
        out.push(b' ')?;
        out.extend_from_slice(flag_name(flag).as_bytes())?;
    }
    Ok(())
}

/// Appends those of `each` that are among the flags, each with a space before it.
fn push_each_flag(out: &mut Vec<u8>, flags: Flags, each: &[Flag]) -> Result<(), AllocError>
    ensures { OnOk result (out.new.items ≡ out.old.items ++ flat_map (flag_text flags) each.now) }
{
    for flag in each {
        push_flag(out, flags, *flag)?;
    }
    Ok(())
}

/// Appends flags, each with a space before it.
#[tactic(auto, unfolding(ir_text::specs::PrintedText::flags_text))]
pub(crate) fn push_flags(out: &mut Vec<u8>, flags: Flags) -> Result<(), AllocError>
    ensures { OnOk result (out.new.items ≡ out.old.items ++ flags_text flags) }
{
    push_each_flag(out, flags, &EVERY_FLAG)
}
