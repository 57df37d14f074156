//! Rules applied to functions.

ghost use Rattle.std.specs.Prelude.{◌≡◌, ◌-◌, ◌<◌, ◌^◌, Bool, length, IfOk, OnOk, OnErr};
ghost use Rattle.ir_core.specs.Blocks.{HasInst, IsBlock};
ghost use Rattle.ir_core.specs.Checks.{IsInst, MeetsChecks};
ghost use Rattle.ir_core.specs.declared.function.Block.{Block};
ghost use Rattle.ir_core.specs.declared.instruction.Inst.{Inst};
ghost use Rattle.rule_core.specs.Checks.{IsRule};
ghost use Rattle.bindings.specs.Match.{IsMatch};
ghost use Rattle.rewriter.specs.Applied.{IsRewritten};

use crate::insts::rewrite_of;
use bindings::Binding;
use ir_core::Function;
use lists::{List, Text};
use rule_core::Rule;
use std::alloc::{AllocError, Global};
use substitution::rewrite_function;

/// A copy of a name, if there is one.
fn copy_name(alloc: Global, name: &Option<Text>) -> Result<Option<Text>, AllocError>
    ensures { IfOk result (λ copy. copy ≡ name.now) }
{
    match name {
        Some(text) => Ok(Some(List::from_vec(Vec::from_slice(alloc, text.as_slice())?))),
        None => Ok(None),
    }
}

/// A copy of the name of an instruction.
fn name_at(alloc: Global, f: &Function, block: u32, place: u32) -> Result<Option<Text>, AllocError>
    requires { HasInst f.now block place }
    ensures { IfOk result (λ name. (inst : Inst) → IsInst f.now block place inst → name ≡ inst.name) }
{
    let block = &f.blocks.as_slice()[block as usize];
    let inst = &block.insts.as_slice()[place as usize];
    copy_name(alloc, &inst.name)
}

/// Applies a rule to a function where it matches with this binding. The target's statements are inserted before the
/// root in order, unnamed, with numbers for constant terms; a copy is no instruction. The last one takes the root's
/// place and name. Where it is a copy, the root is removed, and all its uses in the whole function are replaced by the
/// operand that is copied, in unreached blocks, phis and terminators too.
///
/// It takes its memory before it changes the function, which stays as it was where that is refused. It takes as many
/// steps as the function is long and, for each constant term that the target reads, as the rule has nodes.
pub fn apply(
    alloc: Global,
    f: &mut Function,
    binding: &Binding,
    rule: &Rule,
) -> Result<(), AllocError>
    requires rule { IsRule rule.now }
    requires checks { MeetsChecks f.old }
    // It matches inside the root's block, or across blocks.
    requires matches { (across : Bool) × IsMatch across f.old binding.now.block binding.now.place rule.now binding.now }

    // Places are counted in 32 bits, and a rule inserts 32 instructions at most.
    requires places { (block : Block) → IsBlock f.old binding.now.block block
        → length block.insts < 2 ^ 32 - 32 }
    ensures ok { OnOk result (IsRewritten f.old binding.now rule.now f.new) }
    ensures err { OnErr result (f.new ≡ f.old) }
{
    let name = name_at(alloc, f, binding.block, binding.place)?;
    let rewrite = rewrite_of(alloc, rule, binding, name)?;
    rewrite_function(alloc, f, rewrite)
}
