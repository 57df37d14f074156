//! Rules and functions that are read, and where the rules match.

ghost use Rattle.std.specs.Prelude.{◌<◌, ◌-◌, ◌^◌, length, All, IsTrue, IfOk, IfSome};
ghost use Rattle.ir_core.specs.Blocks.{HasInst};
ghost use Rattle.ir_core.specs.Checks.{MeetsChecks, ModuleMeetsChecks};
ghost use Rattle.ir_text.specs.Forms.{FunctionHasForms, ModuleHasForms};
ghost use Rattle.bindings.specs.Match.{IsMatch};
ghost use Rattle.test_texts.specs.Ready.{FunctionIsReady, RuleIsReady};

use crate::unfit::Unfit;
use bindings::Binding;
use ir_core::{Entry, Function, Module};
use ir_reader::{IrError, read_module};
use ir_round_trip::module_texts_have_forms;
use matcher::match_at;
use rule_core::Rule;
use rule_reader::{RuleError, read_rules};
use std::alloc::Global;

pub(crate) const NOT_ADD: &str =
    "Name: not-add\n%1 = xor %x, -1\n%2 = add %1, C\n=>\n%2 = sub C-1, %x\n";

pub(crate) const NOT_ADD_ONCE: &str =
    "Name: not-add\nPre: hasOneUse(%1)\n%1 = xor %x, -1\n%2 = add %1, C\n=>\n%2 = sub C-1, %x\n";

pub(crate) const MUL_TWO: &str = "Name: mul-two\n%r = mul %x, 2\n=>\n%r = shl %x, 1\n";

pub(crate) const ADD_ZERO: &str = "Name: add-zero\n%r = add %x, 0\n=>\n%r = %x\n";

pub(crate) const SEL_INC: &str =
    "Name: sel-inc\n%t = add %x, 1\n%r = select %c, %x, %t\n=>\n%u = sub %t, 1\n%r = select %c, %u, %t\n";

pub(crate) const ZEXT_TWICE: &str =
    "Name: zext-twice\n%t = zext %x\n%r = zext %t\n=>\n%r = zext %x\n";

pub(crate) const SEL_FREEZE: &str =
    "Version: 2\nName: sel-freeze\n%r = select %c, %y, false\n=>\n%f = freeze %y\n%r = and %c, %f\n";

pub(crate) const REFREEZE: &str =
    "Version: 2\nName: refreeze\nWit: t1\n%r = freeze %x\n=>\n%r = freeze %x\n";

pub(crate) const ABS_NEG: &str =
    "Version: 2\nName: abs-neg\n%n = sub 0, %x\n%r = abs %n\n=>\n%r = abs %x\n";

pub(crate) const TZ_READ: &str =
    "Version: 2\nName: tz-read\n%t = cttz %x\n%r = add %t, C\n=>\n%r = sub %t, -C\n";

/// The module of a text.
fn module_of(alloc: Global, text: &str) -> Result<Module, Unfit>
    ensures checks { IfOk result ModuleMeetsChecks }
    ensures forms { IfOk result ModuleHasForms }
{
    match read_formed(alloc, text.as_bytes()) {
        Ok(module) => Ok(module),
        Err(IrError::NoMemory) => Err(Unfit::NoMemory),
        Err(IrError::Refused(_)) => Err(Unfit::NoModule),
    }
}

/// Reads a module; its parts have the forms of a text.
fn read_formed(alloc: Global, bytes: &[u8]) -> Result<Module, IrError>
    ensures checks { IfOk result ModuleMeetsChecks }
    ensures forms { IfOk result ModuleHasForms }
{
    module_texts_have_forms();
    let module = read_module(alloc, bytes)?;
    Ok(module)
}

/// The function that a text ends with.
pub(crate) fn function_of(alloc: Global, text: &str) -> Result<Function, Unfit>
    ensures { IfOk result FunctionIsReady }
{
    let module = module_of(alloc, text)?;
    let mut entries = module.entries.into_vec();
    match entries.pop() {
        Some(Entry::Function(f)) => small(f),
        _ => Err(Unfit::NoFunction),
    }
}

/// The function, if it has fewer than 2^32 blocks, and each block fewer than 2^32 - 32 instructions.
fn small(f: Function) -> Result<Function, Unfit>
    requires checks { MeetsChecks f }
    requires forms { FunctionHasForms f }
    ensures { IfOk result FunctionIsReady }
{
    if has_few(&f) {
        Ok(f)
    } else {
        Err(Unfit::TooLarge)
    }
}

/// The rules of a text.
fn rules_of(alloc: Global, text: &str) -> Result<Vec<Rule>, Unfit>
    ensures { IfOk result (λ rules. All RuleIsReady rules.items) }
{
    match read_rules(alloc, text.as_bytes()) {
        Ok(rules) => Ok(rules),
        Err(RuleError::NoMemory) => Err(Unfit::NoMemory),
        Err(RuleError::Refused(_)) => Err(Unfit::NoRules),
    }
}

/// The rule that a text ends with.
pub(crate) fn rule_of(alloc: Global, text: &str) -> Result<Rule, Unfit>
    ensures { IfOk result RuleIsReady }
{
    let mut rules = rules_of(alloc, text)?;
    match rules.pop() {
        Some(rule) => Ok(rule),
        None => Err(Unfit::NoRule),
    }
}

/// Whether a function has fewer than 2^32 blocks, and each block fewer than 2^32 - 32 instructions.
fn has_few(f: &Function) -> bool
    ensures blocks { IsTrue result → length f.now.blocks < 2 ^ 32 }
    ensures insts { IsTrue result → All (λ b. length b.insts < 2 ^ 32 - 32) f.now.blocks }
{
    f.blocks.len() < 1 << 32
        && f.blocks
            .as_slice()
            .iter()
            .all(|b| b.insts.len() < (1 << 32) - 32)
}

/// Whether there is an instruction at this place of a block.
fn has_inst(f: &Function, block: u32, place: u32) -> bool
    ensures { IsTrue result → HasInst f.now block place }
{
    match f.blocks.as_slice().get(block as usize) {
        Some(block) => (place as usize) < block.insts.len(),
        None => false,
    }
}

/// The binding with which a rule matches at a place of a block, inside it or across blocks, if there is an instruction.
pub(crate) fn match_there(
    alloc: Global,
    f: &Function,
    block: u32,
    place: u32,
    rule: &Rule,
    across: bool,
) -> Result<Option<Binding>, Unfit>
    requires function { FunctionIsReady f.now }
    requires rule { RuleIsReady rule.now }
    ensures { IfOk result (λ found. IfSome found (IsMatch across f.now block place rule.now)) }
{
    if !has_inst(f, block, place) {
        return Err(Unfit::NoPlace);
    }
    Ok(match_at(alloc, f, block, place, rule, across)?)
}
