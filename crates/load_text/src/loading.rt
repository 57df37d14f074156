//! What `load` writes of a number.

ghost use Rattle.std.specs.Prelude.{◌≡◌, ◌<◌, ◌^◌, ◌++◌, length, All, IfOk, OnOk};
ghost use Rattle.rule_core.specs.Checks.{IsRule};
ghost use Rattle.rule_typing.specs.Classes.{IsClassified};
ghost use Rattle.rule_typing.specs.Faults.{HasNoFault};
ghost use Rattle.load_text.specs.Load.{built_in_text, count_line, instructions_in, load_text};
ghost use Rattle.load_text.specs.Loading.{counts_text};
ghost use Rattle.load_text.specs.RuleText.{IsRuleText};

use crate::counting::{count_true, instructions_in, sum_of};
use crate::laws::rule_texts_are_small;
use ir_core::Module;
use itoa::Buffer;
use rule_reader::{Rule, read_rules};
use std::alloc::{AllocError, Global};
use strategy_core::Done;
use verdict_core::Table;

/// How many functions are generated.
pub const FUNCTIONS: u32 = 200;

/// The rules that `load` applies, as a rule file.
pub const BUILT_IN: &str = "Name: add-zero
%r = add %x, 0
=>
%r = %x

Name: and-same
%r = and %x, %x
=>
%r = %x

Name: udiv-one
%r = udiv %x, 1
=>
%r = %x

Name: not-not
%1 = xor %x, -1
%r = xor %1, -1
=>
%r = %x

Name: sub-add
%1 = sub %x, %y
%r = add %1, %y
=>
%r = %x

Name: not-add
%1 = xor %x, -1
%2 = add %1, C
=>
%2 = sub C-1, %x

Name: mul-two
%r = mul %x, 2
=>
%r = shl %x, 1
";

/// What `load` writes, and the verdicts behind it.
#[derive(Drop)]
pub struct Loaded {
    /// Five lines: how many functions the generated module has, how many instructions before and after, how often
    /// functions were rewritten, and how many ran out of steps.
    pub text: Vec<u8>,
    /// The verdicts in the order in which they were first asked for, all of them `Admitted`.
    pub table: Table,
}

/// The built-in rules. If their text were refused, that would be answered as want of memory; the tests show that it
/// isn't.
pub fn built_in_rules(alloc: Global) -> Result<Vec<Rule>, AllocError>
    ensures text { IfOk result (λ rules. IsRuleText built_in_text rules.items) }
    ensures rules { IfOk result (λ rules. All IsRule rules.items) }
    ensures classes { IfOk result (λ rules. All IsClassified rules.items) }
    ensures typed { IfOk result (λ rules. All HasNoFault rules.items) }
    ensures few { IfOk result (λ rules. length rules.items < 2 ^ 32) }
{
    rule_texts_are_small();
    match read_rules(alloc, BUILT_IN.as_bytes()) {
        Ok(rules) => Ok(rules),
        Err(_) => Err(AllocError),
    }
}

/// Appends a line with a text and a number.
fn push_count(out: &mut Vec<u8>, text: &[u8], number: usize) -> Result<(), AllocError>
    ensures { OnOk result (out.new.items ≡ out.old.items ++ count_line text.now number) }
{
    let mut digits = Buffer::new();
    out.extend_from_slice(text)?;
    out.extend_from_slice(digits.format(number).as_bytes())?;
    out.push(b'\n')?;
    Ok(())
}

/// Appends the lines, from their five numbers.
fn push_counts(
    out: &mut Vec<u8>,
    before: usize,
    after: usize,
    rewrites: usize,
    limited: usize,
) -> Result<(), AllocError>
    ensures { OnOk result (out.new.items ≡ out.old.items ++ counts_text 200 before after rewrites limited) }
{
    push_count(out, b"functions ", FUNCTIONS as usize)?;
    push_count(out, b"instructions before ", before)?;
    push_count(out, b"instructions after ", after)?;
    push_count(out, b"rewrites ", rewrites)?;
    push_count(out, b"limit ", limited)
}

/// The lines on a generated module, and on what the strategy gives for it.
pub fn lines(alloc: Global, module: &Module, done: &Done) -> Result<Vec<u8>, AllocError>
    ensures { IfOk result (λ text. text.items ≡ load_text 200 (instructions_in module.now) done.now.module done.now.counts done.now.limited) }
{
    let before = instructions_in(module)?;
    let after = instructions_in(&done.module)?;
    let rewrites = sum_of(done.counts.as_slice())?;
    let limited = count_true(done.limited.as_slice());
    let mut out = Vec::new(alloc);
    push_counts(&mut out, before, after, rewrites, limited)?;
    Ok(out)
}
