//! Whether the root of a rule may match an instruction.

ghost use Rattle.std.specs.Prelude.{◌↔◌, IsTrue};
ghost use Rattle.ir_core.specs.Blocks.{HasInst};
ghost use Rattle.rule_core.specs.Checks.{IsRule};
ghost use Rattle.bindings.specs.Checks.{IsRootOperation};

use crate::inst::inst_at;
use crate::operation::is_same_operation;
use ir_core::Function;
use rule_core::Rule;

/// Whether an instruction is the same operation as the root of a rule: the rule matches at no other. It takes no
/// memory.
pub fn is_root_operation(f: &Function, block: u32, place: u32, rule: &Rule) -> bool
    requires place { HasInst f.now block place }
    requires rule { IsRule rule.now }
    ensures { IsTrue result ↔ IsRootOperation f.now block place rule.now }
{
    let source = rule.source.as_slice();
    let root = &source[source.len() - 1];
    match inst_at(f, block, place) {
        Some(inst) => is_same_operation(root.op, &inst.op),
        None => false,
    }
}
