//! The function of a name.

ghost use Rattle.std.specs.Prelude.{IfSome, IfNone};
ghost use Rattle.ir_core.specs.declared.function.Function.{Function as function};
ghost use Rattle.run_text.specs.Runs.{IsNamed};

use ir_core::{Entry, Function, Module};

/// The function of this name, without its `@`, if the module has one. The search is linear in the entries.
pub(crate) fn function_named<'m>(m: &'m Module, name: &[u8]) -> Option<&'m Function>
    ensures found { IfSome result (λ f. IsNamed m.now name.now f.now) }
    ensures none { IfNone result ((f : function) → IsNamed m.now name.now f → ⊥) }
{
    for entry in m.entries.as_slice() {
        match entry {
            Entry::Kept(_) => {}
            Entry::Function(f) => {
                if f.name.as_slice() == name {
                    return Some(f);
                }
            }
        }
    }
    None
}
