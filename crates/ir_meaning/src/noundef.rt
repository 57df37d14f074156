//! Undefined behaviour that comes of poison and `undef` (LangRef, "Parameter Attributes").

ghost use Rattle.std.specs.Prelude.{◌≡◌, ◌&&◌, length};
ghost use Rattle.ir_core.specs.Run.{breaks_noundef, has_noundef, is_indefinite, is_poison};

use ir_core::{Operand, Parameter};
use lists::Text;
use ops::Value;

/// Whether the item `noundef` is among these.
pub(crate) fn has_noundef(items: &[Text]) -> bool
    ensures { result ≡ has_noundef items.now }
{
    items
        .iter()
        .any(|item| item.as_slice() == b"noundef".as_slice())
}

/// Whether the operand gave no definite number: it is the literal `undef`, or gave poison.
pub(crate) fn is_indefinite(a: Operand, value: &Value) -> bool
    ensures { result ≡ is_indefinite a value.now }
{
    match a {
        Operand::Undef => true,
        Operand::Register(_) | Operand::Number(_) | Operand::Poison => is_poison(value),
    }
}

/// Whether the argument of a parameter with `noundef` is poison. There is one argument for each parameter.
pub(crate) fn breaks_noundef(parameters: &[Parameter], args: &[Value]) -> bool
    requires { length args.now ≡ length parameters.now }
    ensures { result ≡ breaks_noundef parameters.now args.now }
{
    for (k, value) in args.iter().enumerate() {
        if breaks(&parameters[k], value) {
            return true;
        }
    }
    false
}

/// Whether the parameter has `noundef` and the value is poison.
fn breaks(parameter: &Parameter, value: &Value) -> bool
    ensures { result ≡ (has_noundef parameter.now.items && is_poison value.now) }
{
    is_poison(value) && has_noundef(parameter.items.as_slice())
}

fn is_poison(value: &Value) -> bool
    ensures { result ≡ is_poison value.now }
{
    match value {
        Value::Poison => true,
        Value::Bits(_) => false,
    }
}
