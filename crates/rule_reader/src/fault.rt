//! Faults of classes, by the kinds of faults of texts.

ghost use Rattle.std.specs.Prelude.{◌≡◌};
ghost use Rattle.rule_reader.specs.Faults.{kind_of, class_check};

use rule_parse::RuleFaultKind;
use rule_typing::ClassFault;

/// The kind of a fault of classes.
pub(crate) fn kind_of_class_fault(fault: ClassFault) -> RuleFaultKind
    ensures { result ≡ kind_of (class_check fault) }
{
    match fault {
        ClassFault::TooMany => RuleFaultKind::TooMany,
        ClassFault::NoType => RuleFaultKind::NoType,
        ClassFault::OpenType => RuleFaultKind::OpenType,
    }
}
