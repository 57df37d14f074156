//! Open classes: those with neither a name in the source nor a fixed width.

ghost use Rattle.std.specs.Prelude.{◌↔◌, IsTrue, Contains};
ghost use Rattle.rule_core.specs.declared.rule.Statement.{Statement};
ghost use Rattle.rule_typing.specs.Classes.{HasClasses, IsName, IsNameOf, ReadsClass, NamesClass};
ghost use Rattle.rule_typing.specs.Faults.{IsOpen, HasOpenClass};

use crate::fixed::fixed_width;
use crate::operands::Operands;
use rule_core::{Argument, Operand, Rule, Statement};

/// Whether one of the classes, which are `count` many, is open.
pub(crate) fn has_open_class(rule: &Rule, count: usize) -> bool
    requires { HasClasses rule.now count }
    ensures { IsTrue result ↔ HasOpenClass rule.now }
{
    for class in 0..count {
        if is_open(rule, class) {
            return true;
        }
    }
    false
}

/// Whether the class is open.
fn is_open(rule: &Rule, class: usize) -> bool
    ensures { IsTrue result ↔ IsOpen rule.now class }
{
    match fixed_width(rule, class) {
        Some(_) => false,
        None => !is_named(rule.source.as_slice(), class),
    }
}

/// Whether a register that these statements assign, or a register or a constant that they read, has the class.
fn is_named(statements: &[Statement], class: usize) -> bool
    ensures { IsTrue result ↔ ((s : Statement) × Contains statements.now s × NamesClass class s) }
{
    for statement in statements {
        if names_class(statement, class) {
            return true;
        }
    }
    false
}

/// The same for one statement.
fn names_class(statement: &Statement, class: usize) -> bool
    ensures { IsTrue result ↔ NamesClass class statement.now }
{
    let operands = Operands::of(statement.op);
    statement.class as usize == class || reads_class(operands.as_slice(), class)
}

/// Whether one of the operands is a register or a constant of the class.
fn reads_class(operands: &[Operand], class: usize) -> bool
    ensures { IsTrue result ↔ ReadsClass operands.now class }
{
    for operand in operands {
        if is_name_of(*operand, class) {
            return true;
        }
    }
    false
}

fn is_name_of(operand: Operand, class: usize) -> bool
    ensures { IsTrue result ↔ IsNameOf class operand }
{
    operand.class as usize == class && is_name(operand.value)
}

fn is_name(value: Argument) -> bool
    ensures { IsTrue result ↔ IsName value }
{
    match value {
        Argument::Register(_) | Argument::Constant(_) => true,
        Argument::Literal(_) | Argument::Truth(_) | Argument::Undef(_) | Argument::Term(_) => false,
    }
}
