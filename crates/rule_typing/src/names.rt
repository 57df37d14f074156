//! The positions that name a register, a constant or a choice of the target.

ghost use Rattle.std.specs.Prelude.{◌≡◌, ◌⊎◌, Some, option_map, slice_get};
ghost use Rattle.rule_core.specs.declared.rule.Name.{Name};
ghost use Rattle.rule_core.specs.Positions.{Names, operands_among, choices_among, terms_in};
ghost use Rattle.rule_typing.specs.declared.half.Half.TheVariants as halves;
ghost use Rattle.rule_typing.specs.Splits.{name_of, operand_naming, choice_naming, term_naming, NamingOf, IsRead, assigned_class, last_class, root_class, Splits, FindsOther};

use crate::half::Half;
use crate::operands::Operands;
use lists::List;
use rule_core::{Argument, Choice, Choices, Name, Node, Operand, Register, Rule, Statement, Term};

/// The class with which the name stands here, and that of another position with the name, if the two differ.
pub(crate) fn split_by_name(rule: &Rule, naming: Option<(Name, u32)>) -> Option<(u32, u32)>
    ensures { Splits (λ c d. (n : Name) × (naming ≡ Some (n, c)) × Names rule.now n d) result }
{
    let (name, class) = match naming {
        Some(naming) => naming,
        None => return None,
    };
    match other_class(rule, name, class) {
        Some(other) => Some((class, other)),
        None => None,
    }
}

/// The class of a position that names this, other than the class given; or `None` where all that name it are of that
/// class.
fn other_class(rule: &Rule, name: Name, class: u32) -> Option<u32>
    ensures { FindsOther (Names rule.now name) class result }
{
    match unless(assigned_class(rule, name), class) {
        Some(other) => Some(other),
        None => match unless(root_class(rule, name), class) {
            Some(other) => Some(other),
            None => other_read(rule, name, class),
        },
    }
}

/// The same for the positions that read it.
fn other_read(rule: &Rule, name: Name, class: u32) -> Option<u32>
    ensures { FindsOther (IsRead rule.now name) class result }
{
    match other_by_statements(rule.source.as_slice(), name, class) {
        Some(other) => Some(other),
        None => match other_by_statements(rule.target.as_slice(), name, class) {
            Some(other) => Some(other),
            None => other_behind_operands(rule, name, class),
        },
    }
}

/// The same for the choices of the target and the nodes of the rule's terms.
fn other_behind_operands(rule: &Rule, name: Name, class: u32) -> Option<u32>
    ensures { FindsOther (λ d. NamingOf (choice_naming halves.Target) (choices_among rule.now.target) name d ⊎ NamingOf term_naming (terms_in rule.now) name d) class result }
{
    match other_left_open(rule.target.as_slice(), name, class) {
        Some(other) => Some(other),
        None => other_in_terms(rule, name, class),
    }
}

/// The same for the nodes of the rule's terms.
fn other_in_terms(rule: &Rule, name: Name, class: u32) -> Option<u32>
    ensures { FindsOther (NamingOf term_naming (terms_in rule.now) name) class result }
{
    match other_by_terms(rule.terms.as_slice(), name, class) {
        Some(other) => Some(other),
        None => other_by_terms(rule.witness_terms.as_slice(), name, class),
    }
}

/// The same for the operands of these statements.
fn other_by_statements(statements: &[Statement], name: Name, class: u32) -> Option<u32>
    ensures { FindsOther (NamingOf operand_naming (operands_among statements.now) name) class result }
{
    for statement in statements {
        let operands = Operands::of(statement.op);
        if let Some(other) = other_by_operands(operands.as_slice(), name, class) {
            return Some(other);
        }
    }
    None
}

/// The same for these operands.
fn other_by_operands(operands: &[Operand], name: Name, class: u32) -> Option<u32>
    ensures { FindsOther (NamingOf operand_naming operands.now name) class result }
{
    for operand in operands {
        if let Some(other) = other_by(operand_naming(*operand), name, class) {
            return Some(other);
        }
    }
    None
}

/// The same for the choices of these statements of the target.
fn other_left_open(statements: &[Statement], name: Name, class: u32) -> Option<u32>
    ensures { FindsOther (NamingOf (choice_naming halves.Target) (choices_among statements.now) name) class result }
{
    for statement in statements {
        let choices = Choices::of(statement);
        if let Some(other) = other_by_choices(choices.as_slice(), name, class) {
            return Some(other);
        }
    }
    None
}

/// The same for these choices of the target.
fn other_by_choices(choices: &[Choice], name: Name, class: u32) -> Option<u32>
    ensures { FindsOther (NamingOf (choice_naming halves.Target) choices.now name) class result }
{
    for choice in choices {
        if let Some(other) = other_by(choice_naming(Half::Target, *choice), name, class) {
            return Some(other);
        }
    }
    None
}

/// The same for these nodes.
fn other_by_terms(terms: &[Term], name: Name, class: u32) -> Option<u32>
    ensures { FindsOther (NamingOf term_naming terms.now name) class result }
{
    for term in terms {
        if let Some(other) = other_by(term_naming(*term), name, class) {
            return Some(other);
        }
    }
    None
}

/// The class of this position, where it has the name and that class is another than the one given.
fn other_by(naming: Option<(Name, u32)>, name: Name, class: u32) -> Option<u32>
    ensures { FindsOther (λ d. naming ≡ Some (name, d)) class result }
{
    let (here, other) = match naming {
        Some(naming) => naming,
        None => return None,
    };
    if here != name {
        return None;
    }
    unless(Some(other), class)
}

/// The class, where it is another than the one given.
fn unless(other: Option<u32>, class: u32) -> Option<u32>
    ensures { FindsOther (λ d. other ≡ Some d) class result }
{
    if other == Some(class) { None } else { other }
}

/// The name that an operand is, if it is one, and its class.
pub(crate) fn operand_naming(operand: Operand) -> Option<(Name, u32)>
    ensures { result ≡ operand_naming operand }
{
    match name_of(operand.value) {
        Some(name) => Some((name, operand.class)),
        None => None,
    }
}

/// The name that an operand is, if it is one.
fn name_of(value: Argument) -> Option<Name>
    ensures { result ≡ name_of value }
{
    match value {
        Argument::Register(register) => Some(Name::Register(register)),
        Argument::Constant(place) => Some(Name::Constant(place)),
        Argument::Literal(_) | Argument::Truth(_) => None,
        Argument::Undef(_) | Argument::Term(_) => None,
    }
}

/// The name of a choice, which it has in the target alone, and its class.
pub(crate) fn choice_naming(half: Half, choice: Choice) -> Option<(Name, u32)>
    ensures { result ≡ choice_naming half choice }
{
    match half {
        Half::Source => None,
        Half::Target => Some((Name::Choice(choice.place), choice.class)),
    }
}

/// The name that a node is, or whose width it is, and the class of that position.
pub(crate) fn term_naming(term: Term) -> Option<(Name, u32)>
    ensures { result ≡ term_naming term }
{
    match term.node {
        Node::Register(register) => Some((Name::Register(register), term.class)),
        Node::Constant(place) => Some((Name::Constant(place), term.class)),
        Node::Choice(place) => Some((Name::Choice(place), term.class)),
        Node::Width(register, class) => Some((Name::Register(register), class)),
        Node::Literal(_) | Node::Unary(_, _) | Node::Binary(_, _, _) => None,
    }
}

/// The class of the result of the statement that assigns the register.
pub(crate) fn assigned_class(rule: &Rule, name: Name) -> Option<u32>
    ensures { result ≡ assigned_class rule.now name }
{
    match name {
        Name::Register(Register::Source(place)) => class_of_result(&rule.source, place as usize),
        Name::Register(Register::Target(place)) => class_of_result(&rule.target, place as usize),
        Name::Register(Register::Input(_)) | Name::Constant(_) | Name::Choice(_) => None,
    }
}

/// The class of the target's last result, if the name is the root's.
pub(crate) fn root_class(rule: &Rule, name: Name) -> Option<u32>
    ensures { result ≡ root_class rule.now name }
{
    match name {
        Name::Register(Register::Source(place)) if place as usize + 1 == rule.source.len() => {
            last_class(&rule.target)
        }
        _ => None,
    }
}

/// The class of the last result.
fn last_class(statements: &List<Statement>) -> Option<u32>
    ensures { result ≡ last_class statements.now }
{
    class_of_result(statements, statements.len().saturating_sub(1))
}

fn class_of_result(statements: &List<Statement>, place: usize) -> Option<u32>
    ensures { result ≡ option_map (λ s. s.class) (slice_get statements.now place) }
{
    let statements = statements.as_slice();
    if place < statements.len() {
        Some(statements[place].class)
    } else {
        None
    }
}
