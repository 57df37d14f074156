//! Other numbers for the classes of a rule.

ghost use Rattle.std.specs.Prelude.{◌≡◌, ◌+◌, ◌<◌, ◌^◌, length, map, flat_map};
ghost use Rattle.rule_core.specs.Positions.{operands_of, classes_of_statement, classes_of_term, classes_of};
ghost use Rattle.rule_typing.specs.Relabelled.{mapped_op, mapped_statement, mapped_node, mapped_term, mapped, numbered_op, numbered_statement, numbered_statements, numbered_term, numbered_terms, numbered, renamed};

use lists::List;
use rule_core::{Node, Op, Operand, Rule, Statement, Term};

/// A change of the numbers of classes.
#[derive(Clone, Copy)]
pub(crate) enum Renaming {
    /// The first class gets the second's number.
    Merge(u32, u32),
    /// The two classes exchange their numbers.
    Swap(u32, u32),
}

impl Renaming {
    /// The new number of a class.
    fn of(self, class: u32) -> u32
        ensures { result ≡ renamed self class }
    {
        match self {
            Renaming::Merge(from, to) => { if class == from { to } else { class } }
            Renaming::Swap(a, b) => {
                if class == a {
                    b
                } else if class == b {
                    a
                } else {
                    class
                }
            }
        }
    }

    fn operand(self, operand: Operand) -> Operand
        ensures { result ≡ record operand { class = renamed self operand.class } }
    {
        with_class(operand, self.of(operand.class))
    }

    fn op(self, op: Op) -> Op
        ensures { result ≡ mapped_op (renamed self) op }
    {
        match op {
            Op::Binary(opcode, flags, left, right) => Op::Binary(
                opcode,
                flags,
                self.operand(left),
                self.operand(right),
            ),
            Op::Compare(pred, samesign, left, right) => Op::Compare(
                pred,
                samesign,
                self.operand(left),
                self.operand(right),
            ),
            Op::Unary(op, truth, operand) => Op::Unary(op, truth, self.operand(operand)),
            Op::Select(condition, yes, no) => Op::Select(
                self.operand(condition),
                self.operand(yes),
                self.operand(no),
            ),
            Op::Convert(cast, flags, operand, to) => Op::Convert(
                cast,
                flags,
                self.operand(operand),
                to,
            ),
            Op::Freeze(operand, choice) => Op::Freeze(self.operand(operand), choice),
            Op::Copy(operand) => Op::Copy(self.operand(operand)),
        }
    }

    fn statements(self, statements: &mut List<Statement>)
        ensures { statements.new ≡ map (mapped_statement (renamed self)) statements.old }
    {
        for place in 0..statements.len() {
            let statement = statements.get_mut(place);
            statement.class = self.of(statement.class);
            statement.op = self.op(statement.op);
        }
    }

    fn node(self, node: Node) -> Node
        ensures { result ≡ mapped_node (renamed self) node }
    {
        match node {
            Node::Width(register, class) => Node::Width(register, self.of(class)),
            Node::Literal(_) | Node::Constant(_) | Node::Register(_) | Node::Choice(_) => node,
            Node::Unary(_, _) | Node::Binary(_, _, _) => node,
        }
    }

    fn terms(self, terms: &mut List<Term>)
        ensures { terms.new ≡ map (mapped_term (renamed self)) terms.old }
    {
        for place in 0..terms.len() {
            let term = terms.get_mut(place);
            term.class = self.of(term.class);
            term.node = self.node(term.node);
        }
    }

    /// Renames the classes of the rule.
    pub(crate) fn apply(self, rule: &mut Rule)
        ensures { rule.new ≡ mapped (renamed self) rule.old }
    {
        self.statements(&mut rule.source);
        self.statements(&mut rule.target);
        self.terms(&mut rule.terms);
        self.terms(&mut rule.witness_terms);
    }
}

fn with_class(operand: Operand, class: u32) -> Operand
    ensures { result ≡ record operand { class = class } }
{
    Operand { class, ..operand }
}

/// Makes each position of the rule a class of its own, whose number is the position's.
pub(crate) fn number_positions(rule: &mut Rule)
    requires { length (classes_of rule.old) < 2 ^ 32 }
    ensures { rule.new ≡ numbered rule.old }
{
    let behind_source = number_statements(&mut rule.source, 0);
    let behind_target = number_statements(&mut rule.target, behind_source);
    let behind_terms = number_terms(&mut rule.terms, behind_target);
    number_terms(&mut rule.witness_terms, behind_terms);
}

/// The same for some statements, from the position `first` on; the answer is the position behind them.
fn number_statements(statements: &mut List<Statement>, first: u32) -> u32
    requires { first + length (flat_map classes_of_statement statements.old) < 2 ^ 32 }
    ensures numbered { statements.new ≡ numbered_statements first statements.old }
    ensures behind { result ≡ first + length (flat_map classes_of_statement statements.old) }
{
    let mut next = first;
    for place in 0..statements.len() {
        let statement = statements.get_mut(place);
        next = number_statement(statement, next);
    }
    next
}

/// The same for some nodes.
fn number_terms(terms: &mut List<Term>, first: u32) -> u32
    requires { first + length (flat_map classes_of_term terms.old) < 2 ^ 32 }
    ensures numbered { terms.new ≡ numbered_terms first terms.old }
    ensures behind { result ≡ first + length (flat_map classes_of_term terms.old) }
{
    let mut next = first;
    for place in 0..terms.len() {
        let term = terms.get_mut(place);
        next = number_term(term, next);
    }
    next
}

fn number_term(term: &mut Term, first: u32) -> u32
    requires { first + length (classes_of_term term.old) < 2 ^ 32 }
    ensures numbered { term.new ≡ numbered_term first term.old }
    ensures behind { result ≡ first + length (classes_of_term term.old) }
{
    term.class = first;
    match term.node {
        Node::Width(register, _) => {
            term.node = Node::Width(register, first + 1);
            first + 2
        }
        Node::Literal(_) | Node::Constant(_) | Node::Register(_) | Node::Choice(_) => first + 1,
        Node::Unary(_, _) | Node::Binary(_, _, _) => first + 1,
    }
}

fn number_statement(statement: &mut Statement, first: u32) -> u32
    requires { first + length (classes_of_statement statement.old) < 2 ^ 32 }
    ensures numbered { statement.new ≡ numbered_statement first statement.old }
    ensures behind { result ≡ first + length (classes_of_statement statement.old) }
{
    statement.class = first;
    let (op, behind) = numbered_op(statement.op, first + 1);
    statement.op = op;
    behind
}

/// The operation with numbers for the classes of its operands, from `first` on, and the number behind the last.
fn numbered_op(op: Op, first: u32) -> (Op, u32)
    requires { first + length (operands_of op) < 2 ^ 32 }
    ensures numbered { result.0 ≡ numbered_op first op }
    ensures behind { result.1 ≡ first + length (operands_of op) }
{
    match op {
        Op::Binary(opcode, flags, left, right) => {
            let left = with_class(left, first);
            (
                Op::Binary(opcode, flags, left, with_class(right, first + 1)),
                first + 2,
            )
        }
        Op::Compare(pred, samesign, left, right) => {
            let left = with_class(left, first);
            (
                Op::Compare(pred, samesign, left, with_class(right, first + 1)),
                first + 2,
            )
        }
        Op::Unary(op, truth, operand) => (
            Op::Unary(op, truth, with_class(operand, first)),
            first + 1,
        ),
        Op::Select(condition, yes, no) => {
            let condition = with_class(condition, first);
            let yes = with_class(yes, first + 1);
            (
                Op::Select(condition, yes, with_class(no, first + 2)),
                first + 3,
            )
        }
        Op::Convert(cast, flags, operand, to) => (
            Op::Convert(cast, flags, with_class(operand, first), to),
            first + 1,
        ),
        Op::Freeze(operand, choice) => (Op::Freeze(with_class(operand, first), choice), first + 1),
        Op::Copy(operand) => (Op::Copy(with_class(operand, first)), first + 1),
    }
}
