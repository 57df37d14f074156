//! Rules, indexed by the operations of their roots.

ghost use Rattle.std.specs.Prelude.{◌≡◌, ◌<◌, ◌^◌, IsTrue, ℕ, ◌++◌, ◌∷◌, [], List as Seq, length, IfSome, IfNone, IfOk, OnOk};
ghost use Rattle.rule_matches.specs.Roots.{AreByRoot, AreCandidates, IsGroupOf, kind_of_inst, kind_of_root, kind_of_statement};

use ir_core::Op;
use ops::{Cast, Opcode, Pred, Unary};
use rule_core::{Op as RuleOp, Rule};
use std::alloc::{AllocError, Global};

/// What an instruction and a rule's root have to share so that the rule may match: an opcode, a predicate, an intrinsic
/// or a cast, or that both are a select or a freeze. There are 36 of them.
#[derive(Clone, Copy, PartialEq, Eq)]
pub enum RootKind {
    Binary(Opcode),
    Compare(Pred),
    Unary(Unary),
    Select,
    Convert(Cast),
    Freeze,
}

/// The rules whose root is of one kind, in order.
#[derive(Drop)]
pub struct Group {
    pub kind: RootKind,
    /// The indices of the rules.
    pub rules: Vec<u32>,
}

/// Rules by the kinds of their roots, so that at an instruction only those are tried that may match. There are at most
/// as many groups as kinds, so the time to find one doesn't depend on how many rules there are.
#[derive(Drop)]
pub struct RulesByRoot {
    pub groups: Vec<Group>,
}

/// The kind of a statement of a source.
fn kind_of_statement(op: RuleOp) -> Option<RootKind>
    ensures { result ≡ kind_of_statement op }
{
    match op {
        RuleOp::Binary(opcode, _, _, _) => Some(RootKind::Binary(opcode)),
        RuleOp::Compare(pred, _, _, _) => Some(RootKind::Compare(pred)),
        RuleOp::Unary(op, _, _) => Some(RootKind::Unary(op)),
        RuleOp::Select(_, _, _) => Some(RootKind::Select),
        RuleOp::Convert(cast, _, _, _) => Some(RootKind::Convert(cast)),
        RuleOp::Freeze(_, _) => Some(RootKind::Freeze),
        RuleOp::Copy(_) => None,
    }
}

/// The kind of a rule's root.
fn kind_of_root(rule: &Rule) -> Option<RootKind>
    ensures { result ≡ kind_of_root rule.now }
{
    let root = rule.source.as_slice().last()?;
    kind_of_statement(root.op)
}

/// The kind of an instruction, if a rule may match it.
fn kind_of_inst(op: &Op) -> Option<RootKind>
    ensures { result ≡ kind_of_inst op.now }
{
    match op {
        Op::Binary(opcode, _, _, _) => Some(RootKind::Binary(*opcode)),
        Op::Compare(pred, _, _, _, _) => Some(RootKind::Compare(*pred)),
        Op::Unary(op, _, _) => Some(RootKind::Unary(*op)),
        Op::Select(_, _, _) => Some(RootKind::Select),
        Op::Convert(cast, _, _, _) => Some(RootKind::Convert(*cast)),
        Op::Freeze(_) => Some(RootKind::Freeze),
        Op::Phi(_) => None,
    }
}

/// Whether two kinds are the same.
fn are_same(a: RootKind, b: RootKind) -> bool
    ensures { (IsTrue result → a ≡ b) × (a ≡ b → IsTrue result) }
{
    a == b
}

impl RulesByRoot {
    /// The groups of these rules. The only error is want of memory.
    pub fn of(alloc: Global, rules: &[Rule]) -> Result<RulesByRoot, AllocError>
        requires { length rules.now < 2 ^ 32 }
        ensures { IfOk result (AreByRoot rules.now) }
    {
        let mut all = RulesByRoot {
            groups: Vec::new(alloc),
        };
        for (place, rule) in rules.iter().enumerate() {
            all.add(alloc, place as u32, rule)?;
        }
        Ok(all)
    }

    /// Adds a rule behind those that were added, which are so many.
    fn add(&mut self, alloc: Global, count: u32, rule: &Rule) -> Result<(), AllocError>
        ensures { OnOk result ((rules : Seq Rule) → length rules ≡ count → AreByRoot rules self.old → AreByRoot (rules ++ rule.now ∷ []) self.new) }
    {
        let Some(kind) = kind_of_root(rule) else {
            return Ok(());
        };
        match self.place_of(kind) {
            Some(group) => self.groups[group].rules.push(count)?,
            None => {
                let mut rules = Vec::new(alloc);
                rules.push(count)?;
                self.groups.push(Group { kind, rules })?;
            }
        }
        Ok(())
    }

    /// The index of the group of a kind, if there is one.
    fn place_of(&self, kind: RootKind) -> Option<usize>
        ensures some { IfSome result (IsGroupOf self.now kind) }
        ensures none { IfNone result ((g : ℕ) → ¬ IsGroupOf self.now kind g) }
    {
        self.groups
            .iter()
            .position(|group| are_same(group.kind, kind))
    }

    /// The indices of the rules that may match at an instruction, in order.
    pub fn at(&self, op: &Op) -> &[u32]
        ensures { (rules : Seq Rule) → AreByRoot rules self.now → AreCandidates rules op.now result.now }
    {
        let Some(kind) = kind_of_inst(op) else {
            return &[];
        };
        match self.place_of(kind) {
            Some(group) => self.groups[group].rules.as_slice(),
            None => &[],
        }
    }
}
