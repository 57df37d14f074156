//! Slots for what a match binds, which are filled from the root down.

ghost use Rattle.std.specs.Prelude.{◌≡◌, ◌+◌, ◌<◌, ◌^◌, ℕ, List as Seq, length, map, All, IfOk, IfSome, None, Some, slice_get, IsTrue};
ghost use Rattle.ir_core.specs.Names.{width_of};
ghost use Rattle.ir_core.specs.Reads.{Read};
ghost use Rattle.rule_core.specs.Checks.{IsRule};
ghost use Rattle.rule_core.specs.Positions.{Fixed, operands_of};
ghost use Rattle.rule_core.specs.Typing.{IsTyping};
ghost use Rattle.rule_core.specs.declared.rule.Operand.{Operand as SourceOperand};
ghost use Rattle.rule_typing.specs.Classes.{IsClassified, HasClasses};
ghost use Rattle.bindings.specs.Operands.{OperandMatches, StandsFor};
ghost use Rattle.bindings.specs.declared.binding.Binding.{Binding};

use bindings::{Binding, MOST_OPERANDS, inst_at, operand_of};
use ir_core::{Function, Operand, Read, Register, read_at};
use lists::List;
use ops::{Width, Word};
use rule_core::{Argument, Op, Operand as RuleOperand, Register as Name, Rule, Statement};
use rule_typing::{class_count, fixed_width};
use std::alloc::{AllocError, Global};

/// A slot for each name of a rule's source and for each class, which is filled when an instruction's operand shows its
/// value.
#[derive(Drop)]
pub(crate) struct Slots {
    /// For each statement, the register that it is bound to.
    statements: Vec<Option<Register>>,
    inputs: Vec<Option<Operand>>,
    constants: Vec<Option<Word>>,
    /// For each class, its width.
    widths: Vec<Option<Width>>,
}

impl Slots {
    ghost use Rattle.matcher.specs.Slots.{AreAsMany, AreSlotsOf, HasName, HasOperand, HasStatement, Keeps, Knows, KnowsFrom, KnowsName, KnowsOperand, KnowsStatement, OperandsMatch, IsFilledAs};

    /// The slots of a rule, of which those of the root and of the classes with a fixed width are filled.
    pub(crate) fn new(alloc: Global, rule: &Rule, root: Register) -> Result<Slots, AllocError>
        requires rule { IsRule rule.now }
        requires classes { IsClassified rule.now }
        ensures slots { IfOk result (AreSlotsOf rule.now) }
        ensures knows { IfOk result (λ slots. (m : Binding) → IsTyping rule.now m.typing
            → ((k : ℕ) → k + 1 ≡ length rule.now.source → slice_get m.statements k ≡ Some root)
            → KnowsFrom rule.now (length rule.now.source) slots m) }
    {
        let mut statements = unfilled(alloc, rule.source.len())?;
        let last = statements.len() - 1;
        statements[last] = Some(root);
        Ok(Slots {
            statements,
            inputs: unfilled(alloc, rule.inputs.len())?,
            constants: unfilled(alloc, rule.constants.len())?,
            widths: fixed_widths(alloc, rule)?,
        })
    }

    /// Fills the slots of a statement's class and operands from the instruction that it is bound to. It is false where
    /// the statement isn't bound, or the function has no such instruction or fewer operands there.
    pub(crate) fn take_statement(&mut self, f: &Function, j: usize, statement: &Statement) -> bool
        requires insts { All (λ b. length b.insts < 2 ^ 32) f.now.blocks }
        requires place { j < length self.old.statements.items }
        requires slots { HasStatement self.old statement.now }
        ensures sizes { AreAsMany self.old self.new }
        ensures knows { (m : Binding) (b p N : ℕ) → slice_get self.old.statements.items j ≡ Some (Some (Register.Result b p))
            → width_of f.now (Register.Result b p) ≡ Some N → slice_get m.typing statement.now.class ≡ Some N
            → OperandsMatch f.now m b p statement.now.op
            → IsTrue result × Keeps m self.old self.new × KnowsStatement self.new m statement.now }
    {
        let Some(register) = self.statements[j] else {
            return false;
        };
        let Register::Result(block, place) = register else {
            return false;
        };
        let Some(width) = width_at(f, block, place) else {
            return false;
        };
        self.take_width(statement.class, width);
        self.take_operands(f, block, place, &statement.op)
    }

    /// Fills the slot of a class.
    fn take_width(&mut self, class: u32, width: Width)
        requires { class < length self.old.widths.items }
        ensures sizes { AreAsMany self.old self.new }
        ensures knows { (m : Binding) → slice_get m.typing class ≡ Some width
            → Keeps m self.old self.new × Knows self.new.widths.items m.typing class }
    {
        self.widths[class as usize] = Some(width);
    }

    /// Fills the slots of an operation's operands from those of an instruction. It is false where the instruction has
    /// fewer.
    fn take_operands(&mut self, f: &Function, block: u32, place: u32, op: &Op) -> bool
        requires insts { All (λ b. length b.insts < 2 ^ 32) f.now.blocks }
        requires slots { All (HasOperand self.old) (operands_of op.now) }
        ensures sizes { AreAsMany self.old self.new }
        ensures knows { (m : Binding) → OperandsMatch f.now m block place op.now
            → IsTrue result × Keeps m self.old self.new × All (KnowsOperand self.new m) (operands_of op.now) }
    {
        for index in 0..MOST_OPERANDS {
            if !self.take_operand_at(f, block, place, op, index) {
                return false;
            }
        }
        true
    }

    /// The same for one operand, if the operation has it.
    fn take_operand_at(
        &mut self,
        f: &Function,
        block: u32,
        place: u32,
        op: &Op,
        index: usize,
    ) -> bool
        requires insts { All (λ b. length b.insts < 2 ^ 32) f.now.blocks }
        requires slots { All (HasOperand self.old) (operands_of op.now) }
        ensures sizes { AreAsMany self.old self.new }
        ensures knows { (m : Binding) → OperandsMatch f.now m block place op.now
            → IsTrue result × Keeps m self.old self.new × ((o : SourceOperand) → slice_get (operands_of op.now) index ≡ Some o → KnowsOperand self.new m o) }
    {
        match (operand_of(*op, index), read_at(f, block, place, index)) {
            (Some(operand), Some(read)) => {
                self.take_operand(operand, read);
                true
            }
            (Some(_), None) => false,
            (None, _) => true,
        }
    }

    /// Fills the slots of an operand's name and class from an operand that an instruction reads.
    fn take_operand(&mut self, operand: RuleOperand, read: Read)
        requires { HasOperand self.old operand }
        ensures sizes { AreAsMany self.old self.new }
        ensures knows { (m : Binding) → OperandMatches m operand read
            → Keeps m self.old self.new × KnowsOperand self.new m operand }
    {
        self.take_width(operand.class, read.width);
        self.take_value(operand.value, read.operand);
    }

    /// Fills the slot of a name by the operand that it stands for.
    fn take_value(&mut self, value: Argument, operand: Operand)
        requires { HasName self.old value }
        ensures sizes { AreAsMany self.old self.new }
        ensures knows { (m : Binding) (N : ℕ) → StandsFor m N value operand
            → Keeps m self.old self.new × KnowsName self.new m value }
    {
        match value {
            Argument::Register(name) => self.take_register(name, operand),
            Argument::Constant(k) => self.take_constant(k, operand),
            _ => {}
        }
    }

    /// Fills the slot of an input or of a statement.
    fn take_register(&mut self, name: Name, operand: Operand)
        requires { HasName self.old (Argument.Register name) }
        ensures sizes { AreAsMany self.old self.new }
        ensures knows { (m : Binding) (N : ℕ) → StandsFor m N (Argument.Register name) operand
            → Keeps m self.old self.new × KnowsName self.new m (Argument.Register name) }
    {
        match name {
            Name::Input(i) => self.inputs[i as usize] = Some(operand),
            Name::Source(j) => {
                if let Operand::Register(register) = operand {
                    self.statements[j as usize] = Some(register);
                }
            }
            Name::Target(_) => {}
        }
    }

    /// Fills the slot of a constant.
    fn take_constant(&mut self, k: u32, operand: Operand)
        requires { k < length self.old.constants.items }
        ensures sizes { AreAsMany self.old self.new }
        ensures knows { (m : Binding) (N : ℕ) → StandsFor m N (Argument.Constant k) operand
            → Keeps m self.old self.new × Knows self.new.constants.items m.constants k }
    {
        if let Operand::Number(number) = operand {
            self.constants[k as usize] = Some(number);
        }
    }

    /// The binding that the slots are filled with, if all of them are.
    pub(crate) fn binding(
        &self,
        alloc: Global,
        block: u32,
        place: u32,
    ) -> Result<Option<Binding>, AllocError>
        ensures filled { IfOk result (λ found. (m : Binding) → m.block ≡ block → m.place ≡ place → IsFilledAs self.now m → found ≡ Some m) }
        ensures place { IfOk result (λ found. IfSome found (λ binding. (binding.block ≡ block) × (binding.place ≡ place))) }
    {
        let Some(statements) = filled(alloc, &self.statements)? else {
            return Ok(None);
        };
        let Some(inputs) = filled(alloc, &self.inputs)? else {
            return Ok(None);
        };
        let Some(constants) = filled(alloc, &self.constants)? else {
            return Ok(None);
        };
        let Some(typing) = filled(alloc, &self.widths)? else {
            return Ok(None);
        };
        Ok(Some(Binding {
            block,
            place,
            statements,
            inputs,
            constants,
            typing,
        }))
    }
}

/// So many slots that aren't filled.
fn unfilled<T: Drop>(alloc: Global, count: usize) -> Result<Vec<Option<T>>, AllocError>
    ensures { IfOk result (λ slots. length slots.items ≡ count) }
{
    let mut slots = Vec::new(alloc);
    for _k in 0..count {
        slots.push(None)?;
    }
    Ok(slots)
}

/// The values that slots are filled with, if all of them are.
fn filled<T: Copy>(alloc: Global, slots: &[Option<T>]) -> Result<Option<List<T>>, AllocError>
    ensures { IfOk result (λ found. (values : Seq T) → slots.now ≡ map Some values → found ≡ Some values) }
{
    let mut values = List::new(alloc);
    for slot in slots {
        let Some(value) = slot else {
            return Ok(None);
        };
        values.push(*value)?;
    }
    Ok(Some(values))
}

/// For each class its fixed width, if it has one.
fn fixed_widths(alloc: Global, rule: &Rule) -> Result<Vec<Option<Width>>, AllocError>
    requires { IsClassified rule.now }
    ensures count { IfOk result (λ widths. HasClasses rule.now (length widths.items)) }
    ensures fixed { IfOk result (λ widths. (c N : ℕ) → c < length widths.items → Fixed rule.now c N → (M : ℕ) × Fixed rule.now c M × (slice_get widths.items c ≡ Some (Some M))) }
{
    let mut widths = Vec::new(alloc);
    for class in 0..class_count(rule) {
        widths.push(fixed_width(rule, class))?;
    }
    Ok(widths)
}

/// The width of the result of an instruction, if the function has it.
fn width_at(f: &Function, block: u32, place: u32) -> Option<Width>
    ensures { result ≡ width_of f.now (Register.Result block place) }
{
    let inst = inst_at(f, block, place)?;
    Some(inst.width)
}
