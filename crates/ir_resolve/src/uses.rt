//! The uses of a function as written: its operands, and the blocks that it names.

ghost use Rattle.std.specs.Prelude.{◌≡◌, [], ◌∷◌, map, OnOk, IfOk};
ghost use Rattle.ir_resolve.specs.TypedReads.{typed, read_by, read_by_call, named_by, read_at_end, named_at_end, read_in, named_in, reads_of, targets_of};
ghost use Rattle.ir_resolve.specs.Uses.{seen_reads, seen_targets, Adds};

use ir_tokens::{
    RawArguments, RawBlock, RawCase, RawFunction, RawIdentifier, RawIncoming, RawOp, RawOperand,
    RawTerminator,
};
use ops::Width;
use std::alloc::{AllocError, Global};

/// An operand, and the width that is written for it.
#[derive(Clone, Copy)]
pub(crate) struct Read<'a> {
    pub(crate) width: u32,
    pub(crate) operand: &'a RawOperand,
}

/// The operands of a function, and the blocks that it names, both in text order.
#[derive(Drop)]
pub(crate) struct Uses<'a> {
    pub(crate) reads: Vec<Read<'a>>,
    pub(crate) targets: Vec<&'a RawIdentifier>,
}

/// For how many operands and blocks memory is reserved at first. Most functions have no more.
const USUAL_READS: usize = 64;

const USUAL_TARGETS: usize = 32;

impl<'a> Uses<'a> {
    /// Adds an operand.
    fn add_read(&mut self, width: Width, operand: &'a RawOperand) -> Result<(), AllocError>
        ensures { OnOk result (Adds self.old self.new (typed width operand.now ∷ []) []) }
    {
        self.reads.push(Read {
            width: width.bits(),
            operand,
        })?;
        Ok(())
    }

    /// Adds a block that is named.
    fn add_target(&mut self, target: &'a RawIdentifier) -> Result<(), AllocError>
        ensures { OnOk result (Adds self.old self.new [] (target.now ∷ [])) }
    {
        self.targets.push(target)?;
        Ok(())
    }

    /// Adds the uses of a `phi`.
    fn add_incoming(&mut self, width: Width, incoming: &'a [RawIncoming]) -> Result<(), AllocError>
        ensures { OnOk result (Adds self.old self.new
            (map (λ i. typed width i.value) incoming.now) (map (λ i. i.block) incoming.now)) }
    {
        for entry in incoming {
            self.add_read(width, &entry.value)?;
            self.add_target(&entry.block)?;
        }
        Ok(())
    }

    /// Adds the operands of a call.
    fn add_arguments(&mut self, arguments: &'a RawArguments) -> Result<(), AllocError>
        ensures { OnOk result (Adds self.old self.new (read_by_call arguments.now) []) }
    {
        match arguments {
            RawArguments::Binary(_, left, right) => {
                self.add_read(left.width, &left.operand)?;
                self.add_read(right.width, &right.operand)
            }
            RawArguments::Unary(_, operand, _) => self.add_read(operand.width, &operand.operand),
        }
    }

    /// Adds the uses of an instruction.
    fn add_op(&mut self, op: &'a RawOp) -> Result<(), AllocError>
        ensures { OnOk result (Adds self.old self.new (read_by op.now) (named_by op.now)) }
    {
        match op {
            RawOp::Binary(_, _, width, left, right) | RawOp::Compare(_, _, width, left, right) => {
                self.add_read(*width, left)?;
                self.add_read(*width, right)
            }
            RawOp::Call(call) => self.add_arguments(&call.arguments),
            RawOp::Select(condition, first, second) => {
                self.add_read(condition.width, &condition.operand)?;
                self.add_read(first.width, &first.operand)?;
                self.add_read(second.width, &second.operand)
            }
            RawOp::Convert(_, _, from, operand, _) => self.add_read(*from, operand),
            RawOp::Freeze(width, operand) => self.add_read(*width, operand),
            RawOp::Phi(width, incoming) => self.add_incoming(*width, incoming.as_slice()),
        }
    }

    /// Adds the blocks that the cases of a switch name.
    fn add_cases(&mut self, cases: &'a [RawCase]) -> Result<(), AllocError>
        ensures { OnOk result (Adds self.old self.new [] (map (λ c. c.target) cases.now)) }
    {
        for case in cases {
            self.add_target(&case.target)?;
        }
        Ok(())
    }

    /// Adds the uses of a terminator.
    fn add_end(&mut self, end: &'a RawTerminator) -> Result<(), AllocError>
        ensures { OnOk result (Adds self.old self.new (read_at_end end.now) (named_at_end end.now)) }
    {
        match end {
            RawTerminator::Return(width, operand) => self.add_read(*width, operand),
            RawTerminator::Unreachable => Ok(()),
            RawTerminator::Jump(target) => self.add_target(target),
            RawTerminator::Branch(width, condition, target, other) => {
                self.add_read(*width, condition)?;
                self.add_target(target)?;
                self.add_target(other)
            }
            RawTerminator::Switch(width, operand, other, cases) => {
                self.add_read(*width, operand)?;
                self.add_target(other)?;
                self.add_cases(cases.as_slice())
            }
        }
    }

    /// Adds the uses of a block.
    fn add_block(&mut self, block: &'a RawBlock) -> Result<(), AllocError>
        ensures { OnOk result (Adds self.old self.new (read_in block.now) (named_in block.now)) }
    {
        for inst in block.insts.as_slice() {
            self.add_op(&inst.op)?;
        }
        self.add_end(&block.end)
    }

    /// All uses of a function.
    pub(crate) fn of(alloc: Global, raw: &'a RawFunction) -> Result<Self, AllocError>
        ensures reads { IfOk result (λ uses. seen_reads uses ≡ reads_of raw.now) }
        ensures targets { IfOk result (λ uses. seen_targets uses ≡ targets_of raw.now) }
    {
        let mut uses = Uses {
            reads: Vec::with_capacity(alloc, USUAL_READS)?,
            targets: Vec::with_capacity(alloc, USUAL_TARGETS)?,
        };
        for block in raw.blocks.as_slice() {
            uses.add_block(block)?;
        }
        Ok(uses)
    }
}
