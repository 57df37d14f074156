//! The laws of the order of the instructions that a match is bound to, each the contract of a function that does
//! nothing.

ghost use Rattle.bindings.specs.Laws.{MatchedInstsAreReached, NamedRegistersAreAssigned, OperandsAreAssigned, ReadsStandBefore, TemporariesStandBefore};

use ir_meaning::assigned_registers_keep_their_order;

/// In a reached block, an instruction that is no phi stands behind those instructions of the block whose results it
/// reads.
pub fn reads_of_a_block_stand_before()
    ensures { ReadsStandBefore }
{
    assigned_registers_keep_their_order();
}

/// The registers that a match is bound to are assigned at its root, in whatever blocks they are read.
pub fn named_registers_are_assigned()
    ensures { NamedRegistersAreAssigned }
{
    assigned_registers_keep_their_order();
}

/// And wherever a register is assigned that a statement of a match is bound to, so are those that its operands are
/// bound to.
pub fn operands_are_assigned_with_results()
    ensures { OperandsAreAssigned }
{
    assigned_registers_keep_their_order();
}

/// So in a function that meets its checks the temporaries of a match stand before its root, whether or not that was
/// asked for.
pub fn temporaries_stand_before_roots()
    ensures { TemporariesStandBefore }
{
    assigned_registers_keep_their_order();
    named_registers_are_assigned();
}

/// What a match is bound to are instructions of blocks that the entry reaches, and no phis.
pub fn matched_instructions_are_reached()
    ensures { MatchedInstsAreReached }
{}
