//! The laws of terms, each the contract of a function that does nothing.
ghost use Rattle.rule_terms.specs.Laws.{TermsAreReadAsSpelled};
ghost use Rattle.rule_terms.specs.Nodes.{NodesStandBehindOperands};

/// The parser gives nodes and the tokens behind exactly where the grammar spells them.
pub fn terms_are_read_as_they_are_spelled()
    ensures { TermsAreReadAsSpelled }
{}

/// What the grammar spells as a term has a node or more, each behind its operands.
pub fn nodes_stand_behind_their_operands()
    ensures { NodesStandBehindOperands }
{}
