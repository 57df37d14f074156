//! The law of the parser's productions, as the contract of a function with an empty body.
ghost use Rattle.ir_instructions.specs.Laws.{PartsAreReadAsSpelled};

/// The parser, which reads from left to right, accepts each production exactly where the grammar spells it.
pub fn parts_are_read_as_they_are_spelled()
    ensures { PartsAreReadAsSpelled }
{}
