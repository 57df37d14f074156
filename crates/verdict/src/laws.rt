//! The law of honest verdicts, the contract of a function that does nothing.
ghost use Rattle.verdict.specs.Laws.{FewBitsAreDecided};

/// With at most 12 input bits an honest verdict is `Admitted` exactly where the rule is valid.
pub fn few_bits_are_decided()
    ensures { FewBitsAreDecided }
{}
