//! The law of texts: the contract of a function that does nothing.

ghost use Rattle.proof_reader.specs.Laws.{TextsHaveProofsOrFault};

/// Given some rules, a text has one list of good proofs or one fault, and never both.
pub fn texts_have_proofs_or_a_fault()
    ensures { TextsHaveProofsOrFault }
{
    proof_text::texts_have_one_reading();
}
