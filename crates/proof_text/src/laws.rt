//! Laws about the definitions: functions without a body, whose contracts are the laws.

ghost use Rattle.std.specs.Prelude.{◌≤◌, length};
ghost use Rattle.proof_text.specs.Limits.{most_bytes};
ghost use Rattle.proof_text.specs.Texts.{text_of};
ghost use Rattle.proof_text.specs.WellFormed.{AreWellFormed};
ghost use Rattle.proof_text.specs.Laws.{TextsHaveOneReading, WrittenIsRead};

use crate::proof::Proof;

/// A text has one list of proofs or one fault, never both.
pub fn texts_have_one_reading()
    ensures { TextsHaveOneReading }
{}

/// Within the limit of bytes, what is written of well-formed proofs is read as them.
pub fn what_is_written_is_read(proofs: &[Proof])
    ensures { AreWellFormed proofs.now → length (text_of proofs.now) ≤ most_bytes → WrittenIsRead proofs.now }
{}
