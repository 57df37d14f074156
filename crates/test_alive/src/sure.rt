//! A call with files and sinks that never fail.

ghost use Rattle.std.specs.Prelude.{◌≡◌};

use alive_top::{Status, alive};
use outside::{SureFiles, SureSink};
use std::alloc::Global;

/// How a command ends with files and sinks that never fail: never with a fault of reading or of writing.
pub fn sure_status(alloc: Global, words: &Vec<String>, files: &mut SureFiles) -> Status
    ensures read { ¬ result ≡ Status.ReadFault }
    ensures written { ¬ result ≡ Status.WriteFault }
{
    let mut out = SureSink;
    let mut err = SureSink;
    alive(alloc, words, files, &mut out, &mut err).status
}
