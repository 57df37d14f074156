//! What sinks are.

ghost use Rattle.std.specs.Prelude.{OnOk, OnErr};
ghost use Rattle.outside.specs.Faults.{Rose};
ghost use Rattle.outside.specs.Sink.{SinkState, SinkFollows, Appends, AppendsPrefix};

use crate::errors::Failed;

/// Where texts are written to.
///
/// A put may fail; each failure raises a count of faults that never falls.
pub trait Sink {
    /// The bytes written so far and the count of puts, where they are told, and the count of faults.
    ghost state: { Self → SinkState };

    /// Writes a piece: all of it, or where it fails a prefix. It takes no memory.
    fn put(&mut self, piece: &[u8]) -> Result<(), Failed>
        ensures ok { OnOk result (Appends (state self.old) (state self.new) piece.now) }
        ensures prefix { OnErr result (AppendsPrefix (state self.old) (state self.new) piece.now) }
        ensures failed { OnErr result (Rose (state self.old).faults (state self.new).faults) }
        ensures follows { SinkFollows (state self.old) (state self.new) };
}
