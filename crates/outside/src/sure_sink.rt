//! A sink that takes everything.

ghost use Rattle.std.specs.Prelude.{None, IsOk};

use crate::errors::Failed;
use crate::sink::Sink;

/// A sink whose puts never fail. It forgets what it takes, and doesn't count.
#[derive(Clone, Copy)]
pub struct SureSink;

impl Sink for SureSink {
    ghost state = { λ _. record { written = None; puts = None; faults = 0 } };

    fn put(&mut self, _piece: &[u8]) -> Result<(), Failed>
        ensures { IsOk result }
    {
        Ok(())
    }
}
