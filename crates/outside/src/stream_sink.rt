//! A stream as a sink.

ghost use Rattle.std.specs.Prelude.{◌≡◌, ◌≤◌, None, Some, OnOk, OnErr};
ghost use Rattle.std.specs.Io.KnownBytes.{Appends as Gains};
ghost use Rattle.outside.specs.Faults.{raised, Rose};
ghost use Rattle.outside.specs.StreamSink.{GainsPrefix};

use crate::errors::Failed;
use crate::sink::Sink;
use std::io::Write;
use std::marker::Model;

/// A stream, as standard output, as a sink. Contracts don't tell what was written to it.
///
/// A fault is an error of the stream when it is written or flushed, or a write that takes none of the bytes that are
/// left.
#[derive(Drop)]
pub struct StreamSink<W: Write> {
    stream: W,
    puts: u64,
    faults: u64,
}

impl<W: Write> Model for StreamSink<W> {
    ghost use Rattle.outside.specs.StreamSink.{StreamSinkState};

    ghost Value = { StreamSinkState };

    ghost view = { λ sink. record { contents = W.contents sink.stream; puts = sink.puts; faults = sink.faults } };
}

impl<W: Write> StreamSink<W> {
    /// A sink over a stream, with no puts and no faults yet.
    pub fn new(stream: W) -> Self
        ensures { result ≡ record { contents = W.contents stream; puts = 0; faults = 0 } }
    {
        StreamSink {
            stream,
            puts: 0,
            faults: 0,
        }
    }

    /// How many puts there were, failed ones among them.
    pub fn puts(&self) -> u64
        ensures { result ≡ self.now.puts }
    {
        self.puts
    }

    /// How many faults there were.
    pub fn faults(&self) -> u64
        ensures { result ≡ self.now.faults }
    {
        self.faults
    }
}

/// Writes all of a piece to a stream, and flushes it. At an error the stream has taken a prefix.
fn write_piece<W: Write>(stream: &mut W, piece: &[u8]) -> Result<(), Failed>
    ensures ok { OnOk result (Gains (W.contents stream.old) (W.contents stream.new) piece.now) }
    ensures prefix { OnErr result (GainsPrefix (W.contents stream.old) (W.contents stream.new) piece.now) }
{
    let mut taken = 0;
    while taken < piece.len() {
        match stream.write(&piece[taken..]) {
            Ok(0) | Err(_) => return Err(Failed),
            Ok(count) => taken += count,
        }
    }
    stream.flush().map_err(|_| Failed)
}

impl<W: Write> Sink for StreamSink<W> {
    ghost state = { λ sink. record { written = None; puts = Some sink.puts; faults = sink.faults } };

    fn put(&mut self, piece: &[u8]) -> Result<(), Failed>
        // A stream that tells what it holds, as one in memory, has gained exactly the piece.
        ensures ok { OnOk result (Gains self.old.contents self.new.contents piece.now) }
        ensures prefix { OnErr result (GainsPrefix self.old.contents self.new.contents piece.now) }

        ensures faults_grow { self.old.faults ≤ self.new.faults }
        ensures failed { OnErr result (Rose self.old.faults self.new.faults) }
        ensures no_fault { OnOk result (self.new.faults ≡ self.old.faults) }
        ensures fault { OnErr result (self.new.faults ≡ raised self.old.faults) }
        ensures one_put { self.new.puts ≡ raised self.old.puts }
    {
        self.puts = self.puts.saturating_add(1);
        let answer = write_piece(&mut self.stream, piece);
        if answer.is_err() {
            self.faults = self.faults.saturating_add(1);
        }
        answer
    }
}
