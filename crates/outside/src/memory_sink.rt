//! A sink in memory, some of whose puts fail.

ghost use Rattle.std.specs.Prelude.{◌≡◌, ◌≤◌, [], ◌∷◌, ◌++◌, length, take, IfOk, IfSome, IsSome, IsErr, OnOk, OnErr, Some, ◌⊎◌, option_map, find, ◌==◌};
ghost use Rattle.outside.specs.Faults.{Rose};
ghost use Rattle.outside.specs.MemorySink.{IsTooLong, listed, took, failed_after};

use crate::errors::Failed;
use crate::sink::Sink;
use lists::List;
use std::alloc::{AllocError, Global};
use std::marker::Model;

/// A put that fails.
#[derive(Clone, Copy)]
pub struct FailingPut {
    /// Its number, from 0.
    pub number: u64,
    /// The most bytes of its piece that it takes first.
    pub most: usize,
}

/// A sink in memory, with room for a number of bytes. The puts that are listed fail, and so does
/// a put of more bytes than the room left can hold, which takes nothing.
#[derive(Drop)]
pub struct MemorySink {
    written: Vec<u8>,
    room: usize,
    failing: List<FailingPut>,
    puts: u64,
    faults: u64,
}

impl Model for MemorySink {
    ghost use Rattle.std.specs.Prelude.{◌+◌, ◌≤◌, vec_len, vec_capacity};
    ghost use Rattle.outside.specs.MemorySink.{MemorySinkState};

    ghost Value = { MemorySinkState };

    ghost view = { λ sink. record { written = sink.written.items; room = sink.room; failing = sink.failing; puts = sink.puts; faults = sink.faults } };

    // So that a put never allocates.
    ghost invariant = { λ sink. vec_len sink.written + sink.room ≤ vec_capacity sink.written };
}

impl MemorySink {
    /// An empty sink that has room for this many bytes, and no puts that fail.
    pub fn with_room(alloc: Global, room: usize) -> Result<Self, AllocError>
        ensures { IfOk result (λ sink. sink ≡ record { written = []; room = room; failing = []; puts = 0; faults = 0 }) }
    {
        Ok(MemorySink {
            written: Vec::with_capacity(alloc, room)?,
            room,
            failing: List::new(alloc),
            puts: 0,
            faults: 0,
        })
    }

    /// Makes a put fail. Where two are listed under one number, the first counts.
    pub fn fail_at(&mut self, put: FailingPut) -> Result<(), AllocError>
        ensures ok { OnOk result (self.new ≡ record self.old { failing = self.old.failing ++ put ∷ [] }) }
        ensures err { OnErr result (self.new ≡ self.old) }
    {
        self.failing.push(put)
    }

    /// All bytes written so far.
    pub fn contents(&self) -> &[u8]
        ensures { result.now ≡ self.now.written }
    {
        self.written.as_slice()
    }

    /// How many puts there were, failed ones among them.
    pub fn puts(&self) -> u64
        ensures { result ≡ self.now.puts }
    {
        self.puts
    }

    /// How many faults there were.
    pub fn faults(&self) -> u64
        ensures { result ≡ self.now.faults }
    {
        self.faults
    }
}

/// How many bytes the put of this number takes at most, if it is listed to fail.
fn most_listed(failing: &[FailingPut], number: u64) -> Option<usize>
    ensures { result ≡ option_map (λ put. put.most) (find (λ put. put.number == number) failing.now) }
{
    failing
        .iter()
        .find(|put| put.number == number)
        .map(|put| put.most)
}

/// The first `most` bytes, or all where there are fewer.
fn front(bytes: &[u8], most: usize) -> &[u8]
    ensures { result.now ≡ take most bytes.now }
{
    &bytes[..most.min(bytes.len())]
}

impl Sink for MemorySink {
    ghost state = { λ sink. record { written = Some sink.written; puts = Some sink.puts; faults = sink.faults } };

    fn put(&mut self, piece: &[u8]) -> Result<(), Failed>
        ensures ok { OnOk result (self.new ≡ took self.old piece.now) }
        ensures faults_grow { self.old.faults ≤ self.new.faults }
        ensures failed { OnErr result (Rose self.old.faults self.new.faults) }

        // It fails exactly where the piece is too long for the room left, or the put is listed.
        ensures too_long { IsTooLong self.old piece.now → IsErr result × (self.new ≡ failed_after self.old []) }
        ensures listed { length piece.now ≤ self.old.room → IfSome (listed self.old) (λ most. IsErr result × (self.new ≡ failed_after self.old (take most piece.now))) }
        ensures only { OnErr result (IsTooLong self.old piece.now ⊎ IsSome (listed self.old)) }
    {
        let listed = most_listed(self.failing.as_slice(), self.puts);
        let (bytes, answer) = if self.room < piece.len() {
            (front(piece, 0), Err(Failed))
        } else if let Some(most) = listed {
            (front(piece, most), Err(Failed))
        } else {
            (piece, Ok(()))
        };
        self.written.extend_from_slice(bytes).unwrap();
        self.room -= bytes.len();
        self.puts = self.puts.saturating_add(1);
        if answer.is_err() {
            self.faults = self.faults.saturating_add(1);
        }
        answer
    }
}
