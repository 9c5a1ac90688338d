ghost use Rattle.std.specs.Prelude.{◌≡◌, ◌⊎◌, ◌↔◌, ◌≤◌, [], IfOk, IsErr, IsTrue, OnOk, length};
ghost use Rattle.media_types.specs.Cause.{HasCause, failed};
ghost use Rattle.media_base.specs.Transfer.{Writes};
ghost use Rattle.media_base.specs.Scripts.{counted, fails_next, taken_next, HasNoRoom, after_write};

use crate::sink::Sink;
use media_types::{CallList, Failed, NoMemory};
use std::alloc::Global;
use std::marker::Model;

/// A sink into memory that is taken beforehand, which fails in the calls that it was told.
#[derive(Debug, Drop)]
pub struct BytesSink {
    bytes: Vec<u8>,
    room: usize,
    fails: CallList,
    calls: u64,
    faults: u64,
}

impl Model for BytesSink {
    ghost use Rattle.std.specs.Prelude.{◌≤◌, length, vec_capacity};
    ghost use Rattle.media_base.specs.Scripts.{SinkScript};

    ghost Value = { SinkScript };

    ghost view = { λ sink. record {
      taken = sink.bytes.items;
      room = sink.room;
      fails = sink.fails;
      calls = sink.calls;
      faults = sink.faults;
    } };

    ghost invariant = { λ sink. (length sink.bytes.items ≤ sink.room) × (sink.room ≤ vec_capacity sink.bytes) };
}

impl BytesSink {
    /// A sink with room for so many bytes in all. The calls whose numbers stand in `fails`, from 1, fail.
    pub fn new(alloc: Global, room: usize, fails: CallList) -> Result<BytesSink, NoMemory>
        ensures { IfOk result (λ sink.
            sink ≡ record { taken = []; room = room; fails = fails; calls = 0; faults = 0 }) }
    {
        Ok(BytesSink {
            bytes: Vec::with_capacity(alloc, room)?,
            room,
            fails,
            calls: 0,
            faults: 0,
        })
    }

    /// What it took.
    pub fn bytes(&self) -> &Vec<u8>
        ensures { result.now.items ≡ self.now.taken }
    {
        &self.bytes
    }

    // Counts a call, and tells whether it is one that fails.
    fn is_failing_now(&mut self) -> bool
        ensures value { result ≡ fails_next self.old.fails self.old.calls }
        ensures after { self.new ≡ record self.old { calls = counted self.old.calls } }
    {
        self.calls = self.calls.saturating_add(1);
        self.fails.as_slice().contains(&self.calls)
    }

    // Whether there is a byte to take, and no room for it.
    fn has_no_room(&self, piece: &[u8]) -> bool
        ensures { IsTrue result ↔ HasNoRoom self.now piece.now }
    {
        !piece.is_empty() && self.room <= self.bytes.len()
    }

    fn fail(&mut self) -> Result<usize, Failed>
        ensures err { IsErr result }
        ensures later { self.old.faults ≤ self.new.faults }
        ensures after { self.new ≡ record self.old { faults = counted self.old.faults } }
    {
        self.faults = self.faults.saturating_add(1);
        Err(Failed)
    }
}

impl Sink for BytesSink {
    ghost use Rattle.std.specs.Prelude.{Some};

    ghost faults = { λ sink. sink.faults };

    ghost taken = { λ sink. Some sink.taken };

    /// Where there is no room left it counts a fault.
    fn write(&mut self, piece: &[u8]) -> Result<usize, Failed>
        ensures cause { HasCause self.old.faults self.new.faults failed result }
        ensures quiet { OnOk result (self.new.faults ≡ self.old.faults) }
        ensures writes { Writes (Some self.old.taken) (Some self.new.taken) piece.now result }
        ensures script { IsErr result
            ↔ (IsTrue (fails_next self.old.fails self.old.calls) ⊎ HasNoRoom self.old piece.now) }
        ensures count { IfOk result (λ count. count ≡ taken_next self.old piece.now) }
        ensures after { self.new ≡ after_write self.old piece.now result }
    {
        if self.is_failing_now() || self.has_no_room(piece) {
            return self.fail();
        }
        let count = piece.len().min(self.room - self.bytes.len());
        match self.bytes.extend_from_slice(&piece[..count]) {
            Ok(()) => Ok(count),
            Err(_) => unreachable!(),
        }
    }
}
