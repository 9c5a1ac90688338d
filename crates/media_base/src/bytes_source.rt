ghost use Rattle.std.specs.Prelude.{◌≡◌, ◌<◌, ◌≤◌, length, All, is_err, IfOk, OnOk};
ghost use Rattle.media_types.specs.Cause.{HasCause, failed};
ghost use Rattle.media_base.specs.Transfer.{Reads};
ghost use Rattle.media_base.specs.Scripts.{fails_next, given_next, after_read};

use crate::source::Source;
use media_types::{ByteList, CallList, Failed, SizeList};
use std::marker::Model;

/// A source over bytes in memory, which gives them in the pieces and fails in the calls that it was told.
#[derive(Debug, Drop)]
pub struct BytesSource {
    bytes: ByteList,
    at: usize,
    cuts: SizeList,
    fails: CallList,
    calls: u64,
    faults: u64,
}

impl Model for BytesSource {
    ghost use Rattle.std.specs.Prelude.{◌≤◌, ◌<◌, length, drop, All};
    ghost use Rattle.media_base.specs.Scripts.{SourceScript};

    ghost Value = { SourceScript };

    ghost view = { λ source. record {
      left = drop source.at source.bytes;
      cuts = source.cuts;
      fails = source.fails;
      calls = source.calls;
      faults = source.faults;
    } };

    ghost invariant = { λ source. (source.at ≤ length source.bytes) × All (λ cut. 0 < cut) source.cuts };
}

impl BytesSource {
    /// A source of these bytes. Its k-th read gives at most the k-th of `cuts`, which are at least 1; past
    /// them there is no such bound. The calls whose numbers stand in `fails`, from 1, fail.
    pub fn new(bytes: ByteList, cuts: SizeList, fails: CallList) -> BytesSource
        requires { All (λ cut. 0 < cut) cuts }
        ensures { result ≡ record { left = bytes; cuts = cuts; fails = fails; calls = 0; faults = 0 } }
    {
        BytesSource {
            bytes,
            at: 0,
            cuts,
            fails,
            calls: 0,
            faults: 0,
        }
    }

    // The most that the next read gives into so much room.
    fn next_cut(&self, room: usize) -> usize
        requires { 0 < room }
        ensures value { result ≡ given_next self.now room }
        ensures some { 0 < length self.now.left → 0 < result }
        ensures room { result ≤ room }
        ensures left { result ≤ length self.now.left }
    {
        let left = self.bytes.len() - self.at;
        let most = room.min(left);
        match usize::try_from(self.calls) {
            Ok(call) if call < self.cuts.len() => most.min(*self.cuts.get(call)),
            _ => most,
        }
    }
}

impl Source for BytesSource {
    ghost use Rattle.std.specs.Prelude.{Some};

    ghost faults = { λ source. source.faults };

    ghost left = { λ source. Some source.left };

    fn read(&mut self, into: &mut [u8]) -> Result<usize, Failed>
        requires { 0 < length into.old }
        ensures cause { HasCause self.old.faults self.new.faults failed result }
        ensures quiet { OnOk result (self.new.faults ≡ self.old.faults) }
        ensures reads { Reads (Some self.old.left) (Some self.new.left) into.new result }
        ensures script { is_err result ≡ fails_next self.old.fails self.old.calls }
        ensures count { IfOk result (λ count. count ≡ given_next self.old (length into.old)) }
        ensures after { self.new ≡ after_read self.old result }
    {
        let count = self.next_cut(into.len());
        self.calls = self.calls.saturating_add(1);
        if self.fails.as_slice().contains(&self.calls) {
            self.faults = self.faults.saturating_add(1);
            return Err(Failed);
        }
        let rest = &self.bytes.as_slice()[self.at..];
        into[..count].copy_from_slice(&rest[..count]);
        self.at += count;
        Ok(count)
    }
}
