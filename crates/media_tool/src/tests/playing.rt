//! Sessions over bytes in memory.

ghost use Rattle.std.specs.Prelude.{◌≡◌, ◌<◌};
ghost use Rattle.media_types.specs.Cause.{HasCause, failed};
ghost use Rattle.media_base.specs.Transfer.{Writes};

use crate::run;
use media_base::{
    ByteList, BytesSink, BytesSource, CallList, Failed, Keeper, NoMemory, Sink, SizeList, Source,
    Status, Steps,
};
use media_keeper::QuietKeeper;
use std::alloc::{AllocError, Global};
use std::marker::Brand;
use std::process::Abort;
use std::sync::ledger::{Blank, Ledger};
use std::test::Fail;
use std::thread::Threads;

/// A sink in memory. A narrow one takes one byte in each write.
#[derive(Drop)]
pub struct Outlet {
    sink: BytesSink,
    narrow: bool,
}

impl Outlet {
    /// The write of this number fails, if that isn't 0.
    pub fn new(alloc: Global, narrow: bool, failing_write: u64) -> Result<Outlet, NoMemory> {
        let sink = BytesSink::new(alloc, 4_194_304, calls_of(alloc, failing_write)?)?;
        Ok(Outlet { sink, narrow })
    }

    /// What it took.
    pub fn written(&self) -> &[u8] {
        self.sink.bytes().as_slice()
    }
}

impl Sink for Outlet {
    ghost use Rattle.std.specs.Prelude.{Some};

    ghost faults = { λ outlet. outlet.sink.faults };

    ghost taken = { λ outlet. Some outlet.sink.taken };

    fn write(&mut self, piece: &[u8]) -> Result<usize, Failed> {
        match piece {
            [first, ..] if self.narrow => self.sink.write(&[*first]),
            _ => self.sink.write(piece),
        }
    }
}

/// How a session is played: with reads of one byte, and with these calls failing, where they aren't 0.
#[derive(Clone, Copy)]
pub struct Manner {
    pub narrow: bool,
    pub failing_read: u64,
    pub failing_write: u64,
}

impl Manner {
    /// Large pieces, and no call fails.
    pub const PLAIN: Manner = Manner {
        narrow: false,
        failing_read: 0,
        failing_write: 0,
    };
}

// A session with a ledger of its own.
fn run_counted<S: Source, W: Sink, K: Keeper, L: Ledger>(
    rt: &impl Threads,
    alloc: Global,
    words: &[String],
    source: &mut S,
    sink: &mut W,
    keeper: K,
    blank: Blank,
) -> (Status, K)
    requires name { blank.name ≡ L.name }
    requires parts { blank.parts ≡ L.parts }
    requires some { 0 < L.parts }
{
    let mut steps = Steps::<L>::new(rt, blank);
    run(alloc, words, source, sink, keeper, &mut steps)
}

/// A session over a keeper, which comes back.
pub fn run_over<S: Source, W: Sink, K: Keeper>(
    rt: &impl Threads,
    alloc: Global,
    words: &[String],
    source: &mut S,
    sink: &mut W,
    keeper: K,
) -> (Status, K) {
    run_counted::<_, _, _, Brand>(rt, alloc, words, source, sink, keeper, Blank::new(1))
}

/// The words as the program gets them.
pub fn owned_words(alloc: Global, words: &[&str]) -> Result<Vec<String>, AllocError> {
    let mut owned = Vec::new(alloc);
    for word in words {
        owned.push(String::from_str(alloc, word)?)?;
    }
    Ok(owned)
}

/// The call of this number, if that isn't 0.
pub fn calls_of(alloc: Global, call: u64) -> Result<CallList, NoMemory> {
    let mut calls = CallList::new(alloc);
    if call != 0 {
        calls.push(call)?;
    }
    Ok(calls)
}

/// A source whose reads give at most so many bytes each.
pub fn source_of(
    rt: &impl Abort,
    alloc: Global,
    input: &str,
    piece: usize,
    failing_read: u64,
) -> Result<BytesSource, NoMemory> {
    let mut bytes = ByteList::new(alloc);
    bytes.push_all(input.as_bytes())?;
    let mut cuts = SizeList::new(alloc);
    for _ in 0..input.len() {
        cuts.push(piece)?;
    }
    assert!(rt; cuts.as_slice().iter().all(|cut| 0 < *cut));
    Ok(BytesSource::new(bytes, cuts, calls_of(alloc, failing_read)?))
}

/// How a session ended.
#[derive(Drop)]
pub struct Outcome {
    pub status: Status,
    pub written: Vec<u8>,
}

impl Outcome {
    /// It ended so, and what was written are these replies, and nothing more.
    pub fn assert(
        &self,
        rt: &impl Abort,
        alloc: Global,
        status: Status,
        replies: &[&str],
    ) -> Result<(), Fail> {
        assert_eq!(rt; self.status, status);
        assert_replies(rt, alloc, &self.written, replies)
    }
}

/// Plays the input.
pub fn played(
    rt: &(impl Threads + Abort),
    alloc: Global,
    words: &[&str],
    input: &str,
    manner: Manner,
) -> Result<Outcome, NoMemory> {
    let piece = if manner.narrow { 1 } else { 65_536 };
    let mut source = source_of(rt, alloc, input, piece, manner.failing_read)?;
    played_from(rt, alloc, words, &mut source, manner)
}

/// Plays what the source gives.
pub fn played_from(
    rt: &impl Threads,
    alloc: Global,
    words: &[&str],
    source: &mut BytesSource,
    manner: Manner,
) -> Result<Outcome, NoMemory> {
    let words = owned_words(alloc, words)?;
    let mut outlet = Outlet::new(alloc, manner.narrow, manner.failing_write)?;
    let (status, _keeper) = run_over(rt, alloc, &words, source, &mut outlet, QuietKeeper::new());
    let written = Vec::from_slice(alloc, outlet.written())?;
    Ok(Outcome { status, written })
}

/// What was written are these replies, and nothing more.
pub fn assert_replies(
    rt: &impl Abort,
    alloc: Global,
    written: &[u8],
    replies: &[&str],
) -> Result<(), Fail> {
    let expected = replies.concat(alloc)?;
    assert_eq!(rt; str::from_utf8(written)?, expected.as_str());
    Ok(())
}
