//! The adapters over the standard streams: the trusted edge. They tell no content of their own; their
//! contracts say that they pass on what a stream tells, and the system's streams tell nothing.

ghost use Rattle.std.specs.Prelude.{◌≡◌, ◌<◌, length, None, OnOk};
ghost use Rattle.std.specs.Io.KnownBytes.{ReadConsumes, WriteAppends};
ghost use Rattle.media_types.specs.Cause.{HasCause, failed};
ghost use Rattle.media_base.specs.Transfer.{Reads, Writes};

use media_base::{Failed, Sink, Source};
use std::io::{ErrorKind, Read, Write};

/// A source over a reader, as standard input is.
#[derive(Drop)]
pub struct StdSource<R: Read + Drop> {
    reader: R,
    faults: u64,
}

impl<R: Read + Drop> StdSource<R> {
    /// It hasn't failed yet.
    pub fn new(reader: R) -> StdSource<R>
        ensures { ⟦<StdSource<R> as Source>⟧.faults result ≡ 0 }
    {
        StdSource { reader, faults: 0 }
    }
}

impl<R: Read + Drop> Source for StdSource<R> {
    ghost use Rattle.std.specs.Prelude.{None};

    ghost faults = { λ source. source.faults };

    ghost left = { λ _. None };

    /// An interrupted read is tried again. What the reader gives is passed on, where it tells that.
    fn read(&mut self, into: &mut [u8]) -> Result<usize, Failed>
        requires { 0 < length into.old }
        ensures cause { HasCause self.old.faults self.new.faults failed result }
        ensures quiet { OnOk result (self.new.faults ≡ self.old.faults) }
        ensures reads { Reads None None into.new result }
        ensures bytes { ReadConsumes (R.remaining self.old.reader) (R.remaining self.new.reader) result into.new }
    {
        for _ in 0..u64::MAX {
            match self.reader.read(into) {
                Ok(count) => return Ok(count),
                Err(error) if error.kind() == ErrorKind::Interrupted => {}
                Err(_) => break,
            }
        }
        self.faults = self.faults.saturating_add(1);
        Err(Failed)
    }
}

/// A sink over a writer, as standard output is.
#[derive(Drop)]
pub struct StdSink<W: Write + Drop> {
    writer: W,
    faults: u64,
}

impl<W: Write + Drop> StdSink<W> {
    /// It hasn't failed yet.
    pub fn new(writer: W) -> StdSink<W>
        ensures { ⟦<StdSink<W> as Sink>⟧.faults result ≡ 0 }
    {
        StdSink { writer, faults: 0 }
    }
}

impl<W: Write + Drop> Sink for StdSink<W> {
    ghost use Rattle.std.specs.Prelude.{None};

    ghost faults = { λ sink. sink.faults };

    ghost taken = { λ _. None };

    /// An interrupted write is tried again. A writer that takes nothing of a piece has failed. The writer gets
    /// what the sink says that it took, where the writer tells that.
    fn write(&mut self, piece: &[u8]) -> Result<usize, Failed>
        ensures cause { HasCause self.old.faults self.new.faults failed result }
        ensures quiet { OnOk result (self.new.faults ≡ self.old.faults) }
        ensures writes { Writes None None piece.now result }
        ensures bytes { WriteAppends (W.contents self.old.writer) (W.contents self.new.writer) result piece.now }
    {
        for _ in 0..u64::MAX {
            match self.writer.write(piece) {
                Ok(0) if !piece.is_empty() => break,
                Ok(count) => return Ok(count),
                Err(error) if error.kind() == ErrorKind::Interrupted => {}
                Err(_) => break,
            }
        }
        self.faults = self.faults.saturating_add(1);
        Err(Failed)
    }
}
