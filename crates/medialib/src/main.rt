//! `medialib`: the record keeper of a media library, at the command line.
#![tactic(auto)]

ghost use Rattle.std.specs.Prelude.{◌≡◌, ◌≢◌, ◌<◌, ◌↔◌, map, string_bytes};
ghost use Rattle.media_tool.specs.Words.{play_words};

use media_base::{Status, Steps};
use media_keeper::QuietKeeper;
use media_tool::{StdSink, StdSource, run};
use std::alloc::{AllocError, Global};
use std::env::{self, Env};
use std::io::{ErrorKind, Read, Write};
use std::marker::Brand;
use std::process::ExitCode;
use std::sync::ledger::{Blank, Ledger};
use std::thread::Threads;

// The words behind the program's name. One that is no UTF-8 is in no command.
fn words_of(rt: &(impl Env + AllocGlobal)) -> Result<Vec<String>, Status> {
    match env::args(rt) {
        Ok(words) => words
            .skip(1)
            .collect(rt.alloc())
            .map_err(|_: AllocError| Status::NoMemory),
        Err(error) if error.kind() == ErrorKind::InvalidData => Err(Status::Usage),
        Err(_) => Err(Status::NoMemory),
    }
}

// Runs the words from the reader to the writer, with a counter of its own. Nothing is kept beyond the session.
fn run_counted<R: Read + Drop, W: Write + Drop, L: Ledger>(
    rt: &impl Threads,
    alloc: Global,
    words: &[String],
    reader: R,
    writer: W,
    blank: Blank,
) -> Status
    requires name { blank.name ≡ L.name }
    requires parts { blank.parts ≡ L.parts }
    requires some { 0 < L.parts }
    ensures usage { (result ≡ Status.Usage) ↔ (map string_bytes words.now ≢ play_words) }
{
    let mut source = StdSource::new(reader);
    let mut sink = StdSink::new(writer);
    let mut steps = Steps::<L>::new(rt, blank);
    let keeper = QuietKeeper::new();
    let (status, _keeper) = run(alloc, words, &mut source, &mut sink, keeper, &mut steps);
    status
}

// What a person who reads the status may want to know, in one line.
fn meaning_of(status: Status) -> &'static str {
    match status {
        Status::Done => "all of the input was answered",
        Status::Usage => "usage: medialib play -",
        Status::ReadFault => "reading standard input failed",
        Status::WriteFault => "writing to standard output failed",
        Status::StoreFault => "what keeps the changes failed",
        Status::NoMemory => "there was no memory to begin",
        Status::InputTooLong => "the input has more than 1,073,741,824 bytes",
        Status::BadStore(_) => "a kept change can't be read, or isn't allowed at its place",
        Status::AlienStore => "what should keep the changes belongs to something else",
    }
}

fn main(rt: HostRuntime) -> ExitCode {
    let alloc = rt.alloc();
    let status = match words_of(&rt) {
        Ok(words) => run_counted::<_, _, Brand>(
            &rt,
            alloc,
            &words,
            rt.stdin(),
            rt.stdout(),
            Blank::new(1),
        ),
        Err(status) => status,
    };
    let number = status.number();
    if number != 0 {
        let meaning = meaning_of(status);
        let _ = eprintln!(rt; "medialib: status {number}\n{meaning}");
    }
    ExitCode::from(number)
}
