mod alien_keeper;
mod chance;
mod decisions;
mod folds;
mod keepers;
mod kept_parents;
mod kept_siblings;
mod lines;
mod near_files;
mod pair_lines;
mod parent_ladder;
mod parent_sets;
mod parents;
mod plain_fold;
mod plain_library;
mod plain_orders;
mod plain_parents;
mod plain_siblings;
mod plain_tags;
mod playing;
mod random_parents;
mod random_session;
mod random_siblings;
mod random_tags;
mod rows;
mod scripts;
mod sibling_chain;
mod sibling_orders;
mod siblings;
mod spelling;
mod tagging;
mod undoing;

use super::*;
use crate::tests::lines::{Code, Line, input_of, push_spaces};
use crate::tests::playing::{Manner, Outcome, played, played_from, source_of};
use media_base::{Sink, Source, Status};
use std::alloc::{AllocError, Global};
use std::process::Abort;
use std::test::Fail;
use std::thread::Threads;

const FOUR_LINES: [Line; 4] = [
    Line::Import(0),
    Line::Import(1),
    Line::Decide(Code::Better, 0, 1),
    Line::Relations(1),
];

const FILE_0: &str = "{\"file\":0,\"status\":1}\n";

const FILE_1: &str = "{\"file\":1,\"status\":1}\n";

const DECISION_0: &str = "{\"decision\":0}\n";

const RELATED: &str = "{\"king\":0,\"members\":[0,1],\"alternates\":[],\"not_related\":[]}\n";

const FOUR_REPLIES: [&str; 4] = [FILE_0, FILE_1, DECISION_0, RELATED];

/// A line of this text and spaces behind it, up to so many bytes, and what ends it.
#[derive(Clone, Copy)]
struct Padded(&'static str, usize, &'static str);

const IMPORT: &str =
    "{\"do\":\"import\",\"sha256\":\"0000000000000000000000000000000000000000000000000000000000000000\",\"hashes\":[],\"size\":1,\"width\":1,\"height\":1}";

fn padded_input(alloc: Global, lines: &[Padded]) -> Result<String, AllocError> {
    let mut input = String::new(alloc);
    for Padded(text, bytes, end) in lines {
        input.push_str(text)?;
        push_spaces(&mut input, bytes.saturating_sub(text.len()))?;
        input.push_str(end)?;
    }
    Ok(input)
}

/// Lines of a session, and what is written to them.
struct PaddedCase {
    lines: &'static [Padded],
    written: &'static str,
}

const PADDED: [PaddedCase; 5] = [
    PaddedCase {
        lines: &[Padded("", 65_536, "\n"), Padded("", 65_537, "\n")],
        written: "{\"error\":\"not_json\"}\n{\"error\":\"line_too_long\"}\n",
    },
    PaddedCase {
        lines: &[Padded(IMPORT, 65_537, "\n"), Padded(IMPORT, 65_536, "\n")],
        written: "{\"error\":\"line_too_long\"}\n{\"file\":0,\"status\":1}\n",
    },
    PaddedCase {
        lines: &[Padded("", 200_000, "\n"), Padded(IMPORT, 0, "\n")],
        written: "{\"error\":\"line_too_long\"}\n{\"file\":0,\"status\":1}\n",
    },
    PaddedCase {
        lines: &[Padded(IMPORT, 0, "\n"), Padded(IMPORT, 65_536, "")],
        written: "{\"file\":0,\"status\":1}\n{\"file\":0,\"status\":2}\n",
    },
    PaddedCase {
        lines: &[Padded(IMPORT, 0, "\n"), Padded(IMPORT, 65_537, "")],
        written: "{\"file\":0,\"status\":1}\n{\"error\":\"line_too_long\"}\n",
    },
];

// A session in pieces of so many bytes ended well, and wrote this.
fn assert_done(rt: &impl Abort, played: &Outcome, piece: usize, wanted: &str) -> Result<(), Fail> {
    assert_eq!(rt; played.status, Status::Done);
    let written = str::from_utf8(&played.written)?;
    assert_eq!(rt; written, wanted, "in pieces of {piece}");
    Ok(())
}

// Reads of at most so many bytes each.
fn assert_in_pieces(
    rt: &(impl Threads + Abort),
    alloc: Global,
    input: &str,
    piece: usize,
    wanted: &str,
) -> Result<(), Fail> {
    let mut source = source_of(rt, alloc, input, piece, 0)?;
    let played = played_from(rt, alloc, &["play", "-"], &mut source, Manner::PLAIN)?;
    assert_done(rt, &played, piece, wanted)
}

fn assert_padded(
    rt: &(impl Threads + Abort),
    alloc: Global,
    case: &PaddedCase,
) -> Result<(), Fail> {
    let input = padded_input(alloc, case.lines)?;
    for piece in [1, 4_096, 65_536] {
        assert_in_pieces(rt, alloc, &input, piece, case.written)?;
    }
    Ok(())
}

// A line may have 65,536 bytes, whatever pieces it comes in, and the line behind a longer one is answered.
#[test]
fn a_line_has_a_limit(rt: HostRuntime) -> Result<(), Fail> {
    for case in &PADDED {
        assert_padded(&rt, rt.alloc(), case)?;
    }
    Ok(())
}

// How many whole lines the first bytes have.
fn lines_of(input: &str, bytes: usize) -> usize {
    input
        .bytes()
        .take(bytes)
        .filter(|byte| *byte == b'\n')
        .count()
}

// A session ended so, and wrote the first of the four replies, so many of them.
fn assert_first(
    rt: &impl Abort,
    alloc: Global,
    played: &Outcome,
    status: Status,
    replies: usize,
) -> Result<(), Fail> {
    assert!(rt; replies <= FOUR_REPLIES.len());
    played.assert(rt, alloc, status, &FOUR_REPLIES[..replies])
}

// Plays the four lines, which are answered by so many replies.
fn assert_four_lines(
    rt: &(impl Threads + Abort),
    alloc: Global,
    manner: Manner,
    status: Status,
    replies: usize,
) -> Result<(), Fail> {
    let input = input_of(alloc, &FOUR_LINES)?;
    let played = played(rt, alloc, &["play", "-"], &input, manner)?;
    assert_first(rt, alloc, &played, status, replies)
}

// Reads of one byte, and each read fails in turn: the lines that ended before it are answered whole.
#[test]
fn a_read_fault_ends_a_session(rt: HostRuntime) -> Result<(), Fail> {
    let alloc = rt.alloc();
    let input = input_of(alloc, &FOUR_LINES)?;
    for bytes in 0..=input.len() {
        let manner = Manner {
            narrow: true,
            failing_read: (bytes as u64).saturating_add(1),
            failing_write: 0,
        };
        let replies = lines_of(&input, bytes);
        assert_four_lines(&rt, alloc, manner, Status::ReadFault, replies)?;
    }
    let second = Manner {
        failing_read: 2,
        ..Manner::PLAIN
    };
    assert_four_lines(&rt, alloc, second, Status::ReadFault, 4)
}

// The replies to the lines of one read are one write, and where it fails none is written.
#[test]
fn a_write_fault_ends_a_session(rt: HostRuntime) -> Result<(), Fail> {
    let alloc = rt.alloc();
    let first = Manner {
        failing_write: 1,
        ..Manner::PLAIN
    };
    assert_four_lines(&rt, alloc, first, Status::WriteFault, 0)?;
    let second = Manner {
        failing_write: 2,
        ..Manner::PLAIN
    };
    assert_four_lines(&rt, alloc, second, Status::Done, 4)
}

// A session ended with a write fault, and so many bytes of the text before it.
fn assert_cut_off(rt: &impl Abort, played: &Outcome, bytes: usize, text: &[u8]) {
    assert_eq!(rt; played.status, Status::WriteFault);
    assert_eq!(rt; played.written.len(), bytes);
    assert!(rt; text.starts_with(&played.written));
}

// Writes of one byte, of which so many succeed.
fn assert_front(
    rt: &(impl Threads + Abort),
    alloc: Global,
    bytes: usize,
    text: &[u8],
) -> Result<(), Fail> {
    let manner = Manner {
        narrow: true,
        failing_read: 0,
        failing_write: (bytes as u64).saturating_add(1),
    };
    let input = input_of(alloc, &FOUR_LINES)?;
    let played = played(rt, alloc, &["play", "-"], &input, manner)?;
    assert_cut_off(rt, &played, bytes, text);
    Ok(())
}

fn assert_fronts(rt: &(impl Threads + Abort), alloc: Global, text: &[u8]) -> Result<(), Fail> {
    for bytes in 0..text.len() {
        assert_front(rt, alloc, bytes, text)?;
    }
    Ok(())
}

// Writes of one byte, and each fails in turn: the bytes before it are written.
#[test]
fn a_write_fault_leaves_a_front(rt: HostRuntime) -> Result<(), Fail> {
    let alloc = rt.alloc();
    let whole = Manner {
        narrow: true,
        ..Manner::PLAIN
    };
    assert_four_lines(&rt, alloc, whole, Status::Done, 4)?;
    let text = FOUR_REPLIES.concat(alloc)?;
    assert_fronts(&rt, alloc, text.as_bytes())
}

const OTHER_WORDS: [&[&str]; 6] = [
    &[],
    &["play"],
    &["-", "play"],
    &["play", "library.journal"],
    &["play", "-", "-"],
    &["Play", "-"],
];

fn assert_no_command(
    rt: &(impl Threads + Abort),
    alloc: Global,
    words: &[&str],
) -> Result<(), Fail> {
    let input = input_of(alloc, &FOUR_LINES)?;
    played(rt, alloc, words, &input, Manner::PLAIN)?.assert(rt, alloc, Status::Usage, &[])
}

#[test]
fn other_words_are_no_command(rt: HostRuntime) -> Result<(), Fail> {
    for words in OTHER_WORDS {
        assert_no_command(&rt, rt.alloc(), words)?;
    }
    Ok(())
}

#[test]
fn the_adapters_pass_bytes_on(rt: HostRuntime) -> Result<(), Fail> {
    let mut source = StdSource::new(b"abc".as_slice());
    let mut room = [0; 2];
    assert_eq!(rt; source.read(&mut room), Ok(2));
    assert_eq!(rt; room, [b'a', b'b']);
    assert_eq!(rt; source.read(&mut room), Ok(1));
    assert_eq!(rt; source.read(&mut room), Ok(0));
    let mut sink = StdSink::new(Vec::new(rt.alloc()));
    assert_eq!(rt; sink.write(b"xyz"), Ok(3));
    assert_eq!(rt; sink.write(b""), Ok(0));
    Ok(())
}
