//! The lines of a session, as the tests write them.

use crate::tests::pair_lines::{PairCommand, write_pair};
use std::alloc::{AllocError, Global};

/// What a decision says of its two files.
#[derive(Clone, Copy, Debug, PartialEq, Eq)]
pub enum Code {
    NotRelated,
    Same,
    Alternates,
    Better,
    Worse,
}

impl Code {
    pub const ALL: [Code; 5] = [
        Code::NotRelated,
        Code::Same,
        Code::Alternates,
        Code::Better,
        Code::Worse,
    ];

    /// Its number in a line.
    fn number(self) -> u32 {
        match self {
            Code::NotRelated => 1,
            Code::Same => 2,
            Code::Alternates => 3,
            Code::Better => 4,
            Code::Worse => 7,
        }
    }
}

/// How a tag is mapped to a file.
#[derive(Clone, Copy, Debug, PartialEq, Eq)]
pub enum State {
    Current,
    Pending,
    Deleted,
}

impl State {
    pub const ALL: [State; 3] = [State::Current, State::Pending, State::Deleted];

    /// Its name in a line.
    fn name(self) -> &'static str {
        match self {
            State::Current => "current",
            State::Pending => "pending",
            State::Deleted => "deleted",
        }
    }
}

/// A line of a session, with its line feed but for `Text`.
#[derive(Clone, Copy)]
pub enum Line {
    /// The import of the file whose SHA-256 is this number.
    Import(u32),
    /// The same with this hash.
    Hashed(u32, u64),
    /// The same with these two hashes.
    HashedTwice(u32, u64, u64),
    Delete(u32),
    Undelete(u32),
    Decide(Code, u32, u32),
    Undo(u32),
    Relations(u32),
    Decision(u32),
    /// The potential pairs after a pair, at most so many, within a distance.
    Page(Option<(u32, u32)>, u32, u8),
    PairCount(u8),
    SearchDistance(u8),
    /// The search of so many files of the queue.
    SearchJob(u32),
    /// The search of one file within a distance.
    Search(u32, u8),
    /// The search of two files within a distance.
    SearchBoth(u32, u32, u8),
    /// A service takes its sibling pairs and its parent pairs from these services.
    Apply(u32, &'static [u32], &'static [u32]),
    /// The mapping of a tag in a service to a file. The tag stands as JSON spells it.
    Map(u32, &'static str, u32, State),
    Unmap(u32, &'static str, u32),
    /// The tags that a service maps to a file.
    Mappings(u32, u32),
    /// The pair of a bad tag and its good one is recorded in a service. The tags stand as JSON spells them.
    AddSibling(u32, &'static str, &'static str),
    RemoveSibling(u32, &'static str, &'static str),
    /// The pair of a child and its parent is recorded in a service.
    AddParent(u32, &'static str, &'static str),
    RemoveParent(u32, &'static str, &'static str),
    /// The ideal tag of a tag in a service.
    Ideal(u32, &'static str),
    /// So many spaces.
    Spaces(usize),
    Text(&'static str),
}

impl Line {
    pub const QUEUES: Line = Line::Text("{\"do\":\"queues\"}\n");

    pub const REBALANCE_JOB: Line = Line::Text("{\"do\":\"rebalance_job\"}\n");

    pub const ADD_SERVICE: Line = Line::Text("{\"do\":\"add_service\"}\n");

    pub fn write_to(&self, input: &mut String) -> Result<(), AllocError> {
        match self {
            Line::Import(sha) => write_import(input, *sha, &[]),
            Line::Hashed(sha, hash) => write_import(input, *sha, &[*hash]),
            Line::HashedTwice(sha, one, other) => write_import(input, *sha, &[*one, *other]),
            Line::Delete(file) => write_asked(input, "delete", "file", *file),
            Line::Undelete(file) => write_asked(input, "undelete", "file", *file),
            Line::Decide(code, a, b) => write_decide(input, *code, *a, *b),
            Line::Undo(decision) => write_asked(input, "undo", "decision", *decision),
            Line::Relations(file) => write_asked(input, "relations", "file", *file),
            Line::Decision(decision) => write_asked(input, "decision", "decision", *decision),
            Line::Page(place, n, at_most) => write_page(input, *place, *n, *at_most),
            Line::PairCount(at_most) => write_within(input, "pair_count", "at_most", *at_most),
            Line::SearchDistance(d) => write_within(input, "search_distance", "distance", *d),
            Line::SearchJob(n) => write_asked(input, "search_job", "n", *n),
            Line::Search(file, distance) => write_search(input, &[*file], *distance),
            Line::SearchBoth(a, b, distance) => write_search(input, &[*a, *b], *distance),
            Line::Apply(service, siblings, parents) => {
                write_apply(input, *service, siblings, parents)
            }
            Line::Map(service, tag, file, state) => write_map(input, *service, tag, *file, *state),
            Line::Unmap(service, tag, file) => write_unmap(input, *service, tag, *file),
            Line::Mappings(service, file) => write_mappings(input, *service, *file),
            Line::AddSibling(service, bad, good) => {
                write_pair(input, PairCommand::AddSibling, *service, bad, good)
            }
            Line::RemoveSibling(service, bad, good) => {
                write_pair(input, PairCommand::RemoveSibling, *service, bad, good)
            }
            Line::AddParent(service, child, parent) => {
                write_pair(input, PairCommand::AddParent, *service, child, parent)
            }
            Line::RemoveParent(service, child, parent) => {
                write_pair(input, PairCommand::RemoveParent, *service, child, parent)
            }
            Line::Ideal(service, tag) => write_ideal(input, *service, tag),
            Line::Spaces(count) => write_spaces(input, *count),
            Line::Text(text) => input.push_str(text),
        }
    }
}

fn write_import(input: &mut String, sha: u32, hashes: &[u64]) -> Result<(), AllocError> {
    write!(
        input,
        "{{\"do\":\"import\",\"sha256\":\"{sha:064x}\",\"hashes\":["
    )?;
    let mut between = "";
    for hash in hashes {
        write!(input, "{between}\"{hash:016X}\"")?;
        between = ",";
    }
    writeln!(input, "],\"size\":1,\"width\":1,\"height\":1}}")
}

// A command of this name with one field.
fn write_asked(input: &mut String, name: &str, field: &str, value: u32) -> Result<(), AllocError> {
    writeln!(input, "{{\"do\":\"{name}\",\"{field}\":{value}}}")
}

// The same, where the field is a distance.
fn write_within(
    input: &mut String,
    name: &str,
    field: &str,
    distance: u8,
) -> Result<(), AllocError> {
    write_asked(input, name, field, u32::from(distance))
}

fn write_decide(input: &mut String, code: Code, a: u32, b: u32) -> Result<(), AllocError> {
    let code = code.number();
    writeln!(
        input,
        "{{\"do\":\"decide\",\"code\":{code},\"a\":{a},\"b\":{b}}}"
    )
}

fn write_page(
    input: &mut String,
    place: Option<(u32, u32)>,
    n: u32,
    at_most: u8,
) -> Result<(), AllocError> {
    input.push_str("{\"do\":\"pairs\",")?;
    if let Some((j, k)) = place {
        write!(input, "\"after_j\":{j},\"after_k\":{k},")?;
    }
    writeln!(input, "\"n\":{n},\"at_most\":{at_most}}}")
}

fn write_search(input: &mut String, files: &[u32], distance: u8) -> Result<(), AllocError> {
    writeln!(
        input,
        "{{\"do\":\"search_files\",\"files\":{files:?},\"distance\":{distance}}}"
    )
}

fn write_apply(
    input: &mut String,
    service: u32,
    siblings: &[u32],
    parents: &[u32],
) -> Result<(), AllocError> {
    writeln!(
        input,
        "{{\"do\":\"apply\",\"service\":{service},\"siblings\":{siblings:?},\"parents\":{parents:?}}}"
    )
}

/// The line of `Map`, for a tag that isn't known beforehand.
pub fn write_map(
    input: &mut String,
    service: u32,
    tag: &str,
    file: u32,
    state: State,
) -> Result<(), AllocError> {
    let state = state.name();
    writeln!(
        input,
        "{{\"do\":\"map\",\"service\":{service},\"tag\":\"{tag}\",\"file\":{file},\"state\":\"{state}\"}}"
    )
}

/// The line of `Unmap`, for a tag that isn't known beforehand.
pub fn write_unmap(
    input: &mut String,
    service: u32,
    tag: &str,
    file: u32,
) -> Result<(), AllocError> {
    writeln!(
        input,
        "{{\"do\":\"unmap\",\"service\":{service},\"tag\":\"{tag}\",\"file\":{file}}}"
    )
}

fn write_mappings(input: &mut String, service: u32, file: u32) -> Result<(), AllocError> {
    writeln!(
        input,
        "{{\"do\":\"mappings\",\"service\":{service},\"file\":{file}}}"
    )
}

/// The line of `Ideal`, for a tag that isn't known beforehand.
pub fn write_ideal(input: &mut String, service: u32, tag: &str) -> Result<(), AllocError> {
    writeln!(
        input,
        "{{\"do\":\"ideal\",\"service\":{service},\"tag\":\"{tag}\"}}"
    )
}

pub fn push_spaces(input: &mut String, count: usize) -> Result<(), AllocError> {
    for _ in 0..count {
        input.push(' ')?;
    }
    Ok(())
}

fn write_spaces(input: &mut String, count: usize) -> Result<(), AllocError> {
    push_spaces(input, count)?;
    input.push('\n')
}

pub fn input_of(alloc: Global, lines: &[Line]) -> Result<String, AllocError> {
    let mut input = String::new(alloc);
    for line in lines {
        line.write_to(&mut input)?;
    }
    Ok(input)
}
