//! Six files with 0 to 4 hashes: one hash stands twice in a file, two are in several files.

ghost use Rattle.std.specs.Prelude.{◌≡◌, ◌<◌};

use super::{file_of, plan_new, sha_of};
use crate::{FileRow, Files};
use media_types::{FileNo, Hash64, HashNo, Steps};
use std::alloc::Global;
use std::marker::Brand;
use std::process::Abort;
use std::sync::ledger::{Blank, Ledger};
use std::test::Fail;
use std::thread::Threads;

// A file: a number that stands for its SHA-256 and its size, its hashes, and those that are new with it.
#[derive(Drop)]
struct Case<'a> {
    number: u32,
    words: &'a [u64],
    new: &'a [u64],
}

const CASES: [Case<'static>; 6] = [
    Case {
        number: 70,
        words: &[],
        new: &[],
    },
    Case {
        number: 60,
        words: &[0x00, 0x07],
        new: &[0x00, 0x07],
    },
    Case {
        number: 80,
        words: &[0x07, 0x07],
        new: &[],
    },
    Case {
        number: 50,
        words: &[0xff, 0x00, 0x08, 0xff00],
        new: &[0xff, 0x08, 0xff00],
    },
    Case {
        number: 90,
        words: &[0xf0, 0x07, 0xf0],
        new: &[0xf0],
    },
    Case {
        number: 40,
        words: &[u64::MAX],
        new: &[u64::MAX],
    },
];

fn assert_words(rt: &impl Abort, found: &[Hash64], expected: &[u64]) {
    assert_eq!(rt; found.len(), expected.len());
    for (word, bits) in found.iter().zip(expected) {
        assert_eq!(rt; word.0, *bits);
    }
}

// Plans an import twice: the first plan is given up.
fn import_next(
    rt: &impl Abort,
    alloc: Global,
    files: &mut Files,
    case: &Case,
    place: u32,
) -> Result<(), Fail> {
    let file = file_of(rt, alloc, case.number, case.words)?;
    let given_up = plan_new(rt, files, &file)?;
    files.withdraw(given_up);
    assert_eq!(rt; files.len(), place);
    assert_eq!(rt; files.find(&file.sha), None);
    let plan = plan_new(rt, files, &file)?;
    assert_words(rt, plan.words(), case.new);
    assert_eq!(rt; files.commit_import(plan), FileNo(place));
    Ok(())
}

fn import_all(rt: &impl Abort, alloc: Global, files: &mut Files) -> Result<(), Fail> {
    for (place, case) in CASES.iter().enumerate() {
        import_next(rt, alloc, files, case, place as u32)?;
    }
    assert_eq!(rt; files.len(), 6);
    Ok(())
}

fn assert_row(rt: &impl Abort, row: &FileRow, case: &Case) {
    assert_eq!(rt; row.sha, sha_of(case.number));
    assert_words(rt, row.hashes.as_slice(), case.words);
    assert_eq!(rt; row.size, u64::from(case.number));
    assert_eq!(rt; row.width, 3);
    assert_eq!(rt; row.height, 2);
    assert!(rt; row.live);
    assert_eq!(rt; row.searched, None);
}

fn assert_found<L: Ledger>(
    rt: &impl Abort,
    files: &Files,
    file: FileNo,
    case: &Case,
    steps: &mut Steps<L>,
) {
    assert_eq!(rt; files.find(&sha_of(case.number)), Some(file));
    assert!(rt; file.0 < files.len());
    assert_row(rt, files.row(file, steps), case);
}

fn assert_all_found<L: Ledger>(rt: &impl Abort, files: &Files, steps: &mut Steps<L>) {
    assert_eq!(rt; files.find(&sha_of(71)), None);
    for (place, case) in CASES.iter().enumerate() {
        assert_found(rt, files, FileNo(place as u32), case, steps);
    }
}

fn assert_numbers(rt: &impl Abort, files: &Files) {
    let numbers = [
        (0x00, Some(HashNo(0))),
        (0x07, Some(HashNo(1))),
        (0xff, Some(HashNo(2))),
        (0x08, Some(HashNo(3))),
        (0xff00, Some(HashNo(4))),
        (0xf0, Some(HashNo(5))),
        (u64::MAX, Some(HashNo(6))),
        (0x01, None),
    ];
    for (word, expected) in numbers {
        assert_eq!(rt; files.find_hash(Hash64(word)), expected);
    }
}

// The files of each hash, and behind them none: a hash's number, and the files.
fn assert_nexts<L: Ledger>(rt: &impl Abort, files: &Files, steps: &mut Steps<L>) {
    let nexts = [
        (0, None, Some(FileNo(1))),
        (0, Some(FileNo(0)), Some(FileNo(1))),
        (0, Some(FileNo(1)), Some(FileNo(3))),
        (0, Some(FileNo(2)), Some(FileNo(3))),
        (0, Some(FileNo(3)), None),
        (0, Some(FileNo(u32::MAX)), None),
        (1, None, Some(FileNo(1))),
        (1, Some(FileNo(1)), Some(FileNo(2))),
        (1, Some(FileNo(2)), Some(FileNo(4))),
        (1, Some(FileNo(4)), None),
        (2, None, Some(FileNo(3))),
        (5, Some(FileNo(3)), Some(FileNo(4))),
        (6, None, Some(FileNo(5))),
        (6, Some(FileNo(5)), None),
        (7, None, None),
        (u32::MAX, None, None),
        (u32::MAX, Some(FileNo(u32::MAX)), None),
    ];
    for (hash, after, expected) in nexts {
        let next = files.files_of(HashNo(hash), after, steps);
        assert_eq!(rt; next, expected, "at {hash}");
    }
}

fn assert_distance<L: Ledger>(
    rt: &impl Abort,
    files: &Files,
    f: u32,
    g: u32,
    expected: Option<u32>,
    steps: &mut Steps<L>,
) {
    assert!(rt; f < files.len() && g < files.len());
    let distance = files.file_distance(FileNo(f), FileNo(g), steps);
    assert_eq!(rt; distance, expected);
}

// Bits that differ, counted by hand.
fn assert_distances<L: Ledger>(rt: &impl Abort, files: &Files, steps: &mut Steps<L>) {
    let cases = [
        (0, 0, None),
        (0, 3, None),
        (3, 3, Some(0)),
        (1, 2, Some(0)),
        (1, 3, Some(0)),
        (2, 3, Some(3)),
        (3, 4, Some(3)),
        (1, 5, Some(61)),
        (3, 5, Some(56)),
        (4, 5, Some(60)),
    ];
    for (f, g, expected) in cases {
        assert_distance(rt, files, f, g, expected, steps);
        assert_distance(rt, files, g, f, expected, steps);
    }
}

fn find_all<L: Ledger>(
    rt: &(impl Abort + Threads),
    alloc: Global,
    blank: Blank,
    files: &mut Files,
) -> Result<(), Fail>
    requires name { blank.name ≡ L.name }
    requires parts { blank.parts ≡ L.parts }
    requires some { 0 < L.parts }
{
    let mut steps = Steps::<L>::new(rt, blank);
    import_all(rt, alloc, files)?;
    assert_all_found(rt, files, &mut steps);
    assert_numbers(rt, files);
    assert_nexts(rt, files, &mut steps);
    assert_distances(rt, files, &mut steps);
    Ok(())
}

#[test]
fn files_hashes_and_distances_are_found(rt: HostRuntime) -> Result<(), Fail> {
    let mut files = Files::new(rt.alloc());
    find_all::<Brand>(&rt, rt.alloc(), Blank::new(1), &mut files)
}
