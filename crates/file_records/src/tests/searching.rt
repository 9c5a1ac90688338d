//! Six files, of which one has no hash and three were searched.

ghost use Rattle.std.specs.Prelude.{◌≡◌, ◌<◌};

use super::{import, sha_of};
use crate::Files;
use media_types::{FileList, FileNo, NoMemory, SearchDistance, Steps};
use std::alloc::Global;
use std::marker::Brand;
use std::process::Abort;
use std::sync::ledger::{Blank, Ledger};
use std::test::Fail;
use std::thread::Threads;

fn within(rt: &impl Abort, bits: u64) -> SearchDistance {
    SearchDistance::new(bits).expect(rt, "a distance is at most 16 bits")
}

fn listed(alloc: Global, numbers: &[u32]) -> Result<FileList, NoMemory> {
    let mut files = FileList::new(alloc);
    for number in numbers {
        files.push(FileNo(*number))?;
    }
    Ok(files)
}

// Notes how far files were searched: each by its number, and the bits.
fn note_all(rt: &impl Abort, files: &mut Files, searches: &[(u32, u64)]) {
    for (file, bits) in searches {
        assert!(rt; *file < files.len());
        files.set_searched(FileNo(*file), within(rt, *bits));
    }
}

fn import_all(rt: &impl Abort, alloc: Global, files: &mut Files) -> Result<(), Fail> {
    let hashes: [(u32, &[u64]); 6] = [
        (0, &[7]),
        (1, &[]),
        (2, &[7, 9]),
        (3, &[5]),
        (4, &[6]),
        (5, &[8]),
    ];
    for (number, words) in hashes {
        import(rt, alloc, files, number, words)?;
    }
    note_all(rt, files, &[(2, 4), (3, 8), (4, 0)]);
    Ok(())
}

fn assert_searched<L: Ledger>(
    rt: &impl Abort,
    files: &Files,
    searches: &[(u32, u64)],
    steps: &mut Steps<L>,
) {
    for (file, bits) in searches {
        assert!(rt; *file < files.len());
        assert_eq!(rt;
            files.row(FileNo(*file), steps).searched,
            Some(within(rt, *bits))
        );
    }
}

fn assert_rising<L: Ledger>(
    rt: &impl Abort,
    files: &Files,
    named: &[u32],
    bits: u64,
    expected: &[u32],
    steps: &mut Steps<L>,
) -> Result<(), Fail> {
    let named = listed(files.alloc, named)?;
    for file in named.as_slice() {
        assert!(rt; file.0 < files.len());
    }
    let found = files.rising(named.as_slice(), within(rt, bits), steps)?;
    let expected = listed(files.alloc, expected)?;
    assert_eq!(rt; found.as_slice(), expected.as_slice());
    Ok(())
}

fn assert_queue<L: Ledger>(
    rt: &impl Abort,
    files: &Files,
    bits: u64,
    expected: &[u32],
    steps: &mut Steps<L>,
) -> Result<(), Fail> {
    let queue = files.queue(within(rt, bits), steps)?;
    let expected = listed(files.alloc, expected)?;
    assert_eq!(rt; queue.as_slice(), expected.as_slice());
    Ok(())
}

// The greater distance stays: files that are named with a distance, and those of them that rise.
fn assert_distances_rise<L: Ledger>(
    rt: &impl Abort,
    files: &mut Files,
    steps: &mut Steps<L>,
) -> Result<(), Fail> {
    assert_searched(rt, files, &[(2, 4), (3, 8), (4, 0)], steps);
    assert_rising(rt, files, &[3, 2, 0, 2, 4, 0], 7, &[0, 2, 4], steps)?;
    assert_rising(rt, files, &[4, 1], 0, &[1], steps)?;
    assert_rising(rt, files, &[], 16, &[], steps)?;
    note_all(rt, files, &[(2, 7), (3, 7), (4, 7)]);
    assert_searched(rt, files, &[(2, 7), (3, 8), (4, 7)], steps);
    let named = [5, 4, 3, 2, 1, 0];
    assert_rising(rt, files, &named, 8, &[0, 1, 2, 4, 5], steps)
}

fn assert_queues<L: Ledger>(
    rt: &impl Abort,
    files: &Files,
    steps: &mut Steps<L>,
) -> Result<(), Fail> {
    let queues: [(u64, &[u32]); 5] = [
        (0, &[0, 5]),
        (1, &[0, 4, 5]),
        (4, &[0, 4, 5]),
        (5, &[0, 2, 4, 5]),
        (16, &[0, 2, 3, 4, 5]),
    ];
    for (bits, expected) in queues {
        assert_queue(rt, files, bits, expected, steps)?;
    }
    Ok(())
}

fn assert_waiting<L: Ledger>(rt: &impl Abort, files: &Files, steps: &mut Steps<L>) {
    let cases = [
        (0, 0, true),
        (1, 16, false),
        (3, 8, false),
        (3, 9, true),
        (4, 0, false),
    ];
    for (file, bits, expected) in cases {
        assert!(rt; file < files.len());
        assert_eq!(rt;
            files.is_queued(FileNo(file), within(rt, bits), steps),
            expected
        );
    }
}

fn mark(rt: &impl Abort, files: &mut Files, file: u32, live: bool) {
    assert!(rt; file < files.len());
    files.set_live(FileNo(file), live);
}

// A file that wants a search within one bit, and is found, whether it is live or deleted.
fn assert_mark<L: Ledger>(
    rt: &impl Abort,
    files: &Files,
    file: u32,
    live: bool,
    steps: &mut Steps<L>,
) {
    assert_eq!(rt; files.find(&sha_of(file)), Some(FileNo(file)));
    assert!(rt; file < files.len());
    assert_eq!(rt; files.row(FileNo(file), steps).live, live);
    assert!(rt; files.wants_search(FileNo(file), within(rt, 1), steps));
    assert!(rt; !files.wants_search(FileNo(file), within(rt, 0), steps));
}

fn assert_goes_and_comes<L: Ledger>(
    rt: &impl Abort,
    files: &mut Files,
    steps: &mut Steps<L>,
) -> Result<(), Fail> {
    mark(rt, files, 4, false);
    assert_mark(rt, files, 4, false, steps);
    assert_queue(rt, files, 1, &[0, 5], steps)?;
    mark(rt, files, 4, true);
    assert_mark(rt, files, 4, true, steps);
    assert_queue(rt, files, 1, &[0, 4, 5], steps)
}

fn search_six_files<L: Ledger>(
    rt: &(impl Abort + Threads),
    alloc: Global,
    blank: Blank,
    files: &mut Files,
) -> Result<(), Fail>
    requires name { blank.name ≡ L.name }
    requires parts { blank.parts ≡ L.parts }
    requires some { 0 < L.parts }
{
    let mut steps = Steps::<L>::new(rt, blank);
    import_all(rt, alloc, files)?;
    assert_queues(rt, files, &mut steps)?;
    assert_waiting(rt, files, &mut steps);
    assert_goes_and_comes(rt, files, &mut steps)?;
    assert_distances_rise(rt, files, &mut steps)
}

#[test]
fn a_file_waits_until_it_is_searched_or_deleted(rt: HostRuntime) -> Result<(), Fail> {
    let mut files = Files::new(rt.alloc());
    search_six_files::<Brand>(&rt, rt.alloc(), Blank::new(1), &mut files)
}
