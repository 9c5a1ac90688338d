ghost use Rattle.std.specs.Prelude.{◌≡◌, ◌<◌};

use super::*;
use media_types::{Hash64, HashNo, MAX_WORDS, NoMemory, SearchDistance, Steps, distance};
use std::alloc::Global;
use std::marker::Brand;
use std::process::Abort;
use std::sync::ledger::{Blank, Ledger};
use std::test::Fail;
use std::thread::Threads;

#[derive(Clone, Copy, Debug)]
enum Kind {
    /// No bit tells another.
    Mixed,
    /// Families of eight, whose members differ from the first in one or two bits.
    Families,
    /// All have 7 in the lowest chunk, and their number in each other one.
    OneValue,
    /// All are the same word.
    Same,
}

const KINDS: [Kind; 4] = [Kind::Mixed, Kind::Families, Kind::OneValue, Kind::Same];

fn mixed(number: u64) -> u64 {
    let first = number.wrapping_add(1).wrapping_mul(0x9e37_79b9_7f4a_7c15);
    let second = (first ^ (first >> 30)).wrapping_mul(0xbf58_476d_1ce4_e5b9);
    second ^ (second >> 27)
}

fn word_of(kind: Kind, number: u32) -> Hash64 {
    let number = u64::from(number);
    match kind {
        Kind::Mixed => Hash64(mixed(number)),
        Kind::Families => {
            let member = number % 8;
            let near = if member == 0 {
                0
            } else {
                (1u64 << member) | (1u64 << (member * 7))
            };
            Hash64(mixed(number / 8) ^ near)
        }
        Kind::OneValue => Hash64(7u64.wrapping_add(number.wrapping_mul(0x0001_0001_0001_0000))),
        Kind::Same => Hash64(7),
    }
}

fn insert_all(
    rt: &impl Abort,
    chunks: &mut WordChunks,
    kind: Kind,
    count: u32,
) -> Result<(), NoMemory> {
    for number in 0..count {
        chunks.reserve(1)?;
        assert!(rt; chunks.len() < MAX_WORDS);
        chunks.insert(word_of(kind, number));
    }
    Ok(())
}

// The hits are those of a plain scan of all words.
fn assert_as_scan<L: Ledger>(
    rt: &impl Abort,
    chunks: &WordChunks,
    kind: Kind,
    query: Hash64,
    within: SearchDistance,
    steps: &mut Steps<L>,
    alloc: Global,
) -> Result<(), NoMemory> {
    let hits = chunks.search(alloc, query, within, steps)?;
    let mut next = 0;
    for number in 0..chunks.len() {
        let away = distance(query, word_of(kind, number));
        if away <= u32::from(within.bits()) {
            assert!(rt; next < hits.len(), "{kind:?} {number}");
            assert_eq!(rt; *hits.get(next), (HashNo(number), away));
            next += 1;
        }
    }
    assert_eq!(rt; hits.len(), next);
    Ok(())
}

fn assert_all_as_scan<L: Ledger>(
    rt: &impl Abort,
    chunks: &WordChunks,
    kind: Kind,
    query: Hash64,
    steps: &mut Steps<L>,
    alloc: Global,
) -> Result<(), NoMemory> {
    for bits in 0u64..=16 {
        if let Some(within) = SearchDistance::new(bits) {
            assert_as_scan(rt, chunks, kind, query, within, steps, alloc)?;
        }
    }
    Ok(())
}

// Asks for words that are there, and for words four bits away from them.
fn assert_near_queries<L: Ledger>(
    rt: &impl Abort,
    chunks: &WordChunks,
    kind: Kind,
    steps: &mut Steps<L>,
    alloc: Global,
) -> Result<(), NoMemory> {
    for number in 0u32..6 {
        let word = word_of(kind, number * 117);
        assert_all_as_scan(rt, chunks, kind, word, steps, alloc)?;
        let turned = Hash64(word.0 ^ 0x0010_0000_0100_0201);
        assert_all_as_scan(rt, chunks, kind, turned, steps, alloc)?;
    }
    Ok(())
}

fn assert_kind<L: Ledger>(
    rt: &impl Abort,
    kind: Kind,
    steps: &mut Steps<L>,
    alloc: Global,
) -> Result<(), NoMemory> {
    let mut chunks = WordChunks::new(alloc)?;
    assert_all_as_scan(rt, &chunks, kind, Hash64(7), steps, alloc)?;
    insert_all(rt, &mut chunks, kind, 600)?;
    assert_near_queries(rt, &chunks, kind, steps, alloc)
}

fn assert_kinds<L: Ledger>(
    rt: &(impl Abort + Threads),
    blank: Blank,
    alloc: Global,
) -> Result<(), NoMemory>
    requires name { blank.name ≡ L.name }
    requires parts { blank.parts ≡ L.parts }
    requires some { 0 < L.parts }
{
    let mut steps = Steps::<L>::new(rt, blank);
    for kind in KINDS {
        assert_kind(rt, kind, &mut steps, alloc)?;
    }
    Ok(())
}

#[test]
fn searches_find_what_a_scan_finds(rt: HostRuntime) -> Result<(), Fail> {
    assert_kinds::<Brand>(&rt, Blank::new(1), rt.alloc())?;
    Ok(())
}

fn assert_reads(rt: &impl Abort, chunks: &WordChunks, word: Hash64, reads: &[(u64, u64)]) {
    for (bits, reads) in reads {
        let within = SearchDistance::new(*bits);
        let told = within.map(|within| chunks.reads_of(word, within));
        assert_eq!(rt; told, Some(*reads), "{bits}");
    }
}

fn assert_counts(rt: &impl Abort, chunks: &mut WordChunks) -> Result<(), NoMemory> {
    // A count for each value of at most so many of 16 bits, in each chunk.
    let none = [(0, 4), (3, 4), (4, 68), (8, 548), (12, 2788), (16, 10068)];
    assert_reads(rt, chunks, Hash64(7), &none);
    insert_all(rt, chunks, Kind::OneValue, 600)?;
    // The lowest chunk has all words, and each other one the word itself.
    let own = word_of(Kind::OneValue, 5);
    assert_reads(rt, chunks, own, &[(0, 603 + 3 * 4), (3, 603 + 3 * 4)]);
    // In the lowest chunk no word is near.
    assert_reads(rt, chunks, Hash64(own.0 ^ 1), &[(0, 1 + 3 * 4)]);
    Ok(())
}

#[test]
fn reads_are_told_from_the_counts(rt: HostRuntime) -> Result<(), Fail> {
    let mut chunks = WordChunks::new(rt.alloc())?;
    assert_counts(&rt, &mut chunks)?;
    Ok(())
}
