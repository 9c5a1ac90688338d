//! Sessions of each set of up to five parent pairs over four tags, some of which are siblings, against plain lists.

use crate::tests::plain_tags::PlainTags;
use crate::tests::playing::Manner;
use crate::tests::scripts::Script;
use std::alloc::{AllocError, Global};
use std::process::Abort;
use std::test::Fail;
use std::thread::Threads;

/// A child and its parent, and what the number of a set has where they are in it.
#[derive(Clone, Copy)]
struct Pair(u32, &'static str, &'static str);

impl Pair {
    fn is_in(self, set: u32) -> bool {
        set & self.0 != 0
    }
}

const PAIRS: [Pair; 12] = [
    Pair(1, "a", "b"),
    Pair(2, "b", "c"),
    Pair(4, "c", "d"),
    Pair(8, "d", "a"),
    Pair(16, "a", "c"),
    Pair(32, "b", "d"),
    Pair(64, "c", "a"),
    Pair(128, "d", "b"),
    Pair(256, "b", "a"),
    Pair(512, "c", "b"),
    Pair(1_024, "d", "c"),
    Pair(2_048, "a", "d"),
];

const MOST: usize = 5;

// The sets are numbered below 4,096, and a session goes over so many numbers.
const AT_ONCE: u32 = 64;

/// A session, with the replies of plain lists.
#[derive(Drop)]
struct ParentSets {
    plain: PlainTags,
    script: Script,
    /// The pairs that stand.
    set: u32,
}

impl ParentSets {
    fn new(alloc: Global) -> Result<ParentSets, AllocError> {
        Ok(ParentSets {
            plain: PlainTags::new(alloc)?,
            script: Script::with_files(alloc, 0)?,
            set: 0,
        })
    }

    fn add_siblings(&mut self, siblings: &[(&str, &str)]) -> Result<(), AllocError> {
        for (bad, good) in siblings {
            let reply = self.plain.add_sibling(0, bad, good)?;
            self.script.add_sibling(0, bad, good, &reply)?;
        }
        Ok(())
    }

    fn add(&mut self, Pair(_, child, parent): Pair) -> Result<(), AllocError> {
        let reply = self.plain.add_parent(0, child, parent)?;
        self.script.add_parent(0, child, parent, &reply)
    }

    fn remove(&mut self, Pair(_, child, parent): Pair) -> Result<(), AllocError> {
        let reply = self.plain.remove_parent(0, child, parent)?;
        self.script.remove_parent(0, child, parent, &reply)
    }

    // The pair stands where it is in the set.
    fn change(&mut self, pair: Pair, set: u32) -> Result<(), AllocError> {
        match (pair.is_in(self.set), pair.is_in(set)) {
            (false, true) => self.add(pair),
            (true, false) => self.remove(pair),
            _ => Ok(()),
        }
    }

    // Now the pairs of this set stand.
    fn turn_to(&mut self, set: u32) -> Result<(), AllocError> {
        for pair in PAIRS {
            self.change(pair, set)?;
        }
        self.set = set;
        Ok(())
    }

    // Asks for the ideal tags of all tags, where the set has few pairs.
    fn ask(&mut self, set: u32) -> Result<(), AllocError> {
        if pairs_of(set) > MOST {
            return Ok(());
        }
        self.turn_to(set)?;
        self.plain.ask_all(&mut self.script)
    }
}

fn pairs_of(set: u32) -> usize {
    PAIRS.iter().filter(|pair| pair.is_in(set)).count()
}

// The sets from this number on.
fn assert_sets(
    rt: &(impl Threads + Abort),
    alloc: Global,
    siblings: &[(&str, &str)],
    first: u32,
) -> Result<(), Fail> {
    let mut session = ParentSets::new(alloc)?;
    session.add_siblings(siblings)?;
    for set in first..first.saturating_add(AT_ONCE) {
        session.ask(set)?;
    }
    let shows = format!(in alloc; "{siblings:?}, {AT_ONCE} sets from {first} on")?;
    session.script.assert_answered(rt, Manner::PLAIN, &shows)
}

fn assert_all(
    rt: &(impl Threads + Abort),
    alloc: Global,
    siblings: &[(&str, &str)],
) -> Result<(), Fail> {
    for session in 0..64_u32 {
        assert_sets(rt, alloc, siblings, session.saturating_mul(AT_ONCE))?;
    }
    Ok(())
}

#[test]
fn each_set_of_parents_is_followed(rt: HostRuntime) -> Result<(), Fail> {
    assert_all(&rt, rt.alloc(), &[])
}

#[test]
fn each_set_of_parents_is_followed_from_a_sibling(rt: HostRuntime) -> Result<(), Fail> {
    assert_all(&rt, rt.alloc(), &[("d", "b")])
}

#[test]
fn each_set_of_parents_is_followed_from_siblings_in_a_row(rt: HostRuntime) -> Result<(), Fail> {
    assert_all(&rt, rt.alloc(), &[("d", "b"), ("c", "d")])
}
