//! Sessions of many near files against a plain filter over all pairs of them.

ghost use Rattle.std.specs.Prelude.{◌<◌};
ghost use Rattle.media_tool.specs.declared.tests.near_files.TheConstants.{FILES};

use crate::tests::chance::Chance;
use crate::tests::lines::Line;
use crate::tests::playing::Manner;
use crate::tests::scripts::Script;
use std::alloc::{AllocError, Global};
use std::process::Abort;
use std::test::Fail;
use std::thread::Threads;

const FILES: u32 = 300;

const PAGE: u32 = 1_000;

/// A file of a session, which is alone in its group.
#[derive(Clone, Copy)]
struct Known {
    word: u64,
    /// Within which distance it was searched.
    reach: Option<u8>,
}

impl Known {
    // The distance of two files, where both were searched within it or farther.
    fn near(&self, other: &Known) -> Option<u32> {
        let distance = (self.word ^ other.word).count_ones();
        let reach = u32::from(self.reach?.min(other.reach?));
        (distance <= reach).then_some(distance)
    }

    // Whether it waits to be searched within 8.
    fn waits(&self) -> bool {
        match self.reach {
            Some(reach) => reach < 8,
            None => true,
        }
    }
}

// Words that are one of eight with up to nine of its bits turned.
fn known_files(alloc: Global) -> Result<Vec<Known>, AllocError> {
    let mut chance = Chance::new(300);
    let mut files = Vec::with_capacity(alloc, FILES as usize)?;
    for file in 0..FILES {
        let word = chance.near(u64::from(file % 8).wrapping_mul(0x9e37_79b9_7f4a_7c15));
        files.push(Known { word, reach: None })?;
    }
    Ok(files)
}

// The near pairs of a file and those behind it.
fn add_pairs(
    pairs: &mut Vec<(u32, u32, u32)>,
    number: u32,
    file: &Known,
    files: &[Known],
) -> Result<(), AllocError> {
    for (other, known) in (0..FILES).zip(files) {
        if number < other
            && let Some(distance) = file.near(known)
        {
            pairs.push((number, other, distance))?;
        }
    }
    Ok(())
}

// The near pairs of all files, in order.
fn near_pairs(alloc: Global, files: &[Known]) -> Result<Vec<(u32, u32, u32)>, AllocError> {
    let mut pairs = Vec::new(alloc);
    for (number, file) in (0..FILES).zip(files) {
        add_pairs(&mut pairs, number, file, files)?;
    }
    Ok(pairs)
}

/// In which order the files are searched.
#[derive(Clone, Copy, Debug)]
enum Order {
    Ascending,
    Descending,
    /// Each seventh, round and round.
    Strided,
}

impl Order {
    fn file(self, turn: u32) -> u32
        requires { turn < FILES }
        ensures { result < FILES }
    {
        match self {
            Order::Ascending => turn,
            Order::Descending => FILES - 1 - turn,
            Order::Strided => turn * 7 % FILES,
        }
    }
}

// A session that imports these files.
fn imported(alloc: Global, files: &[Known]) -> Result<Script, AllocError> {
    let mut script = Script::with_files(alloc, 0)?;
    for (number, file) in (0..FILES).zip(files) {
        let reply = format!(in alloc; "{{\"file\":{number},\"status\":1}}")?;
        script.say(Line::Hashed(number, file.word), &reply)?;
    }
    Ok(script)
}

/// A session of near files, which are searched one after the other.
#[derive(Drop)]
struct NearSession {
    alloc: Global,
    files: Vec<Known>,
    script: Script,
}

impl NearSession {
    fn new(alloc: Global) -> Result<NearSession, AllocError> {
        let files = known_files(alloc)?;
        let script = imported(alloc, &files)?;
        Ok(NearSession {
            alloc,
            files,
            script,
        })
    }

    // Searches a file.
    fn search(&mut self, number: u32, reach: u8) -> Result<(), AllocError> {
        if let Some(file) = self.files.get_mut(number as usize) {
            file.reach = Some(reach);
        }
        let left = self.files.iter().filter(|file| file.waits()).count();
        let reply = format!(in self.alloc; "{{\"searched\":1,\"left\":{left}}}")?;
        self.script.say(Line::Search(number, reach), &reply)
    }

    fn ask_for_pairs(&mut self) -> Result<(), AllocError> {
        let pairs = near_pairs(self.alloc, &self.files)?;
        self.script.ask_for_pairs(&pairs, PAGE)
    }

    // Searches all files within the distance, and every third one within 3 more. The pairs are asked for
    // once half of the files are searched, and at the end.
    fn search_all(&mut self, order: Order, distance: u8) -> Result<(), AllocError> {
        for turn in 0..FILES {
            let number = order.file(turn);
            let more = if number % 3 == 0 { 3 } else { 0 };
            self.search(number, distance.saturating_add(more))?;
            if turn == FILES / 2 {
                self.ask_for_pairs()?;
            }
        }
        self.ask_for_pairs()
    }
}

fn assert_searched(
    rt: &(impl Threads + Abort),
    alloc: Global,
    order: Order,
    distance: u8,
) -> Result<(), Fail> {
    let mut session = NearSession::new(alloc)?;
    session.search_all(order, distance)?;
    let shows = format!(in alloc; "{order:?} within {distance}")?;
    session.script.assert_answered(rt, Manner::PLAIN, &shows)
}

#[test]
fn files_searched_as_they_came_pair_as_a_filter_says(rt: HostRuntime) -> Result<(), Fail> {
    for distance in [4, 8, 13] {
        assert_searched(&rt, rt.alloc(), Order::Ascending, distance)?;
    }
    Ok(())
}

#[test]
fn files_searched_backwards_pair_as_a_filter_says(rt: HostRuntime) -> Result<(), Fail> {
    for distance in [4, 8, 13] {
        assert_searched(&rt, rt.alloc(), Order::Descending, distance)?;
    }
    Ok(())
}

#[test]
fn files_searched_in_strides_pair_as_a_filter_says(rt: HostRuntime) -> Result<(), Fail> {
    for distance in [4, 8, 13] {
        assert_searched(&rt, rt.alloc(), Order::Strided, distance)?;
    }
    Ok(())
}
