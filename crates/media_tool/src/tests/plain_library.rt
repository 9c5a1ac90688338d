//! A library in the plainest way: lists of files and of decisions, and each reply is made anew by going over
//! all files, or all pairs of them.

use crate::tests::decisions::Decision;
use crate::tests::lines::Line;
use crate::tests::plain_fold::PlainFold;
use crate::tests::scripts::{Script, pairs_reply};
use std::alloc::{AllocError, Global};
use std::process::Abort;

const MAX_DISTANCE: u8 = 16;

#[derive(Drop)]
struct PlainFile {
    number: u32,
    sha: u32,
    hashes: Vec<u64>,
    live: bool,
    /// Within which distance it was searched.
    searched: Option<u8>,
}

impl PlainFile {
    // The least distance of a hash to its hashes.
    fn distance_to(&self, hash: u64) -> Option<u32> {
        self.hashes
            .iter()
            .map(|own| (*own ^ hash).count_ones())
            .min()
    }

    // The least distance of the hashes of two files.
    fn distance(&self, other: &PlainFile) -> Option<u32> {
        self.hashes
            .iter()
            .filter_map(|hash| other.distance_to(*hash))
            .min()
    }

    // The distance of two files, where both are live and were searched within it or farther.
    fn near(&self, other: &PlainFile) -> Option<u32> {
        let reach = u32::from(self.searched?.min(other.searched?));
        let distance = self.distance(other)?;
        (self.live && other.live && distance <= reach).then_some(distance)
    }

    fn is_short_of(&self, distance: u8) -> bool {
        match self.searched {
            Some(reach) => reach < distance,
            None => true,
        }
    }

    fn waits(&self, distance: u8) -> bool {
        self.live && !self.hashes.is_empty() && self.is_short_of(distance)
    }

    // The reply to another import of it.
    fn known_reply(&self, alloc: Global) -> Result<String, AllocError> {
        let number = self.number;
        let status = if self.live { 2 } else { 3 };
        format!(in alloc; "{{\"file\":{number},\"status\":{status}}}")
    }
}

#[derive(Clone, Copy)]
struct Recorded {
    number: u32,
    decision: Decision,
    undone: bool,
}

#[derive(Drop)]
pub struct PlainLibrary {
    alloc: Global,
    files: Vec<PlainFile>,
    next_file: u32,
    decisions: Vec<Recorded>,
    next_decision: u32,
    /// Within which distance files are searched.
    distance: u8,
}

impl PlainLibrary {
    pub fn new(alloc: Global) -> PlainLibrary {
        PlainLibrary {
            alloc,
            files: Vec::new(alloc),
            next_file: 0,
            decisions: Vec::new(alloc),
            next_decision: 0,
            distance: 8,
        }
    }

    /// How many files there are.
    pub fn files(&self) -> u32 {
        self.next_file
    }

    /// How many decisions are recorded.
    pub fn decisions(&self) -> u32 {
        self.next_decision
    }

    /// The decisions that aren't undone.
    pub fn standing(&self) -> Result<Vec<u32>, AllocError> {
        self.decisions
            .iter()
            .filter(|row| !row.undone)
            .map(|row| row.number)
            .collect(self.alloc)
    }

    fn refused(&self, why: &str) -> Result<String, AllocError> {
        format!(in self.alloc; "{{\"error\":\"{why}\"}}")
    }

    pub fn import(&mut self, sha: u32, hashes: &[u64]) -> Result<String, AllocError> {
        if let Some(file) = self.files.iter().find(|file| file.sha == sha) {
            return file.known_reply(self.alloc);
        }
        let number = self.next_file;
        self.files.push(PlainFile {
            number,
            sha,
            hashes: Vec::from_slice(self.alloc, hashes)?,
            live: true,
            searched: None,
        })?;
        self.next_file = number.wrapping_add(1);
        format!(in self.alloc; "{{\"file\":{number},\"status\":1}}")
    }

    /// A file becomes live, or deleted.
    pub fn mark(&mut self, number: u32, live: bool) -> Result<String, AllocError> {
        match self.files.get_mut(number as usize) {
            Some(file) => {
                let changed = file.live != live;
                file.live = live;
                format!(in self.alloc; "{{\"changed\":{changed}}}")
            }
            None => self.refused("unknown_file"),
        }
    }

    pub fn decide(&mut self, decision: Decision) -> Result<String, AllocError> {
        if self.next_file <= decision.a || self.next_file <= decision.b {
            return self.refused("unknown_file");
        }
        if decision.a == decision.b {
            return self.refused("same_file");
        }
        let number = self.next_decision;
        self.decisions.push(Recorded {
            number,
            decision,
            undone: false,
        })?;
        self.next_decision = number.wrapping_add(1);
        format!(in self.alloc; "{{\"decision\":{number}}}")
    }

    pub fn undo(&mut self, number: u32) -> Result<String, AllocError> {
        match self.decisions.get_mut(number as usize) {
            Some(row) if !row.undone => {
                row.undone = true;
                format!(in self.alloc; "{{\"undone\":{number}}}")
            }
            Some(_) => self.refused("already_undone"),
            None => self.refused("unknown_decision"),
        }
    }

    // What the standing decisions make of the files.
    fn fold(&self, rt: &impl Abort) -> Result<PlainFold, AllocError> {
        let mut fold = PlainFold::new(self.alloc, self.next_file)?;
        for row in &self.decisions {
            if !row.undone {
                fold.decide(rt, row.decision)?;
            }
        }
        Ok(fold)
    }

    pub fn relations(&self, rt: &impl Abort, file: u32) -> Result<String, AllocError> {
        if self.next_file <= file {
            return self.refused("unknown_file");
        }
        self.fold(rt)?.relations(rt, file)
    }

    // The names and distances of the potential pairs that a file makes with those behind it.
    fn add_pairs(
        &self,
        rt: &impl Abort,
        pairs: &mut Vec<(u32, u32, u32)>,
        fold: &PlainFold,
        file: &PlainFile,
    ) -> Result<(), AllocError> {
        for other in &self.files {
            if file.number < other.number
                && let Some(distance) = file.near(other)
                && let Some((j, k)) = fold.pair_name(rt, file.number, other.number)
            {
                pairs.push((j, k, distance))?;
            }
        }
        Ok(())
    }

    /// All potential pairs, in order, each with its least distance.
    pub fn potential_pairs(&self, rt: &impl Abort) -> Result<Vec<(u32, u32, u32)>, AllocError> {
        let fold = self.fold(rt)?;
        let mut pairs = Vec::new(self.alloc);
        for file in &self.files {
            self.add_pairs(rt, &mut pairs, &fold, file)?;
        }
        pairs.sort()?;
        pairs.dedup_by_key(|pair| (pair.0, pair.1));
        Ok(pairs)
    }

    pub fn page(
        &self,
        rt: &impl Abort,
        place: Option<(u32, u32)>,
        n: u32,
        at_most: u8,
    ) -> Result<String, AllocError> {
        if MAX_DISTANCE < at_most {
            return self.refused("bad_distance");
        }
        if n == 0 {
            return self.refused("bad_number");
        }
        let mut pairs = self.potential_pairs(rt)?;
        pairs.retain(|(j, k, distance)| place < Some((*j, *k)) && *distance <= u32::from(at_most));
        pairs.truncate(n as usize);
        pairs_reply(self.alloc, &pairs)
    }

    pub fn pair_count(&self, rt: &impl Abort, at_most: u8) -> Result<String, AllocError> {
        if MAX_DISTANCE < at_most {
            return self.refused("bad_distance");
        }
        let mut pairs = self.potential_pairs(rt)?;
        pairs.retain(|(_, _, distance)| *distance <= u32::from(at_most));
        let count = pairs.len();
        format!(in self.alloc; "{{\"count\":{count}}}")
    }

    pub fn set_distance(&mut self, distance: u8) -> Result<String, AllocError> {
        if MAX_DISTANCE < distance {
            return self.refused("bad_distance");
        }
        self.distance = distance;
        self.distance_reply()
    }

    fn distance_reply(&self) -> Result<String, AllocError> {
        let distance = self.distance;
        format!(in self.alloc; "{{\"distance\":{distance}}}")
    }

    // The files that are to be searched.
    fn queue(&self) -> Result<Vec<u32>, AllocError> {
        self.files
            .iter()
            .filter(|file| file.waits(self.distance))
            .map(|file| file.number)
            .collect(self.alloc)
    }

    // Searches files that are there.
    fn search(&mut self, named: &[u32], distance: u8) -> Result<String, AllocError> {
        let mut searched = 0_u32;
        for file in self.files.iter_mut() {
            if named.contains(&file.number) && file.is_short_of(distance) {
                file.searched = Some(distance);
                searched = searched.saturating_add(1);
            }
        }
        let left = self.queue()?.len();
        format!(in self.alloc; "{{\"searched\":{searched},\"left\":{left}}}")
    }

    pub fn search_files(&mut self, named: &[u32], distance: u8) -> Result<String, AllocError> {
        if MAX_DISTANCE < distance {
            return self.refused("bad_distance");
        }
        if named.iter().any(|file| self.next_file <= *file) {
            return self.refused("unknown_file");
        }
        self.search(named, distance)
    }

    pub fn search_job(&mut self, n: u32) -> Result<String, AllocError> {
        if n == 0 {
            return self.refused("bad_number");
        }
        let mut named = self.queue()?;
        named.truncate(n as usize);
        self.search(&named, self.distance)
    }

    pub fn queues(&self) -> Result<String, AllocError> {
        let search = self.queue()?.len();
        format!(in self.alloc; "{{\"search\":{search},\"display\":0}}")
    }

    /// Asks for all potential pairs, their counts, all relations, which files are deleted, and what waits.
    pub fn ask_all(&self, rt: &impl Abort, script: &mut Script) -> Result<(), AllocError> {
        script.ask_for_pairs(&self.potential_pairs(rt)?, 7)?;
        self.ask_for_counts(rt, script)?;
        self.ask_for_relations(rt, script)?;
        self.ask_for_marks(script)?;
        script.say(Line::SearchDistance(self.distance), &self.distance_reply()?)?;
        script.say(Line::QUEUES, &self.queues()?)
    }

    fn ask_for_counts(&self, rt: &impl Abort, script: &mut Script) -> Result<(), AllocError> {
        for at_most in 0..=MAX_DISTANCE {
            script.say(Line::PairCount(at_most), &self.pair_count(rt, at_most)?)?;
        }
        Ok(())
    }

    fn ask_for_relations(&self, rt: &impl Abort, script: &mut Script) -> Result<(), AllocError> {
        for file in 0..self.next_file {
            script.say(Line::Relations(file), &self.relations(rt, file)?)?;
        }
        Ok(())
    }

    // An import of a known file tells whether it is deleted.
    fn ask_for_marks(&self, script: &mut Script) -> Result<(), AllocError> {
        for file in &self.files {
            script.say(Line::Import(file.sha), &file.known_reply(self.alloc)?)?;
        }
        Ok(())
    }
}
