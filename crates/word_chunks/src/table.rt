ghost use Rattle.std.specs.Prelude.{ℕ, ◌≡◌, ◌+◌, ◌<◌, ◌≤◌, ◌^◌, ◌==◌, if◌then◌else◌, [], ◌∷◌, ◌++◌, flat_map, length, IfOk, OnOk};
ghost use Rattle.media_types.specs.declared.limits.TheConstants.{MAX_WORDS};
ghost use Rattle.spare_tables.specs.Firsts.{of_first};
ghost use Rattle.word_chunks.specs.Chunks.{chunk};
ghost use Rattle.word_chunks.specs.Reading.{reads_at, reads_in};
ghost use Rattle.word_chunks.specs.Rows.{words_in};
ghost use Rattle.word_chunks.specs.Telling.{told, told_in};

use crate::chunk::chunk_of;
use crate::query::Query;
use media_types::{Hash64, HashNo, NoMemory, Steps};
use spare_tables::KeyMap;
use std::alloc::Global;
use std::marker::Model;
use std::sync::ledger::Ledger;

/// Words by the value of one chunk and their number, with the number of words of each value.
#[derive(Drop)]
pub struct ChunkTable {
    rows: KeyMap<(u32, u32), Hash64>,
    counts: Vec<u32>,
}

impl Model for ChunkTable {
    ghost use Rattle.std.specs.Prelude.{ℕ};
    ghost use Rattle.media_types.specs.declared.hash.Hash64.{Hash64 as Word};
    ghost use Rattle.spare_tables.specs.Table.{Table};
    ghost use Rattle.word_chunks.specs.Rows.{IsCounted};

    ghost Value = { Table ((ℕ × ℕ) × Word) };

    ghost view = { λ table. table.rows };

    ghost invariant = { λ table. IsCounted table.rows.rows table.counts.items };
}

impl ChunkTable {
    /// The table of no words. It takes the memory of the counts.
    pub fn new(alloc: Global) -> Result<ChunkTable, NoMemory>
        ensures { IfOk result (λ table. table.rows ≡ []) }
    {
        Ok(ChunkTable {
            rows: KeyMap::new(alloc),
            counts: Vec::from_elem(alloc, 0, 65536)?,
        })
    }

    /// Makes room for so many more words.
    pub fn reserve(&mut self, n: usize) -> Result<(), NoMemory>
        ensures rows { self.new.rows ≡ self.old.rows }
        ensures ok { OnOk result (n ≤ self.new.spare) }
        ensures spare { self.old.spare ≤ self.new.spare }
    {
        self.rows.reserve(n)
    }

    /// The number of words.
    pub fn len(&self) -> u64
        ensures { result ≡ length self.now.rows }
    {
        self.rows.len()
    }

    /// Puts a word behind the others of its value, under the next number, in the room that was made.
    pub fn insert(&mut self, value: u16, word: Hash64)
        requires room { 1 ≤ self.old.spare }
        requires few { length self.old.rows < MAX_WORDS }
        ensures len { length self.new.rows ≡ length self.old.rows + 1 }
        ensures values { (v : ℕ) → of_first v self.new.rows ≡ of_first v self.old.rows
            ++ (if value == v then ((value, length self.old.rows), word) ∷ [] else []) }
        ensures words { words_in self.new.rows ≡ words_in self.old.rows ++ word ∷ [] }
        ensures spare { self.old.spare ≤ self.new.spare + 1 }
    {
        let number = self.rows.len() as u32;
        self.rows.insert((u32::from(value), number), word);
        self.counts[value as usize] += 1;
    }

    /// Tells the words of all values near the query's.
    pub fn tell_all<L: Ledger>(
        &self,
        masks: &[u16],
        query: Query,
        hits: &mut Vec<(HashNo, u32)>,
        steps: &mut Steps<L>,
    ) -> Result<(), NoMemory>
        requires { query.chunk < 4 }
        ensures hits { OnOk result (hits.new.items ≡ hits.old.items
            ++ told_in query.chunk query.word query.within (λ v. of_first v self.now.rows) masks.now) }
        ensures steps { OnOk result (steps.new ≡ steps.old
            + reads_in query.chunk query.word (λ v. of_first v self.now.rows) masks.now) }
        ensures at_most { steps.new ≤ steps.old
            + reads_in query.chunk query.word (λ v. of_first v self.now.rows) masks.now }
    {
        let own = chunk_of(query.word, query.chunk);
        for mask in masks {
            self.tell(own ^ *mask, query, hits, steps)?;
        }
        Ok(())
    }

    /// Tells the words of a value.
    fn tell<L: Ledger>(
        &self,
        value: u16,
        query: Query,
        hits: &mut Vec<(HashNo, u32)>,
        steps: &mut Steps<L>,
    ) -> Result<(), NoMemory>
        requires { query.chunk < 4 }
        ensures hits { OnOk result (hits.new.items ≡ hits.old.items
            ++ flat_map (told query.chunk query.word query.within) (of_first value self.now.rows)) }
        ensures steps { OnOk result (steps.new
            ≡ steps.old + reads_at (length (of_first value self.now.rows))) }
        ensures at_most { steps.new ≤ steps.old + reads_at (length (of_first value self.now.rows)) }
    {
        steps.tick();
        if self.count(value) == 0 {
            return Ok(());
        }
        let mut walk = self.rows.walk_first(u32::from(value), steps);
        while let Some(((_, number), word)) = walk.next(steps) {
            query.tell(number, word, hits)?;
        }
        Ok(())
    }

    /// The number of words of a value.
    fn count(&self, value: u16) -> u32
        ensures { result ≡ length (of_first value self.now.rows) }
    {
        self.counts[value as usize]
    }

    /// What a search of all values near the query's would read.
    pub fn reads_in(&self, masks: &[u16], query: Query) -> u64
        requires chunk { query.chunk < 4 }
        requires few { length masks.now ≤ 65536 }
        ensures value { result ≡ reads_in query.chunk query.word (λ v. of_first v self.now.rows) masks.now }
        ensures small { result ≤ 2 ^ 49 }
    {
        let own = chunk_of(query.word, query.chunk);
        let mut reads = 0;
        for mask in masks {
            reads += self.reads_at(own ^ *mask);
        }
        reads
    }

    /// What a search of a value would read.
    fn reads_at(&self, value: u16) -> u64
        ensures value { result ≡ reads_at (length (of_first value self.now.rows)) }
        ensures small { result < 2 ^ 33 }
    {
        match self.count(value) {
            0 => 1,
            words => u64::from(words) + 3,
        }
    }
}
