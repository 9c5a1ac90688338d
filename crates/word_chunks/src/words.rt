ghost use Rattle.std.specs.Prelude.{◌≡◌, ◌+◌, ◌<◌, ◌≤◌, [], ◌∷◌, ◌++◌, length, IfOk, OnOk};
ghost use Rattle.media_types.specs.declared.limits.TheConstants.{MAX_WORDS};
ghost use Rattle.word_chunks.specs.Reading.{reads};
ghost use Rattle.word_chunks.specs.Searching.{filter_of};

use crate::chunk::chunk_of;
use crate::masks::Masks;
use crate::query::Query;
use crate::table::ChunkTable;
use media_types::{Hash64, HashNo, Listed, NoMemory, SearchDistance, Steps};
use std::alloc::Global;
use std::marker::Model;
use std::sync::ledger::Ledger;

/// Numbers of words with their distances from a query, ascending by number.
pub type HitList = Listed<(HashNo, u32)>;

/// Words by their chunks. Each is named by its number: its place in the order in which they were inserted.
///
/// A word takes 64 bytes, and up to twice that where pages aren't full. Contracts see the list of the words, and
/// the room for more.
#[derive(Drop)]
pub struct WordChunks {
    masks: Masks,
    first: ChunkTable,
    second: ChunkTable,
    third: ChunkTable,
    fourth: ChunkTable,
}

impl Model for WordChunks {
    ghost use Rattle.std.specs.Prelude.{min};
    ghost use Rattle.media_types.specs.declared.hash.Hash64.{Hash64 as Word};
    ghost use Rattle.spare_tables.specs.Table.{Table};
    ghost use Rattle.word_chunks.specs.Chunked.{IsChunked};
    ghost use Rattle.word_chunks.specs.Rows.{words_in};

    ghost Value = { Table Word };

    ghost view = { λ it. record {
      rows = words_in it.first.rows;
      spare = min (min it.first.spare it.second.spare) (min it.third.spare it.fourth.spare);
    } };

    ghost invariant = { λ it. IsChunked it.first.rows it.second.rows it.third.rows it.fourth.rows };
}

impl WordChunks {
    /// No words. It takes the memory of the counts, 1 MiB, and of the masks.
    pub fn new(alloc: Global) -> Result<WordChunks, NoMemory>
        ensures { IfOk result (λ it. it.rows ≡ []) }
    {
        Ok(WordChunks {
            masks: Masks::new(alloc)?,
            first: ChunkTable::new(alloc)?,
            second: ChunkTable::new(alloc)?,
            third: ChunkTable::new(alloc)?,
            fourth: ChunkTable::new(alloc)?,
        })
    }

    /// The number of words, at most `MAX_WORDS`.
    pub fn len(&self) -> u32
        ensures len { result ≡ length self.now.rows }
        ensures few { result ≤ MAX_WORDS }
    {
        self.first.len() as u32
    }

    /// Makes room for so many more words. It changes nothing else.
    pub fn reserve(&mut self, n: usize) -> Result<(), NoMemory>
        ensures rows { self.new.rows ≡ self.old.rows }
        ensures ok { OnOk result (n ≤ self.new.spare) }
        ensures spare { self.old.spare ≤ self.new.spare }
    {
        self.first.reserve(n)?;
        self.second.reserve(n)?;
        self.third.reserve(n)?;
        self.fourth.reserve(n)
    }

    /// Puts a word last, in the room that was made, and gives it its number. In each chunk it moves the later
    /// rows of a page by a place.
    pub fn insert(&mut self, word: Hash64) -> HashNo
        requires room { 1 ≤ self.old.spare }
        requires few { length self.old.rows < MAX_WORDS }
        ensures rows { self.new.rows ≡ self.old.rows ++ word ∷ [] }
        ensures number { result.0 ≡ length self.old.rows }
        ensures spare { self.old.spare ≤ self.new.spare + 1 }
    {
        let number = self.len();
        self.first.insert(chunk_of(word, 0), word);
        self.second.insert(chunk_of(word, 1), word);
        self.third.insert(chunk_of(word, 2), word);
        self.fourth.insert(chunk_of(word, 3), word);
        HashNo(number)
    }

    /// The words within a distance of the query.
    ///
    /// In each chunk it reads the words of the values within a quarter of the distance of the query's: few where
    /// the distance is small and the words are mixed, and all of them where they share their chunks.
    pub fn search<L: Ledger>(
        &self,
        alloc: Global,
        word: Hash64,
        distance: SearchDistance,
        steps: &mut Steps<L>,
    ) -> Result<HitList, NoMemory>
        ensures found { IfOk result (λ hits. hits ≡ filter_of self.now.rows word distance) }
        ensures reads { OnOk result (steps.new ≡ steps.old + reads self.now.rows word distance) }
        ensures at_most { steps.new ≤ steps.old + reads self.now.rows word distance }
    {
        let mut hits = Vec::new(alloc);
        let masks = self.masks.within(distance.bits() / 4);
        let query = Query {
            word,
            within: u32::from(distance.bits()),
            chunk: 0,
        };
        self.first.tell_all(masks, query, &mut hits, steps)?;
        let query = Query { chunk: 1, ..query };
        self.second.tell_all(masks, query, &mut hits, steps)?;
        let query = Query { chunk: 2, ..query };
        self.third.tell_all(masks, query, &mut hits, steps)?;
        let query = Query { chunk: 3, ..query };
        self.fourth.tell_all(masks, query, &mut hits, steps)?;
        hits.sort_unstable_by_key(|hit: &(HashNo, u32)| hit.0.0);
        Ok(Listed::from_rows(hits))
    }

    /// What a search would read, from the counts alone: it reads no word. It looks at 4, 68, 548, 2,788 or 10,068
    /// counts where a quarter of the distance is 0 to 4.
    pub fn reads_of(&self, word: Hash64, distance: SearchDistance) -> u64
        ensures { result ≡ reads self.now.rows word distance }
    {
        let masks = self.masks.within(distance.bits() / 4);
        let query = Query {
            word,
            within: u32::from(distance.bits()),
            chunk: 0,
        };
        let first = self.first.reads_in(masks, query);
        let second = self.second.reads_in(masks, Query { chunk: 1, ..query });
        let third = self.third.reads_in(masks, Query { chunk: 2, ..query });
        let fourth = self.fourth.reads_in(masks, Query { chunk: 3, ..query });
        first + second + third + fourth
    }
}
