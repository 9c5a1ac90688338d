ghost use Rattle.std.specs.Prelude.{◌≡◌, ℕ, ◌+◌, ◌<◌, nat_le, length, map, IfOk, Some, slice_get};
ghost use Rattle.std.specs.Option.{option_map};
ghost use Rattle.media_types.specs.Distance.{distance_of};
ghost use Rattle.media_types.specs.Numbered.{is_past};
ghost use Rattle.media_types.specs.declared.limits.TheConstants.{MAX_FILES};
ghost use Rattle.file_records.specs.declared.file_row.FileRow.{FileRow as Row};
ghost use Rattle.media_types.specs.Least.{least};
ghost use Rattle.file_records.specs.Distances.{least_distance, nearer};
ghost use Rattle.file_records.specs.Words.{new_words, next_with, number_of, words_of};

use crate::files::Files;
use media_types::{FileNo, Hash64, HashList, HashNo, NoMemory, Steps, distance};
use std::sync::ledger::Ledger;

/// The hashes of the files. Each distinct one has a number, from 0 in order of first import.
impl Files {
    /// The number of a hash, found as a SHA-256 is.
    pub fn find_hash(&self, word: Hash64) -> Option<HashNo>
        ensures { option_map (λ h. h.0) result ≡ number_of word (words_of self.now.rows) }
    {
        let at = self.words.get_index_of(&word)?;
        Some(HashNo(at as u32))
    }

    /// The least file after a place that has the hash of this number. The place may be any number, or the
    /// front. It counts as one read.
    pub fn files_of<L: Ledger>(
        &self,
        hash: HashNo,
        after: Option<FileNo>,
        steps: &mut Steps<L>,
    ) -> Option<FileNo>
        ensures next { result ≡ next_with hash.0 after self.now.rows }
        ensures steps { steps.new ≡ steps.old + 1 }
    {
        let from = first_past(after);
        match self.holders.range_from((hash.0, from), steps) {
            Some((found, file)) if found == hash.0 => Some(FileNo(file)),
            _ => None,
        }
    }

    /// The distance of two files, 0 to 64: the least over their hashes. None where one of them has none. It
    /// reads both rows.
    pub fn file_distance<L: Ledger>(
        &self,
        f: FileNo,
        g: FileNo,
        steps: &mut Steps<L>,
    ) -> Option<u32>
        requires f_known { f.0 < length self.now.rows }
        requires g_known { g.0 < length self.now.rows }
        ensures distance { (a b : Row) → slice_get self.now.rows f.0 ≡ Some a
            → slice_get self.now.rows g.0 ≡ Some b → result ≡ least_distance a.hashes b.hashes }
        ensures steps { steps.new ≡ steps.old + 2 }
    {
        let f = self.row(f, steps);
        let g = self.row(g, steps);
        let mut least = None;
        for hash in f.hashes.as_slice() {
            least = nearer(least, distance_to(*hash, g.hashes.as_slice()));
        }
        least
    }

    // Those of the hashes that no file has, each once.
    pub(crate) fn new_words(&self, hashes: &[Hash64]) -> Result<HashList, NoMemory>
        ensures { IfOk result (λ words. words ≡ new_words (words_of self.now.rows) hashes.now) }
    {
        let mut words = HashList::new(self.alloc);
        for hash in hashes {
            if self.find_hash(*hash).is_none() && !words.as_slice().contains(hash) {
                words.push(*hash)?;
            }
        }
        Ok(words)
    }
}

// The least number that is past a place, as far as there can be files.
fn first_past(after: Option<FileNo>) -> u32
    ensures { (f : ℕ) → f < MAX_FILES → is_past after f ≡ nat_le result f }
{
    match after {
        None => 0,
        Some(file) => file.0.saturating_add(1),
    }
}

// The least distance of a hash from these, or none where there are none.
fn distance_to(hash: Hash64, others: &[Hash64]) -> Option<u32>
    ensures { result ≡ least (map (distance_of hash) others.now) }
{
    let mut least = None;
    for other in others {
        least = nearer(least, Some(distance(hash, *other)));
    }
    least
}

// The lesser of two distances, of which either may be none.
fn nearer(a: Option<u32>, b: Option<u32>) -> Option<u32>
    ensures { result ≡ nearer a b }
{
    match (a, b) {
        (Some(a), Some(b)) => Some(a.min(b)),
        (Some(a), None) => Some(a),
        (None, b) => b,
    }
}
