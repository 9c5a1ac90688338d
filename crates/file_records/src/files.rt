ghost use Rattle.std.specs.Prelude.{◌≡◌, ◌⊎◌, ℕ, ◌+◌, ◌<◌, ◌≤◌, ◌↔◌, true, [], ◌∷◌, ◌++◌, length, None, Some, IfOk, IfSome, All, Contains, slice_get};
ghost use Rattle.std.specs.Option.{option_map};
ghost use Rattle.indexmap.specs.IndexSet.{spare as index_spare};
ghost use Rattle.media_types.specs.declared.limits.TheConstants.{MAX_FILES, MAX_WORDS};
ghost use Rattle.file_records.specs.Importing.{IsPlannedFor};
ghost use Rattle.file_records.specs.Lookup.{AreDistinct, IsUnknown, file_with};
ghost use Rattle.file_records.specs.Rows.{row_of};
ghost use Rattle.file_records.specs.Words.{AreDistinctWords, has_number, is_among, words_of};

use crate::file_row::FileRow;
use crate::import_plan::ImportPlan;
use indexmap::IndexSet;
use media_types::{FileNo, Hash64, MAX_HASHES, NewFile, NoMemory, Sha, Steps};
use spare_tables::PairSet;
use std::alloc::Global;
use std::marker::Model;
use std::sync::ledger::Ledger;

/// The files of a library, in order of import. No two have the same SHA-256.
///
/// An import is planned first, which makes its room, and then the import itself can't be refused.
///
/// Files are found by a hash table whose seed is fixed: who chooses the SHA-256 values that are imported
/// can make look-ups and imports as slow as a walk over all files.
#[derive(Drop)]
#[derive_where(Debug)]
pub struct Files {
    pub(crate) index: IndexSet<Sha>,
    pub(crate) rows: Vec<FileRow>,
    /// The distinct hashes, by number.
    pub(crate) words: IndexSet<Hash64>,
    /// The number of a hash, and of a file that has it.
    pub(crate) holders: PairSet,
    #[derive_where(skip(Debug))]
    pub(crate) alloc: Global,
}

impl Model for Files {
    ghost use Rattle.std.specs.Prelude.{min, ◌/◌, ◌-◌, vec_len, vec_capacity};
    ghost use Rattle.media_types.specs.declared.limits.TheConstants.{MAX_HASHES};
    ghost use Rattle.spare_tables.specs.Table.{Table};
    ghost use Rattle.file_records.specs.declared.file_row.FileRow.{FileRow as Row};

    ghost Value = { Table Row };

    ghost use Rattle.indexmap.specs.IndexSet.{spare as index_spare};
    ghost use Rattle.file_records.specs.Indexing.{AreHeld, IsSound};

    ghost view = { λ files. record {
      rows = files.rows.items;
      spare = min (min (index_spare files.index) (vec_capacity files.rows - vec_len files.rows))
          (min (index_spare files.words / MAX_HASHES) (files.holders.spare / MAX_HASHES));
    } };

    ghost invariant = { λ files. IsSound files.index.keys files.rows.items
        × AreHeld files.words.keys files.holders.rows files.rows.items };
}

impl Files {
    /// No files, and no room. It takes no memory yet.
    pub fn new(alloc: Global) -> Files
        ensures rows { result.rows ≡ [] }
        ensures spare { result.spare ≡ 0 }
    {
        Files {
            index: IndexSet::new(alloc),
            rows: Vec::new(alloc),
            words: IndexSet::new(alloc),
            holders: PairSet::new(alloc),
            alloc,
        }
    }

    /// The number of files. A caller that sees the rows alone learns here what they all keep to.
    pub fn len(&self) -> u32
        ensures rows { result ≡ length self.now.rows }
        ensures few { result ≤ MAX_FILES }
        ensures distinct { AreDistinct self.now.rows }
    {
        self.rows.len() as u32
    }

    /// The file with this SHA-256, found without a walk over the files, unless the values that are
    /// imported were chosen to make it one.
    pub fn find(&self, sha: &Sha) -> Option<FileNo>
        ensures place { option_map (λ file. file.0) result ≡ file_with sha.now self.now.rows }
        ensures found { IfSome result (λ file.
            option_map (λ row. row.sha) (slice_get self.now.rows file.0) ≡ Some sha.now) }
        ensures missing { (result ≡ None) ↔ IsUnknown sha.now self.now.rows }
    {
        let at = self.index.get_index_of(sha)?;
        Some(FileNo(at as u32))
    }

    /// The row of a file. It counts as one read.
    pub fn row<L: Ledger>(&self, file: FileNo, steps: &mut Steps<L>) -> &FileRow
        requires { file.0 < length self.now.rows }
        ensures row { slice_get self.now.rows file.0 ≡ Some result.now }
        ensures steps { steps.new ≡ steps.old + 1 }
    {
        steps.tick();
        &self.rows[file.0 as usize]
    }

    /// Makes room for the file, and works out the row that it will have and its new words. Where the room
    /// was missing, it may copy each row and word.
    pub fn plan_import(&mut self, file: &NewFile) -> Result<ImportPlan, NoMemory>
        requires unknown { IsUnknown file.now.sha self.old.rows }
        requires few { length self.old.rows < MAX_FILES }
        ensures rows { self.new.rows ≡ self.old.rows }
        ensures row { IfOk result (λ plan. plan.row ≡ row_of file.now) }
        ensures planned { IfOk result (λ plan. IsPlannedFor plan self.new) }
        ensures spare { self.old.spare ≤ self.new.spare }
    {
        let words = self.new_words(file.hashes.as_slice())?;
        let row = FileRow::from(file.copied(self.alloc)?);
        self.index.reserve(1)?;
        self.rows.reserve(1)?;
        self.words.reserve(MAX_HASHES)?;
        self.holders.reserve(MAX_HASHES)?;
        Ok(ImportPlan { row, words })
    }

    /// Gives a plan up. Its room stays for the next one.
    pub fn withdraw(&mut self, plan: ImportPlan)
        ensures rows { self.new.rows ≡ self.old.rows }
        ensures spare { self.old.spare ≤ self.new.spare }
    {
        drop(plan);
    }

    /// Puts the planned file last, in the room that was made, and gives its number. Its new words get the
    /// next numbers. Holders of hashes move within one page of their table.
    pub fn commit_import(&mut self, plan: ImportPlan) -> FileNo
        requires { IsPlannedFor plan self.old }
        ensures rows { self.new.rows ≡ self.old.rows ++ plan.row ∷ [] }
        ensures words { words_of self.new.rows ≡ words_of self.old.rows ++ plan.words }
        ensures number { result.0 ≡ length self.old.rows }
        ensures spare { self.old.spare ≤ self.new.spare + 1 }
    {
        let number = self.rows.len() as u32;
        let _added = self.index.insert(plan.row.sha).unwrap();
        add_words(&mut self.words, plan.words.as_slice());
        add_holders(
            &mut self.holders,
            &self.words,
            number,
            plan.row.hashes.as_slice(),
        );
        self.rows.push_reserved(plan.row);
        FileNo(number)
    }
}

// Gives these words the next numbers, in the room that was made.
fn add_words(words: &mut IndexSet<Hash64>, new: &[Hash64])
    requires distinct { AreDistinctWords (words.old.keys ++ new.now) }
    requires room { length new.now ≤ index_spare words.old }
    ensures words { words.new.keys ≡ words.old.keys ++ new.now }
    ensures spare { index_spare words.old ≤ index_spare words.new + length new.now }
{
    for word in new {
        let _added = words.insert(*word).unwrap();
    }
}

// Notes that the file of this number has these hashes, in the room that was made.
fn add_holders(holders: &mut PairSet, words: &IndexSet<Hash64>, file: u32, hashes: &[Hash64])
    requires known { All (λ hash. is_among words.now.keys hash ≡ true) hashes.now }
    requires few { length words.now.keys ≤ MAX_WORDS }
    requires room { length hashes.now ≤ holders.old.spare }
    ensures holders { (h k : ℕ) → Contains holders.new.rows (h, k)
        ↔ (Contains holders.old.rows (h, k) ⊎ ((k ≡ file) × (has_number words.now.keys h hashes.now ≡ true))) }
    ensures spare { holders.old.spare ≤ holders.new.spare + length hashes.now }
{
    for hash in hashes {
        let number = words.get_index_of(hash).unwrap();
        let _added = holders.insert((number as u32, file));
    }
}
