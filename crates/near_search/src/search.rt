ghost use Rattle.std.specs.Prelude.{◌≡◌, ◌<◌, ◌≤◌, ◌+◌, ◌*◌, ℕ, nat_le, true, false, ◌++◌, length, List, OnOk};
ghost use Rattle.std.specs.Option.{option_map_or};
ghost use Rattle.media_types.specs.declared.numbers.FileNo.{FileNo as File};
ghost use Rattle.file_records.specs.Searching.{is_named, passes, reaches, rising, searched};
ghost use Rattle.file_records.specs.Words.{words_of};
ghost use Rattle.vp_tree.specs.Nodes.{words_in};
ghost use Rattle.near_search.specs.Noting.{IsRise, near_pair, noted_at, noted_near, noted_of, pair_of};
ghost use Rattle.near_search.specs.Work.{holders, met, met_of};

use file_records::Files;
use media_types::{FileNo, Hash64, HashNo, NearList, NoMemory, Steps};
use std::sync::ledger::Ledger;
use vp_tree::Tree;

/// A search of files within a distance. It raises how far the `risen` files are searched, which ascend.
#[derive(Clone, Copy)]
pub struct Search<'a> {
    pub files: &'a Files,
    pub tree: &'a Tree,
    pub risen: &'a [FileNo],
    /// In bits.
    pub distance: u8,
}

impl Search<'_> {
    /// Notes the pairs of a searched file with the files that have a hash near one of its own.
    pub fn note_file<L: Ledger>(
        &self,
        file: FileNo,
        found: &mut NearList,
        steps: &mut Steps<L>,
    ) -> Result<(), NoMemory>
        requires words { words_in self.now.tree.now.rows ≡ words_of self.now.files.now.rows }
        requires risen { IsRise self.now.distance self.now.files.now.rows self.now.risen.now }
        requires file { is_named self.now.risen.now file.0 ≡ true }
        requires known { file.0 < length self.now.files.now.rows }
        ensures found { OnOk result (found.new ≡ found.old ++ noted_of self.now.tree.now.rows
            self.now.files.now.rows self.now.distance self.now.risen.now file) }
        ensures reads { steps.new ≤ steps.old + (1 + 5 * met_of self.now.tree.now.rows
            self.now.files.now.rows self.now.distance file) }
    {
        let row = self.files.row(file, steps);
        for hash in row.hashes.as_slice() {
            self.note_near(file, *hash, found, steps)?;
        }
        Ok(())
    }

    // Notes the pairs of a searched file with the files that have a hash near this one.
    fn note_near<L: Ledger>(
        &self,
        file: FileNo,
        hash: Hash64,
        found: &mut NearList,
        steps: &mut Steps<L>,
    ) -> Result<(), NoMemory>
        requires words { words_in self.now.tree.now.rows ≡ words_of self.now.files.now.rows }
        requires risen { IsRise self.now.distance self.now.files.now.rows self.now.risen.now }
        requires file { is_named self.now.risen.now file.0 ≡ true }
        requires known { file.0 < length self.now.files.now.rows }
        ensures found { OnOk result (found.new ≡ found.old ++ noted_near self.now.tree.now.rows
            self.now.files.now.rows self.now.distance self.now.risen.now file hash) }
        ensures reads { steps.new ≤ steps.old + 5 * met self.now.tree.now.rows
            self.now.files.now.rows self.now.distance hash }
    {
        let hits = self.tree.search(hash, u32::from(self.distance), steps)?;
        for (word, _) in hits.as_slice() {
            self.note_holders(file, *word, found, steps)?;
        }
        Ok(())
    }

    // Notes the pairs of a searched file with the files that have the hash of this number.
    fn note_holders<L: Ledger>(
        &self,
        file: FileNo,
        word: HashNo,
        found: &mut NearList,
        steps: &mut Steps<L>,
    ) -> Result<(), NoMemory>
        requires risen { IsRise self.now.distance self.now.files.now.rows self.now.risen.now }
        requires file { is_named self.now.risen.now file.0 ≡ true }
        requires known { file.0 < length self.now.files.now.rows }
        ensures found { OnOk result (found.new ≡ found.old ++ noted_at self.now.tree.now.rows
            self.now.files.now.rows self.now.distance self.now.risen.now file word.0) }
        ensures reads { steps.new ≤ steps.old + (1 + 4 * holders self.now.files.now.rows word.0) }
    {
        let mut after = None;
        while let Some(other) = self.files.files_of(word, after, steps) {
            if let Some(pair) = self.near_pair(file, other, steps) {
                found.push(pair)?;
            }
            after = Some(other);
        }
        Ok(())
    }

    // The pair of a searched file and another, where they are two and near once the search is done.
    fn near_pair<L: Ledger>(
        &self,
        file: FileNo,
        other: FileNo,
        steps: &mut Steps<L>,
    ) -> Option<(FileNo, FileNo, u8)>
        requires risen { IsRise self.now.distance self.now.files.now.rows self.now.risen.now }
        requires file { is_named self.now.risen.now file.0 ≡ true }
        requires known { file.0 < length self.now.files.now.rows }
        requires other { other.0 < length self.now.files.now.rows }
        ensures pair { result ≡ near_pair (searched self.now.distance self.now.risen.now
            self.now.files.now.rows) file other }
        ensures reads { steps.new ≤ steps.old + 3 }
    {
        if file.0 == other.0 {
            return None;
        }
        let away = self.files.file_distance(file, other, steps)?;
        let reach = self.searched_after(other, steps)?;
        if away > u32::from(reach.min(self.distance)) {
            return None;
        }
        Some(in_order(file, other, away as u8))
    }

    // How far a file is searched once the search is done, in bits.
    fn searched_after<L: Ledger>(&self, file: FileNo, steps: &mut Steps<L>) -> Option<u8>
        requires risen { IsRise self.now.distance self.now.files.now.rows self.now.risen.now }
        requires known { file.0 < length self.now.files.now.rows }
        ensures reaches { (d : ℕ) → passes (reaches d) (searched self.now.distance self.now.risen.now
            self.now.files.now.rows) file.0 ≡ option_map_or (nat_le d) result false }
        ensures reads { steps.new ≤ steps.old + 1 }
    {
        if self.risen.binary_search(&file).is_ok() {
            return Some(self.distance);
        }
        let searched = self.files.row(file, steps).searched?;
        Some(searched.bits())
    }
}

// Two files and their distance, the lower file first.
fn in_order(file: FileNo, other: FileNo, distance: u8) -> (FileNo, FileNo, u8)
    ensures { result ≡ pair_of file other distance }
{
    if file.0 < other.0 {
        (file, other, distance)
    } else {
        (other, file, distance)
    }
}
