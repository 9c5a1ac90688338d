ghost use Rattle.std.specs.Prelude.{◌≡◌, ◌+◌, ◌<◌, ◌≤◌, [], ◌∷◌, length, All, IfOk};
ghost use Rattle.file_records.specs.Searching.{is_queued, is_short_of, passes, queue_of, rising, searched, wants_search};

use crate::file_row::FileRow;
use crate::files::Files;
use media_types::{FileList, FileNo, NoMemory, SearchDistance, Steps};
use std::sync::ledger::Ledger;

/// How far the duplicates of the files were searched.
impl Files {
    /// Notes that a file is searched within a distance. The greater of this and the one before stays.
    pub fn set_searched(&mut self, file: FileNo, within: SearchDistance)
        requires { file.0 < length self.old.rows }
        ensures rows { self.new.rows ≡ searched within (file ∷ []) self.old.rows }
        ensures spare { self.old.spare ≤ self.new.spare }
    {
        let row = &mut self.rows[file.0 as usize];
        if is_short_of(row, within) {
            row.searched = Some(within);
        }
    }

    /// Those of the named files whose searched distance a search raises, each once, ascending. Each named
    /// file is a read.
    pub fn rising<L: Ledger>(
        &self,
        named: &[FileNo],
        within: SearchDistance,
        steps: &mut Steps<L>,
    ) -> Result<FileList, NoMemory>
        requires { All (λ f. f.0 < length self.now.rows) named.now }
        ensures files { IfOk result (λ files. files ≡ rising within named.now self.now.rows) }
        ensures few { IfOk result (λ files. length files ≤ length named.now) }
        ensures reads { steps.new ≤ steps.old + length named.now }
    {
        let mut files = Vec::from_slice(self.alloc, named)?;
        files.sort_unstable();
        let mut found = FileList::new(self.alloc);
        for file in files.as_slice() {
            steps.tick();
            let last = found.as_slice().last().copied();
            if last != Some(*file) && is_short_of(&self.rows[file.0 as usize], within) {
                found.push(*file)?;
            }
        }
        Ok(found)
    }

    /// Whether a file is to be searched within a distance. It counts as one read.
    pub fn is_queued<L: Ledger>(
        &self,
        file: FileNo,
        within: SearchDistance,
        steps: &mut Steps<L>,
    ) -> bool
        requires { file.0 < length self.now.rows }
        ensures queued { result ≡ passes (is_queued within) self.now.rows file.0 }
        ensures steps { steps.new ≡ steps.old + 1 }
    {
        is_queued(self.row(file, steps), within)
    }

    /// Whether a file is to be searched within a distance while it is live. It counts as one read.
    pub fn wants_search<L: Ledger>(
        &self,
        file: FileNo,
        within: SearchDistance,
        steps: &mut Steps<L>,
    ) -> bool
        requires { file.0 < length self.now.rows }
        ensures wants { result ≡ passes (wants_search within) self.now.rows file.0 }
        ensures steps { steps.new ≡ steps.old + 1 }
    {
        wants_search(self.row(file, steps), within)
    }

    /// The files that are to be searched within a distance, ascending. It reads every row.
    pub fn queue<L: Ledger>(
        &self,
        within: SearchDistance,
        steps: &mut Steps<L>,
    ) -> Result<FileList, NoMemory>
        ensures files { IfOk result (λ files. files ≡ queue_of within self.now.rows) }
        ensures reads { steps.new ≤ steps.old + length self.now.rows }
    {
        let mut queue = FileList::new(self.alloc);
        for number in 0..self.rows.len() {
            steps.tick();
            if is_queued(&self.rows[number], within) {
                queue.push(FileNo(number as u32))?;
            }
        }
        Ok(queue)
    }
}

// Whether the file was searched within less, or never.
fn is_short_of(row: &FileRow, within: SearchDistance) -> bool
    ensures { result ≡ is_short_of within row.now }
{
    match row.searched {
        Some(searched) => searched < within,
        None => true,
    }
}

// Whether it has a hash, and wasn't searched far enough.
fn wants_search(row: &FileRow, within: SearchDistance) -> bool
    ensures { result ≡ wants_search within row.now }
{
    !row.hashes.as_slice().is_empty() && is_short_of(row, within)
}

// Whether it is a live file that wants a search.
fn is_queued(row: &FileRow, within: SearchDistance) -> bool
    ensures { result ≡ is_queued within row.now }
{
    row.live && wants_search(row, within)
}
