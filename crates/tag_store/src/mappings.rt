ghost use Rattle.std.specs.Prelude.{◌≡◌, ◌≤◌, ◌+◌, ℕ, [], length, OnErr, OnOk};
ghost use Rattle.media_types.specs.Numbered.{is_past};
ghost use Rattle.tag_store.specs.Lasts.{is_behind};
ghost use Rattle.tag_store.specs.Mapped.{Ascend, files_of_tag, first_file_past, first_tag_past, is_past_tag, state_of, tags_of_file, with_state};

use crate::last_walk::{TripleMap, first_behind, set_row, walk_lasts};
use crate::walks::{FileWalk, TagWalk};
use media_types::{FileNo, NoMemory, ServiceNo, Steps, TagNo};
use std::alloc::Global;
use std::marker::Model;
use std::sync::ledger::Ledger;
use tag_types::MapState;

/// Which tags are mapped to which files, by service, and in which state. A file's tags and a tag's files are
/// found without a look at any other row.
#[derive(Debug, Drop)]
pub struct Mappings {
    /// By service, tag and file.
    by_tag: TripleMap,
    /// By service, file and tag.
    by_file: TripleMap,
}

impl Model for Mappings {
    ghost use Rattle.std.specs.Prelude.{min};
    ghost use Rattle.spare_tables.specs.Table.{Table};
    ghost use Rattle.tag_store.specs.Mapped.{Row};
    ghost use Rattle.tag_store.specs.Mirrored.{AreMirrored};

    ghost Value = { Table Row };

    ghost view = { λ mappings. record {
      rows = mappings.by_tag.rows;
      spare = min mappings.by_tag.spare mappings.by_file.spare;
    } };

    ghost invariant = { λ mappings. AreMirrored mappings.by_tag.rows mappings.by_file.rows };
}

impl Mappings {
    /// No mappings. It takes no memory yet.
    pub fn new(alloc: Global) -> Mappings
        ensures rows { result.rows ≡ [] }
        ensures spare { result.spare ≡ 0 }
    {
        Mappings {
            by_tag: TripleMap::new(alloc),
            by_file: TripleMap::new(alloc),
        }
    }

    /// Makes room for one more mapping.
    pub fn reserve(&mut self) -> Result<(), NoMemory>
        ensures rows { self.new.rows ≡ self.old.rows }
        ensures ok { OnOk result (1 ≤ self.new.spare) }
        ensures err { OnErr result (self.old.spare ≡ 0) }
        ensures spare { self.old.spare ≤ self.new.spare }
    {
        self.by_tag.reserve(1)?;
        self.by_file.reserve(1)
    }

    /// The number of mappings. A caller learns here that they ascend by service, tag and file.
    pub fn len(&self) -> u64
        ensures rows { result ≡ length self.now.rows }
        ensures sorted { Ascend self.now.rows }
    {
        self.by_tag.len()
    }

    /// Maps a tag to a file in a state, in the room that was made, or takes the mapping out.
    pub fn set(&mut self, s: ServiceNo, t: TagNo, f: FileNo, state: Option<MapState>)
        requires { 1 ≤ self.old.spare }
        ensures rows { self.new.rows ≡ with_state self.old.rows s.0 t.0 f.0 state }
        ensures spare { self.old.spare ≤ self.new.spare + 1 }
    {
        let service = u32::from(s.0);
        set_row(&mut self.by_tag, (service, t.0, f.0), state);
        set_row(&mut self.by_file, (service, f.0, t.0), state);
    }

    /// In which state a tag is mapped to a file, if it is. It counts as one read.
    pub fn state<L: Ledger>(
        &self,
        s: ServiceNo,
        t: TagNo,
        f: FileNo,
        steps: &mut Steps<L>,
    ) -> Option<MapState>
        ensures state { result ≡ state_of self.now.rows s.0 t.0 f.0 }
        ensures steps { steps.new ≡ steps.old + 1 }
    {
        self.by_tag.get((u32::from(s.0), t.0, f.0), steps)
    }

    /// The first tag of a file that comes after a place, which may be any number, with its state. It counts as
    /// two reads at most.
    pub fn of_file<L: Ledger>(
        &self,
        s: ServiceNo,
        f: FileNo,
        after: Option<TagNo>,
        steps: &mut Steps<L>,
    ) -> Option<(TagNo, MapState)>
        ensures first { result ≡ first_tag_past after (tags_of_file self.now.rows s.0 f.0) }
        ensures reads { steps.new ≤ steps.old + 2 }
    {
        let place = place_of_tag(after);
        let (tag, state) = first_behind(&self.by_file, u32::from(s.0), f.0, place, steps)?;
        Some((TagNo(tag), state))
    }

    /// The first file of a tag that comes after a place, which may be any number, with its state. It counts as
    /// two reads at most.
    pub fn of_tag<L: Ledger>(
        &self,
        s: ServiceNo,
        t: TagNo,
        after: Option<FileNo>,
        steps: &mut Steps<L>,
    ) -> Option<(FileNo, MapState)>
        ensures first { result ≡ first_file_past after (files_of_tag self.now.rows s.0 t.0) }
        ensures reads { steps.new ≤ steps.old + 2 }
    {
        let place = place_of_file(after);
        let (file, state) = first_behind(&self.by_tag, u32::from(s.0), t.0, place, steps)?;
        Some((FileNo(file), state))
    }

    /// The tags of a file, ascending, to be read one after the other. Finding the first one counts as one read,
    /// and so does the look at the row behind the last one.
    pub fn walk_file<L: Ledger>(&self, s: ServiceNo, f: FileNo, steps: &mut Steps<L>) -> TagWalk<'_>
        ensures tags { result ≡ tags_of_file self.now.rows s.0 f.0 }
        ensures steps { steps.new ≡ steps.old + 1 }
    {
        TagWalk::new(walk_lasts(&self.by_file, u32::from(s.0), f.0, 0, steps))
    }

    /// The files of a tag, ascending, to be read one after the other. Finding the first one counts as one read,
    /// and so does the look at the row behind the last one.
    pub fn walk_tag<L: Ledger>(&self, s: ServiceNo, t: TagNo, steps: &mut Steps<L>) -> FileWalk<'_>
        ensures files { result ≡ files_of_tag self.now.rows s.0 t.0 }
        ensures steps { steps.new ≡ steps.old + 1 }
    {
        FileWalk::new(walk_lasts(&self.by_tag, u32::from(s.0), t.0, 0, steps))
    }
}

// The number of the place that tags come after.
fn place_of_tag(after: Option<TagNo>) -> Option<u32>
    ensures { (n : ℕ) → is_behind result n ≡ is_past_tag after n }
{
    after.map(|tag| tag.0)
}

// The number of the place that files come after.
fn place_of_file(after: Option<FileNo>) -> Option<u32>
    ensures { (n : ℕ) → is_behind result n ≡ is_past after n }
{
    after.map(|file| file.0)
}
