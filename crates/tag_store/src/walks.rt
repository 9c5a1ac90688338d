ghost use Rattle.std.specs.Prelude.{◌≡◌, ◌+◌, ◌∷◌, [], drop, map, slice_get, IfNone, IfSome};
ghost use Rattle.tag_store.specs.Mapped.{numbered_file, numbered_tag};

use crate::last_walk::LastWalk;
use media_types::{FileNo, Steps, TagNo};
use std::marker::Model;
use std::sync::ledger::Ledger;
use tag_types::MapState;

/// Tags of a file that are still to be read, ascending, each with its state.
#[derive(Debug, Drop)]
pub struct TagWalk<'a> {
    walk: LastWalk<'a>,
}

impl<'a> Model for TagWalk<'a> {
    ghost use Rattle.std.specs.Prelude.{List, map};
    ghost use Rattle.media_types.specs.declared.numbers.TagNo.{TagNo};
    ghost use Rattle.tag_types.specs.declared.map_state.MapState.{MapState};
    ghost use Rattle.tag_store.specs.Mapped.{numbered_tag};

    ghost Value = { List (TagNo × MapState) };

    ghost view = { λ it. map numbered_tag it.walk };
}

impl<'a> TagWalk<'a> {
    pub(crate) fn new(walk: LastWalk<'a>) -> TagWalk<'a>
        ensures { result ≡ map numbered_tag walk.entry }
    {
        TagWalk { walk }
    }

    /// The next tag with its state, if there is one. It counts as one read.
    pub fn next<L: Ledger>(&mut self, steps: &mut Steps<L>) -> Option<(TagNo, MapState)>
        ensures first { result ≡ slice_get self.old 0 }
        ensures rest { self.new ≡ drop 1 self.old }
        ensures taken { IfSome result (λ it. self.old ≡ it ∷ self.new) }
        ensures ended { IfNone result (self.old ≡ []) }
        ensures steps { steps.new ≡ steps.old + 1 }
    {
        match self.walk.next(steps) {
            Some((tag, state)) => Some((TagNo(tag), state)),
            None => None,
        }
    }
}

/// Files of a tag that are still to be read, ascending, each with its state.
#[derive(Debug, Drop)]
pub struct FileWalk<'a> {
    walk: LastWalk<'a>,
}

impl<'a> Model for FileWalk<'a> {
    ghost use Rattle.std.specs.Prelude.{List, map};
    ghost use Rattle.media_types.specs.declared.numbers.FileNo.{FileNo};
    ghost use Rattle.tag_types.specs.declared.map_state.MapState.{MapState};
    ghost use Rattle.tag_store.specs.Mapped.{numbered_file};

    ghost Value = { List (FileNo × MapState) };

    ghost view = { λ it. map numbered_file it.walk };
}

impl<'a> FileWalk<'a> {
    pub(crate) fn new(walk: LastWalk<'a>) -> FileWalk<'a>
        ensures { result ≡ map numbered_file walk.entry }
    {
        FileWalk { walk }
    }

    /// The next file with its state, if there is one. It counts as one read.
    pub fn next<L: Ledger>(&mut self, steps: &mut Steps<L>) -> Option<(FileNo, MapState)>
        ensures first { result ≡ slice_get self.old 0 }
        ensures rest { self.new ≡ drop 1 self.old }
        ensures taken { IfSome result (λ it. self.old ≡ it ∷ self.new) }
        ensures ended { IfNone result (self.old ≡ []) }
        ensures steps { steps.new ≡ steps.old + 1 }
    {
        match self.walk.next(steps) {
            Some((file, state)) => Some((FileNo(file), state)),
            None => None,
        }
    }
}
