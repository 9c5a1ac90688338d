ghost use Rattle.std.specs.Prelude.{◌≡◌, ◌+◌, ◌<◌, ◌≤◌, [], length, take, Some, IfOk, OnOk, OnErr, All, slice_get};
ghost use Rattle.std.specs.Option.{option_map};
ghost use Rattle.tag_types.specs.declared.limits.TheConstants.{MAX_TAGS};
ghost use Rattle.tag_types.specs.Cleaning.{IsTag};
ghost use Rattle.tag_store.specs.Numbering.{AreDistinctTexts, HasPlaceFor, is_new_behind, number_behind, number_of, number_or_next, with_tag};

use indexmap::IndexSet;
use media_types::{NoMemory, TagNo};
use std::alloc::Global;
use std::marker::Model;
use tag_types::TagText;

/// The tags of a library by number, in order of first use. None stands twice.
///
/// Room is made first, and then a tag is put in without taking memory. Tags are found by a hash table
/// whose seed is fixed: who chooses the tags can make look-ups as slow as a walk over all of them.
#[derive(Drop)]
#[derive_where(Debug)]
pub struct Tags {
    index: IndexSet<TagText>,
    #[derive_where(skip(Debug))]
    alloc: Global,
}

impl Model for Tags {
    ghost use Rattle.tag_store.specs.Numbering.{Numbered};

    ghost Value = { Numbered };

    ghost use Rattle.indexmap.specs.IndexSet.{spare as index_spare};
    ghost use Rattle.tag_store.specs.TagTexts.{AreTags};

    ghost view = { λ tags. record { texts = tags.index.keys; spare = index_spare tags.index } };

    ghost invariant = { λ tags. AreTags tags.index.keys };
}

impl Tags {
    /// No tags. It takes no memory yet.
    pub fn new(alloc: Global) -> Tags
        ensures { result.texts ≡ [] }
    {
        Tags {
            index: IndexSet::new(alloc),
            alloc,
        }
    }

    /// The number of tags. A caller that sees the texts alone learns here what they all keep to.
    pub fn len(&self) -> u32
        ensures texts { result ≡ length self.now.texts }
        ensures few { result ≤ MAX_TAGS }
        ensures distinct { AreDistinctTexts self.now.texts }
        ensures tags { All IsTag self.now.texts }
    {
        self.index.len() as u32
    }

    /// The number of a tag, where it has one. It is found without a walk over the tags, unless they were
    /// chosen to make it one.
    pub fn find(&self, text: &TagText) -> Option<TagNo>
        ensures { option_map (λ tag. tag.0) result ≡ number_of text.now self.now.texts }
    {
        let at = self.index.get_index_of(text)?;
        Some(TagNo(at as u32))
    }

    /// The text of a tag.
    pub fn text(&self, tag: TagNo) -> &TagText
        requires { tag.0 < length self.now.texts }
        ensures { slice_get self.now.texts tag.0 ≡ Some result.now }
    {
        self.index.get_index(tag.0 as usize).unwrap()
    }

    /// The number that the text has, or would have as the next one.
    pub fn number(&self, text: &TagText) -> TagNo
        ensures { result.0 ≡ number_or_next text.now self.now.texts }
    {
        match self.find(text) {
            Some(tag) => tag,
            None => TagNo(self.len()),
        }
    }

    /// The number that the second text has or would have, once the first is numbered. Nothing changes.
    pub fn number_behind(&self, first: &TagText, second: &TagText) -> TagNo
        ensures { result.0 ≡ number_behind first.now second.now self.now.texts }
    {
        if !self.is_new_behind(first, second) {
            return self.number(second);
        }
        match self.find(first) {
            Some(_) => TagNo(self.len()),
            None => TagNo(self.len() + 1),
        }
    }

    /// Whether the second text has no number, once the first is numbered. Nothing changes.
    pub fn is_new_behind(&self, first: &TagText, second: &TagText) -> bool
        ensures { result ≡ is_new_behind first.now second.now self.now.texts }
    {
        match self.find(second) {
            Some(_) => false,
            None => second != first,
        }
    }

    /// Makes room for this many more tags. Where there was less, it may move each tag.
    pub fn reserve(&mut self, count: usize) -> Result<(), NoMemory>
        ensures texts { self.new.texts ≡ self.old.texts }
        ensures ok { OnOk result (count ≤ self.new.spare) }
        ensures spare { self.old.spare ≤ self.new.spare }
    {
        self.index.reserve(count)?;
        Ok(())
    }

    /// Gives the tag its number: its own where it has one, and the next one else. It takes no memory.
    pub fn insert(&mut self, text: TagText) -> TagNo
        requires room { 1 ≤ self.old.spare }
        requires few { HasPlaceFor text self.old.texts }
        ensures texts { self.new.texts ≡ with_tag self.old.texts text }
        ensures number { result.0 ≡ number_or_next text self.old.texts }
        ensures spare { self.old.spare ≤ self.new.spare + 1 }
    {
        let _bytes = text.as_bytes();
        let (at, _is_new) = self.index.insert_full(text).unwrap();
        TagNo(at as u32)
    }

    /// The number of the tag, which gets the next one where it has none. It takes memory for a tag that is
    /// new alone.
    pub fn intern(&mut self, text: &TagText) -> Result<TagNo, NoMemory>
        requires { HasPlaceFor text.now self.old.texts }
        ensures texts { OnOk result (self.new.texts ≡ with_tag self.old.texts text.now) }
        ensures number { IfOk result (λ tag. tag.0 ≡ number_or_next text.now self.old.texts) }
        ensures err { OnErr result (self.new.texts ≡ self.old.texts) }
    {
        if let Some(tag) = self.find(text) {
            return Ok(tag);
        }
        let copy = text.copied(self.alloc)?;
        self.reserve(1)?;
        Ok(self.insert(copy))
    }

    /// Keeps the first n tags, and takes the others back.
    pub fn withdraw(&mut self, n: u32)
        ensures { self.new.texts ≡ take n self.old.texts }
    {
        self.index.truncate(n as usize);
    }
}
