//! A search for all that pairs lead to from a tag.

ghost use Rattle.std.specs.Prelude.{◌≡◌, ℕ, ◌<◌, [], ◌==◌, IfOk, OnOk, length, slice_index_or};
ghost use Rattle.std.specs.List.Sorted.{IsNonDecreasingBy};
ghost use Rattle.parent_closure.specs.Ancestors.{is_above};
ghost use Rattle.parent_closure.specs.Reached.{has, with_parents, with_tag};
ghost use Rattle.parent_closure.specs.Sets.{HaveSame};

use media_types::NoMemory;
use spare_tables::KeySet;
use std::alloc::Global;
use std::marker::Model;

/// Whether a list has a tag. It looks at each.
pub fn is_in(list: &[u32], tag: u32) -> bool
    ensures { result ≡ has list.now tag }
{
    for other in list {
        if tag == *other {
            return true;
        }
    }
    false
}

/// Puts a tag last, unless it is there. It looks at each.
pub fn put(list: &mut Vec<u32>, tag: u32) -> Result<(), NoMemory>
    ensures { OnOk result (list.new.items ≡ with_tag list.old.items tag) }
{
    if !is_in(list.as_slice(), tag) {
        list.push(tag)?;
    }
    Ok(())
}

/// The pairs by ascending child.
pub fn by_child(pairs: Vec<(u32, u32)>) -> Vec<(u32, u32)>
    ensures same { HaveSame result.items pairs.items }
    ensures sorted { IsNonDecreasingBy (λ p. p.0) result.items }
{
    let mut sorted = pairs;
    sorted.sort_unstable_by_key(|pair: &(u32, u32)| pair.0);
    sorted
}

// The tags that a search has come to, in this order, each once.
#[derive(Drop)]
struct Found {
    tags: Vec<u32>,
    seen: KeySet<u32>,
}

impl Model for Found {
    ghost use Rattle.std.specs.Prelude.{ℕ, List};
    ghost use Rattle.parent_closure.specs.Reached.{AreSeen};

    ghost Value = { List ℕ };

    ghost view = { λ it. it.tags.items };

    ghost invariant = { λ it. AreSeen it.tags.items it.seen.rows };
}

impl Found {
    fn new(alloc: Global) -> Found
        ensures { result ≡ [] }
    {
        Found {
            tags: Vec::new(alloc),
            seen: KeySet::new(alloc),
        }
    }

    // Puts a tag last, unless it is there.
    fn put(&mut self, tag: u32) -> Result<(), NoMemory>
        ensures { OnOk result (self.new ≡ with_tag self.old tag) }
    {
        self.seen.reserve(1)?;
        self.tags.reserve(1)?;
        if self.seen.insert(tag) {
            self.tags.push_reserved(tag);
        }
        Ok(())
    }

    fn len(&self) -> usize
        ensures { result ≡ length self.now }
    {
        let _seen = &self.seen;
        self.tags.len()
    }

    fn get(&self, at: usize) -> u32
        requires { at < length self.now }
        ensures { result ≡ slice_index_or self.now at 0 }
    {
        let _seen = &self.seen;
        self.tags[at]
    }

    fn into_tags(self) -> Vec<u32>
        ensures { result.items ≡ self }
    {
        self.tags
    }
}

// Puts the parents of a child. It looks at these pairs alone, and at a few to find them.
fn put_parents(found: &mut Found, pairs: &[(u32, u32)], child: u32) -> Result<(), NoMemory>
    requires { IsNonDecreasingBy (λ p. p.0) pairs.now }
    ensures { OnOk result (found.new ≡ with_parents child pairs.now found.old) }
{
    let mut at = pairs.partition_point(|pair: &(u32, u32)| pair.0 < child);
    while at < pairs.len() {
        let pair = pairs[at];
        if pair.0 != child {
            return Ok(());
        }
        found.put(pair.1)?;
        at += 1;
    }
    Ok(())
}

/// The tags to which one or more pairs lead from another, in the order in which they are reached. The pairs
/// ascend by child, and it looks at each once, and at a few for each of these tags.
pub fn reached_from(alloc: Global, pairs: &[(u32, u32)], start: u32) -> Result<Vec<u32>, NoMemory>
    requires { IsNonDecreasingBy (λ p. p.0) pairs.now }
    ensures { IfOk result (λ v. (b : ℕ) → has v.items b ≡ is_above pairs.now start b) }
{
    let mut reached = Found::new(alloc);
    put_parents(&mut reached, pairs, start)?;
    let mut at = 0;
    while at < reached.len() {
        let tag = reached.get(at);
        put_parents(&mut reached, pairs, tag)?;
        at += 1;
    }
    Ok(reached.into_tags())
}
