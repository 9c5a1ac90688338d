ghost use Rattle.std.specs.Prelude.{◌≡◌, ◌==◌, ℕ, ◌<◌, ◌≤◌, [], length, All, IfOk, OnOk, if◌then◌else◌};
ghost use Rattle.std.specs.List.{list_any, range_with_len};
ghost use Rattle.sibling_chains.specs.Ends.{at, end_beside};

use media_types::NoMemory;
use std::alloc::Global;
use std::marker::Model;

/// The end of each tag's chain, for one service. A tag behind the last one is its own.
#[derive(Drop)]
pub struct ChainEnds {
    ends: Vec<u32>,
}

impl Model for ChainEnds {
    ghost use Rattle.std.specs.Prelude.{List, ℕ};

    ghost Value = { List ℕ };

    ghost view = { λ it. it.ends.items };
}

impl ChainEnds {
    /// Each tag is its own. It takes no memory yet.
    pub fn new(alloc: Global) -> ChainEnds
        ensures { result ≡ [] }
    {
        ChainEnds {
            ends: Vec::new(alloc),
        }
    }

    /// Each tag is its own, in a list of so many.
    pub fn own(alloc: Global, tags: u32) -> Result<ChainEnds, NoMemory>
        ensures { IfOk result (λ it. it ≡ range_with_len 0 tags) }
    {
        Ok(ChainEnds {
            ends: (0..tags).collect(alloc)?,
        })
    }

    /// The end of a tag's chain.
    pub fn end(&self, tag: u32) -> u32
        ensures { result ≡ at self.now tag }
    {
        match self.ends.get(tag as usize) {
            Some(end) => *end,
            None => tag,
        }
    }

    /// Makes the list so long at least. It changes no end.
    pub fn grow(&mut self, tags: u32) -> Result<(), NoMemory>
        ensures same { (t : ℕ) → at self.new t ≡ at self.old t }
        ensures ok { OnOk result (tags ≤ length self.new) }
        ensures len { length self.old ≤ length self.new }
    {
        let len = self.ends.len();
        for tag in len..tags as usize {
            self.ends.push(tag as u32)?;
        }
        Ok(())
    }

    /// Puts the ends of some tags in place.
    pub fn put(&mut self, tags: &[u32], ends: &[u32])
        requires known { All (λ t. t < length self.old) tags.now }
        requires len { length ends.now ≡ length tags.now }
        ensures put { (t : ℕ) → at self.new t
            ≡ (if list_any (λ x. x == t) tags.now then end_beside tags.now ends.now t else at self.old t) }
        ensures len { length self.new ≡ length self.old }
    {
        for at in (0..tags.len()).rev() {
            self.ends[tags[at] as usize] = ends[at];
        }
    }
}
