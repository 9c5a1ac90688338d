ghost use Rattle.std.specs.Prelude.{◌≡◌, ◌≤◌, ◌+◌, [], All, length, OnOk};
ghost use Rattle.std.specs.Map.{keys_of};
ghost use Rattle.spare_tables.specs.Keys.{value_of};
ghost use Rattle.spare_tables.specs.Order.{pair_cmp};
ghost use Rattle.potential_pairs.specs.Keeping.{AreTallyRows};
ghost use Rattle.potential_pairs.specs.Levels.{IsName};
ghost use Rattle.potential_pairs.specs.Planning.{with_changes, with_value};
ghost use Rattle.potential_pairs.specs.Tallies.{if_any, least_counted};

use crate::distance_map::DistanceMap;
use crate::tally::Tally;
use media_types::{NoMemory, Steps};
use spare_tables::KeyMap;
use std::alloc::Global;
use std::marker::Model;
use std::sync::ledger::Ledger;

/// The tally of each potential pair, by the two kings with the lower first, and the least distance of each.
#[derive(Drop)]
pub struct TallyMap {
    tallies: KeyMap<(u32, u32), Tally>,
    distances: DistanceMap,
}

impl Model for TallyMap {
    ghost use Rattle.std.specs.Prelude.{min};
    ghost use Rattle.potential_pairs.specs.Keeping.{TallyTable, AreTallyRows};

    ghost Value = { TallyTable };

    ghost view = { λ map. record {
      tallies = map.tallies.rows;
      pairs = map.distances.rows;
      spare = min map.tallies.spare map.distances.spare;
    } };

    ghost invariant = { λ map. AreTallyRows map.tallies.rows map.distances.rows };
}

impl TallyMap {
    /// No pairs. It takes no memory yet.
    pub fn new(alloc: Global) -> TallyMap
        ensures tallies { result.tallies ≡ [] }
        ensures pairs { result.pairs ≡ [] }
    {
        TallyMap {
            tallies: KeyMap::new(alloc),
            distances: DistanceMap::new(alloc),
        }
    }

    /// Makes room for so many changes.
    pub fn reserve(&mut self, n: usize) -> Result<(), NoMemory>
        ensures tallies { self.new.tallies ≡ self.old.tallies }
        ensures pairs { self.new.pairs ≡ self.old.pairs }
        ensures ok { OnOk result (n ≤ self.new.spare) }
        ensures spare { self.old.spare ≤ self.new.spare }
    {
        self.tallies.reserve(n)?;
        self.distances.reserve(n)
    }

    /// Sets tallies in the room that was made.
    pub fn set_all(&mut self, changes: &[((u32, u32), Tally)])
        requires room { length changes.now ≤ self.old.spare }
        requires named { All IsName (keys_of changes.now) }
        ensures tallies { self.new.tallies ≡ with_changes if_any changes.now self.old.tallies }
        ensures pairs { self.new.pairs ≡ with_changes least_counted changes.now self.old.pairs }
    {
        for (name, tally) in changes {
            self.set(*name, *tally);
        }
    }

    // Sets the tally of a pair, or takes the pair out where it counts none.
    fn set(&mut self, name: (u32, u32), tally: Tally)
        requires room { 1 ≤ self.old.spare }
        requires named { IsName name }
        ensures tallies { self.new.tallies ≡ with_value self.old.tallies name (if_any tally) }
        ensures pairs { self.new.pairs ≡ with_value self.old.pairs name (least_counted tally) }
        ensures spare { self.old.spare ≤ self.new.spare + 1 }
    {
        set_tally(&mut self.tallies, name, tally.if_any());
        self.distances.set(name, tally.least());
    }

    /// The tally of a pair. It counts as one read.
    pub fn tally_of<L: Ledger>(&self, name: (u32, u32), steps: &mut Steps<L>) -> Option<Tally>
        ensures value { result ≡ value_of pair_cmp self.now.tallies name }
        ensures steps { steps.new ≡ steps.old + 1 }
    {
        self.tallies.get(name, steps)
    }

    /// The least distance of each pair. A caller learns here that they are the least that the tallies count.
    pub fn distances(&self) -> &DistanceMap
        ensures rows { result.now.rows ≡ self.now.pairs }
        ensures kept { AreTallyRows self.now.tallies self.now.pairs }
    {
        &self.distances
    }
}

// Sets the tally of a pair in the room that was made, or takes it out.
fn set_tally(tallies: &mut KeyMap<(u32, u32), Tally>, name: (u32, u32), tally: Option<Tally>)
    requires { 1 ≤ tallies.old.spare }
    ensures rows { tallies.new.rows ≡ with_value tallies.old.rows name tally }
    ensures spare { tallies.old.spare ≤ tallies.new.spare + 1 }
{
    match tally {
        Some(tally) => tallies.insert(name, tally),
        None => tallies.take(name),
    };
}
