ghost use Rattle.std.specs.Prelude.{◌≡◌, ◌<◌, ◌≤◌, ◌+◌, ◌^◌, ◌↔◌, ◌⊎◌, ℕ, true, false, [], length, map, slice_index, Contains, IfOk, IfSome, OnOk};
ghost use Rattle.spare_tables.specs.Keys.{value_of};
ghost use Rattle.spare_tables.specs.Order.{pair_cmp};
ghost use Rattle.spare_tables.specs.Pairs.{IsBefore};
ghost use Rattle.potential_pairs.specs.Levels.{AreHeads, IsDistance, IsFirstBehind, IsLevelOf, IsName, one_at};
ghost use Rattle.potential_pairs.specs.Pages.{is_behind, named, page_of, within};
ghost use Rattle.potential_pairs.specs.Planning.{with_value};

use crate::heads::{Heads, LEVELS, least_head, levels_within};
use media_types::{FileNo, NoMemory, PairList, Steps};
use spare_tables::{KeyMap, TripleSet};
use std::alloc::Global;
use std::marker::Model;
use std::sync::ledger::Ledger;

/// A distance for each of its pairs of kings, in their order, which tells the pairs of one distance in their
/// order too.
#[derive(Drop)]
pub struct DistanceMap {
    distances: KeyMap<(u32, u32), u8>,
    /// Each pair behind its distance.
    levels: TripleSet,
    /// How many pairs each distance has.
    counts: [u64; LEVELS],
}

impl Model for DistanceMap {
    ghost use Rattle.std.specs.Prelude.{min};
    ghost use Rattle.spare_tables.specs.Table.{Table};
    ghost use Rattle.potential_pairs.specs.Levels.{AreInStep};
    ghost use Rattle.potential_pairs.specs.Potential.{Row};

    ghost Value = { Table Row };

    ghost view = { λ map. record {
      rows = map.distances.rows;
      spare = min map.distances.spare map.levels.spare;
    } };

    ghost invariant = { λ map. AreInStep map.distances.rows map.levels.rows map.counts };
}

impl DistanceMap {
    /// No pairs. It takes no memory yet.
    pub fn new(alloc: Global) -> DistanceMap
        ensures { result.rows ≡ [] }
    {
        DistanceMap {
            distances: KeyMap::new(alloc),
            levels: TripleSet::new(alloc),
            counts: [0; LEVELS],
        }
    }

    /// Makes room for so many changes.
    pub fn reserve(&mut self, n: usize) -> Result<(), NoMemory>
        ensures rows { self.new.rows ≡ self.old.rows }
        ensures ok { OnOk result (n ≤ self.new.spare) }
        ensures spare { self.old.spare ≤ self.new.spare }
    {
        self.distances.reserve(n)?;
        self.levels.reserve(n)
    }

    /// Sets the distance of a pair in the room that was made, or takes the pair out.
    pub fn set(&mut self, name: (u32, u32), distance: Option<u8>)
        requires room { 1 ≤ self.old.spare }
        requires named { IsName name }
        requires shallow { IfSome distance IsDistance }
        ensures rows { self.new.rows ≡ with_value self.old.rows name distance }
        ensures spare { self.old.spare ≤ self.new.spare + 1 }
    {
        let old = set_distance(&mut self.distances, name, distance);
        // No distance has more pairs than there are.
        let _pairs = self.distances.len();
        leave_level(&mut self.levels, &mut self.counts, name, old);
        enter_level(&mut self.levels, &mut self.counts, name, distance);
    }

    /// The distance of a pair.
    pub fn get<L: Ledger>(&self, name: (u32, u32), steps: &mut Steps<L>) -> Option<u8>
        ensures value { result ≡ value_of pair_cmp self.now.rows name }
        ensures steps { steps.new ≡ steps.old + 1 }
    {
        self.distances.get(name, steps)
    }

    /// The number of pairs within a distance.
    pub fn count(&self, at_most: u8) -> u64
        ensures { result ≡ length (within at_most self.now.rows) }
    {
        let _pairs = self.distances.len();
        let mut pairs = 0;
        for distance in 0..levels_within(at_most) {
            pairs += self.counts[distance as usize];
        }
        pairs
    }

    /// The first pairs, at most so many, within a distance after a place.
    pub fn page<L: Ledger>(
        &self,
        alloc: Global,
        after: Option<(FileNo, FileNo)>,
        n: u32,
        at_most: u8,
        steps: &mut Steps<L>,
    ) -> Result<PairList, NoMemory>
        ensures page { IfOk result (λ page. page ≡ map named (page_of after n at_most self.now.rows)) }
        ensures reads { steps.new ≤ steps.old + (n + 17) }
    {
        let _ = &self.distances;
        let mut page = PairList::new(alloc);
        let mut heads = self.heads(after, at_most, steps);
        for _turn in 0..n {
            let Some((level, (j, k))) = least_head(heads.as_slice()) else {
                return Ok(page);
            };
            let distance = level as u8;
            page.push((FileNo(j), FileNo(k), distance))?;
            let place = Some((FileNo(j), FileNo(k)));
            heads[level] = self.first_behind(distance, place, steps);
        }
        Ok(page)
    }

    // The first pair of each distance that comes after a place, for the distances within one.
    fn heads<L: Ledger>(
        &self,
        place: Option<(FileNo, FileNo)>,
        at_most: u8,
        steps: &mut Steps<L>,
    ) -> Heads
        ensures heads { AreHeads self.now.rows at_most place result }
        ensures reads { steps.new ≤ steps.old + 17 }
    {
        let mut heads = [None; LEVELS];
        for distance in 0..levels_within(at_most) {
            heads[distance as usize] = self.first_behind(distance, place, steps);
        }
        heads
    }

    // The first pair of a distance that comes after a place.
    fn first_behind<L: Ledger>(
        &self,
        distance: u8,
        place: Option<(FileNo, FileNo)>,
        steps: &mut Steps<L>,
    ) -> Option<(u32, u32)>
        ensures first { IsFirstBehind self.now.rows distance place result }
        ensures steps { steps.new ≡ steps.old + 1 }
    {
        let distance = u32::from(distance);
        let (j, k) = start_behind(place);
        match self.levels.range_from((distance, j, k), steps) {
            Some((found, j, k)) if found == distance => Some((j, k)),
            _ => None,
        }
    }
}

// Sets the distance of a pair, or takes the pair out, and gives the distance that it had.
fn set_distance(
    distances: &mut KeyMap<(u32, u32), u8>,
    name: (u32, u32),
    distance: Option<u8>,
) -> Option<u8>
    requires { 1 ≤ distances.old.spare }
    ensures old { result ≡ value_of pair_cmp distances.old.rows name }
    ensures rows { distances.new.rows ≡ with_value distances.old.rows name distance }
    ensures spare { distances.old.spare ≤ distances.new.spare + 1 }
{
    match distance {
        Some(distance) => distances.insert(name, distance),
        None => distances.take(name),
    }
}

// Takes a pair out of the level of the distance that it had.
fn leave_level(
    levels: &mut TripleSet,
    counts: &mut [u64; LEVELS],
    name: (u32, u32),
    distance: Option<u8>,
)
    requires shallow { IfSome distance IsDistance }
    requires counted { IfSome distance (λ d. 1 ≤ slice_index counts.old d) }
    ensures levels { (level : ℕ × ℕ × ℕ) → Contains levels.new.rows level
        ↔ (Contains levels.old.rows level × ¬ (IsLevelOf name distance level)) }
    ensures counts { (d : ℕ) → slice_index counts.new d + one_at d distance ≡ slice_index counts.old d }
    ensures spare { levels.old.spare ≤ levels.new.spare }
{
    if let Some(distance) = distance {
        levels.remove((u32::from(distance), name.0, name.1));
        counts[distance as usize] -= 1;
    }
}

// Puts a pair into the level of its distance.
fn enter_level(
    levels: &mut TripleSet,
    counts: &mut [u64; LEVELS],
    name: (u32, u32),
    distance: Option<u8>,
)
    requires room { 1 ≤ levels.old.spare }
    requires shallow { IfSome distance IsDistance }
    requires counted { IfSome distance (λ d. slice_index counts.old d + 1 < 2 ^ 64) }
    ensures levels { (level : ℕ × ℕ × ℕ) → Contains levels.new.rows level
        ↔ (Contains levels.old.rows level ⊎ IsLevelOf name distance level) }
    ensures counts { (d : ℕ) → slice_index counts.new d ≡ slice_index counts.old d + one_at d distance }
    ensures spare { levels.old.spare ≤ levels.new.spare + 1 }
{
    if let Some(distance) = distance {
        levels.insert((u32::from(distance), name.0, name.1));
        counts[distance as usize] += 1;
    }
}

// Where the names begin that come after a place.
fn start_behind(place: Option<(FileNo, FileNo)>) -> (u32, u32)
    ensures before { (name : ℕ × ℕ) → IsBefore name result → is_behind place name ≡ false }
    ensures behind { (name : ℕ × ℕ) → IsName name → ¬ (IsBefore name result)
        → is_behind place name ≡ true }
{
    match place {
        Some((j, k)) => (j.0, k.0.saturating_add(1)),
        None => (0, 0),
    }
}
