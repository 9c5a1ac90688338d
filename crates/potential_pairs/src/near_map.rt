ghost use Rattle.std.specs.Prelude.{◌≡◌, ◌≤◌, ◌+◌, ◌*◌, ◌||◌, ℕ, Bool, [], Some, All, is_some, length, filter, OnOk};
ghost use Rattle.std.specs.Map.{values_of};
ghost use Rattle.spare_tables.specs.Keys.{value_of};
ghost use Rattle.spare_tables.specs.Order.{pair_cmp};
ghost use Rattle.potential_pairs.specs.Keeping.{turned};
ghost use Rattle.potential_pairs.specs.Levels.{Ascend, IsDistance};
ghost use Rattle.potential_pairs.specs.Planning.{has_file, with_changes};

use media_types::{FileNo, NoMemory, Steps};
use spare_tables::{FirstWalk, KeyMap};
use std::alloc::Global;
use std::marker::Model;
use std::sync::ledger::Ledger;

/// The distance of each pair of files, by the two files.
pub type FilePairs = KeyMap<(u32, u32), u8>;

/// The distance of each near pair, which a file's near pairs can be read from by either file.
#[derive(Drop)]
pub struct NearMap {
    lower_first: FilePairs,
    higher_first: FilePairs,
}

impl Model for NearMap {
    ghost use Rattle.std.specs.Prelude.{min};
    ghost use Rattle.spare_tables.specs.Table.{Table};
    ghost use Rattle.potential_pairs.specs.Keeping.{AreNearRows};
    ghost use Rattle.potential_pairs.specs.Potential.{Row};

    ghost Value = { Table Row };

    ghost view = { λ map. record {
      rows = map.lower_first.rows;
      spare = min map.lower_first.spare map.higher_first.spare;
    } };

    ghost invariant = { λ map. AreNearRows map.lower_first.rows map.higher_first.rows };
}

impl NearMap {
    /// No pairs. It takes no memory yet.
    pub fn new(alloc: Global) -> NearMap
        ensures { result.rows ≡ [] }
    {
        NearMap {
            lower_first: FilePairs::new(alloc),
            higher_first: FilePairs::new(alloc),
        }
    }

    /// Makes room for so many more pairs.
    pub fn reserve(&mut self, n: usize) -> Result<(), NoMemory>
        ensures rows { self.new.rows ≡ self.old.rows }
        ensures ok { OnOk result (n ≤ self.new.spare) }
        ensures spare { self.old.spare ≤ self.new.spare }
    {
        self.lower_first.reserve(n)?;
        self.higher_first.reserve(n)
    }

    /// Notes pairs, each with the lower file first, in the room that was made.
    pub fn note_all(&mut self, pairs: &[((u32, u32), u8)])
        requires room { length pairs.now ≤ self.old.spare }
        requires sorted { Ascend pairs.now }
        requires shallow { All IsDistance (values_of pairs.now) }
        ensures { self.new.rows ≡ with_changes Some pairs.now self.old.rows }
    {
        insert_all(&mut self.lower_first, pairs);
        insert_turned(&mut self.higher_first, pairs);
    }

    /// Whether the two files, the lower first, are a near pair. It counts as one read.
    pub fn contains<L: Ledger>(&self, files: (u32, u32), steps: &mut Steps<L>) -> bool
        ensures value { result ≡ is_some (value_of pair_cmp self.now.rows files) }
        ensures steps { steps.new ≡ steps.old + 1 }
    {
        self.lower_first.contains(files, steps)
    }

    /// The number of near pairs. A caller learns here that they ascend, and how far apart they are at most.
    pub fn len(&self) -> u64
        ensures rows { result ≡ length self.now.rows }
        ensures sorted { Ascend self.now.rows }
        ensures shallow { All IsDistance (values_of self.now.rows) }
    {
        self.lower_first.len()
    }

    /// Adds the near pairs of a file to those that pass a test. Each is read once or twice.
    pub fn add_of_file<L: Ledger>(
        &self,
        file: FileNo,
        pairs: &mut FilePairs,
        steps: &mut Steps<L>,
    ) -> Result<(), NoMemory>
        ensures rows { OnOk result ((test : ℕ × ℕ → Bool)
            → pairs.old.rows ≡ filter (λ row. test row.0) self.now.rows
            → pairs.new.rows ≡ filter (λ row. test row.0 || has_file file.0 row.0) self.now.rows) }
        ensures reads { steps.new ≤ steps.old
            + (4 + 2 * length (filter (λ row. has_file file.0 row.0) self.now.rows)) }
    {
        let lower = self.lower_first.walk_first(file.0, steps);
        insert_walked(pairs, lower, steps)?;
        let higher = self.higher_first.walk_first(file.0, steps);
        insert_walked_turned(pairs, higher, steps)
    }
}

// Adds rows that are walked.
fn insert_walked<L: Ledger>(
    map: &mut FilePairs,
    mut walk: FirstWalk<'_, u8>,
    steps: &mut Steps<L>,
) -> Result<(), NoMemory>
    ensures rows { OnOk result (map.new.rows ≡ with_changes Some walk.entry map.old.rows) }
    ensures reads { steps.new ≤ steps.old + (1 + length walk.entry) }
{
    while let Some((files, distance)) = walk.next(steps) {
        map.reserve(1)?;
        map.insert(files, distance);
    }
    Ok(())
}

// Adds rows that are walked, with the two files in the other order.
fn insert_walked_turned<L: Ledger>(
    map: &mut FilePairs,
    mut walk: FirstWalk<'_, u8>,
    steps: &mut Steps<L>,
) -> Result<(), NoMemory>
    ensures rows { OnOk result (map.new.rows ≡ with_changes Some (turned walk.entry) map.old.rows) }
    ensures reads { steps.new ≤ steps.old + (1 + length walk.entry) }
{
    while let Some(((f, g), distance)) = walk.next(steps) {
        map.reserve(1)?;
        map.insert((g, f), distance);
    }
    Ok(())
}

// Sets the distances of pairs in the room that was made.
fn insert_all(map: &mut FilePairs, pairs: &[((u32, u32), u8)])
    requires { length pairs.now ≤ map.old.spare }
    ensures { map.new.rows ≡ with_changes Some pairs.now map.old.rows }
{
    for (files, distance) in pairs {
        map.insert(*files, *distance);
    }
}

// Sets the distances of pairs with the two files in the other order, in the room that was made.
fn insert_turned(map: &mut FilePairs, pairs: &[((u32, u32), u8)])
    requires { length pairs.now ≤ map.old.spare }
    ensures { map.new.rows ≡ with_changes Some (turned pairs.now) map.old.rows }
{
    for ((f, g), distance) in pairs {
        map.insert((*g, *f), *distance);
    }
}
