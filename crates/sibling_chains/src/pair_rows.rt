ghost use Rattle.std.specs.Prelude.{◌≡◌, ◌+◌, ◌<◌, ◌≤◌, [], ◌∷◌, ◌++◌, true, length, None, Some, OnOk, slice_get};
ghost use Rattle.std.specs.Option.{option_map};
ghost use Rattle.tag_types.specs.declared.limits.TheConstants.{MAX_RELATIONS};
ghost use Rattle.sibling_chains.specs.Following.{good_of};
ghost use Rattle.sibling_chains.specs.Recorded.{pairs_of, removed_at, standing_at, standing_place};

use crate::relation_row::RelationRow;
use media_types::{NoMemory, ServiceNo, Steps, TagNo};
use spare_tables::{KeyMap, Rows};
use std::alloc::Global;
use std::marker::Model;
use std::sync::ledger::Ledger;

// Stands in the place of a row while that is written anew.
const TAKEN: RelationRow = RelationRow {
    service: ServiceNo(0),
    first: TagNo(0),
    second: TagNo(0),
    standing: false,
};

/// The rows of sibling pairs in order of recording, removed ones among them. At most one row stands for a
/// service and a bad tag.
#[derive(Drop)]
pub struct PairRows {
    rows: Rows<RelationRow>,
    /// By service and bad tag the number of the standing row.
    places: KeyMap<(u32, u32), u32>,
}

impl Model for PairRows {
    ghost use Rattle.std.specs.Prelude.{min};
    ghost use Rattle.sibling_chains.specs.PairTable.{ArePlaced, PairTable};

    ghost Value = { PairTable };

    ghost view = { λ it. record {
      rows = it.rows.rows;
      spare = min it.rows.spare it.places.spare;
    } };

    ghost invariant = { λ it. ArePlaced it.rows.rows it.places.rows };
}

impl PairRows {
    /// No rows. It takes no memory yet.
    pub fn new(alloc: Global) -> PairRows
        ensures rows { result.rows ≡ [] }
    {
        PairRows {
            rows: Rows::new(alloc),
            places: KeyMap::new(alloc),
        }
    }

    /// Makes room for one more row.
    pub fn reserve(&mut self) -> Result<(), NoMemory>
        ensures rows { self.new.rows ≡ self.old.rows }
        ensures ok { OnOk result (1 ≤ self.new.spare) }
        ensures spare { self.old.spare ≤ self.new.spare }
    {
        self.rows.reserve(1)?;
        self.places.reserve(1)?;
        Ok(())
    }

    /// How many rows there are, removed ones among them.
    pub fn len(&self) -> u32
        ensures rows { result ≡ length self.now.rows }
        ensures few { result ≤ MAX_RELATIONS }
    {
        let _places = &self.places;
        self.rows.len() as u32
    }

    /// The row of this number. It counts as one read.
    pub fn row<L: Ledger>(&self, at: u32, steps: &mut Steps<L>) -> RelationRow
        requires { at < length self.now.rows }
        ensures row { slice_get self.now.rows at ≡ Some result }
        ensures steps { steps.new ≡ steps.old + 1 }
    {
        *self.rows.get(u64::from(at), steps)
    }

    /// The number of the standing row of a service and a bad tag. It counts as one read.
    pub fn place_of<L: Ledger>(
        &self,
        service: ServiceNo,
        bad: TagNo,
        steps: &mut Steps<L>,
    ) -> Option<u32>
        ensures place { result ≡ standing_at service.0 bad.0 self.now.rows }
        ensures steps { steps.new ≡ steps.old + 1 }
    {
        self.places.get((u32::from(service.0), bad.0), steps)
    }

    /// The standing good tag of a bad one. It counts as two reads at most.
    pub fn find<L: Ledger>(
        &self,
        service: ServiceNo,
        bad: TagNo,
        steps: &mut Steps<L>,
    ) -> Option<TagNo>
        ensures good { option_map (λ t. t.0) result ≡ good_of (pairs_of self.now.rows service) bad.0 }
        ensures steps { steps.new ≤ steps.old + 2 }
    {
        match self.place_of(service, bad, steps) {
            Some(at) => Some(self.row(at, steps).second),
            None => None,
        }
    }

    /// Records a pair, in the room that was made.
    pub fn push(&mut self, service: ServiceNo, bad: TagNo, good: TagNo)
        requires spare { 1 ≤ self.old.spare }
        requires few { length self.old.rows < MAX_RELATIONS }
        requires new { good_of (pairs_of self.old.rows service) bad.0 ≡ None }
        ensures rows { self.new.rows ≡ self.old.rows
            ++ (record { service = service; first = bad; second = good; standing = true }) ∷ [] }
        ensures spare { self.old.spare ≤ self.new.spare + 1 }
    {
        let number = self.rows.len() as u32;
        self.rows.push(RelationRow {
            service,
            first: bad,
            second: good,
            standing: true,
        });
        self.places.insert((u32::from(service.0), bad.0), number);
    }

    /// Removes the standing pair of a bad tag, where it has one. The row keeps its number.
    pub fn remove(&mut self, service: ServiceNo, bad: TagNo)
        ensures rows { self.new.rows
            ≡ removed_at (standing_place service.0 bad.0 self.old.rows) self.old.rows }
        ensures spare { self.old.spare ≤ self.new.spare }
    {
        if let Some(number) = self.places.take((u32::from(service.0), bad.0)) {
            let at = u64::from(number);
            let mut row = self.rows.exchange(at, TAKEN);
            row.standing = false;
            self.rows.set(at, row);
        }
    }
}
