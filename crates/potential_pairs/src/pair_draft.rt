ghost use Rattle.std.specs.Prelude.{◌≡◌, ◌≤◌, ◌+◌, [], None, Some, is_some, IfOk, OnOk};
ghost use Rattle.std.specs.BTreeMap.{insert_entry};
ghost use Rattle.spare_tables.specs.Keys.{value_of};
ghost use Rattle.spare_tables.specs.Order.{pair_cmp};
ghost use Rattle.media_types.specs.declared.limits.TheConstants.{MAX_DISTANCE};
ghost use Rattle.potential_pairs.specs.Levels.{Ascend, IsName};

use crate::near_map::FilePairs;
use crate::pair_plan::PairPlan;
use crate::tally::Tally;
use media_types::{FileNo, NoMemory, Steps};
use spare_tables::KeyMap;
use std::alloc::Global;
use std::marker::Model;
use std::sync::ledger::Ledger;

/// A change of the pairs that is being planned, in tables where what was planned so far is looked up.
#[derive(Drop)]
pub struct PairDraft {
    /// The near pairs that are new, with the lower file first.
    near: FilePairs,
    /// The potential pairs whose tallies are new.
    tallies: KeyMap<(u32, u32), Tally>,
    /// A file, and whether it is live from now on.
    live: Option<(FileNo, bool)>,
}

impl Model for PairDraft {
    ghost use Rattle.potential_pairs.specs.Keeping.{ArePlanned};
    ghost use Rattle.potential_pairs.specs.Planning.{PlanView};

    ghost Value = { PlanView };

    ghost view = { λ draft. record {
      near = draft.near.rows;
      tallies = draft.tallies.rows;
      live = draft.live;
    } };

    ghost invariant = { λ draft. ArePlanned draft.near.rows draft.tallies.rows };
}

impl PairDraft {
    /// No change.
    pub fn new(alloc: Global) -> PairDraft
        ensures near { result.near ≡ [] }
        ensures tallies { result.tallies ≡ [] }
        ensures live { result.live ≡ None }
    {
        PairDraft {
            near: FilePairs::new(alloc),
            tallies: KeyMap::new(alloc),
            live: None,
        }
    }

    /// Adds a near pair.
    pub fn add_near(&mut self, files: (u32, u32), distance: u8) -> Result<(), NoMemory>
        requires { distance ≤ MAX_DISTANCE }
        ensures near { OnOk result (self.new.near
            ≡ insert_entry pair_cmp self.old.near files distance) }
        ensures sorted { Ascend self.old.near }
        ensures tallies { self.new.tallies ≡ self.old.tallies }
        ensures live { self.new.live ≡ self.old.live }
    {
        self.near.reserve(1)?;
        self.near.insert(files, distance);
        Ok(())
    }

    /// Whether it adds a near pair of these files. It counts as one read.
    pub fn has_near<L: Ledger>(&self, files: (u32, u32), steps: &mut Steps<L>) -> bool
        ensures value { result ≡ is_some (value_of pair_cmp self.now.near files) }
        ensures sorted { Ascend self.now.near }
        ensures steps { steps.new ≡ steps.old + 1 }
    {
        self.near.contains(files, steps)
    }

    /// Sets the new tally of a potential pair.
    pub fn set_tally(&mut self, name: (u32, u32), tally: Tally) -> Result<(), NoMemory>
        requires { IsName name }
        ensures near { self.new.near ≡ self.old.near }
        ensures tallies { OnOk result (self.new.tallies
            ≡ insert_entry pair_cmp self.old.tallies name tally) }
        ensures sorted { Ascend self.old.tallies }
        ensures live { self.new.live ≡ self.old.live }
    {
        self.tallies.reserve(1)?;
        self.tallies.insert(name, tally);
        Ok(())
    }

    /// The new tally of a potential pair, where it has one. It counts as one read.
    pub fn tally_of<L: Ledger>(&self, name: (u32, u32), steps: &mut Steps<L>) -> Option<Tally>
        ensures value { result ≡ value_of pair_cmp self.now.tallies name }
        ensures sorted { Ascend self.now.tallies }
        ensures steps { steps.new ≡ steps.old + 1 }
    {
        self.tallies.get(name, steps)
    }

    /// Sets whether a file is live from now on.
    pub fn set_live(&mut self, file: FileNo, live: bool)
        ensures near { self.new.near ≡ self.old.near }
        ensures tallies { self.new.tallies ≡ self.old.tallies }
        ensures live { self.new.live ≡ Some (file, live) }
    {
        self.live = Some((file, live));
    }

    /// The plan, once nothing more is to be looked up.
    pub fn finish(self, alloc: Global) -> Result<PairPlan, NoMemory>
        ensures { IfOk result (λ plan. plan ≡ self) }
    {
        let PairDraft {
            near,
            tallies,
            live,
        } = self;
        Ok(PairPlan {
            near: near.into_vec(alloc)?,
            tallies: tallies.into_vec(alloc)?,
            live,
        })
    }
}
