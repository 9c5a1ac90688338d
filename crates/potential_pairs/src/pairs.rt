ghost use Rattle.std.specs.Prelude.{◌≡◌, ◌≤◌, ◌<◌, ◌+◌, ◌-◌, ◌*◌, ℕ, [], All, Some, true, ◌==◌, if◌then◌else◌, is_some, filter, length, map, not, slice_index, IfOk, IfSome, OnOk};
ghost use Rattle.std.specs.BTreeMap.{insert_entry};
ghost use Rattle.std.specs.List.Sorted.{IsStrictlySortedBy};
ghost use Rattle.std.specs.Map.{values_of};
ghost use Rattle.std.specs.Ordering.{nat_cmp};
ghost use Rattle.media_types.specs.declared.limits.TheConstants.{MAX_DISTANCE};
ghost use Rattle.relation_groups.specs.Laws.{AreSound};
ghost use Rattle.relation_groups.specs.Moves.{moves};
ghost use Rattle.relation_groups.specs.Reading.{IsPlanFor, relations_after, relations_in, size_of};
ghost use Rattle.relation_groups.specs.Relations.{Relations};
ghost use Rattle.spare_tables.specs.Keys.{value_of};
ghost use Rattle.spare_tables.specs.Order.{pair_cmp};
ghost use Rattle.potential_pairs.specs.Keeping.{AreTallyRows};
ghost use Rattle.potential_pairs.specs.Levels.{Ascend, IsDistance, IsName};
ghost use Rattle.potential_pairs.specs.Naming.{AreCounted, count_named, live_name, weight};
ghost use Rattle.potential_pairs.specs.Pages.{named, page_of, within};
ghost use Rattle.potential_pairs.specs.Planning.{AreFound, AscendByFile, after, has_file, planned_count, room_of, touched, with_found, with_live};
ghost use Rattle.potential_pairs.specs.Potential.{AreBelow, AreOf, is_live};

use crate::names::name_of;
use crate::near_map::{FilePairs, NearMap};
use crate::pair_draft::PairDraft;
use crate::pair_plan::PairPlan;
use crate::tally::Tally;
use crate::tally_map::TallyMap;
use media_types::{FileNo, NearList, NoMemory, PairList, Steps};
use relation_groups::{GroupPlan, Groups, MoveList};
use spare_tables::KeySet;
use std::alloc::Global;
use std::marker::Model;
use std::sync::ledger::Ledger;

/// The near pairs, and the potential pairs that they make of the groups.
///
/// Pages come in the order of the names, by look-ups in a table by distance and name.
#[derive(Drop)]
pub struct Pairs {
    alloc: Global,
    near: NearMap,
    /// The deleted files.
    gone: KeySet<u32>,
    tallies: TallyMap,
}

impl Model for Pairs {
    ghost use Rattle.std.specs.Prelude.{min};
    ghost use Rattle.potential_pairs.specs.Potential.{KeptPairs};

    ghost Value = { KeptPairs };

    ghost view = { λ pairs. record {
      rows = record {
        near = pairs.near.rows;
        gone = pairs.gone.rows;
        pairs = pairs.tallies.pairs;
        tallies = pairs.tallies.tallies;
      };
      spare = min (min pairs.near.spare pairs.tallies.spare) pairs.gone.spare;
    } };
}

impl Pairs {
    /// No pairs. It takes no memory yet.
    pub fn new(alloc: Global) -> Pairs
        ensures near { result.rows.near ≡ [] }
        ensures gone { result.rows.gone ≡ [] }
        ensures pairs { result.rows.pairs ≡ [] }
        ensures of { (R : Relations) → AreOf R result.rows }
    {
        Pairs {
            alloc,
            near: NearMap::new(alloc),
            gone: KeySet::new(alloc),
            tallies: TallyMap::new(alloc),
        }
    }

    /// Plans to note near pairs that a search found: pairs of files whose distance is at most how far both
    /// were searched. It changes nothing.
    pub fn plan_found<L: Ledger>(
        &mut self,
        found: &NearList,
        groups: &Groups,
        steps: &mut Steps<L>,
    ) -> Result<PairPlan, NoMemory>
        requires of { AreOf (relations_in groups.now) self.old.rows }
        requires found { AreFound (size_of groups.now) self.old.rows.near found.now }
        ensures same { self.new.rows ≡ self.old.rows }
        ensures near { IfOk result (λ plan. (after plan self.new.rows).near
            ≡ with_found found.now self.old.rows.near) }
        ensures gone { IfOk result (λ plan. (after plan self.new.rows).gone ≡ self.old.rows.gone) }
        ensures of_after { IfOk result
            (λ plan. AreOf (relations_in groups.now) (after plan self.new.rows)) }
        ensures counted { IfOk result (λ plan. length (after plan self.new.rows).near
            ≡ length self.old.rows.near + length plan.near) }
        ensures room { IfOk result (λ plan. room_of plan ≤ self.new.spare) }
        ensures spare { self.old.spare ≤ self.new.spare }
        ensures reads { steps.new ≤ steps.old + 8 * length found.now }
    {
        self.in_order();
        let mut plan = PairDraft::new(self.alloc);
        for (f, g, distance) in found.as_slice() {
            self.plan_near(&mut plan, (*f, *g, *distance), groups, steps)?;
        }
        let plan = plan.finish(self.alloc)?;
        self.reserve_for(&plan)?;
        Ok(plan)
    }

    // Plans to note one more near pair.
    fn plan_near<L: Ledger>(
        &self,
        plan: &mut PairDraft,
        found: (FileNo, FileNo, u8),
        groups: &Groups,
        steps: &mut Steps<L>,
    ) -> Result<(), NoMemory>
        requires lower { found.0.0 < found.1.0 }
        requires there { found.1.0 < size_of groups.now }
        requires shallow { found.2 ≤ MAX_DISTANCE }
        requires same { (d : ℕ) → value_of pair_cmp (after plan.old self.now.rows).near (found.0.0, found.1.0)
            ≡ Some d → d ≡ found.2 }
        requires counted { AreCounted (live_name (relations_in groups.now) self.now.rows.gone)
            (after plan.old self.now.rows) }
        ensures near { OnOk result ((after plan.new self.now.rows).near
            ≡ insert_entry pair_cmp (after plan.old self.now.rows).near (found.0.0, found.1.0) found.2) }
        ensures counted { OnOk result (AreCounted
            (live_name (relations_in groups.now) self.now.rows.gone) (after plan.new self.now.rows)) }
        ensures more { OnOk result (length (after plan.new self.now.rows).near + length plan.old.near
            ≡ length (after plan.old self.now.rows).near + length plan.new.near) }
        ensures live { plan.new.live ≡ plan.old.live }
        ensures reads { steps.new ≤ steps.old + 8 }
    {
        self.in_order();
        let (f, g, distance) = found;
        let files = (f.0, g.0);
        if plan.has_near(files, steps) || self.near.contains(files, steps) {
            return Ok(());
        }
        plan.add_near(files, distance)?;
        let name = self.name_of_live(groups, f, g, steps);
        self.plan_more(plan, name, distance, steps)
    }

    // The name of the potential pair that two near files make, where both are live.
    fn name_of_live<L: Ledger>(
        &self,
        groups: &Groups,
        f: FileNo,
        g: FileNo,
        steps: &mut Steps<L>,
    ) -> Option<(u32, u32)>
        requires f_known { f.0 < size_of groups.now }
        requires g_known { g.0 < size_of groups.now }
        ensures name { result ≡ live_name (relations_in groups.now) self.now.rows.gone (f.0, g.0) }
        ensures known { IfSome result IsName }
        ensures reads { steps.new ≤ steps.old + 2 }
    {
        if self.is_gone(f, steps) || self.is_gone(g, steps) {
            return None;
        }
        name_of(groups, f, g)
    }

    fn is_gone<L: Ledger>(&self, file: FileNo, steps: &mut Steps<L>) -> bool
        ensures gone { result ≡ not (is_live self.now.rows.gone file.0) }
        ensures steps { steps.new ≡ steps.old + 1 }
    {
        self.gone.contains(file.0, steps)
    }

    // Plans that one more near pair of a distance makes the potential pair of this name, where it has one.
    fn plan_more<L: Ledger>(
        &self,
        plan: &mut PairDraft,
        name: Option<(u32, u32)>,
        distance: u8,
        steps: &mut Steps<L>,
    ) -> Result<(), NoMemory>
        requires named { IfSome name IsName }
        requires shallow { distance ≤ MAX_DISTANCE }
        ensures tallies { OnOk result ((q : ℕ × ℕ) (d : ℕ) → planned_count plan.new self.now.rows q d
            ≡ planned_count plan.old self.now.rows q d + weight name distance q d) }
        ensures near { plan.new.near ≡ plan.old.near }
        ensures live { plan.new.live ≡ plan.old.live }
        ensures reads { steps.new ≤ steps.old + 2 }
    {
        self.in_order();
        let Some(name) = name else {
            return Ok(());
        };
        let tally = self.planned_tally(plan, name, steps).and_one(distance)?;
        plan.set_tally(name, tally)
    }

    // Plans that one near pair of a distance less makes the potential pair of this name, where it has one.
    fn plan_less<L: Ledger>(
        &self,
        plan: &mut PairDraft,
        name: Option<(u32, u32)>,
        distance: u8,
        steps: &mut Steps<L>,
    ) -> Result<(), NoMemory>
        requires named { IfSome name IsName }
        requires shallow { distance ≤ MAX_DISTANCE }
        ensures tallies { OnOk result ((q : ℕ × ℕ) (d : ℕ) → planned_count plan.new self.now.rows q d
            ≡ planned_count plan.old self.now.rows q d - weight name distance q d) }
        ensures near { plan.new.near ≡ plan.old.near }
        ensures live { plan.new.live ≡ plan.old.live }
        ensures reads { steps.new ≤ steps.old + 2 }
    {
        self.in_order();
        let Some(name) = name else {
            return Ok(());
        };
        let tally = self.planned_tally(plan, name, steps).but_one(distance);
        plan.set_tally(name, tally)
    }

    // The tally of a potential pair once a plan is carried out.
    fn planned_tally<L: Ledger>(
        &self,
        plan: &PairDraft,
        name: (u32, u32),
        steps: &mut Steps<L>,
    ) -> Tally
        ensures counts { (d : ℕ) → slice_index result.counts d
            ≡ planned_count plan.now self.now.rows name d }
        ensures reads { steps.new ≤ steps.old + 2 }
    {
        self.in_order();
        match plan.tally_of(name, steps) {
            Some(tally) => tally,
            None => match self.tallies.tally_of(name, steps) {
                Some(tally) => tally,
                None => Tally::new(),
            },
        }
    }

    // What holds of the tables.
    fn in_order(&self)
        ensures near { Ascend self.now.rows.near }
        ensures shallow { All IsDistance (values_of self.now.rows.near) }
        ensures kept { AreTallyRows self.now.rows.tallies self.now.rows.pairs }
        ensures gone { IsStrictlySortedBy nat_cmp self.now.rows.gone }
    {
        let _near = self.near.len();
        let _gone = self.gone.len();
        let _pairs = self.tallies.distances();
    }

    // Makes room for what a plan changes.
    fn reserve_for(&mut self, plan: &PairPlan) -> Result<(), NoMemory>
        ensures rows { self.new.rows ≡ self.old.rows }
        ensures ok { OnOk result (room_of plan.now ≤ self.new.spare) }
        ensures spare { self.old.spare ≤ self.new.spare }
    {
        let room = plan.room();
        self.near.reserve(room)?;
        self.tallies.reserve(room)?;
        self.gone.reserve(room)
    }

    /// Plans what becomes of the pairs once the groups are changed by their plan. It changes nothing.
    ///
    /// It reads in proportion to the files that the plan moves, and to the near pairs that have one of them.
    pub fn plan_moved<L: Ledger>(
        &mut self,
        moved: &GroupPlan,
        groups: &Groups,
        steps: &mut Steps<L>,
    ) -> Result<PairPlan, NoMemory>
        requires of { AreOf (relations_in groups.now) self.old.rows }
        requires below { AreBelow (size_of groups.now) self.old.rows.near }
        requires sound { AreSound (relations_in groups.now) }
        requires sound_after { AreSound (relations_after moved.now groups.now) }
        requires fits { IsPlanFor moved.now groups.now }
        requires moves { moved.now.moves
            ≡ moves (size_of groups.now) (relations_in groups.now) (relations_after moved.now groups.now) }
        ensures same { self.new.rows ≡ self.old.rows }
        ensures near { IfOk result (λ plan. (after plan self.new.rows).near ≡ self.old.rows.near) }
        ensures gone { IfOk result (λ plan. (after plan self.new.rows).gone ≡ self.old.rows.gone) }
        ensures of_after { IfOk result
            (λ plan. AreOf (relations_after moved.now groups.now) (after plan self.new.rows)) }
        ensures room { IfOk result (λ plan. room_of plan ≤ self.new.spare) }
        ensures spare { self.old.spare ≤ self.new.spare }
        ensures reads { steps.new ≤ steps.old
            + 64 * (1 + (length moved.now.moves + length (touched moved.now.moves self.old.rows.near))) }
    {
        self.in_order();
        let touched = self.near_of_moved(moved.moves(), steps)?;
        let after = moved.groups_after(groups);
        let mut plan = PairDraft::new(self.alloc);
        for ((f, g), distance) in touched.as_slice() {
            let near = (FileNo(*f), FileNo(*g), *distance);
            self.plan_renamed(&mut plan, near, groups, after, steps)?;
        }
        let plan = plan.finish(self.alloc)?;
        self.reserve_for(&plan)?;
        Ok(plan)
    }

    // The near pairs that have a file among those that are moved.
    fn near_of_moved<L: Ledger>(
        &self,
        moves: &MoveList,
        steps: &mut Steps<L>,
    ) -> Result<Vec<((u32, u32), u8)>, NoMemory>
        requires { AscendByFile moves.now }
        ensures rows { IfOk result (λ pairs. pairs.items ≡ touched moves.now self.now.rows.near) }
        ensures reads { steps.new ≤ steps.old
            + 4 * (length moves.now + length (touched moves.now self.now.rows.near)) }
    {
        let mut pairs = FilePairs::new(self.alloc);
        for moved in moves.as_slice() {
            self.near.add_of_file(moved.file, &mut pairs, steps)?;
        }
        pairs.into_vec(self.alloc)
    }

    // Plans that a near pair has the name that the groups give it after they have changed.
    fn plan_renamed<L: Ledger>(
        &self,
        plan: &mut PairDraft,
        near: (FileNo, FileNo, u8),
        groups: &Groups,
        after: &Groups,
        steps: &mut Steps<L>,
    ) -> Result<(), NoMemory>
        requires lower { near.0.0 < near.1.0 }
        requires there { near.1.0 < size_of groups.now }
        requires size { size_of after.now ≡ size_of groups.now }
        requires shallow { near.2 ≤ MAX_DISTANCE }
        ensures tallies { OnOk result ((q : ℕ × ℕ) (d : ℕ) → planned_count plan.new self.now.rows q d
            ≡ planned_count plan.old self.now.rows q d
            + weight (live_name (relations_in after.now) self.now.rows.gone (near.0.0, near.1.0)) near.2 q d
            - weight (live_name (relations_in groups.now) self.now.rows.gone (near.0.0, near.1.0)) near.2 q d) }
        ensures near { plan.new.near ≡ plan.old.near }
        ensures live { plan.new.live ≡ plan.old.live }
        ensures reads { steps.new ≤ steps.old + 8 }
    {
        let (f, g, distance) = near;
        let old = self.name_of_live(groups, f, g, steps);
        let new = self.name_of_live(after, f, g, steps);
        self.plan_more(plan, new, distance, steps)?;
        self.plan_less(plan, old, distance, steps)
    }

    /// Plans that a file is live from now on, or is deleted. It changes nothing.
    ///
    /// It reads in proportion to the near pairs of the file.
    pub fn plan_live<L: Ledger>(
        &mut self,
        file: FileNo,
        live: bool,
        groups: &Groups,
        steps: &mut Steps<L>,
    ) -> Result<PairPlan, NoMemory>
        requires of { AreOf (relations_in groups.now) self.old.rows }
        requires below { AreBelow (size_of groups.now) self.old.rows.near }
        requires known { file.0 < size_of groups.now }
        ensures same { self.new.rows ≡ self.old.rows }
        ensures near { IfOk result (λ plan. (after plan self.new.rows).near ≡ self.old.rows.near) }
        ensures gone { IfOk result (λ plan. (after plan self.new.rows).gone
            ≡ with_live (Some (file, live)) self.old.rows.gone) }
        ensures of_after { IfOk result
            (λ plan. AreOf (relations_in groups.now) (after plan self.new.rows)) }
        ensures room { IfOk result (λ plan. room_of plan ≤ self.new.spare) }
        ensures spare { self.old.spare ≤ self.new.spare }
        ensures reads { steps.new ≤ steps.old
            + 8 * (1 + length (filter (λ row. has_file file.0 row.0) self.old.rows.near)) }
    {
        self.in_order();
        let mut plan = PairDraft::new(self.alloc);
        self.plan_live_pairs(&mut plan, file, live, groups, steps)?;
        plan.set_live(file, live);
        let plan = plan.finish(self.alloc)?;
        self.reserve_for(&plan)?;
        Ok(plan)
    }

    // Plans that each near pair of a file makes a potential pair again, or none any more.
    fn plan_live_pairs<L: Ledger>(
        &self,
        plan: &mut PairDraft,
        file: FileNo,
        live: bool,
        groups: &Groups,
        steps: &mut Steps<L>,
    ) -> Result<(), NoMemory>
        requires below { AreBelow (size_of groups.now) self.now.rows.near }
        requires counts { (name : ℕ × ℕ) (d : ℕ) → planned_count plan.old self.now.rows name d
            ≡ count_named (live_name (relations_in groups.now) self.now.rows.gone) self.now.rows.near name d }
        ensures counts { OnOk result ((name : ℕ × ℕ) (d : ℕ) → planned_count plan.new self.now.rows name d
            ≡ count_named (live_name (relations_in groups.now) (with_live (Some (file, live)) self.now.rows.gone))
            self.now.rows.near name d) }
        ensures near { plan.new.near ≡ plan.old.near }
        ensures reads { steps.new ≤ steps.old
            + (5 + 5 * length (filter (λ row. has_file file.0 row.0) self.now.rows.near)) }
    {
        self.in_order();
        if self.is_gone(file, steps) != live {
            return Ok(());
        }
        let pairs = self.near_of_file(file, steps)?;
        for ((f, g), distance) in pairs.as_slice() {
            let near = (FileNo(*f), FileNo(*g), *distance);
            self.plan_live_pair(plan, near, file, live, groups, steps)?;
        }
        Ok(())
    }

    // The near pairs of a file.
    fn near_of_file<L: Ledger>(
        &self,
        file: FileNo,
        steps: &mut Steps<L>,
    ) -> Result<Vec<((u32, u32), u8)>, NoMemory>
        ensures rows { IfOk result (λ pairs. pairs.items
            ≡ filter (λ row. has_file file.0 row.0) self.now.rows.near) }
        ensures reads { steps.new ≤ steps.old
            + (4 + 2 * length (filter (λ row. has_file file.0 row.0) self.now.rows.near)) }
    {
        let mut pairs = FilePairs::new(self.alloc);
        self.near.add_of_file(file, &mut pairs, steps)?;
        pairs.into_vec(self.alloc)
    }

    // Plans that a near pair of a file makes a potential pair again, or none any more.
    fn plan_live_pair<L: Ledger>(
        &self,
        plan: &mut PairDraft,
        near: (FileNo, FileNo, u8),
        file: FileNo,
        live: bool,
        groups: &Groups,
        steps: &mut Steps<L>,
    ) -> Result<(), NoMemory>
        requires lower { near.0.0 < near.1.0 }
        requires there { near.1.0 < size_of groups.now }
        requires shallow { near.2 ≤ MAX_DISTANCE }
        requires of_file { has_file file.0 (near.0.0, near.1.0) ≡ true }
        requires other { is_live self.now.rows.gone file.0 ≡ not live }
        ensures tallies { OnOk result ((q : ℕ × ℕ) (d : ℕ) → planned_count plan.new self.now.rows q d
            ≡ planned_count plan.old self.now.rows q d
            + weight (live_name (relations_in groups.now) (with_live (Some (file, live)) self.now.rows.gone) (near.0.0, near.1.0)) near.2 q d
            - weight (live_name (relations_in groups.now) self.now.rows.gone (near.0.0, near.1.0)) near.2 q d) }
        ensures near { plan.new.near ≡ plan.old.near }
        ensures reads { steps.new ≤ steps.old + 3 }
    {
        self.in_order();
        let (f, g, distance) = near;
        if self.is_gone(other_file(f, g, file), steps) {
            return Ok(());
        }
        let name = name_of(groups, f, g);
        if live {
            self.plan_more(plan, name, distance, steps)
        } else {
            self.plan_less(plan, name, distance, steps)
        }
    }

    /// Makes a planned change. It takes no memory.
    pub fn commit(&mut self, plan: PairPlan)
        requires { room_of plan ≤ self.old.spare }
        ensures { self.new.rows ≡ after plan self.old.rows }
    {
        self.near.note_all(plan.near());
        self.tallies.set_all(plan.tallies());
        set_live(&mut self.gone, plan.live());
    }

    /// The first pairs, at most so many, within a distance after a place in the order of their names.
    pub fn page<L: Ledger>(
        &self,
        after: Option<(FileNo, FileNo)>,
        n: u32,
        at_most: u8,
        steps: &mut Steps<L>,
    ) -> Result<PairList, NoMemory>
        ensures page { IfOk result (λ page. page
            ≡ map named (page_of after n at_most self.now.rows.pairs)) }
        ensures reads { steps.new ≤ steps.old + (2 * n + 17) }
    {
        self.tallies
            .distances()
            .page(self.alloc, after, n, at_most, steps)
    }

    /// The least distance of the potential pair of two kings, the lower first, or none where it is none.
    pub fn is_pair<L: Ledger>(&self, j: FileNo, k: FileNo, steps: &mut Steps<L>) -> Option<u8>
        ensures distance { result ≡ value_of pair_cmp self.now.rows.pairs (j.0, k.0) }
        ensures steps { steps.new ≡ steps.old + 1 }
    {
        self.tallies.distances().get((j.0, k.0), steps)
    }

    /// The number of potential pairs within a distance.
    pub fn count(&self, at_most: u8) -> u64
        ensures { result ≡ length (within at_most self.now.rows.pairs) }
    {
        self.tallies.distances().count(at_most)
    }

    /// The number of near pairs.
    pub fn near_len(&self) -> u64
        ensures { result ≡ length self.now.rows.near }
    {
        self.near.len()
    }
}

// Takes a file from the deleted ones or puts it there, in the room that was made.
fn set_live(gone: &mut KeySet<u32>, file: Option<(FileNo, bool)>)
    requires { (if is_some file then 1 else 0) ≤ gone.old.spare }
    ensures { gone.new.rows ≡ with_live file gone.old.rows }
{
    match file {
        Some((file, true)) => gone.remove(file.0),
        Some((file, false)) => gone.insert(file.0),
        None => false,
    };
}

// The other one of two files.
fn other_file(f: FileNo, g: FileNo, file: FileNo) -> FileNo
    ensures { result.0 ≡ (if f.0 == file.0 then g.0 else f.0) }
{
    if f.0 == file.0 { g } else { f }
}
