ghost use Rattle.std.specs.Prelude.{◌≡◌, ◌<◌, ◌≤◌, ◌+◌, ◌*◌, ◌^◌, ◌∷◌, ◌++◌, if◌then◌else◌, ℕ, List, [], None, IfOk, OnOk, is_some, length, replicate};
ghost use Rattle.tag_types.specs.declared.limits.TheConstants.{MAX_SERVICES};
ghost use Rattle.tag_store.specs.Mapped.{Ascend, Row, state_of, with_state};
ghost use Rattle.display_cache.specs.Cache.{shown_piece};
ghost use Rattle.display_cache.specs.Displayed.{HasRoom, IsOf, after, records_in, with_mark, with_tag};
ghost use Rattle.display_cache.specs.Recorded.{applied, is_live, list_place, world_of};
ghost use Rattle.display_cache.specs.Shown.{count_current, count_pending, shown_tags, triples};

use crate::display_plan::DisplayPlan;
use crate::draft::{Draft, Tables};
use crate::support::Support;
use media_types::{FileNo, Listed, NoMemory, ServiceNo, Steps, TagNo};
use spare_tables::{KeySet, Rows};
use std::alloc::Global;
use std::marker::Model;
use std::sync::ledger::Ledger;
use tag_types::{MAX_SERVICES, MapState};

/// Tags that a file shows, each with whether it is shown as pending.
pub type ShownList = Listed<(TagNo, bool)>;

/// What the files of a library show.
#[derive(Drop)]
pub struct Display {
    alloc: Global,
    tables: Tables,
    /// How many services, files and tags there are of which the file shows the tag.
    rows: u64,
    /// The applied lists, one for each service of each tag. An empty one stands for the tag alone.
    lists: Rows<Listed<u32>>,
    /// The deleted files.
    gone: KeySet<u32>,
}

impl Model for Display {
    ghost use Rattle.display_cache.specs.Displayed.{KeptDisplay};

    ghost Value = { KeptDisplay };

    ghost view = { λ display. record {
      shown = record {
        supports = display.tables.supports;
        counts = display.tables.counts;
        rows = display.rows;
        lists = display.lists.rows;
        gone = display.gone.rows;
      };
      spare = display.tables.spare;
      spare_lists = display.lists.spare;
      spare_gone = display.gone.spare;
    } };
}

impl Display {
    /// Nothing is shown: there is no tag and no file. It takes no memory yet.
    pub fn new(alloc: Global) -> Display
        ensures shown { result.shown ≡ record { supports = []; counts = []; rows = 0; lists = []; gone = [] } }
        ensures is_of { IsOf 0 0 [] result.shown }
    {
        Display {
            alloc,
            tables: Tables::new(alloc),
            rows: 0,
            lists: Rows::new(alloc),
            gone: KeySet::new(alloc),
        }
    }

    /// The number of services, files and tags of which the file shows the tag, deleted files too.
    pub fn rows(&self) -> u64
        ensures kept { result ≡ self.now.shown.rows }
        ensures triples { (n m : ℕ) (mappings : List Row) → IsOf n m mappings self.now.shown
            → result ≡ triples MAX_SERVICES (world_of (records_in n m mappings self.now.shown)) }
    {
        self.rows
    }

    /// The number of live files that show a tag as current, and as pending. It counts as one read.
    pub fn counts<L: Ledger>(&self, s: ServiceNo, t: TagNo, steps: &mut Steps<L>) -> (u64, u64)
        ensures current { (n m : ℕ) (mappings : List Row) → IsOf n m mappings self.now.shown
            → result.0 ≡ count_current (world_of (records_in n m mappings self.now.shown)) s.0 t.0 }
        ensures pending { (n m : ℕ) (mappings : List Row) → IsOf n m mappings self.now.shown
            → result.1 ≡ count_pending (world_of (records_in n m mappings self.now.shown)) s.0 t.0 }
        ensures steps { steps.new ≡ steps.old + 1 }
    {
        let counts = self.tables.counts((u32::from(s.0), t.0), steps);
        (u64::from(counts.current), u64::from(counts.pending))
    }

    /// The tags that a file shows, ascending, each with whether it is shown as pending.
    pub fn shown<L: Ledger>(
        &self,
        s: ServiceNo,
        f: FileNo,
        steps: &mut Steps<L>,
    ) -> Result<ShownList, NoMemory>
        ensures { IfOk result (λ list. (n m : ℕ) (mappings : List Row) → n < 2 ^ 32 → IsOf n m mappings self.now.shown
            → list ≡ shown_tags (world_of (records_in n m mappings self.now.shown)) s.0 f.0) }
    {
        let service = u32::from(s.0);
        let mut list = Listed::new(self.alloc);
        let mut from = 0;
        while let Some(tag) = self.tables.next_tag(service, f.0, from, steps) {
            let support = self.tables.support((service, f.0, tag), steps);
            tell_shown(&mut list, tag, support)?;
            from = u64::from(tag) + 1;
        }
        Ok(list)
    }

    /// Plans one tag more, to which nothing is mapped.
    pub fn plan_tag(&mut self) -> Result<DisplayPlan, NoMemory>
        ensures shown { self.new.shown ≡ self.old.shown }
        ensures room { IfOk result (λ plan. HasRoom plan self.new) }
        ensures after { IfOk result (λ plan. (n m : ℕ) (mappings : List Row) → IsOf n m mappings self.old.shown
            → ((s f : ℕ) → state_of mappings s n f ≡ None) → IsOf (n + 1) m mappings (after plan self.old.shown)) }
        ensures lists { IfOk result (λ plan. (after plan self.old.shown).lists
            ≡ self.old.shown.lists ++ replicate MAX_SERVICES []) }
        ensures gone { IfOk result (λ plan. (after plan self.old.shown).gone ≡ self.old.shown.gone) }
    {
        let plan = DisplayPlan::new(
            Vec::new(self.alloc),
            Vec::new(self.alloc),
            self.rows,
            true,
            None,
        );
        self.reserve(&plan)?;
        Ok(plan)
    }

    /// Plans that a tag is mapped to a file in another state, or no more.
    pub fn plan_mapping<L: Ledger>(
        &mut self,
        s: ServiceNo,
        t: TagNo,
        f: FileNo,
        was: Option<MapState>,
        now: Option<MapState>,
        steps: &mut Steps<L>,
    ) -> Result<DisplayPlan, NoMemory>
        requires service { s.0 < MAX_SERVICES }
        requires tag { list_place s.0 t.0 < length self.old.shown.lists }
        ensures shown { self.new.shown ≡ self.old.shown }
        ensures room { IfOk result (λ plan. HasRoom plan self.new) }
        ensures after { IfOk result (λ plan. (n m : ℕ) (mappings : List Row) → IsOf n m mappings self.old.shown
            → Ascend mappings → t.0 < n → f.0 < m → state_of mappings s.0 t.0 f.0 ≡ was
            → IsOf n m (with_state mappings s.0 t.0 f.0 now) (after plan self.old.shown)) }
        ensures lists { IfOk result (λ plan. (after plan self.old.shown).lists ≡ self.old.shown.lists) }
        ensures gone { IfOk result (λ plan. (after plan self.old.shown).gone ≡ self.old.shown.gone) }
        ensures reads { steps.new ≤ steps.old + (2 + 12 * length (applied self.old.shown.lists s.0 t.0)) }
    {
        self.tables.in_order();
        let live = self.is_live(f, steps);
        let mut draft = Draft::new(self.alloc, self.rows);
        let own = [t.0];
        let list = self.list_in_force(u32::from(s.0), t.0, &own, steps);
        let was = Support::unit_of(was);
        let now = Support::unit_of(now);
        self.tables.plan_place(
            &mut draft,
            u32::from(s.0),
            t.0,
            f.0,
            live,
            was,
            now,
            list,
            list,
            steps,
        )?;
        let plan = draft.finish(self.alloc, None)?;
        self.reserve(&plan)?;
        Ok(plan)
    }

    fn is_live<L: Ledger>(&self, f: FileNo, steps: &mut Steps<L>) -> bool
        ensures live { result ≡ is_live self.now.shown.gone f.0 }
        ensures steps { steps.new ≡ steps.old + 1 }
    {
        !self.gone.contains(f.0, steps)
    }

    // The list in force for a service's tag; the tag alone is handed in.
    fn list_in_force<'a, L: Ledger>(
        &'a self,
        service: u32,
        tag: u32,
        own: &'a [u32],
        steps: &mut Steps<L>,
    ) -> &'a [u32]
        requires service { service < MAX_SERVICES }
        requires tag { list_place service tag < length self.now.shown.lists }
        requires own { own.now ≡ tag ∷ [] }
        ensures list { result.now ≡ applied self.now.shown.lists service tag }
        ensures steps { steps.new ≡ steps.old + 1 }
    {
        let place = MAX_SERVICES as u64 * u64::from(tag) + u64::from(service);
        let list = self.lists.get(place, steps);
        if list.is_empty() {
            own
        } else {
            list.as_slice()
        }
    }

    // Makes room for a plan.
    fn reserve(&mut self, plan: &DisplayPlan) -> Result<(), NoMemory>
        ensures shown { self.new.shown ≡ self.old.shown }
        ensures room { OnOk result (HasRoom plan.now self.new) }
    {
        self.tables.reserve(plan.supports().len())?;
        self.tables.reserve(plan.counts().len())?;
        if plan.has_new_tag() {
            self.lists.reserve(MAX_SERVICES)?;
        }
        if plan.live().is_some() {
            self.gone.reserve(1)?;
        }
        Ok(())
    }

    /// Makes a planned change. It takes no memory.
    #[tactic(auto, unfolding(crate::specs::Displayed::after))]
    pub fn commit(&mut self, plan: DisplayPlan)
        requires { HasRoom plan self.old }
        ensures { self.new.shown ≡ after plan self.old.shown }
    {
        self.tables.write(plan.supports(), plan.counts());
        self.rows = plan.rows_after();
        add_tag(&mut self.lists, plan.has_new_tag(), self.alloc);
        set_live(&mut self.gone, plan.live());
    }
}

// Puts a tag last that is shown by a support.
fn tell_shown(list: &mut ShownList, tag: u32, support: Support) -> Result<(), NoMemory>
    ensures { OnOk result (list.new ≡ list.old ++ shown_piece tag support) }
{
    if support.is_shown() {
        list.push((TagNo(tag), support.is_pending()))?;
    }
    Ok(())
}

// The lists of a new tag, where there is one.
fn add_tag(lists: &mut Rows<Listed<u32>>, new: bool, alloc: Global)
    requires { (if new then MAX_SERVICES else 0) ≤ lists.old.spare }
    ensures { lists.new.rows ≡ with_tag new lists.old.rows }
{
    if new {
        add_lists(lists, alloc);
    }
}

// The lists of a new tag: no list is applied to it.
fn add_lists(lists: &mut Rows<Listed<u32>>, alloc: Global)
    requires { MAX_SERVICES ≤ lists.old.spare }
    ensures { lists.new.rows ≡ lists.old.rows ++ replicate MAX_SERVICES [] }
{
    for _ in 0..MAX_SERVICES {
        lists.push(Listed::new(alloc));
    }
}

fn set_live(gone: &mut KeySet<u32>, mark: Option<(u32, bool)>)
    requires { (if is_some mark then 1 else 0) ≤ gone.old.spare }
    ensures { gone.new.rows ≡ with_mark mark gone.old.rows }
{
    match mark {
        Some((file, true)) => gone.remove(file),
        Some((file, false)) => gone.insert(file),
        None => false,
    };
}
