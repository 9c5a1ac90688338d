ghost use Rattle.std.specs.Prelude.{◌≡◌, ◌==◌, ℕ, ◌+◌, ◌*◌, ◌<◌, ◌≤◌, [], ◌∷◌, ◌++◌, true, false, All, length, None, Some, IfOk, IsSome, OnOk, slice_get};
ghost use Rattle.std.specs.Option.{ForSome, option_map};
ghost use Rattle.tag_types.specs.declared.limits.TheConstants.{MAX_RELATIONS, MAX_SERVICES, MAX_TAGS};
ghost use Rattle.sibling_chains.specs.Clustered.{rows_but};
ghost use Rattle.sibling_chains.specs.Following.{good_of};
ghost use Rattle.sibling_chains.specs.Known.{IsSame, ideal_in, is_behind, label_in, next_tag_of, rows_of_two, rows_with, tags_of_two};
ghost use Rattle.sibling_chains.specs.Planning.{IsPlanFor, IsRefold, after};
ghost use Rattle.sibling_chains.specs.Recorded.{pairs_of, removed_at, standing_place};

use crate::chain_ends::ChainEnds;
use crate::clusters::Clusters;
use crate::fold::{fold_all, grow_all};
use crate::relation_row::RelationRow;
use crate::sibling_plan::{Adding, Change, Refold, Removing, SiblingPlan, Tying};
use media_types::{NoMemory, ServiceNo, Steps, TagNo};
use std::alloc::Global;
use std::marker::Model;
use std::sync::ledger::Ledger;
use tag_types::ServiceList;

/// The sibling pairs of all services, the ideal tags that they make, and the clusters into which tags fall.
///
/// Room is made first, and then a change can't be refused.
#[derive(Drop)]
pub struct Siblings {
    pub(crate) alloc: Global,
    pub(crate) clusters: Clusters,
    /// By service the services whose pairs it takes.
    pub(crate) orders: Vec<ServiceList>,
    /// By service the ideal tags.
    pub(crate) ends: Vec<ChainEnds>,
}

impl Model for Siblings {
    ghost use Rattle.std.specs.Prelude.{◌-◌, min, if◌then◌else◌, vec_capacity, vec_len};
    ghost use Rattle.sibling_chains.specs.Known.{AreFolded, Known, are_long};

    ghost Value = { Known };

    ghost view = { λ it. record {
      rows = it.clusters.rows;
      ties = it.clusters.ties;
      orders = it.orders.items;
      tags = it.clusters.tags;
      tag_room = it.clusters.tag_room;
      service_room = min (vec_capacity it.orders - vec_len it.orders) (vec_capacity it.ends - vec_len it.ends);
      row_room = (if are_long it.clusters.tags it.ends.items then it.clusters.row_room else 0);
    } };

    ghost invariant = { λ it. AreFolded it.clusters.rows it.orders.items it.ends.items };
}

impl Siblings {
    /// No services and no tags. It takes no memory yet.
    pub fn new(alloc: Global) -> Siblings
        ensures rows { result.rows ≡ [] }
        ensures ties { result.ties ≡ [] }
        ensures orders { result.orders ≡ [] }
        ensures tags { result.tags ≡ 0 }
    {
        Siblings {
            alloc,
            clusters: Clusters::new(alloc),
            orders: Vec::new(alloc),
            ends: Vec::new(alloc),
        }
    }

    /// Makes room for one more service.
    pub fn reserve_service(&mut self) -> Result<(), NoMemory>
        ensures same { self.new ≡ record self.old { service_room = self.new.service_room } }
        ensures ok { OnOk result (1 ≤ self.new.service_room) }
        ensures room { self.old.service_room ≤ self.new.service_room }
    {
        self.orders.reserve(1)?;
        self.ends.reserve(1)?;
        Ok(())
    }

    /// Adds a service, which takes its own pairs alone, in the room that was made.
    pub fn add_service(&mut self)
        requires room { 1 ≤ self.old.service_room }
        requires few { length self.old.orders < MAX_SERVICES }
        ensures rows { self.new.rows ≡ self.old.rows }
        ensures ties { self.new.ties ≡ self.old.ties }
        ensures orders { self.new.orders
            ≡ self.old.orders ++ ((record { 0 = length self.old.orders }) ∷ []) ∷ [] }
        ensures tags { self.new.tags ≡ self.old.tags }
        ensures tag_room { self.new.tag_room ≡ self.old.tag_room }
        ensures room { self.old.service_room ≤ self.new.service_room + 1 }
    {
        let service = ServiceNo(self.orders.len() as u8);
        let mut own = ServiceList::new();
        own.push(service);
        self.orders.push_reserved(own);
        self.ends.push_reserved(ChainEnds::new(self.alloc));
    }

    /// Makes room for one more tag.
    pub fn reserve_tag(&mut self) -> Result<(), NoMemory>
        ensures same { self.new ≡ record self.old { tag_room = self.new.tag_room } }
        ensures ok { OnOk result (1 ≤ self.new.tag_room) }
        ensures room { self.old.tag_room ≤ self.new.tag_room }
    {
        self.clusters.reserve_tag()
    }

    /// Adds a tag, which is its own ideal tag everywhere and a cluster of its own, in the room that was made.
    pub fn add_tag(&mut self)
        requires room { 1 ≤ self.old.tag_room }
        requires few { self.old.tags < MAX_TAGS }
        ensures rows { self.new.rows ≡ self.old.rows }
        ensures ties { self.new.ties ≡ self.old.ties }
        ensures orders { self.new.orders ≡ self.old.orders }
        ensures tags { self.new.tags ≡ self.old.tags + 1 }
        ensures room { self.old.tag_room ≤ self.new.tag_room + 1 }
        ensures service_room { self.new.service_room ≡ self.old.service_room }
    {
        self.clusters.add_tag();
    }

    /// How many services there are.
    pub fn services(&self) -> usize
        ensures { result ≡ length self.now.orders }
    {
        self.orders.len()
    }

    /// How many tags there are.
    pub fn tags(&self) -> u32
        ensures tags { result ≡ self.now.tags }
        ensures few { result ≤ MAX_TAGS }
        ensures known { All (λ row. (row.first.0 < self.now.tags) × (row.second.0 < self.now.tags)) self.now.rows }
    {
        self.clusters.tags()
    }

    /// How many rows there are, removed ones among them.
    pub fn rows_len(&self) -> u32
        ensures rows { result ≡ length self.now.rows }
        ensures few { result ≤ MAX_RELATIONS }
    {
        self.clusters.rows_len()
    }

    /// The row of this number, in order of recording. It counts as one read.
    pub fn row<L: Ledger>(&self, at: u32, steps: &mut Steps<L>) -> RelationRow
        requires { at < length self.now.rows }
        ensures row { slice_get self.now.rows at ≡ Some result }
        ensures steps { steps.new ≡ steps.old + 1 }
    {
        self.clusters.row(at, steps)
    }

    /// The standing good tag of a bad one in a service. It counts as two reads at most.
    pub fn find<L: Ledger>(
        &self,
        service: ServiceNo,
        bad: TagNo,
        steps: &mut Steps<L>,
    ) -> Option<TagNo>
        ensures good { option_map (λ t. t.0) result ≡ good_of (pairs_of self.now.rows service) bad.0 }
        ensures steps { steps.new ≤ steps.old + 2 }
    {
        self.clusters.find(service, bad, steps)
    }

    /// The ideal tag of a tag in a service. It takes no memory, and is one look.
    pub fn ideal(&self, service: ServiceNo, tag: TagNo) -> TagNo
        requires { service.0 < length self.now.orders }
        ensures { result.0 ≡ ideal_in self.now service.0 tag.0 }
    {
        TagNo(self.ends[service.0 as usize].end(tag.0))
    }

    /// The label of a tag's cluster, which is the least tag of it.
    pub fn cluster(&self, tag: TagNo) -> TagNo
        requires { tag.0 < self.now.tags }
        ensures { result.0 ≡ label_in self.now tag.0 }
    {
        TagNo(self.clusters.label(tag.0))
    }

    /// The least tag of a cluster after a place, which may be any number, or the front. It counts as one read.
    pub fn tags_of<L: Ledger>(
        &self,
        label: TagNo,
        after: Option<TagNo>,
        steps: &mut Steps<L>,
    ) -> Option<TagNo>
        ensures next { result ≡ next_tag_of self.now.tags after (λ t. label_in self.now t == label.0) }
        ensures steps { steps.new ≡ steps.old + 1 }
    {
        match self.clusters.next_tag(label.0, start_after(after), steps) {
            Some(tag) => Some(TagNo(tag)),
            None => None,
        }
    }

    /// The tags of the clusters of two tags, ascending, each once. Each counts as two reads, and so does the end.
    pub fn tags_of_two<L: Ledger>(
        &self,
        a: TagNo,
        b: TagNo,
        steps: &mut Steps<L>,
    ) -> Result<Vec<u32>, NoMemory>
        requires a { a.0 < self.now.tags }
        requires b { b.0 < self.now.tags }
        ensures tags { IfOk result (λ v. v.items ≡ tags_of_two self.now a.0 b.0) }
        ensures steps { steps.new ≤ steps.old + 2 * (length (tags_of_two self.now a.0 b.0) + 1) }
    {
        self.clusters.tags_of_two(a.0, b.0, steps)
    }

    /// Plans to record a pair. It makes the clusters of the two tags anew, and changes nothing. A pair is planned too
    /// where there are as many rows as there can be; it can't be recorded then.
    pub fn plan_add<L: Ledger>(
        &mut self,
        service: ServiceNo,
        bad: TagNo,
        good: TagNo,
        steps: &mut Steps<L>,
    ) -> Result<SiblingPlan, NoMemory>
        requires service { service.0 < length self.old.orders }
        requires bad { bad.0 < self.old.tags }
        requires good { good.0 < self.old.tags }
        requires new { good_of (pairs_of self.old.rows service) bad.0 ≡ None }
        ensures same { IsSame self.new self.old }
        ensures fits { IfOk result (λ plan. IsPlanFor plan self.new) }
        ensures after { IfOk result (λ plan. after plan self.new ≡ record self.new {
          rows = self.old.rows
              ++ (record { service = service; first = bad; second = good; standing = true }) ∷ [];
        }) }
        ensures tag_room { self.old.tag_room ≤ self.new.tag_room }
        ensures service_room { self.old.service_room ≤ self.new.service_room }
        ensures steps { steps.new ≤ steps.old + 5 * ((1 + length (rows_of_two self.old bad.0 good.0))
            * (1 + length (tags_of_two self.old bad.0 good.0))) }
    {
        self.reserve_row()?;
        let row = RelationRow {
            service,
            first: bad,
            second: good,
            standing: true,
        };
        let refold = self.fold_two(bad, good, None, Some(row), steps)?;
        Ok(SiblingPlan {
            change: Change::Add(Adding {
                service,
                bad,
                good,
                refold,
            }),
        })
    }

    /// Plans to remove the standing pair of a bad tag. It makes the tag's cluster anew, and changes nothing.
    pub fn plan_remove<L: Ledger>(
        &mut self,
        service: ServiceNo,
        bad: TagNo,
        steps: &mut Steps<L>,
    ) -> Result<SiblingPlan, NoMemory>
        requires bad { bad.0 < self.old.tags }
        requires stands { IsSome (good_of (pairs_of self.old.rows service) bad.0) }
        ensures same { IsSame self.new self.old }
        ensures fits { IfOk result (λ plan. IsPlanFor plan self.new) }
        ensures after { IfOk result (λ plan. after plan self.new ≡ record self.new {
          rows = removed_at (standing_place service.0 bad.0 self.old.rows) self.old.rows;
        }) }
        ensures tag_room { self.old.tag_room ≤ self.new.tag_room }
        ensures service_room { self.old.service_room ≤ self.new.service_room }
        ensures steps { steps.new ≤ steps.old + 5 * ((1 + length (rows_of_two self.old bad.0 bad.0))
            * (1 + length (tags_of_two self.old bad.0 bad.0))) }
    {
        self.reserve_row()?;
        let gone = self.clusters.place_of(service, bad, steps);
        let refold = self.fold_two(bad, bad, gone, None, steps)?;
        Ok(SiblingPlan {
            change: Change::Remove(Removing {
                service,
                bad,
                refold,
            }),
        })
    }

    /// Plans to tie two tags together, as a child and its parent are. Ideal tags stay as they are. It changes
    /// nothing.
    pub fn plan_tie<L: Ledger>(
        &mut self,
        a: TagNo,
        b: TagNo,
        steps: &mut Steps<L>,
    ) -> Result<SiblingPlan, NoMemory>
        requires a { a.0 < self.old.tags }
        requires b { b.0 < self.old.tags }
        ensures same { IsSame self.new self.old }
        ensures fits { IfOk result (λ plan. IsPlanFor plan self.new) }
        ensures after { IfOk result (λ plan. after plan self.new
            ≡ record self.new { ties = self.old.ties ++ (a.0, b.0) ∷ [] }) }
        ensures tag_room { self.old.tag_room ≤ self.new.tag_room }
        ensures service_room { self.old.service_room ≤ self.new.service_room }
        ensures steps { steps.new ≤ steps.old + 5 * ((1 + length (rows_of_two self.old a.0 b.0))
            * (1 + length (tags_of_two self.old a.0 b.0))) }
    {
        self.reserve_row()?;
        let cluster = self.clusters.cluster_of(a.0, b.0, steps)?;
        Ok(SiblingPlan {
            change: Change::Tie(Tying { a, b, cluster }),
        })
    }

    // Makes room for one more row or tie, and for the ends of all tags.
    fn reserve_row(&mut self) -> Result<(), NoMemory>
        ensures same { self.new ≡ record self.old { row_room = self.new.row_room } }
        ensures ok { OnOk result (1 ≤ self.new.row_room) }
    {
        self.clusters.reserve_row()?;
        let tags = self.clusters.tags();
        grow_all(&mut self.ends, tags)
    }

    // The clusters of two tags, and the ends of their tags once a row goes and another comes.
    fn fold_two<L: Ledger>(
        &self,
        a: TagNo,
        b: TagNo,
        gone: Option<u32>,
        added: Option<RelationRow>,
        steps: &mut Steps<L>,
    ) -> Result<Refold, NoMemory>
        requires a { a.0 < self.now.tags }
        requires b { b.0 < self.now.tags }
        requires added { ForSome added (λ row. row.first ≡ a) }
        ensures refold { IfOk result (λ it. IsRefold self.now a.0 b.0 (rows_with added (rows_but gone self.now.rows))
            it) }
        ensures steps { steps.new ≤ steps.old + (4 + (3 * length (rows_of_two self.now a.0 b.0)
            + 2 * length (tags_of_two self.now a.0 b.0))) }
    {
        let cluster = self.clusters.cluster_of(a.0, b.0, steps)?;
        let mut rows = self.clusters.rows_of(cluster.rows.as_slice(), gone, steps)?;
        push_added(&mut rows, added)?;
        let ends = fold_all(
            self.alloc,
            cluster.tags.as_slice(),
            rows.as_slice(),
            self.orders.as_slice(),
        )?;
        Ok(Refold { cluster, ends })
    }
}

fn push_added(rows: &mut Vec<RelationRow>, added: Option<RelationRow>) -> Result<(), NoMemory>
    ensures { OnOk result (rows.new.items ≡ rows_with added rows.old.items) }
{
    if let Some(row) = added {
        rows.push(row)?;
    }
    Ok(())
}

// The first number that comes after a place, or the last of all numbers.
fn start_after(after: Option<TagNo>) -> u32
    ensures before { (t : ℕ) → t < result → is_behind after t ≡ false }
    ensures behind { (t : ℕ) → result ≤ t → t < u32.MAX → is_behind after t ≡ true }
{
    match after {
        Some(tag) => tag.0.saturating_add(1),
        None => 0,
    }
}
