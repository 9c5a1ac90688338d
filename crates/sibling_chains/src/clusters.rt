ghost use Rattle.std.specs.Prelude.{◌≡◌, ◌==◌, ℕ, ◌+◌, ◌*◌, ◌<◌, ◌≤◌, [], ◌∷◌, ◌++◌, true, min, length, map, filter, All, None, Some, IfOk, OnOk, slice_get, slice_index_or, vec_len};
ghost use Rattle.std.specs.List.{range_with_len};
ghost use Rattle.std.specs.Option.{option_map};
ghost use Rattle.tag_types.specs.declared.limits.TheConstants.{MAX_RELATIONS, MAX_TAGS};
ghost use Rattle.sibling_chains.specs.Clusters.{rows_within};
ghost use Rattle.sibling_chains.specs.Following.{good_of};
ghost use Rattle.sibling_chains.specs.Grouping.{IsNext};
ghost use Rattle.sibling_chains.specs.Recorded.{no_row, pairs_of, removed_at, standing_at, standing_place};
ghost use Rattle.sibling_chains.specs.Clustered.{IsClusterOf, is_of_two, label_of, rows_but};

use crate::cluster::Cluster;
use crate::grouped::Grouped;
use crate::pair_rows::PairRows;
use crate::relation_row::RelationRow;
use media_types::{NoMemory, ServiceNo, Steps, TagNo};
use spare_tables::Rows;
use std::alloc::Global;
use std::marker::Model;
use std::sync::ledger::Ledger;

/// The rows of sibling pairs and the other ties of tags, with the clusters into which the tags fall.
#[derive(Drop)]
pub struct Clusters {
    alloc: Global,
    pairs: PairRows,
    ties: Rows<(u32, u32)>,
    /// The tags of each cluster.
    tags: Grouped,
    /// The rows of each cluster, removed ones among them.
    rows: Grouped,
}

impl Model for Clusters {
    ghost use Rattle.std.specs.Prelude.{min, length};
    ghost use Rattle.sibling_chains.specs.Clustered.{AreClustered, Clustered};

    ghost Value = { Clustered };

    ghost view = { λ it. record {
      rows = it.pairs.rows;
      ties = it.ties.rows;
      tags = length it.tags.labels;
      tag_room = it.tags.spare;
      row_room = min it.pairs.spare (min it.ties.spare it.rows.spare);
    } };

    ghost invariant = { λ it. AreClustered it.pairs.rows it.ties.rows it.tags.labels it.rows.labels };
}

impl Clusters {
    /// No tags. It takes no memory yet.
    pub fn new(alloc: Global) -> Clusters
        ensures rows { result.rows ≡ [] }
        ensures ties { result.ties ≡ [] }
        ensures tags { result.tags ≡ 0 }
    {
        Clusters {
            alloc,
            pairs: PairRows::new(alloc),
            ties: Rows::new(alloc),
            tags: Grouped::new(alloc),
            rows: Grouped::new(alloc),
        }
    }

    /// Makes room for one more tag.
    pub fn reserve_tag(&mut self) -> Result<(), NoMemory>
        ensures same { self.new ≡ record self.old { tag_room = self.new.tag_room } }
        ensures ok { OnOk result (1 ≤ self.new.tag_room) }
        ensures room { self.old.tag_room ≤ self.new.tag_room }
    {
        self.tags.reserve()
    }

    /// Adds a tag, in a cluster of its own, in the room that was made.
    pub fn add_tag(&mut self)
        requires room { 1 ≤ self.old.tag_room }
        requires few { self.old.tags < MAX_TAGS }
        ensures rows { self.new.rows ≡ self.old.rows }
        ensures ties { self.new.ties ≡ self.old.ties }
        ensures tags { self.new.tags ≡ self.old.tags + 1 }
        ensures room { self.old.tag_room ≤ self.new.tag_room + 1 }
    {
        let tag = self.tags.len();
        self.tags.push(tag);
    }

    /// Makes room for one more row or tie.
    pub fn reserve_row(&mut self) -> Result<(), NoMemory>
        ensures same { self.new ≡ record self.old { row_room = self.new.row_room } }
        ensures ok { OnOk result (1 ≤ self.new.row_room) }
        ensures room { self.old.row_room ≤ self.new.row_room }
    {
        self.pairs.reserve()?;
        self.ties.reserve(1)?;
        self.rows.reserve()?;
        Ok(())
    }

    /// How many tags there are.
    pub fn tags(&self) -> u32
        ensures tags { result ≡ self.now.tags }
        ensures few { result ≤ MAX_TAGS }
        ensures known { All (λ row. (row.first.0 < self.now.tags) × (row.second.0 < self.now.tags)) self.now.rows }
    {
        let _pairs = &self.pairs;
        self.tags.len()
    }

    /// How many rows there are, removed ones among them.
    pub fn rows_len(&self) -> u32
        ensures rows { result ≡ length self.now.rows }
        ensures few { result ≤ MAX_RELATIONS }
    {
        self.pairs.len()
    }

    /// The row of this number. It counts as one read.
    pub fn row<L: Ledger>(&self, at: u32, steps: &mut Steps<L>) -> RelationRow
        requires { at < length self.now.rows }
        ensures row { slice_get self.now.rows at ≡ Some result }
        ensures known { result.first.0 < self.now.tags }
        ensures steps { steps.new ≡ steps.old + 1 }
    {
        let _tags = &self.tags;
        self.pairs.row(at, steps)
    }

    /// The number of the standing row of a service and a bad tag. It counts as one read.
    pub fn place_of<L: Ledger>(
        &self,
        service: ServiceNo,
        bad: TagNo,
        steps: &mut Steps<L>,
    ) -> Option<u32>
        ensures place { result ≡ standing_at service.0 bad.0 self.now.rows }
        ensures steps { steps.new ≡ steps.old + 1 }
    {
        self.pairs.place_of(service, bad, steps)
    }

    /// The standing good tag of a bad one. It counts as two reads at most.
    pub fn find<L: Ledger>(
        &self,
        service: ServiceNo,
        bad: TagNo,
        steps: &mut Steps<L>,
    ) -> Option<TagNo>
        ensures good { option_map (λ t. t.0) result ≡ good_of (pairs_of self.now.rows service) bad.0 }
        ensures steps { steps.new ≤ steps.old + 2 }
    {
        self.pairs.find(service, bad, steps)
    }

    /// The label of a tag's cluster.
    pub fn label(&self, tag: u32) -> u32
        requires { tag < self.now.tags }
        ensures { result ≡ label_of self.now.rows self.now.ties tag }
    {
        let _pairs = &self.pairs;
        self.tags.label(tag)
    }

    /// The least tag of a cluster that isn't below another. It counts as one read.
    pub fn next_tag<L: Ledger>(&self, label: u32, from: u32, steps: &mut Steps<L>) -> Option<u32>
        ensures next { IsNext self.now.tags (λ t. label_of self.now.rows self.now.ties t == label) from
            result }
        ensures few { self.now.tags ≤ MAX_TAGS }
        ensures steps { steps.new ≡ steps.old + 1 }
    {
        let _pairs = &self.pairs;
        self.tags.next(label, from, steps)
    }

    /// The tags of the clusters of two tags, ascending. Each is two reads, and so is the end.
    pub fn tags_of_two<L: Ledger>(
        &self,
        a: u32,
        b: u32,
        steps: &mut Steps<L>,
    ) -> Result<Vec<u32>, NoMemory>
        requires a_known { a < self.now.tags }
        requires b_known { b < self.now.tags }
        ensures tags { IfOk result (λ v. v.items
            ≡ filter (is_of_two self.now.rows self.now.ties a b) (range_with_len 0 self.now.tags)) }
        ensures steps { steps.new ≤ steps.old
            + 2 * (length (filter (is_of_two self.now.rows self.now.ties a b) (range_with_len 0 self.now.tags)) + 1) }
    {
        let a = self.label(a);
        let b = self.label(b);
        self.tags.members(self.alloc, a, b, steps)
    }

    /// The clusters of two tags, which may be the same one. Each of its tags and rows is two reads, and so are
    /// the two ends.
    pub fn cluster_of<L: Ledger>(
        &self,
        a: u32,
        b: u32,
        steps: &mut Steps<L>,
    ) -> Result<Cluster, NoMemory>
        requires a_known { a < self.now.tags }
        requires b_known { b < self.now.tags }
        ensures cluster { IfOk result (λ it. IsClusterOf self.now a b it) }
        ensures steps { let S = is_of_two self.now.rows self.now.ties a b in
            steps.new ≤ steps.old + (2 * (length (filter S (range_with_len 0 self.now.tags)) + 1)
            + 2 * (length (rows_within S self.now.rows) + 1)) }
    {
        let a = self.label(a);
        let b = self.label(b);
        let tags = self.tags.members(self.alloc, a, b, steps)?;
        let rows = self.rows.members(self.alloc, a, b, steps)?;
        Ok(Cluster {
            label: lesser_label(a, b),
            tags,
            rows,
        })
    }

    // A row, which is read as removed where it is the one that goes.
    fn row_but<L: Ledger>(&self, at: u32, gone: Option<u32>, steps: &mut Steps<L>) -> RelationRow
        requires { at < length self.now.rows }
        ensures row { result ≡ slice_index_or (rows_but gone self.now.rows) at no_row }
        ensures steps { steps.new ≡ steps.old + 1 }
    {
        let row = self.pairs.row(at, steps);
        match gone {
            Some(number) if number == at => RelationRow {
                standing: false,
                ..row
            },
            _ => row,
        }
    }

    /// The rows of these numbers, of which one may be read as removed. Each is a read.
    pub fn rows_of<L: Ledger>(
        &self,
        numbers: &[u32],
        gone: Option<u32>,
        steps: &mut Steps<L>,
    ) -> Result<Vec<RelationRow>, NoMemory>
        requires { All (λ n. n < length self.now.rows) numbers.now }
        ensures rows { IfOk result (λ rows. rows.items
            ≡ map (λ n. slice_index_or (rows_but gone self.now.rows) n no_row) numbers.now) }
        ensures steps { steps.new ≤ steps.old + length numbers.now }
    {
        let mut rows = Vec::new(self.alloc);
        for number in numbers {
            rows.push(self.row_but(*number, gone, steps))?;
        }
        Ok(rows)
    }

    /// Records a pair, in the room that was made.
    pub fn add(&mut self, service: ServiceNo, bad: TagNo, good: TagNo, cluster: &Cluster)
        requires room { 1 ≤ self.old.row_room }
        requires few { length self.old.rows < MAX_RELATIONS }
        requires bad_known { bad.0 < self.old.tags }
        requires good_known { good.0 < self.old.tags }
        requires new { good_of (pairs_of self.old.rows service) bad.0 ≡ None }
        requires cluster { IsClusterOf self.old bad.0 good.0 cluster.now }
        ensures rows { self.new.rows ≡ self.old.rows
            ++ (record { service = service; first = bad; second = good; standing = true }) ∷ [] }
        ensures ties { self.new.ties ≡ self.old.ties }
        ensures tags { self.new.tags ≡ self.old.tags }
        ensures room { self.old.tag_room ≤ self.new.tag_room }
    {
        self.tags.put_all(cluster.tags.as_slice(), cluster.label);
        self.rows.put_all(cluster.rows.as_slice(), cluster.label);
        self.rows.push(cluster.label);
        self.pairs.push(service, bad, good);
    }

    /// Removes the standing pair of a bad tag, where it has one. The row keeps its number.
    pub fn remove(&mut self, service: ServiceNo, bad: TagNo)
        ensures rows { self.new.rows
            ≡ removed_at (standing_place service.0 bad.0 self.old.rows) self.old.rows }
        ensures ties { self.new.ties ≡ self.old.ties }
        ensures tags { self.new.tags ≡ self.old.tags }
        ensures room { self.old.tag_room ≤ self.new.tag_room }
    {
        self.pairs.remove(service, bad);
    }

    /// Ties two tags together, in the room that was made.
    pub fn tie(&mut self, a: TagNo, b: TagNo, cluster: &Cluster)
        requires room { 1 ≤ self.old.row_room }
        requires a_known { a.0 < self.old.tags }
        requires b_known { b.0 < self.old.tags }
        requires cluster { IsClusterOf self.old a.0 b.0 cluster.now }
        ensures rows { self.new.rows ≡ self.old.rows }
        ensures ties { self.new.ties ≡ self.old.ties ++ (a.0, b.0) ∷ [] }
        ensures tags { self.new.tags ≡ self.old.tags }
        ensures room { self.old.tag_room ≤ self.new.tag_room }
    {
        self.tags.put_all(cluster.tags.as_slice(), cluster.label);
        self.rows.put_all(cluster.rows.as_slice(), cluster.label);
        self.ties.push((a.0, b.0));
    }
}

fn lesser_label(a: u32, b: u32) -> u32
    ensures { result ≡ min a b }
{
    a.min(b)
}
