ghost use Rattle.std.specs.Prelude.{◌≡◌, ◌⊎◌, ◌+◌, ◌<◌, ◌≤◌, true, false, Some, [], length, min, take, option_map, slice_get, IfOk, OnOk, OnErr};
ghost use Rattle.std.specs.Bool.{OnTrue, OnFalse};
ghost use Rattle.media_types.specs.declared.limits.TheConstants.{MAX_HASHES};
ghost use Rattle.vp_tree.specs.Marking.{with_mark, IsRebalanced};
ghost use Rattle.vp_tree.specs.Nodes.{words_in};
ghost use Rattle.tree_upkeep.specs.Marks.{marked_size, AreNodes, IsRebuildOf};
ghost use Rattle.tree_upkeep.specs.Queue.{Ascend, noted};

use crate::marks::unmark;
use crate::queue_plan::QueuePlan;
use media_types::{FileList, FileNo, HashNo, MAX_HASHES, NoMemory, Steps};
use spare_tables::KeySet;
use std::alloc::Global;
use std::marker::Model;
use std::sync::ledger::Ledger;
use vp_tree::{BuildPlan, Tree};

/// The files that are to be searched, and the marked nodes of the tree, whose branches are to be built anew.
/// Both ascend.
///
/// Room is made first, and then a change of them can't be refused.
#[derive(Drop)]
#[derive_where(Debug)]
pub struct Upkeep {
    files: KeySet<FileNo>,
    /// The numbers of the marked nodes.
    marks: KeySet<u32>,
    #[derive_where(skip(Debug))]
    alloc: Global,
}

impl Model for Upkeep {
    ghost use Rattle.tree_upkeep.specs.Queue.{Work, Ascend};

    ghost Value = { Work };

    ghost view = { λ upkeep. record {
      queue = upkeep.files.rows;
      spare = upkeep.files.spare;
      marks = upkeep.marks.rows;
      mark_spare = upkeep.marks.spare;
    } };

    ghost invariant = { λ upkeep. Ascend upkeep.files.rows };
}

impl Upkeep {
    /// An empty queue, no marks, and no room. It takes no memory yet.
    pub fn new(alloc: Global) -> Upkeep
        ensures queue { result.queue ≡ [] }
        ensures spare { result.spare ≡ 0 }
        ensures marks { result.marks ≡ [] }
    {
        Upkeep {
            files: KeySet::new(alloc),
            marks: KeySet::new(alloc),
            alloc,
        }
    }

    /// Makes room for one file more, and for as many marks as a file has hashes. It moves no file of the queue.
    pub fn reserve(&mut self) -> Result<(), NoMemory>
        ensures queue { self.new.queue ≡ self.old.queue }
        ensures marks { self.new.marks ≡ self.old.marks }
        ensures ok { OnOk result (1 ≤ self.new.spare) }
        ensures mark_room { OnOk result (MAX_HASHES ≤ self.new.mark_spare) }
        ensures err { OnErr result ((self.old.spare ≡ 0) ⊎ (self.old.mark_spare < MAX_HASHES)) }
        ensures spare { self.old.spare ≤ self.new.spare }
        ensures mark_spare { self.old.mark_spare ≤ self.new.mark_spare }
    {
        self.files.reserve(1)?;
        self.marks.reserve(MAX_HASHES)
    }

    /// Puts a file into the queue, in the room that was made, or takes it out. Files of one page of the queue
    /// may move.
    pub fn note(&mut self, file: FileNo, queued: bool)
        requires { OnTrue queued (1 ≤ self.old.spare) }
        ensures queue { self.new.queue ≡ noted file queued self.old.queue }
        ensures ascending { Ascend self.new.queue }

        // Only a file that is put in takes room.
        ensures spare { self.old.spare ≤ self.new.spare + 1 }
        ensures taken_out { OnFalse queued (self.old.spare ≤ self.new.spare) }
        ensures marks { self.new.marks ≡ self.old.marks }
        ensures mark_spare { self.new.mark_spare ≡ self.old.mark_spare }
    {
        if queued {
            self.files.insert(file);
        } else {
            self.files.remove(file);
        }
    }

    /// The number of files in the queue. A caller that sees the queue alone learns here that it ascends.
    pub fn queue_len(&self) -> u64
        ensures files { result ≡ length self.now.queue }
        ensures ascending { Ascend self.now.queue }
    {
        self.files.len()
    }

    /// The lowest files of the queue, as many as asked for, or all where there are fewer. Each is a read,
    /// and one more may be needed to see that there are no more.
    pub fn next_search<L: Ledger>(&self, n: u32, steps: &mut Steps<L>) -> Result<FileList, NoMemory>
        ensures files { IfOk result (λ files. files ≡ take n self.now.queue) }
        ensures ascending { IfOk result Ascend }
        ensures reads { IfOk result (λ files. steps.old + length files ≤ steps.new) }
        ensures few_reads { steps.new ≤ steps.old + min n (length self.now.queue) + 1 }
    {
        let given = self.files.len().min(u64::from(n)) as usize;
        let mut files = FileList::with_room(self.alloc, given)?;
        let mut walk = self.files.walk();
        for _ in 0..given {
            let Some(file) = walk.next(steps) else {
                unreachable!()
            };
            files.push(file)?;
        }
        Ok(files)
    }

    /// Takes all the memory that the queue of these files needs.
    pub fn plan_queue(&mut self, files: &FileList) -> Result<QueuePlan, NoMemory>
        requires { Ascend files.now }
        ensures plan { IfOk result (λ plan. plan ≡ files.now) }
        ensures queue { self.new.queue ≡ self.old.queue }
        ensures marks { self.new.marks ≡ self.old.marks }
        ensures spare { self.old.spare ≤ self.new.spare }
    {
        let mut planned = KeySet::new(self.alloc);
        planned.reserve(files.len())?;
        put_in_order(&mut planned, files.as_slice());
        Ok(QueuePlan { files: planned })
    }

    /// Puts the planned queue in place of the old one. Its room is its own: what was made before is gone.
    pub fn commit_queue(&mut self, plan: QueuePlan)
        ensures queue { self.new.queue ≡ plan }
        ensures ascending { Ascend self.new.queue }
        ensures marks { self.new.marks ≡ self.old.marks }
    {
        self.files = plan.files;
    }

    /// Marks a node, in the room that was made.
    pub fn mark(&mut self, node: HashNo)
        requires { 1 ≤ self.old.mark_spare }
        ensures marks { self.new.marks ≡ with_mark (Some node) self.old.marks }
        ensures mark_spare { self.old.mark_spare ≤ self.new.mark_spare + 1 }
        ensures queue { self.new.queue ≡ self.old.queue }
        ensures spare { self.new.spare ≡ self.old.spare }
    {
        self.marks.insert(node.0);
    }

    /// Takes all marks away, and their room.
    pub fn clear_marks(&mut self)
        ensures marks { self.new.marks ≡ [] }
        ensures queue { self.new.queue ≡ self.old.queue }
        ensures spare { self.new.spare ≡ self.old.spare }
    {
        self.marks = KeySet::new(self.alloc);
    }

    /// The lowest marked node, if one is marked. It counts as one read.
    pub fn marked<L: Ledger>(&self, steps: &mut Steps<L>) -> Option<HashNo>
        ensures lowest { option_map (λ node. node.0) result ≡ slice_get self.now.marks 0 }
        ensures steps { steps.new ≡ steps.old + 1 }
    {
        Some(HashNo(self.marks.walk().next(steps)?))
    }

    /// Works out how the branch at the lowest marked node is built anew, if one is marked. It reads each node of
    /// the branch, and takes all the memory.
    pub fn plan_rebuild<L: Ledger>(
        &self,
        tree: &Tree,
        steps: &mut Steps<L>,
    ) -> Result<Option<BuildPlan>, NoMemory>
        requires { AreNodes tree.now.rows self.now.marks }
        ensures plan { IfOk result (IsRebuildOf tree.now.rows self.now.marks) }
        ensures reads { steps.new ≤ steps.old + (1 + marked_size tree.now.rows self.now.marks) }
    {
        let Some(top) = self.marked(steps) else {
            return Ok(None);
        };
        Ok(Some(tree.plan_build(top, steps)?))
    }

    /// Puts the branch of a plan that was made for this very tree in the place of the one it has, and takes the
    /// marks of its nodes away.
    pub fn commit_rebuild(&mut self, tree: &mut Tree, plan: Option<BuildPlan>)
        requires { IsRebuildOf tree.old.rows self.old.marks plan }
        ensures rebalanced { IsRebalanced (record { nodes = tree.old.rows; marks = self.old.marks })
            (record { nodes = tree.new.rows; marks = self.new.marks }) }
        ensures words { words_in tree.new.rows ≡ words_in tree.old.rows }
        ensures tree_spare { tree.new.spare ≡ tree.old.spare }
        ensures mark_spare { self.old.mark_spare ≤ self.new.mark_spare }
        ensures queue { self.new.queue ≡ self.old.queue }
        ensures spare { self.new.spare ≡ self.old.spare }
    {
        if let Some(plan) = plan {
            unmark(&mut self.marks, tree.nodes_of(&plan));
            tree.commit_build(plan);
        }
    }
}

// Puts ascending files into a set that has none, in the room that was made.
fn put_in_order(set: &mut KeySet<FileNo>, files: &[FileNo])
    requires none { set.old.rows ≡ [] }
    requires room { length files.now ≤ set.old.spare }
    requires ascending { Ascend files.now }
    ensures { set.new.rows ≡ files.now }
{
    for file in files {
        set.insert(*file);
    }
}
