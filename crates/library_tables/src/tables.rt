ghost use Rattle.std.specs.Prelude.{◌≡◌, ◌≤◌, ◌+◌, [], IfOk, OnErr, OnOk};
ghost use Rattle.vp_tree.specs.Building.{IsBuiltWhole};
ghost use Rattle.vp_tree.specs.Marking.{ArePlaced, IsRebalanced};
ghost use Rattle.tree_upkeep.specs.Marks.{marked_size};
ghost use Rattle.library_machine.specs.Needs as machine;
ghost use Rattle.library_machine.specs.Records.{Fits, Records, no_records};
ghost use Rattle.library_tables.specs.Preparing.{Leads, words_placed};
ghost use Rattle.library_tables.specs.Tables.{HasWords, marked_tree, records_of};

use crate::plan::TablesPlan;
use crate::tag_pairs::first_relations;
use decision_book::Book;
use file_records::Files;
use media_base::{FileNo, HashNo, NoMemory, SearchDistance, Steps};
use potential_pairs::Pairs;
use relation_groups::Groups;
use std::alloc::Global;
use std::marker::Model;
use std::sync::ledger::Ledger;
use tag_relations::TagRelations;
use tag_store::{Mappings, Services, Tags};
use tree_upkeep::Upkeep;
use vp_tree::Tree;

/// The tables of a library: its files, its decisions, the groups that the standing decisions make of the
/// files, the tree of their hashes, their near pairs with the potential pairs of groups, the queue of those
/// that are to be searched, and the marks of the tree's nodes. A change is planned first, which takes all
/// memory, and then it can't be refused.
#[derive(Drop)]
pub struct Tables {
    pub(crate) alloc: Global,
    pub(crate) files: Files,
    pub(crate) book: Book,
    pub(crate) groups: Groups,
    /// The distinct hashes of the files.
    pub(crate) tree: Tree,
    /// The near pairs of the files, and the potential pairs that they make of the groups.
    pub(crate) pairs: Pairs,
    /// The files that are to be searched, and the nodes of the tree whose branches are to be built anew.
    pub(crate) upkeep: Upkeep,
    /// Within which files are searched.
    pub(crate) distance: SearchDistance,
    pub(crate) tags: Tags,
    pub(crate) services: Services,
    /// The tags that are mapped to files.
    pub(crate) mappings: Mappings,
    /// The sibling pairs and the parent pairs of tags.
    pub(crate) relations: TagRelations,
}

impl Model for Tables {
    ghost use Rattle.library_tables.specs.Tables.{TablesView, AreInStep};

    ghost Value = { TablesView };

    ghost view = { λ t. record {
      files = t.files;
      book = t.book;
      groups = t.groups;
      tree = t.tree;
      pairs = t.pairs;
      work = t.upkeep;
      distance = t.distance;
      tags = t.tags;
      services = t.services;
      mappings = t.mappings;
      relations = t.relations;
    } };

    ghost invariant = { λ t. AreInStep (record {
      files = t.files;
      book = t.book;
      groups = t.groups;
      tree = t.tree;
      pairs = t.pairs;
      work = t.upkeep;
      distance = t.distance;
      tags = t.tags;
      services = t.services;
      mappings = t.mappings;
      relations = t.relations;
    }) };
}

impl Tables {
    /// Nothing is recorded. It takes memory for one service.
    pub fn new(alloc: Global) -> Result<Tables, NoMemory>
        ensures records { IfOk result (λ tables. records_of tables ≡ no_records) }
        ensures tree { IfOk result (λ tables. tables.tree.rows ≡ []) }
        ensures marks { IfOk result (λ tables. tables.work.marks ≡ []) }
    {
        let relations = first_relations(alloc)?;
        Ok(Tables {
            alloc,
            files: Files::new(alloc),
            book: Book::new(alloc),
            groups: Groups::new(alloc),
            tree: Tree::new(alloc),
            pairs: Pairs::new(alloc),
            upkeep: Upkeep::new(alloc),
            distance: SearchDistance::first(),
            tags: Tags::new(alloc),
            services: Services::new(),
            mappings: Mappings::new(alloc),
            relations,
        })
    }

    pub(crate) fn has_file(&self, file: FileNo) -> bool
        ensures { result ≡ machine.has_file (records_of self.now) file }
    {
        file.0 < self.files.len()
    }

    /// Makes a planned change. It takes no memory.
    pub fn commit<L: Ledger>(&mut self, plan: TablesPlan, steps: &mut Steps<L>)
        requires { (after : Records) × Leads plan self.old after }
        ensures records { (after : Records) → Leads plan self.old after → records_of self.new ≡ after }
        ensures tree { ArePlaced (marked_tree self.old) (words_placed plan) (marked_tree self.new) }
        ensures words { HasWords self.new.tree.rows (records_of self.new) }
        ensures steps { words_placed plan ≡ [] → steps.new ≡ steps.old }
    {
        match plan {
            TablesPlan::Import(plan) => self.commit_import(plan, steps),
            TablesPlan::Live(plan) => self.commit_live(plan),
            TablesPlan::Decide(plan) => self.commit_decide(plan),
            TablesPlan::Undo(plan) => self.commit_undo(plan),
            TablesPlan::Distance(plan) => self.commit_distance(plan),
            TablesPlan::Search(plan) => self.commit_search(plan),
            TablesPlan::Service => self.commit_service(),
            TablesPlan::Orders(plan) => self.commit_orders(plan),
            TablesPlan::Mapping(plan) => self.commit_mapping(plan),
            TablesPlan::Pair(plan) => self.commit_pair(plan),
        }
    }

    /// Gives a planned change up.
    pub fn withdraw(&mut self, plan: TablesPlan)
        ensures records { records_of self.new ≡ records_of self.old }
        ensures tree { marked_tree self.new ≡ marked_tree self.old }
    {
        match plan {
            TablesPlan::Import(plan) => self.files.withdraw(plan.file),
            TablesPlan::Live(_)
            | TablesPlan::Decide(_)
            | TablesPlan::Undo(_)
            | TablesPlan::Distance(_)
            | TablesPlan::Search(_)
            | TablesPlan::Service
            | TablesPlan::Orders(_)
            | TablesPlan::Mapping(_)
            | TablesPlan::Pair(_) => {}
        }
    }

    /// Builds the tree of all words anew. No node is marked then.
    pub fn build_tree<L: Ledger>(&mut self, steps: &mut Steps<L>) -> Result<(), NoMemory>
        ensures records { records_of self.new ≡ records_of self.old }
        ensures fits { Fits (records_of self.new) }
        ensures whole { OnOk result (IsBuiltWhole self.new.tree.rows) }
        ensures unmarked { self.new.work.marks ≡ [] }
        ensures words { HasWords self.new.tree.rows (records_of self.new) }
    {
        self.upkeep.clear_marks();
        if self.tree.len() == 0 {
            return Ok(());
        }
        let plan = self.tree.plan_build(HashNo(0), steps)?;
        self.tree.commit_build(plan);
        Ok(())
    }

    /// Builds the branch at the lowest marked node anew, if one is marked.
    pub(crate) fn rebalance<L: Ledger>(&mut self, steps: &mut Steps<L>) -> Result<(), NoMemory>
        ensures records { records_of self.new ≡ records_of self.old }
        ensures rebalanced { OnOk result (IsRebalanced (marked_tree self.old) (marked_tree self.new)) }
        ensures err { OnErr result (marked_tree self.new ≡ marked_tree self.old) }
        ensures words { HasWords self.new.tree.rows (records_of self.new) }
        ensures reads { steps.new ≤ steps.old + (1 + marked_size self.old.tree.rows self.old.work.marks) }
    {
        let plan = self.upkeep.plan_rebuild(&self.tree, steps)?;
        self.upkeep.commit_rebuild(&mut self.tree, plan);
        Ok(())
    }
}
