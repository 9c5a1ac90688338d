ghost use Rattle.std.specs.Prelude.{ℕ, ◌≡◌, ◌+◌, ◌*◌, ◌<◌, ◌≤◌, [], ◌++◌, length, IfOk, OnOk, nat_le, if◌then◌else◌, ◌∷◌, All, ◌≢◌};
ghost use Rattle.std.specs.Option.{ForSome, option_to_list};
ghost use Rattle.media_types.specs.declared.limits.TheConstants.{MAX_HASHES, MAX_WORDS};
ghost use Rattle.vp_tree.specs.Building.{is_built, IsBuiltWhole, IsPlanFor, IsRebuilt};
ghost use Rattle.vp_tree.specs.Marking.{mark_of};
ghost use Rattle.vp_tree.specs.Nodes.{has_node, node_at, size, words_in};
ghost use Rattle.vp_tree.specs.Placing.{CanTake, IsPlaced, way};
ghost use Rattle.vp_tree.specs.Searching.{filter_of, hit, opens_inner, opens_outer, open_inner, open_outer, reads};
ghost use Rattle.vp_tree.specs.Shape.{IsTree};

use crate::branch::{collect_points, replace_nodes};
use crate::building::build_nodes;
use crate::hits::HitList;
use crate::marking::find_lopsided;
use crate::node::NodeView;
use crate::placing::grow_way;
use crate::plan::{BuildPlan, InsertPlan};
use crate::table::NodeTable;
use media_types::{Hash64, HashNo, MAX_HASHES, NoMemory, Steps, distance};
use std::alloc::Global;
use std::marker::Model;
use std::sync::ledger::Ledger;

/// A metric tree over distinct words. Each is named by its number: its place in the order in which
/// they were inserted.
///
/// Contracts see it as the list of its nodes, and the room for more.
#[derive(Drop)]
pub struct Tree {
    alloc: Global,
    table: NodeTable,
}

impl Model for Tree {
    ghost use Rattle.vp_tree.specs.declared.node.NodeView.{NodeView};
    ghost use Rattle.spare_tables.specs.Table.{Table};
    ghost use Rattle.vp_tree.specs.Shape.{IsTree};

    ghost Value = { Table NodeView };

    ghost view = { λ tree. tree.table };

    ghost invariant = { λ tree. IsTree tree.table.rows };
}

impl Tree {
    /// The tree of no words. It takes no memory yet.
    pub fn new(alloc: Global) -> Tree
        ensures { result.rows ≡ [] }
    {
        Tree {
            alloc,
            table: NodeTable::new(alloc),
        }
    }

    /// The number of words, at most `MAX_WORDS`.
    pub fn len(&self) -> u32
        ensures len { result ≡ length self.now.rows }
        ensures tree { IsTree self.now.rows }
    {
        self.table.len() as u32
    }

    /// All that is kept of a node. It counts as two reads.
    pub fn node<L: Ledger>(&self, at: HashNo, steps: &mut Steps<L>) -> NodeView
        requires { at.0 < length self.now.rows }
        ensures node { result ≡ node_at self.now.rows at.0 }
        ensures steps { steps.new ≡ steps.old + 2 }
    {
        self.table.node(at, steps)
    }

    /// Makes room for a word, and for as many as a file has, so that the new words of one file are all
    /// planned before the first is placed. It changes nothing else.
    pub fn plan_insert(&mut self, word: Hash64) -> Result<InsertPlan, NoMemory>
        requires few { length self.old.rows < MAX_WORDS }
        requires other { All (λ node. node.word ≢ word) self.old.rows }
        ensures rows { self.new.rows ≡ self.old.rows }
        ensures plan { IfOk result (λ plan. plan.word ≡ word) }
        ensures ready { OnOk result (CanTake self.new word) }
        ensures room { OnOk result (MAX_HASHES ≤ self.new.spare) }
        ensures spare { self.old.spare ≤ self.new.spare }
    {
        self.table.reserve(MAX_HASHES)?;
        Ok(InsertPlan { word })
    }

    /// Places the word of a plan, and gives it its number.
    ///
    /// Where a branch on the word's way is lopsided then and has grown, the second number is the highest
    /// such node's, whose branch is to be built anew.
    ///
    /// It reads the nodes on the word's way, which may be all nodes where their distances are alike: once to
    /// place the word, and then again, with the first nodes of their parts, up to the one that it tells.
    pub fn commit_insert<L: Ledger>(
        &mut self,
        plan: InsertPlan,
        steps: &mut Steps<L>,
    ) -> (HashNo, Option<HashNo>)
        requires { CanTake self.old plan.word }
        ensures placed { IsPlaced self.old.rows self.new.rows plan.word }
        ensures words { words_in self.new.rows ≡ words_in self.old.rows ++ plan.word ∷ [] }
        ensures spare { self.old.spare ≤ self.new.spare + 1 }
        ensures number { result.0.0 ≡ length self.old.rows }
        ensures branch { result.1 ≡ mark_of self.new.rows plan.word }
        ensures inside { ForSome result.1 (λ branch. branch.0 < length self.new.rows) }
        ensures steps { steps.new ≤ steps.old + length (way self.old.rows plan.word)
            + 4 * length (way self.new.rows plan.word) }
    {
        let number = HashNo(self.len());
        grow_way(&mut self.table, number, plan.word, steps);
        self.table.push_leaf(plan.word);
        (number, find_lopsided(&self.table, plan.word, steps))
    }

    /// Works out how the branch at a node is built anew: its least number is the point of its first
    /// node, at least half of the others lie within that node's radius, and each part is built likewise.
    ///
    /// It reads each node of the branch once, and takes all the memory. The tree stays as it is.
    pub fn plan_build<L: Ledger>(
        &self,
        top: HashNo,
        steps: &mut Steps<L>,
    ) -> Result<BuildPlan, NoMemory>
        requires { top.0 < length self.now.rows }
        ensures top { IfOk result (λ plan. plan.top ≡ top) }
        ensures ready { IfOk result (IsPlanFor self.now.rows) }
        ensures steps { OnOk result (steps.new ≡ steps.old + size self.now.rows top.0) }
        ensures at_most { steps.new ≤ steps.old + size self.now.rows top.0 }
    {
        let points = collect_points(&self.table, self.alloc, top, steps)?;
        let nodes = build_nodes(self.alloc, points)?;
        Ok(BuildPlan { top, nodes })
    }

    /// The nodes that a plan builds, each with its number: those of the branch.
    pub fn nodes_of<'a>(&self, plan: &'a BuildPlan) -> &'a [(HashNo, NodeView)]
        requires { IsPlanFor self.now.rows plan.now }
        ensures { (k : ℕ) → is_built result.now k ≡ has_node self.now.rows plan.now.top.0 k }
    {
        let _table = &self.table;
        &plan.nodes
    }

    /// Puts the branch of a plan that was made for this very tree in the place of the one it has.
    pub fn commit_build(&mut self, plan: BuildPlan)
        requires { IsPlanFor self.old.rows plan }
        ensures rebuilt { IsRebuilt self.old.rows self.new.rows plan.top.0 }
        ensures words { words_in self.new.rows ≡ words_in self.old.rows }
        ensures whole { plan.top.0 ≡ 0 → IsBuiltWhole self.new.rows }
        ensures spare { self.new.spare ≡ self.old.spare }
    {
        replace_nodes(&mut self.table, &plan);
    }

    /// The words within a distance of the query.
    ///
    /// It reads only the branches that the distance doesn't rule out: few where it is small, and all
    /// nodes where it is large. It takes memory for the words that it finds and for the branches that
    /// are still to be read.
    pub fn search<L: Ledger>(
        &self,
        query: Hash64,
        within: u32,
        steps: &mut Steps<L>,
    ) -> Result<HitList, NoMemory>
        ensures found { IfOk result (λ hits. hits ≡ filter_of self.now.rows query within) }
        ensures steps { OnOk result (steps.new ≡ steps.old + reads self.now.rows query within) }
        ensures at_most { steps.new ≤ steps.old + reads self.now.rows query within }
    {
        let mut hits = Vec::new(self.alloc);
        let mut stack = Vec::new(self.alloc);
        if self.len() > 0 {
            stack.push(HashNo(0))?;
        }
        while let Some(at) = stack.pop() {
            self.visit(at, query, within, &mut stack, &mut hits, steps)?;
        }
        hits.sort_unstable_by_key(|hit: &(HashNo, u32)| hit.0.0);
        Ok(HitList::from_rows(hits))
    }

    /// Reads a node: puts it to the hits where it is one, and the parts that may have hits on the stack.
    fn visit<L: Ledger>(
        &self,
        at: HashNo,
        query: Hash64,
        within: u32,
        stack: &mut Vec<HashNo>,
        hits: &mut Vec<(HashNo, u32)>,
        steps: &mut Steps<L>,
    ) -> Result<(), NoMemory>
        requires { at.0 < length self.now.rows }
        ensures stack { OnOk result (let node = node_at self.now.rows at.0 in
            stack.new.items ≡ stack.old.items ++ option_to_list (open_inner node query within)
            ++ option_to_list (open_outer node query within)) }
        ensures hits { OnOk result (let found = hit self.now.rows query at.0 in
            hits.new.items ≡ (if nat_le found.1 within then hits.old.items ++ found ∷ [] else hits.old.items)) }
        ensures steps { steps.new ≡ steps.old + 1 }
    {
        let node = self.table.read(at, steps);
        let away = distance(query, node.word);
        if away <= within {
            hits.push((at, away))?;
        }
        if let Some(radius) = node.radius.bits() {
            let radius = u64::from(radius);
            if u64::from(away) <= radius + u64::from(within)
                && let Some(inner) = node.inner.child()
            {
                stack.push(inner)?;
            }
            if u64::from(away) + u64::from(within) > radius
                && let Some(outer) = node.outer.child()
            {
                stack.push(outer)?;
            }
        }
        Ok(())
    }
}
