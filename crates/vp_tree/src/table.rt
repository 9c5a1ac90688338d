ghost use Rattle.std.specs.Prelude.{◌≡◌, ◌+◌, ◌<◌, ◌≤◌, [], ◌∷◌, ◌++◌, length, OnOk, slice_set};
ghost use Rattle.vp_tree.specs.Nodes.{leaf, node_at};
ghost use Rattle.vp_tree.specs.Stored.{IsStorable, searched, seen, uncounted};

use crate::link::Link;
use crate::node::{Counts, Node, NodeView};
use crate::radius::Radius;
use media_types::{Hash64, HashNo, NoMemory, Steps};
use spare_tables::Rows;
use std::alloc::Global;
use std::marker::Model;
use std::sync::ledger::Ledger;

/// The nodes of a tree by number. What a search reads lies in a table of its own.
#[derive(Drop)]
pub struct NodeTable {
    nodes: Rows<Node>,
    counts: Rows<Counts>,
}

impl Model for NodeTable {
    ghost use Rattle.std.specs.Prelude.{◌≡◌, min, length};
    ghost use Rattle.vp_tree.specs.declared.node.NodeView.{NodeView};
    ghost use Rattle.spare_tables.specs.Table.{Table};

    ghost Value = { Table NodeView };

    ghost use Rattle.vp_tree.specs.Stored.{joined};

    ghost view = { λ table. record {
      rows = joined table.nodes.rows table.counts.rows;
      spare = min table.nodes.spare table.counts.spare;
    } };

    ghost invariant = { λ table. length table.counts.rows ≡ length table.nodes.rows };
}

impl NodeTable {
    pub fn new(alloc: Global) -> NodeTable
        ensures { result.rows ≡ [] }
    {
        NodeTable {
            nodes: Rows::new(alloc),
            counts: Rows::new(alloc),
        }
    }

    pub fn len(&self) -> usize
        ensures { result ≡ length self.now.rows }
    {
        self.nodes.len() as usize
    }

    /// All of a node. It counts as two reads, one of each table.
    pub fn node<L: Ledger>(&self, at: HashNo, steps: &mut Steps<L>) -> NodeView
        requires { at.0 < length self.now.rows }
        ensures node { result ≡ node_at self.now.rows at.0 }
        ensures steps { steps.new ≡ steps.old + 2 }
    {
        let at = u64::from(at.0);
        let node = self.nodes.get(at, steps);
        let counts = *self.counts.get(at, steps);
        view_of(node, counts)
    }

    /// How many points are below a node. It counts as one read.
    pub fn below<L: Ledger>(&self, at: HashNo, steps: &mut Steps<L>) -> u32
        requires { at.0 < length self.now.rows }
        ensures below { result ≡ (node_at self.now.rows at.0).below }
        ensures steps { steps.new ≡ steps.old + 1 }
    {
        self.counts.get(u64::from(at.0), steps).below
    }

    /// All of a node that is to be written anew. Until then the table holds it without its counts. It counts
    /// as one read.
    pub fn take<L: Ledger>(&mut self, at: HashNo, steps: &mut Steps<L>) -> NodeView
        requires { at.0 < length self.old.rows }
        ensures node { result ≡ node_at self.old.rows at.0 }
        ensures storable { IsStorable result }
        ensures rows { self.new.rows ≡ slice_set self.old.rows at.0 (uncounted result) }
        ensures spare { self.new.spare ≡ self.old.spare }
        ensures steps { steps.new ≡ steps.old + 1 }
    {
        let at = u64::from(at.0);
        let counts = self.counts.exchange(at, NO_COUNTS);
        view_of(self.nodes.get(at, steps), counts)
    }

    /// What a search reads of a node. It counts as one read.
    pub fn read<L: Ledger>(&self, at: HashNo, steps: &mut Steps<L>) -> &Node
        requires { at.0 < length self.now.rows }
        ensures node { result.now ≡ searched (node_at self.now.rows at.0) }
        ensures steps { steps.new ≡ steps.old + 1 }
    {
        self.nodes.get(u64::from(at.0), steps)
    }

    /// Makes room for so many more nodes.
    pub fn reserve(&mut self, n: usize) -> Result<(), NoMemory>
        ensures rows { self.new.rows ≡ self.old.rows }
        ensures ok { OnOk result (n ≤ self.new.spare) }
        ensures spare { self.old.spare ≤ self.new.spare }
    {
        self.nodes.reserve(n)?;
        self.counts.reserve(n)
    }

    /// Puts a node without children last, in the room that was made.
    pub fn push_leaf(&mut self, word: Hash64)
        requires { 1 ≤ self.old.spare }
        ensures rows { self.new.rows ≡ self.old.rows ++ leaf word ∷ [] }
        ensures spare { self.old.spare ≤ self.new.spare + 1 }
    {
        self.nodes.push(Node {
            word,
            inner: Link::new(None),
            outer: Link::new(None),
            radius: Radius::new(None),
        });
        self.counts.push(NO_COUNTS);
    }

    pub fn set(&mut self, at: HashNo, node: NodeView)
        requires at { at.0 < length self.old.rows }
        requires storable { IsStorable node }
        ensures rows { self.new.rows ≡ slice_set self.old.rows at.0 node }
        ensures spare { self.new.spare ≡ self.old.spare }
    {
        let at = u64::from(at.0);
        let searched = Node {
            word: node.word,
            inner: Link::new(node.inner),
            outer: Link::new(node.outer),
            radius: Radius::new(node.radius),
        };
        self.nodes.set(at, searched);
        let counts = Counts {
            below: node.below,
            built: node.built,
        };
        self.counts.set(at, counts);
    }
}

// The counts of a node that has none yet.
const NO_COUNTS: Counts = Counts { below: 0, built: 0 };

fn view_of(node: &Node, counts: Counts) -> NodeView
    ensures view { result ≡ seen node.now counts }
    ensures storable { IsStorable result }
{
    NodeView {
        word: node.word,
        radius: node.radius.bits(),
        inner: node.inner.child(),
        outer: node.outer.child(),
        below: counts.below,
        built: counts.built,
    }
}
