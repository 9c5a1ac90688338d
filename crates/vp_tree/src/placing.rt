ghost use Rattle.std.specs.Prelude.{ℕ, ◌≡◌, ◌+◌, ◌<◌, ◌^◌, length, if◌then◌else◌};
ghost use Rattle.vp_tree.specs.Nodes.{node_at};
ghost use Rattle.vp_tree.specs.Placing.{grown, is_on, next_of, way};
ghost use Rattle.vp_tree.specs.Shape.{IsTree};
ghost use Rattle.vp_tree.specs.Stored.{IsStorable};

use crate::node::NodeView;
use crate::table::NodeTable;
use media_types::{Hash64, HashNo, Steps, distance};
use std::sync::ledger::Ledger;

/// The first node of the part to which a word leads.
pub fn next_part(node: NodeView, word: Hash64) -> Option<HashNo>
    ensures { result ≡ next_of node word }
{
    let radius = node.radius?;
    if distance(word, node.word) <= u32::from(radius) {
        node.inner
    } else {
        node.outer
    }
}

/// The node once a new point is below it.
fn grow(node: NodeView, number: HashNo, word: Hash64) -> NodeView
    requires below { node.below + 1 < 2 ^ 32 }
    requires number { number.0 < 0xffff_ffff }
    requires storable { IsStorable node }
    ensures grown { result ≡ grown number word node }
    ensures storable { IsStorable result }
{
    let away = distance(word, node.word);
    let below = node.below + 1;
    match node.radius {
        None => NodeView {
            radius: Some(away as u8),
            inner: Some(number),
            below,
            ..node
        },
        Some(radius) if away <= u32::from(radius) => NodeView {
            inner: Some(node.inner.unwrap_or(number)),
            below,
            ..node
        },
        Some(_) => NodeView {
            outer: Some(node.outer.unwrap_or(number)),
            below,
            ..node
        },
    }
}

/// Counts a new point at each node on the way of its word, and hangs its number at the last.
pub fn grow_way<L: Ledger>(
    table: &mut NodeTable,
    number: HashNo,
    word: Hash64,
    steps: &mut Steps<L>,
)
    requires tree { IsTree table.old.rows }
    requires number { number.0 ≡ length table.old.rows }
    ensures len { length table.new.rows ≡ length table.old.rows }
    ensures each { (k : ℕ) → k < length table.old.rows
        → node_at table.new.rows k ≡ (if is_on (way table.old.rows word) k
        then grown number word (node_at table.old.rows k) else node_at table.old.rows k) }
    ensures spare { table.new.spare ≡ table.old.spare }
    ensures steps { steps.new ≡ steps.old + length (way table.old.rows word) }
{
    let mut next = if number.0 == 0 { None } else { Some(HashNo(0)) };
    while let Some(at) = next {
        let node = table.take(at, steps);
        next = next_part(node, word);
        table.set(at, grow(node, number, word));
    }
}
