ghost use Rattle.std.specs.Prelude.{◌≡◌, ◌<◌, ◌≤◌, ◌+◌, ◌*◌, length};
ghost use Rattle.std.specs.Option.{ForSome};
ghost use Rattle.vp_tree.specs.Marking.{mark_of, part_size, is_lopsided as IsLopsided};
ghost use Rattle.vp_tree.specs.Placing.{way};
ghost use Rattle.vp_tree.specs.Shape.{IsTree};

use crate::node::NodeView;
use crate::placing::next_part;
use crate::table::NodeTable;
use media_types::{Hash64, HashNo, Steps};
use std::sync::ledger::Ledger;

// A smaller branch is searched as fast as it can be built, and a greater one takes long to build.
const LEAST_BELOW: u64 = 16;

const MOST_BELOW: u64 = 16_384;

/// How many points a part has.
fn count_part<L: Ledger>(table: &NodeTable, part: Option<HashNo>, steps: &mut Steps<L>) -> u64
    requires { ForSome part (λ c. c.0 < length table.now.rows) }
    ensures count { result ≡ part_size table.now.rows part }
    ensures at_most { result ≤ 4294967296 }
    ensures steps { steps.new ≤ steps.old + 1 }
{
    let Some(first) = part else {
        return 0;
    };
    u64::from(table.below(first, steps)) + 1
}

/// Whether the branch of a node is to be built anew.
fn is_lopsided<L: Ledger>(table: &NodeTable, node: NodeView, steps: &mut Steps<L>) -> bool
    requires inner { ForSome node.inner (λ c. c.0 < length table.now.rows) }
    requires outer { ForSome node.outer (λ c. c.0 < length table.now.rows) }
    ensures lopsided { result ≡ IsLopsided table.now.rows node }
    ensures steps { steps.new ≤ steps.old + 2 }
{
    let inner = count_part(table, node.inner, steps);
    let outer = count_part(table, node.outer, steps);
    let below = u64::from(node.below);
    let is_of_size = LEAST_BELOW <= below && below <= MOST_BELOW;
    let leans = 3 * below < 4 * inner.max(outer);
    let has_grown = 5 * u64::from(node.built) <= 4 * below;
    is_of_size && (leans && has_grown)
}

/// The highest node on the way of a word whose branch is to be built anew.
pub fn find_lopsided<L: Ledger>(
    table: &NodeTable,
    word: Hash64,
    steps: &mut Steps<L>,
) -> Option<HashNo>
    requires tree { IsTree table.now.rows }
    requires some { 0 < length table.now.rows }
    ensures marked { result ≡ mark_of table.now.rows word }
    ensures inside { ForSome result (λ at. at.0 < length table.now.rows) }
    ensures steps { steps.new ≤ steps.old + 4 * length (way table.now.rows word) }
{
    let mut next = Some(HashNo(0));
    while let Some(at) = next {
        let node = table.node(at, steps);
        if is_lopsided(table, node, steps) {
            return Some(at);
        }
        next = next_part(node, word);
    }
    None
}
