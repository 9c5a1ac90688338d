ghost use Rattle.std.specs.Prelude.{◌≡◌, ◌<◌, ◌≤◌, ◌+◌, [], ◌∷◌, ◌++◌, length, IfOk, OnOk};
ghost use Rattle.std.specs.Option.{option_to_list};
ghost use Rattle.vp_tree.specs.Building.{point_at, points, IsPlanFor, IsRebuilt};
ghost use Rattle.vp_tree.specs.Nodes.{node_at, size};
ghost use Rattle.vp_tree.specs.Shape.{IsTree};

use crate::building::Point;
use crate::plan::BuildPlan;
use crate::table::NodeTable;
use media_types::{HashNo, NoMemory, Steps};
use std::alloc::Global;
use std::sync::ledger::Ledger;

fn push_part(stack: &mut Vec<HashNo>, part: Option<HashNo>) -> Result<(), NoMemory>
    ensures { OnOk result (stack.new.items ≡ stack.old.items ++ option_to_list part) }
{
    if let Some(part) = part {
        stack.push(part)?;
    }
    Ok(())
}

/// Reads a node: takes its point, and puts its parts on the stack.
fn collect_point<L: Ledger>(
    table: &NodeTable,
    at: HashNo,
    points: &mut Vec<Point>,
    stack: &mut Vec<HashNo>,
    steps: &mut Steps<L>,
) -> Result<(), NoMemory>
    requires { at.0 < length table.now.rows }
    ensures points { OnOk result (points.new.items ≡ points.old.items ++ point_at table.now.rows at.0 ∷ []) }
    ensures stack { OnOk result (let node = node_at table.now.rows at.0 in
        stack.new.items ≡ stack.old.items ++ option_to_list node.inner ++ option_to_list node.outer) }
    ensures steps { steps.new ≡ steps.old + 1 }
{
    let node = table.read(at, steps);
    points.push(Point {
        number: at,
        word: node.word,
    })?;
    push_part(stack, node.inner.child())?;
    push_part(stack, node.outer.child())
}

/// The points of a branch, ascending by number.
pub fn collect_points<L: Ledger>(
    table: &NodeTable,
    alloc: Global,
    top: HashNo,
    steps: &mut Steps<L>,
) -> Result<Vec<Point>, NoMemory>
    requires tree { IsTree table.now.rows }
    requires top { top.0 < length table.now.rows }
    ensures points { IfOk result (λ ps. ps.items ≡ points table.now.rows top.0) }
    ensures steps { OnOk result (steps.new ≡ steps.old + size table.now.rows top.0) }
    ensures at_most { steps.new ≤ steps.old + size table.now.rows top.0 }
{
    let mut points = Vec::new(alloc);
    let mut stack = Vec::new(alloc);
    stack.push(top)?;
    while let Some(at) = stack.pop() {
        collect_point(table, at, &mut points, &mut stack, steps)?;
    }
    points.sort_unstable_by_key(|point: &Point| point.number.0);
    Ok(points)
}

/// Puts each node of a plan in the place of the one that had its number.
pub fn replace_nodes(table: &mut NodeTable, plan: &BuildPlan)
    requires tree { IsTree table.old.rows }
    requires plan { IsPlanFor table.old.rows plan.now }
    ensures rebuilt { IsRebuilt table.old.rows table.new.rows plan.now.top.0 }
    ensures spare { table.new.spare ≡ table.old.spare }
{
    for (number, node) in &plan.nodes {
        table.set(*number, *node);
    }
}
