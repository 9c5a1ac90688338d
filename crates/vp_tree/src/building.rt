ghost use Rattle.std.specs.Prelude.{ℕ, ◌≡◌, ◌==◌, ◌<◌, ◌≤◌, ◌++◌, map, length, IfOk, OnOk, count_by, slice_index};
ghost use Rattle.media_types.specs.Distance.{distance_of};
ghost use Rattle.media_types.specs.declared.limits.TheConstants.{MAX_WORDS};
ghost use Rattle.vp_tree.specs.Building.{points_within, points_beyond, least_radius, radius_over, first_number, built_of, first_built, left_parts};

use crate::node::NodeView;
use media_types::{Hash64, HashNo, NoMemory, distance};
use std::alloc::Global;

/// The number of a node with its word.
#[derive(Clone, Copy, Debug)]
pub struct Point {
    pub number: HashNo,
    pub word: Hash64,
}

/// How many points lie at each distance from a point.
fn count_distances(point: Point, others: &[Point]) -> [u32; 65]
    requires { length others.now ≤ MAX_WORDS }
    ensures { (d : ℕ) → d < 65
        → slice_index result d ≡ count_by (λ q. distance_of q.word point.word == d) others.now }
{
    let mut counts = [0u32; 65];
    for other in others {
        counts[distance(other.word, point.word) as usize] += 1;
    }
    counts
}

/// The least radius within which at least half of the others lie.
fn find_radius(point: Point, others: &[Point]) -> u8
    requires { length others.now ≤ MAX_WORDS }
    ensures least { result ≡ least_radius point others.now }
    ensures at_most { result ≤ 64 }
{
    let counts = count_distances(point, others);
    let mut within: usize = 0;
    for radius in 0..64u8 {
        within += counts[radius as usize] as usize;
        if 2 * within >= others.len() {
            return radius;
        }
    }
    64
}

fn select_within(
    alloc: Global,
    point: Point,
    others: &[Point],
    radius: u8,
) -> Result<Vec<Point>, NoMemory>
    ensures { IfOk result (λ ps. ps.items ≡ points_within point others.now radius) }
{
    let is_inner = |other: &Point| distance(other.word, point.word) <= u32::from(radius);
    Ok(others.iter().copied().filter(is_inner).collect(alloc)?)
}

fn select_beyond(
    alloc: Global,
    point: Point,
    others: &[Point],
    radius: u8,
) -> Result<Vec<Point>, NoMemory>
    ensures { IfOk result (λ ps. ps.items ≡ points_beyond point others.now radius) }
{
    let is_outer = |other: &Point| distance(other.word, point.word) > u32::from(radius);
    Ok(others.iter().copied().filter(is_outer).collect(alloc)?)
}

fn number_of_first(points: &[Point]) -> Option<HashNo>
    ensures { result ≡ first_number points.now }
{
    match points {
        [] => None,
        [first, ..] => Some(first.number),
    }
}

fn radius_where_any(point: Point, others: &[Point], radius: u8) -> Option<u8>
    requires { radius ≡ least_radius point others.now }
    ensures { result ≡ radius_over point others.now }
{
    match others {
        [] => None,
        [_, ..] => Some(radius),
    }
}

/// Builds the node of the first point, and leaves its two parts to be built.
fn build_first(
    alloc: Global,
    points: &[Point],
    nodes: &mut Vec<(HashNo, NodeView)>,
    stack: &mut Vec<Vec<Point>>,
) -> Result<(), NoMemory>
    requires { length points.now ≤ MAX_WORDS }
    ensures nodes { OnOk result (nodes.new.items ≡ nodes.old.items ++ first_built points.now) }
    ensures stack { OnOk result (map (λ v. v.items) stack.new.items
        ≡ map (λ v. v.items) stack.old.items ++ left_parts points.now) }
{
    let [point, others @ ..] = points else {
        return Ok(());
    };
    let radius = find_radius(*point, others);
    let inner = select_within(alloc, *point, others, radius)?;
    let outer = select_beyond(alloc, *point, others, radius)?;
    let others_len = others.len() as u32;
    let node = NodeView {
        word: point.word,
        radius: radius_where_any(*point, others, radius),
        inner: number_of_first(&inner),
        outer: number_of_first(&outer),
        below: others_len,
        built: others_len,
    };
    nodes.push((point.number, node))?;
    stack.push(outer)?;
    stack.push(inner)?;
    Ok(())
}

/// The nodes of points that are built.
///
/// The parts that are left stand on a stack of their own, since a tree may be as deep as it has nodes.
pub fn build_nodes(alloc: Global, points: Vec<Point>) -> Result<Vec<(HashNo, NodeView)>, NoMemory>
    requires { length points.items ≤ MAX_WORDS }
    ensures { IfOk result (λ nodes. nodes.items ≡ built_of points.items) }
{
    let mut nodes = Vec::with_capacity(alloc, points.len())?;
    let mut stack = Vec::new(alloc);
    stack.push(points)?;
    while let Some(part) = stack.pop() {
        build_first(alloc, &part, &mut nodes, &mut stack)?;
    }
    Ok(nodes)
}
