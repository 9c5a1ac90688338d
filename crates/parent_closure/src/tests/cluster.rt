ghost use Rattle.std.specs.Prelude.{◌≡◌, ◌<◌};

use super::{Edit, Link, assert_tags, edit_all, link_all, prepare};
use crate::{Parents, implied_by};
use media_types::{NoMemory, ServiceNo, Steps};
use sibling_chains::Siblings;
use std::alloc::Global;
use std::marker::Brand;
use std::process::Abort;
use std::sync::ledger::{Blank, Ledger};
use std::test::Fail;
use std::thread::Threads;

// Two clusters: 0, 1 and 2, of which 2 has the ideal tag 0, and 3 and 4.
fn assert_clusters<L: Ledger>(
    rt: &impl Abort,
    alloc: Global,
    parents: &mut Parents,
    siblings: &mut Siblings,
    steps: &mut Steps<L>,
) -> Result<(), NoMemory> {
    prepare(rt, parents, siblings, 5)?;
    link_all(rt, siblings, steps, &[Link::Add(0, 2, 0)])?;
    let edits = [
        Edit::Add(0, 2, 1),
        Edit::Add(0, 3, 4),
        Edit::Add(0, 1, 0),
        Edit::Remove(0, 1, 0),
    ];
    edit_all(rt, parents, steps, &edits)?;
    assert!(rt; 0 < parents.services() && 0 < siblings.services());
    let pairs = parents.pairs_among(None, siblings, None, ServiceNo(0), &[0, 1, 2], steps)?;
    assert_eq!(rt; pairs.as_slice(), [(0, 1)].as_slice());
    let first = implied_by(alloc, pairs.as_slice(), 0, 5)?;
    assert_tags(rt, 0, &first, &[0, 1]);
    let last = implied_by(alloc, pairs.as_slice(), 1, 5)?;
    assert_tags(rt, 1, &last, &[1]);
    let pairs = parents.pairs_among(None, siblings, None, ServiceNo(0), &[4, 3], steps)?;
    assert_eq!(rt; pairs.as_slice(), [(3, 4)].as_slice());
    Ok(())
}

fn assert_session<L: Ledger>(
    rt: &(impl Abort + Threads),
    alloc: Global,
    blank: Blank,
) -> Result<(), NoMemory>
    requires name { blank.name ≡ L.name }
    requires parts { blank.parts ≡ L.parts }
    requires some { 0 < L.parts }
{
    let mut steps = Steps::<L>::new(rt, blank);
    let mut parents = Parents::new(alloc);
    let mut siblings = Siblings::new(alloc);
    assert_clusters(rt, alloc, &mut parents, &mut siblings, &mut steps)
}

#[test]
fn the_pairs_of_a_cluster_are_read_alone(rt: HostRuntime) -> Result<(), Fail> {
    assert_session::<Brand>(&rt, rt.alloc(), Blank::new(1))?;
    Ok(())
}
