ghost use Rattle.std.specs.Prelude.{◌≡◌, ◌<◌};

use super::{Edit, Link, all_tags, assert_tags, edit_all, link_all, prepare};
use crate::Parents;
use media_types::{NoMemory, ServiceNo, Steps, TagNo};
use sibling_chains::Siblings;
use std::alloc::Global;
use std::marker::Brand;
use std::process::Abort;
use std::sync::ledger::{Blank, Ledger};
use std::test::Fail;
use std::thread::Threads;

// By tag the ancestors, in a service.
fn assert_ancestors<L: Ledger>(
    rt: &impl Abort,
    parents: &Parents,
    siblings: &Siblings,
    steps: &mut Steps<L>,
    service: u8,
    want: &[&[u32]],
) -> Result<(), NoMemory> {
    assert!(rt; (service as usize) < parents.services());
    assert!(rt; (service as usize) < siblings.services());
    let tags = all_tags(rt, parents, None, siblings, None)?;
    let end = parents.tags();
    let mut tag = 0;
    for list in want {
        assert!(rt; tag < end);
        let found = parents.ancestors(
            siblings,
            ServiceNo(service),
            tags.as_slice(),
            TagNo(tag),
            end,
            steps,
        )?;
        assert_tags(rt, tag, &found, list);
        tag += 1;
    }
    Ok(())
}

// What some pairs make of the ancestors in service 0 and in service 1, by tag.
#[derive(Drop)]
struct Row<'a> {
    links: &'a [Link],
    edits: &'a [Edit<'a>],
    want: &'a [&'a [u32]],
    other: &'a [&'a [u32]],
}

fn assert_within<L: Ledger>(
    rt: &impl Abort,
    parents: &mut Parents,
    siblings: &mut Siblings,
    steps: &mut Steps<L>,
    row: &Row,
) -> Result<(), NoMemory> {
    prepare(rt, parents, siblings, 5)?;
    link_all(rt, siblings, steps, row.links)?;
    edit_all(rt, parents, steps, row.edits)?;
    assert_ancestors(rt, parents, siblings, steps, 0, row.want)?;
    assert_ancestors(rt, parents, siblings, steps, 1, row.other)
}

fn assert_row<L: Ledger>(
    rt: &(impl Abort + Threads),
    alloc: Global,
    blank: Blank,
    row: &Row,
) -> Result<(), NoMemory>
    requires name { blank.name ≡ L.name }
    requires parts { blank.parts ≡ L.parts }
    requires some { 0 < L.parts }
{
    let mut steps = Steps::<L>::new(rt, blank);
    let mut parents = Parents::new(alloc);
    let mut siblings = Siblings::new(alloc);
    assert_within(rt, &mut parents, &mut siblings, &mut steps, row)
}

// No tag has an ancestor.
const NONE: [&[u32]; 5] = [&[], &[], &[], &[], &[]];

#[test]
fn pairs_make_ancestors(rt: HostRuntime) -> Result<(), Fail> {
    let rows = [
        // 0 and 1 lead to each other, and 2 has the ideal tag 0.
        Row {
            links: &[Link::Add(0, 2, 0)],
            edits: &[Edit::Add(0, 0, 1), Edit::Add(0, 1, 0)],
            want: &[&[1], &[0], &[1], &[], &[]],
            other: &NONE,
        },
        Row {
            links: &[Link::Add(0, 2, 0)],
            edits: &[
                Edit::Add(0, 0, 1),
                Edit::Add(0, 1, 0),
                Edit::Remove(0, 0, 1),
            ],
            want: &[&[], &[0], &[], &[], &[]],
            other: &NONE,
        },
        // A chain, whose pairs are recorded in another order.
        Row {
            links: &[],
            edits: &[
                Edit::Add(0, 2, 3),
                Edit::Add(0, 0, 1),
                Edit::Add(0, 3, 4),
                Edit::Add(0, 1, 2),
            ],
            want: &[&[1, 2, 3, 4], &[2, 3, 4], &[3, 4], &[4], &[]],
            other: &NONE,
        },
        // Two ways lead from 0 to 3.
        Row {
            links: &[],
            edits: &[
                Edit::Add(0, 0, 1),
                Edit::Add(0, 0, 2),
                Edit::Add(0, 1, 3),
                Edit::Add(0, 2, 3),
            ],
            want: &[&[1, 2, 3], &[3], &[3], &[], &[]],
            other: &NONE,
        },
        Row {
            links: &[],
            edits: &[
                Edit::Add(0, 0, 1),
                Edit::Add(0, 0, 2),
                Edit::Add(0, 1, 3),
                Edit::Add(0, 2, 3),
                Edit::Remove(0, 1, 3),
            ],
            want: &[&[1, 2, 3], &[], &[3], &[], &[]],
            other: &NONE,
        },
        // A loop that the ideal tag of 3 is in.
        Row {
            links: &[Link::Add(0, 3, 1)],
            edits: &[Edit::Add(0, 0, 1), Edit::Add(0, 1, 2), Edit::Add(0, 2, 0)],
            want: &[&[1, 2], &[0, 2], &[0, 1], &[0, 2], &[]],
            other: &NONE,
        },
        // A pair of a tag with itself, and one that becomes it between ideal tags.
        Row {
            links: &[Link::Add(0, 2, 3)],
            edits: &[
                Edit::Add(0, 0, 0),
                Edit::Add(0, 0, 1),
                Edit::Add(0, 2, 3),
                Edit::Add(0, 4, 2),
            ],
            want: &[&[1], &[], &[], &[], &[3]],
            other: &NONE,
        },
        // A pair that is recorded again.
        Row {
            links: &[],
            edits: &[
                Edit::Add(0, 0, 1),
                Edit::Remove(0, 0, 1),
                Edit::Add(0, 0, 1),
            ],
            want: &[&[1], &[], &[], &[], &[]],
            other: &NONE,
        },
    ];
    for row in &rows {
        assert_row::<Brand>(&rt, rt.alloc(), Blank::new(1), row)?;
    }
    Ok(())
}

#[test]
fn services_take_each_others_pairs(rt: HostRuntime) -> Result<(), Fail> {
    let rows = [
        // The pairs of a service that isn't in the list add nothing.
        Row {
            links: &[],
            edits: &[Edit::Add(1, 0, 1), Edit::Add(0, 1, 2)],
            want: &[&[], &[2], &[], &[], &[]],
            other: &[&[1], &[], &[], &[], &[]],
        },
        Row {
            links: &[],
            edits: &[
                Edit::Add(1, 0, 1),
                Edit::Add(0, 1, 2),
                Edit::Order(0, &[0, 1]),
            ],
            want: &[&[1, 2], &[2], &[], &[], &[]],
            other: &[&[1], &[], &[], &[], &[]],
        },
        // Not even its own.
        Row {
            links: &[],
            edits: &[
                Edit::Add(1, 0, 1),
                Edit::Add(0, 1, 2),
                Edit::Order(0, &[1]),
                Edit::Order(1, &[]),
            ],
            want: &[&[1], &[], &[], &[], &[]],
            other: &NONE,
        },
        // A pair of both, removed in one.
        Row {
            links: &[],
            edits: &[
                Edit::Add(0, 0, 1),
                Edit::Add(1, 0, 1),
                Edit::Order(0, &[1, 0]),
                Edit::Remove(1, 0, 1),
            ],
            want: &[&[1], &[], &[], &[], &[]],
            other: &NONE,
        },
        // The siblings are those of the service that takes the pair.
        Row {
            links: &[Link::Add(1, 1, 3)],
            edits: &[Edit::Add(1, 0, 1), Edit::Order(0, &[0, 1])],
            want: &[&[1], &[], &[], &[], &[]],
            other: &[&[3], &[], &[], &[], &[]],
        },
    ];
    for row in &rows {
        assert_row::<Brand>(&rt, rt.alloc(), Blank::new(1), row)?;
    }
    Ok(())
}
