ghost use Rattle.std.specs.Prelude.{◌≡◌, ◌<◌};

use super::{Edit, Link, all_tags, edit_all, link_all, prepare};
use crate::{Parents, TagList};
use media_types::{NoMemory, ServiceNo, Steps, TagNo};
use sibling_chains::Siblings;
use std::alloc::Global;
use std::marker::Brand;
use std::process::Abort;
use std::sync::ledger::{Blank, Ledger};
use std::test::Fail;
use std::thread::Threads;

// The twelve pairs of two of four tags.
const PAIRS: [(u32, u32); 12] = [
    (0, 1),
    (0, 2),
    (0, 3),
    (1, 0),
    (1, 2),
    (1, 3),
    (2, 0),
    (2, 1),
    (2, 3),
    (3, 0),
    (3, 1),
    (3, 2),
];

// Whether pairs lead from one tag, by rows, to another.
type Leads = [[bool; 4]; 4];

fn is_set(set: u32, at: usize) -> bool {
    at < 12 && set >> at & 1 == 1
}

fn lead(leads: &mut Leads, child: u32, parent: u32) {
    if child < 4 && parent < 4 {
        leads[child as usize][parent as usize] = true;
    }
}

// One pass: where two ways meet, they are one.
fn join(leads: &mut Leads) {
    for a in 0..4 {
        for b in 0..4 {
            for c in 0..4 {
                if leads[a][b] && leads[b][c] {
                    leads[a][c] = true;
                }
            }
        }
    }
}

fn ideal_of(ideal: &[u32; 4], tag: u32) -> u32 {
    if tag < 4 { ideal[tag as usize] } else { tag }
}

// Where the pairs of a set lead, read between ideal tags.
fn closure(set: u32, ideal: &[u32; 4]) -> Leads {
    let mut leads = [[false; 4]; 4];
    for (at, pair) in PAIRS.iter().enumerate() {
        if is_set(set, at) {
            lead(&mut leads, ideal_of(ideal, pair.0), ideal_of(ideal, pair.1));
        }
    }
    for _ in 0..4 {
        join(&mut leads);
    }
    leads
}

fn leads_to(leads: &Leads, a: u32, b: u32) -> bool {
    a < 4 && b < 4 && leads[a as usize][b as usize]
}

// The tags that are wanted are there, ascending, and no others.
fn assert_found(rt: &impl Abort, set: u32, tag: u32, found: &TagList, want: &[bool; 4]) {
    let mut at = 0;
    for b in 0..4 {
        if want[b] {
            assert!(rt; at < found.len(), "{set}: tags of {tag}");
            assert_eq!(rt; *found.get(at), TagNo(b as u32), "{set}: tags of {tag}");
            at += 1;
        }
    }
    assert_eq!(rt; at, found.len(), "{set}: tags of {tag}");
}

fn assert_tag<L: Ledger>(
    rt: &impl Abort,
    parents: &Parents,
    siblings: &Siblings,
    steps: &mut Steps<L>,
    set: u32,
    tag: u32,
    implied: &[bool; 4],
    above: &[bool; 4],
) -> Result<(), NoMemory> {
    assert!(rt; 0 < parents.services() && 0 < siblings.services());
    let tags = all_tags(rt, parents, None, siblings, None)?;
    let end = parents.tags();
    assert!(rt; tag < end);
    let service = ServiceNo(0);
    let tag_no = TagNo(tag);
    let found = parents.ancestors(siblings, service, tags.as_slice(), tag_no, end, steps)?;
    assert_found(rt, set, tag, &found, above);
    let found = parents.implied_after(
        None,
        siblings,
        None,
        service,
        tags.as_slice(),
        tag_no,
        end,
        steps,
    )?;
    assert_found(rt, set, tag, &found, implied);
    Ok(())
}

fn assert_tags<L: Ledger>(
    rt: &impl Abort,
    parents: &Parents,
    siblings: &Siblings,
    steps: &mut Steps<L>,
    set: u32,
    ideal: &[u32; 4],
) -> Result<(), NoMemory> {
    let leads = closure(set, ideal);
    for tag in 0..4 {
        let own = ideal_of(ideal, tag);
        let mut implied = [false; 4];
        let mut above = [false; 4];
        for b in 0..4 {
            let is_led_to = leads_to(&leads, own, b);
            implied[b as usize] = b == own || is_led_to;
            above[b as usize] = b != own && is_led_to;
        }
        assert_tag(rt, parents, siblings, steps, set, tag, &implied, &above)?;
    }
    Ok(())
}

// Records each pair of a set, or removes it.
fn turn<L: Ledger>(
    rt: &impl Abort,
    parents: &mut Parents,
    steps: &mut Steps<L>,
    set: u32,
    comes: bool,
) -> Result<(), NoMemory> {
    for (at, pair) in PAIRS.iter().enumerate() {
        if is_set(set, at) {
            let edit = if comes {
                Edit::Add(0, pair.0, pair.1)
            } else {
                Edit::Remove(0, pair.0, pair.1)
            };
            edit_all(rt, parents, steps, &[edit])?;
        }
    }
    Ok(())
}

// Each set of at most three pairs is recorded, and removed.
fn assert_sets<L: Ledger>(
    rt: &impl Abort,
    parents: &mut Parents,
    siblings: &Siblings,
    steps: &mut Steps<L>,
    ideal: &[u32; 4],
) -> Result<(), NoMemory> {
    for set in 0u32..4096 {
        if set.count_ones() <= 3 {
            turn(rt, parents, steps, set, true)?;
            assert_tags(rt, parents, siblings, steps, set, ideal)?;
            turn(rt, parents, steps, set, false)?;
        }
    }
    Ok(())
}

fn assert_within<L: Ledger>(
    rt: &impl Abort,
    parents: &mut Parents,
    siblings: &mut Siblings,
    steps: &mut Steps<L>,
) -> Result<(), NoMemory> {
    prepare(rt, parents, siblings, 4)?;
    assert_sets(rt, parents, siblings, steps, &[0, 1, 2, 3])?;
    link_all(rt, siblings, steps, &[Link::Add(0, 0, 1)])?;
    assert_sets(rt, parents, siblings, steps, &[1, 1, 2, 3])?;
    link_all(rt, siblings, steps, &[Link::Add(0, 3, 2)])?;
    assert_sets(rt, parents, siblings, steps, &[1, 1, 2, 2])
}

fn assert_all<L: Ledger>(
    rt: &(impl Abort + Threads),
    alloc: Global,
    blank: Blank,
) -> Result<(), NoMemory>
    requires name { blank.name ≡ L.name }
    requires parts { blank.parts ≡ L.parts }
    requires some { 0 < L.parts }
{
    let mut steps = Steps::<L>::new(rt, blank);
    let mut parents = Parents::new(alloc);
    let mut siblings = Siblings::new(alloc);
    assert_within(rt, &mut parents, &mut siblings, &mut steps)
}

#[test]
fn every_set_of_three_pairs(rt: HostRuntime) -> Result<(), Fail> {
    assert_all::<Brand>(&rt, rt.alloc(), Blank::new(1))?;
    Ok(())
}
