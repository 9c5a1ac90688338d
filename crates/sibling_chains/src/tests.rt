ghost use Rattle.std.specs.Prelude.{◌≡◌, ◌<◌};
ghost use Rattle.sibling_chains.specs.Planning.{IsPlanFor};

use super::*;
use media_types::{NoMemory, ServiceNo, Steps, TagNo};
use std::alloc::Global;
use std::marker::Brand;
use std::process::Abort;
use std::sync::ledger::{Blank, Ledger};
use std::test::Fail;
use std::thread::Threads;
use tag_types::{MAX_RELATIONS, MAX_SERVICES, MAX_TAGS, ServiceList};

// What is done to the siblings.
#[derive(Clone, Copy)]
enum Act {
    Add(u8, u32, u32),
    Remove(u8, u32),
    Tie(u32, u32),
}

// Two services and some tags. Service 0 takes its own pairs and then those of service 1.
fn two_services(rt: &impl Abort, siblings: &mut Siblings, tags: u32) -> Result<(), NoMemory> {
    for _ in 0..2 {
        siblings.reserve_service()?;
        assert!(rt; siblings.services() < MAX_SERVICES);
        siblings.add_service();
    }
    for _ in 0..tags {
        siblings.reserve_tag()?;
        assert!(rt; siblings.tags() < MAX_TAGS);
        siblings.add_tag();
    }
    Ok(())
}

fn take_both<L: Ledger>(
    rt: &impl Abort,
    siblings: &mut Siblings,
    steps: &mut Steps<L>,
) -> Result<(), NoMemory> {
    let mut both = ServiceList::new();
    both.push(ServiceNo(0));
    assert!(rt; !both.contains(ServiceNo(1)) && both.len() < MAX_SERVICES);
    both.push(ServiceNo(1));
    assert!(rt; 0 < siblings.services());
    let plan = siblings.plan_order(ServiceNo(0), &both, steps)?;
    commit(rt, siblings, plan);
    Ok(())
}

fn commit(rt: &impl Abort, siblings: &mut Siblings, plan: SiblingPlan)
    requires { IsPlanFor plan siblings.old }
{
    let rows = siblings.rows_len();
    assert!(rt; rows < MAX_RELATIONS);
    siblings.commit(plan);
}

fn add<L: Ledger>(
    rt: &impl Abort,
    siblings: &mut Siblings,
    steps: &mut Steps<L>,
    service: ServiceNo,
    bad: TagNo,
    good: TagNo,
) -> Result<(), NoMemory> {
    assert!(rt; (service.0 as usize) < siblings.services() && bad.0 < siblings.tags());
    assert!(rt; good.0 < siblings.tags() && siblings.rows_len() < MAX_RELATIONS);
    match siblings.find(service, bad, steps) {
        Some(_) => Ok(()),
        None => {
            let plan = siblings.plan_add(service, bad, good, steps)?;
            assert!(rt; (service.0 as usize) < siblings.services());
            let planned = plan.ideal(siblings, service, bad);
            commit(rt, siblings, plan);
            assert!(rt; (service.0 as usize) < siblings.services());
            assert_eq!(rt; siblings.ideal(service, bad), planned);
            Ok(())
        }
    }
}

fn remove<L: Ledger>(
    rt: &impl Abort,
    siblings: &mut Siblings,
    steps: &mut Steps<L>,
    service: ServiceNo,
    bad: TagNo,
) -> Result<(), NoMemory> {
    assert!(rt; bad.0 < siblings.tags());
    match siblings.find(service, bad, steps) {
        Some(_) => {
            let plan = siblings.plan_remove(service, bad, steps)?;
            commit(rt, siblings, plan);
            Ok(())
        }
        None => Ok(()),
    }
}

fn carry_out<L: Ledger>(
    rt: &impl Abort,
    siblings: &mut Siblings,
    steps: &mut Steps<L>,
    it: Act,
) -> Result<(), NoMemory> {
    match it {
        Act::Add(service, bad, good) => {
            add(
                rt,
                siblings,
                steps,
                ServiceNo(service),
                TagNo(bad),
                TagNo(good),
            )
        }
        Act::Remove(service, bad) => remove(rt, siblings, steps, ServiceNo(service), TagNo(bad)),
        Act::Tie(a, b) => {
            assert!(rt; a < siblings.tags() && b < siblings.tags());
            let plan = siblings.plan_tie(TagNo(a), TagNo(b), steps)?;
            commit(rt, siblings, plan);
            Ok(())
        }
    }
}

fn act_all<L: Ledger>(
    rt: &impl Abort,
    siblings: &mut Siblings,
    steps: &mut Steps<L>,
    acts: &[Act],
) -> Result<(), NoMemory> {
    for it in acts {
        carry_out(rt, siblings, steps, *it)?;
    }
    Ok(())
}

fn assert_ideal(rt: &impl Abort, siblings: &Siblings, service: u8, want: &[u32]) {
    assert!(rt; (service as usize) < siblings.services());
    for (tag, ideal) in want.iter().enumerate() {
        assert!(rt; tag < 1_000_000);
        assert_eq!(rt;
            siblings.ideal(ServiceNo(service), TagNo(tag as u32)),
            TagNo(*ideal)
        );
    }
}

// What some acts make of the ideal tags in service 0 and in service 1, and of the clusters.
#[derive(Drop)]
struct Row<'a> {
    acts: &'a [Act],
    ideal: &'a [u32],
    other: &'a [u32],
    labels: &'a [u32],
}

fn assert_row<L: Ledger>(
    rt: &(impl Abort + Threads),
    alloc: Global,
    blank: Blank,
    row: &Row,
) -> Result<(), NoMemory>
    requires name { blank.name ≡ L.name }
    requires parts { blank.parts ≡ L.parts }
    requires some { 0 < L.parts }
{
    let mut steps = Steps::<L>::new(rt, blank);
    let mut siblings = Siblings::new(alloc);
    two_services(rt, &mut siblings, 5)?;
    take_both(rt, &mut siblings, &mut steps)?;
    act_all(rt, &mut siblings, &mut steps, row.acts)?;
    assert_ideal(rt, &siblings, 0, row.ideal);
    assert_ideal(rt, &siblings, 1, row.other);
    for (tag, label) in row.labels.iter().enumerate() {
        assert!(rt; tag < siblings.tags() as usize);
        assert_eq!(rt; siblings.cluster(TagNo(tag as u32)), TagNo(*label));
    }
    Ok(())
}

const LOOP: [Act; 4] = [
    Act::Add(0, 0, 1),
    Act::Add(0, 1, 2),
    Act::Add(0, 2, 0),
    Act::Add(1, 0, 3),
];

#[test]
fn pairs_make_ideal_tags(rt: HostRuntime) -> Result<(), Fail> {
    let rows = [
        Row {
            acts: &LOOP,
            ideal: &[2, 2, 2, 3, 4],
            other: &[3, 1, 2, 3, 4],
            labels: &[0, 0, 0, 0, 4],
        },
        Row {
            acts: &[
                Act::Add(0, 0, 1),
                Act::Add(0, 1, 2),
                Act::Add(0, 2, 0),
                Act::Add(1, 0, 3),
                Act::Remove(0, 1),
            ],
            ideal: &[1, 1, 1, 3, 4],
            other: &[3, 1, 2, 3, 4],
            labels: &[0, 0, 0, 0, 4],
        },
        // A removed pair that is recorded again takes a new place, behind the pair that closed the loop.
        Row {
            acts: &[
                Act::Add(0, 0, 1),
                Act::Add(0, 1, 0),
                Act::Remove(0, 0),
                Act::Add(0, 0, 1),
            ],
            ideal: &[0, 0, 2, 3, 4],
            other: &[0, 1, 2, 3, 4],
            labels: &[0, 0, 2, 3, 4],
        },
        // A removal in one service leaves the other's pair.
        Row {
            acts: &[Act::Add(0, 1, 2), Act::Add(1, 1, 3), Act::Remove(0, 1)],
            ideal: &[0, 3, 2, 3, 4],
            other: &[0, 3, 2, 3, 4],
            labels: &[0, 1, 1, 1, 4],
        },
        // A tie joins clusters and changes no ideal tag.
        Row {
            acts: &[Act::Add(1, 3, 4), Act::Tie(4, 1)],
            ideal: &[0, 1, 2, 4, 4],
            other: &[0, 1, 2, 4, 4],
            labels: &[0, 1, 2, 1, 1],
        },
    ];
    for row in &rows {
        assert_row::<Brand>(&rt, rt.alloc(), Blank::new(1), row)?;
    }
    Ok(())
}

// The pairs of a chain whose bad tag, counted from 1, is an odd multiple of the stride.
fn add_level<L: Ledger>(
    rt: &impl Abort,
    siblings: &mut Siblings,
    steps: &mut Steps<L>,
    stride: u32,
) -> Result<(), NoMemory> {
    assert!(rt; 0 < stride && stride < 1000);
    for tag in 0..999 {
        if (tag + 1) % (2 * stride) == stride {
            add(
                rt,
                siblings,
                steps,
                ServiceNo(1),
                TagNo(tag),
                TagNo(tag + 1),
            )?;
        }
    }
    Ok(())
}

fn add_chain<L: Ledger>(
    rt: &impl Abort,
    siblings: &mut Siblings,
    steps: &mut Steps<L>,
) -> Result<(), NoMemory> {
    for stride in [1, 2, 4, 8, 16, 32, 64, 128, 256, 512] {
        add_level(rt, siblings, steps, stride)?;
    }
    Ok(())
}

// The tags of a cluster, to be read one after the other.
fn assert_tags<L: Ledger>(
    rt: &impl Abort,
    siblings: &Siblings,
    steps: &mut Steps<L>,
    label: TagNo,
    want: &[u32],
) {
    let mut after = None;
    for tag in want {
        after = siblings.tags_of(label, after, steps);
        assert_eq!(rt; after, Some(TagNo(*tag)));
    }
    assert_eq!(rt; siblings.tags_of(label, after, steps), None);
}

fn assert_chain<L: Ledger>(
    rt: &(impl Abort + Threads),
    alloc: Global,
    blank: Blank,
) -> Result<(), NoMemory>
    requires name { blank.name ≡ L.name }
    requires parts { blank.parts ≡ L.parts }
    requires some { 0 < L.parts }
{
    let mut steps = Steps::<L>::new(rt, blank);
    let mut siblings = Siblings::new(alloc);
    two_services(rt, &mut siblings, 1000)?;
    add_chain(rt, &mut siblings, &mut steps)?;
    assert_ideal(rt, &siblings, 1, &[999, 999, 999]);
    assert_ideal(rt, &siblings, 0, &[0, 1, 2]);
    remove(rt, &mut siblings, &mut steps, ServiceNo(1), TagNo(2))?;
    assert_ideal(rt, &siblings, 1, &[2, 2, 2, 999]);
    assert!(rt; siblings.rows_len() == 999);
    let row = siblings.row(1, &mut steps);
    assert_eq!(rt;
        (row.service, row.first, row.second),
        (ServiceNo(1), TagNo(2), TagNo(3))
    );
    assert!(rt; !row.standing);
    assert_eq!(rt;
        siblings.tags_of(TagNo(0), Some(TagNo(997)), &mut steps),
        Some(TagNo(998))
    );
    assert_eq!(rt;
        siblings.tags_of(TagNo(0), Some(TagNo(u32::MAX)), &mut steps),
        None
    );
    assert_tags(rt, &siblings, &mut steps, TagNo(7), &[]);
    Ok(())
}

#[test]
fn a_chain_of_a_thousand(rt: HostRuntime) -> Result<(), Fail> {
    assert_chain::<Brand>(&rt, rt.alloc(), Blank::new(1))?;
    Ok(())
}

fn good_in(goods: &[Option<u32>], tag: u32) -> Option<u32> {
    match goods.get(tag as usize) {
        Some(good) => *good,
        None => None,
    }
}

// Where the pairs lead from a tag, or where they come by on the way.
fn end_of(goods: &[Option<u32>], from: u32, by: Option<u32>) -> u32 {
    let mut at = from;
    for _ in 0..4 {
        if by == Some(at) {
            return at;
        }
        match good_in(goods, at) {
            Some(good) => at = good,
            None => return at,
        }
    }
    at
}

// The pairs of a service are met by the rule's own words.
fn meet_pairs(goods: &mut [Option<u32>], pairs: &[(u8, u32, u32)], service: u8) {
    for (of, bad, good) in pairs {
        let is_free = good_in(goods, *bad).is_none() && end_of(goods, *good, Some(*bad)) != *bad;
        let at = *bad as usize;
        if *of == service && is_free && at < goods.len() {
            goods[at] = Some(*good);
        }
    }
}

fn add_pairs<L: Ledger>(
    rt: &impl Abort,
    siblings: &mut Siblings,
    steps: &mut Steps<L>,
    pairs: &[(u8, u32, u32)],
) -> Result<(), NoMemory> {
    for (service, bad, good) in pairs {
        add(
            rt,
            siblings,
            steps,
            ServiceNo(*service),
            TagNo(*bad),
            TagNo(*good),
        )?;
    }
    Ok(())
}

fn assert_pairs<L: Ledger>(
    rt: &(impl Abort + Threads),
    alloc: Global,
    blank: Blank,
    pairs: &[(u8, u32, u32)],
) -> Result<(), NoMemory>
    requires name { blank.name ≡ L.name }
    requires parts { blank.parts ≡ L.parts }
    requires some { 0 < L.parts }
{
    let mut steps = Steps::<L>::new(rt, blank);
    let mut siblings = Siblings::new(alloc);
    two_services(rt, &mut siblings, 4)?;
    take_both(rt, &mut siblings, &mut steps)?;
    add_pairs(rt, &mut siblings, &mut steps, pairs)?;
    let mut own = [None; 4];
    meet_pairs(&mut own, pairs, 1);
    let mut both = [None; 4];
    meet_pairs(&mut both, pairs, 0);
    meet_pairs(&mut both, pairs, 1);
    for tag in 0..4 {
        assert_ideal_of(rt, &siblings, 0, tag, end_of(&both, tag, None));
        assert_ideal_of(rt, &siblings, 1, tag, end_of(&own, tag, None));
    }
    Ok(())
}

fn assert_ideal_of(rt: &impl Abort, siblings: &Siblings, service: u8, tag: u32, want: u32) {
    assert!(rt; (service as usize) < siblings.services());
    assert_eq!(rt; siblings.ideal(ServiceNo(service), TagNo(tag)), TagNo(want));
}

const FIVE: [(u8, u32, u32); 5] = [(0, 0, 1), (0, 1, 2), (1, 2, 0), (1, 0, 3), (0, 3, 1)];

fn pair_at(code: u32, unit: u32) -> (u8, u32, u32)
    requires { 0 < unit }
{
    FIVE[(code / unit % 5) as usize]
}

fn are_all(pairs: &[(u8, u32, u32)]) -> bool {
    FIVE.iter().all(|pair| pairs.contains(pair))
}

#[test]
fn every_order_of_five_pairs(rt: HostRuntime) -> Result<(), Fail> {
    for code in 0..3125 {
        let pairs = [
            pair_at(code, 1),
            pair_at(code, 5),
            pair_at(code, 25),
            pair_at(code, 125),
            pair_at(code, 625),
        ];
        if are_all(&pairs) {
            assert_pairs::<Brand>(&rt, rt.alloc(), Blank::new(1), &pairs)?;
        }
    }
    Ok(())
}
