ghost use Rattle.std.specs.Prelude.{◌≡◌, ◌<◌, IfOk, length};
ghost use Rattle.tag_relations.specs.Planning.{AreFew, IsPlanFor, after};

mod worked;

use super::*;
use media_types::{NoMemory, ServiceNo, Steps, TagNo};
use parent_closure::TagList;
use std::alloc::Global;
use std::marker::Brand;
use std::process::Abort;
use std::sync::ledger::{Blank, Ledger};
use std::thread::Threads;
use tag_types::{MAX_RELATIONS, MAX_SERVICES, MAX_TAGS, Orders, ServiceList};

// A change of a pair, which is a service's.
#[derive(Clone, Copy)]
enum Edit {
    Sibling(u8, u32, u32),
    NoSibling(u8, u32, u32),
    Parent(u8, u32, u32),
    NoParent(u8, u32, u32),
}

// What is done, or what is asked with the answer that is wanted.
#[derive(Clone, Copy)]
enum Step<'a> {
    Grow(u32),
    Do(Edit),
    // In service 0 each tag from 1 to this one is a parent of the tag before its half, so that tag 0 implies all.
    Tree(u32),
    // The lists of a service's siblings and of its parents. First it is asked which tag would imply too many.
    Order(u8, &'a [u8], &'a [u8], Option<TagNo>),
    // By tag the ideal tag and the ancestors below an end, in a service.
    Tags(u8, u32, &'a [(u32, &'a [u32])]),
    Find(u8, u32, Option<TagNo>),
    Stands(u8, u32, u32, bool),
    // How many tags, sibling rows and parent rows.
    Count(u32, u32, u32),
    // What would imply too many of the tags below an end after a change.
    Over(Edit, u32, Option<(ServiceNo, TagNo)>),
}

fn services(relations: &TagRelations) -> usize
    ensures { result ≡ length relations.now.siblings.orders }
{
    relations.siblings.services()
}

fn add_services(rt: &impl Abort, relations: &mut TagRelations) -> Result<(), NoMemory> {
    for _ in 0..2 {
        relations.reserve_service()?;
        assert!(rt; services(relations) < MAX_SERVICES);
        relations.add_service();
    }
    Ok(())
}

fn pair_of(edit: Edit) -> (ServiceNo, TagNo, TagNo) {
    match edit {
        Edit::Sibling(service, first, second)
        | Edit::NoSibling(service, first, second)
        | Edit::Parent(service, first, second)
        | Edit::NoParent(service, first, second) => {
            (ServiceNo(service), TagNo(first), TagNo(second))
        }
    }
}

fn plan_edit<L: Ledger>(
    rt: &impl Abort,
    relations: &mut TagRelations,
    steps: &mut Steps<L>,
    edit: Edit,
) -> Result<RelationPlan, NoMemory>
    ensures fits { IfOk result (λ plan. IsPlanFor plan relations.new) }
    ensures few { IfOk result (λ plan. AreFew (after plan relations.new)) }
{
    let (service, first, second) = pair_of(edit);
    let tags = relations.tags();
    assert!(rt; (service.0 as usize) < services(relations) && first.0 < tags && second.0 < tags);
    let (siblings, parents) = (relations.sibling_rows_len(), relations.parent_rows_len());
    assert!(rt; siblings < MAX_RELATIONS && parents < MAX_RELATIONS);
    let found = relations.find(service, first, steps);
    let stands = relations.stands(service, first, second, steps);
    match edit {
        Edit::Sibling(..) => {
            assert!(rt; found.is_none());
            relations.plan_sibling(service, first, second, steps)
        }
        Edit::NoSibling(..) => {
            assert!(rt; found.is_some());
            relations.plan_no_sibling(service, first, steps)
        }
        Edit::Parent(..) => relations.plan_parent(service, first, second, steps),
        Edit::NoParent(..) => {
            assert!(rt; stands);
            relations.plan_no_parent(service, first, second, steps)
        }
    }
}

fn carry_out<L: Ledger>(
    rt: &impl Abort,
    relations: &mut TagRelations,
    steps: &mut Steps<L>,
    edit: Edit,
) -> Result<(), NoMemory> {
    let plan = plan_edit(rt, relations, steps, edit)?;
    relations.commit(plan);
    Ok(())
}

fn list_of(rt: &impl Abort, services: &[u8]) -> ServiceList {
    let mut list = ServiceList::new();
    for service in services {
        assert!(rt; list.len() < MAX_SERVICES && !list.contains(ServiceNo(*service)));
        list.push(ServiceNo(*service));
    }
    list
}

fn order<L: Ledger>(
    rt: &impl Abort,
    relations: &mut TagRelations,
    steps: &mut Steps<L>,
    service: ServiceNo,
    orders: &Orders,
) -> Result<Option<TagNo>, NoMemory> {
    assert!(rt; (service.0 as usize) < services(relations));
    let plan = relations.plan_orders(service, orders, steps)?;
    assert_eq!(rt; plan.service(), service);
    let (end, _siblings, _parents) = (
        relations.tags(),
        relations.sibling_rows_len(),
        relations.parent_rows_len(),
    );
    let found = relations.first_over_in_order(&plan, end, steps)?;
    relations.commit_orders(plan);
    Ok(found)
}

// The plan is dropped.
fn first_over<L: Ledger>(
    rt: &impl Abort,
    relations: &mut TagRelations,
    steps: &mut Steps<L>,
    edit: Edit,
    end: u32,
) -> Result<Option<(ServiceNo, TagNo)>, NoMemory> {
    let plan = plan_edit(rt, relations, steps, edit)?;
    assert!(rt; services(relations) <= MAX_SERVICES);
    relations.first_over(&plan, end, steps)
}

// The last tags come first, so that small clusters are joined.
fn add_tree<L: Ledger>(
    rt: &impl Abort,
    relations: &mut TagRelations,
    steps: &mut Steps<L>,
    last: u32,
) -> Result<(), NoMemory> {
    for before in 0..last {
        let tag = last - before;
        carry_out(rt, relations, steps, Edit::Parent(0, (tag - 1) / 2, tag))?;
    }
    Ok(())
}

fn assert_list(rt: &impl Abort, found: &TagList, want: &[u32]) {
    assert_eq!(rt; found.len(), want.len());
    for (place, tag) in want.iter().enumerate() {
        assert!(rt; place < found.len());
        assert_eq!(rt; *found.get(place), TagNo(*tag));
    }
}

fn assert_tags<L: Ledger>(
    rt: &impl Abort,
    relations: &TagRelations,
    steps: &mut Steps<L>,
    service: ServiceNo,
    end: u32,
    want: &[(u32, &[u32])],
) -> Result<(), NoMemory> {
    assert!(rt; (service.0 as usize) < services(relations) && want.len() < 1_000);
    for (tag, (ideal, list)) in want.iter().enumerate() {
        let tag = TagNo(tag as u32);
        assert_eq!(rt; relations.ideal(service, tag), TagNo(*ideal));
        let found = relations.ancestors(service, tag, end, steps)?;
        assert_list(rt, &found, list);
    }
    Ok(())
}

fn ask<L: Ledger>(
    rt: &impl Abort,
    relations: &TagRelations,
    steps: &mut Steps<L>,
    step: Step,
) -> Result<(), NoMemory> {
    match step {
        Step::Tags(service, end, want) => {
            assert_tags(rt, relations, steps, ServiceNo(service), end, want)?;
        }
        Step::Find(service, bad, want) => {
            assert_eq!(rt; relations.find(ServiceNo(service), TagNo(bad), steps), want);
        }
        Step::Stands(service, child, parent, want) => {
            let found = relations.stands(ServiceNo(service), TagNo(child), TagNo(parent), steps);
            assert_eq!(rt; found, want);
        }
        Step::Count(tags, siblings, parents) => {
            assert_eq!(rt; relations.tags(), tags);
            assert_eq!(rt; relations.sibling_rows_len(), siblings);
            assert_eq!(rt; relations.parent_rows_len(), parents);
        }
        _ => (),
    }
    Ok(())
}

fn take_step<L: Ledger>(
    rt: &impl Abort,
    relations: &mut TagRelations,
    steps: &mut Steps<L>,
    step: Step,
) -> Result<(), NoMemory> {
    match step {
        Step::Grow(tags) => {
            assert!(rt; tags <= MAX_TAGS);
            relations.grow(tags)?;
        }
        Step::Do(edit) => carry_out(rt, relations, steps, edit)?,
        Step::Tree(last) => add_tree(rt, relations, steps, last)?,
        Step::Order(service, siblings, parents, want) => {
            let (siblings, parents) = (list_of(rt, siblings), list_of(rt, parents));
            let orders = Orders { siblings, parents };
            let found = order(rt, relations, steps, ServiceNo(service), &orders)?;
            assert_eq!(rt; found, want);
        }
        Step::Over(edit, end, want) => {
            assert_eq!(rt; first_over(rt, relations, steps, edit, end)?, want);
        }
        _ => ask(rt, relations, steps, step)?,
    }
    Ok(())
}

// Two services, each of which takes its own pairs, and what is then done and asked.
fn take_all<L: Ledger>(
    rt: &impl Abort,
    relations: &mut TagRelations,
    steps: &mut Steps<L>,
    script: &[Step],
) -> Result<(), NoMemory> {
    add_services(rt, relations)?;
    for step in script {
        take_step(rt, relations, steps, *step)?;
    }
    Ok(())
}

fn assert_script<L: Ledger>(
    rt: &(impl Abort + Threads),
    alloc: Global,
    blank: Blank,
    script: &[Step],
) -> Result<(), NoMemory>
    requires name { blank.name ≡ L.name }
    requires parts { blank.parts ≡ L.parts }
    requires some { 0 < L.parts }
{
    let mut steps = Steps::<L>::new(rt, blank);
    let mut relations = TagRelations::new(alloc);
    take_all(rt, &mut relations, &mut steps, script)
}

fn assert_scripts(
    rt: &(impl Abort + Threads),
    alloc: Global,
    scripts: &[&[Step]],
) -> Result<(), NoMemory> {
    for script in scripts {
        assert_script::<Brand>(rt, alloc, Blank::new(1), script)?;
    }
    Ok(())
}
