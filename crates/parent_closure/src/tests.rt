ghost use Rattle.std.specs.Prelude.{◌≡◌, ℕ, ◌<◌, true, IfOk};
ghost use Rattle.std.specs.List.{range_with_len};
ghost use Rattle.std.specs.Option.{ForSome, option_map};
ghost use Rattle.sibling_chains.specs.Planning.{IsPlanFor as IsSiblingPlanFor};
ghost use Rattle.parent_closure.specs.CountLaws.{AreDifferent};
ghost use Rattle.parent_closure.specs.Implied.{chained, planned, relations_of};
ghost use Rattle.parent_closure.specs.Planning.{IsPlanFor};
ghost use Rattle.parent_closure.specs.Reached.{has};
ghost use Rattle.parent_closure.specs.Sets.{IsClosedFor};

mod cases;
mod cluster;
mod every_set;
mod limit;
mod plans;
mod rows;

use super::*;
use media_types::{NoMemory, ServiceNo, Steps, TagNo};
use sibling_chains::{SiblingPlan, Siblings};
use std::alloc::Global;
use std::process::Abort;
use std::sync::ledger::Ledger;
use tag_types::{MAX_RELATIONS, MAX_SERVICES, MAX_TAGS, ServiceList};

// A change of the parents.
#[derive(Clone, Copy)]
enum Edit<'a> {
    Add(u8, u32, u32),
    Remove(u8, u32, u32),
    Order(u8, &'a [u8]),
}

// A change of the siblings.
#[derive(Clone, Copy)]
enum Link {
    Add(u8, u32, u32),
    Remove(u8, u32),
}

// Two services, each of which takes its own pairs, and some tags.
fn prepare(
    rt: &impl Abort,
    parents: &mut Parents,
    siblings: &mut Siblings,
    tags: u32,
) -> Result<(), NoMemory> {
    for _ in 0..2 {
        parents.reserve_service()?;
        siblings.reserve_service()?;
        assert!(rt; parents.services() < MAX_SERVICES && siblings.services() < MAX_SERVICES);
        parents.add_service();
        siblings.add_service();
    }
    for _ in 0..tags {
        siblings.reserve_tag()?;
        assert!(rt; parents.tags() < MAX_TAGS && siblings.tags() < MAX_TAGS);
        parents.add_tag();
        siblings.add_tag();
    }
    Ok(())
}

fn list_of(rt: &impl Abort, services: &[u8]) -> ServiceList {
    let mut list = ServiceList::new();
    for service in services {
        assert!(rt; list.len() < MAX_SERVICES && !list.contains(ServiceNo(*service)));
        list.push(ServiceNo(*service));
    }
    list
}

fn plan_add(
    rt: &impl Abort,
    parents: &mut Parents,
    row: (u8, u32, u32),
) -> Result<ParentPlan, NoMemory>
    ensures { IfOk result (λ plan. IsPlanFor plan parents.new) }
{
    let (service, child, parent) = (ServiceNo(row.0), TagNo(row.1), TagNo(row.2));
    assert!(rt; (service.0 as usize) < parents.services());
    assert!(rt; child.0 < parents.tags() && parent.0 < parents.tags());
    parents.plan_add(service, child, parent)
}

fn plan_remove<L: Ledger>(
    rt: &impl Abort,
    parents: &Parents,
    steps: &mut Steps<L>,
    row: (u8, u32, u32),
) -> ParentPlan
    ensures { IsPlanFor result parents.now }
{
    let (service, child, parent) = (ServiceNo(row.0), TagNo(row.1), TagNo(row.2));
    let stands = parents.stands(service, child, parent, steps);
    assert!(rt; stands);
    parents.plan_remove(service, child, parent, steps)
}

fn plan_order(rt: &impl Abort, parents: &Parents, service: u8, order: &[u8]) -> ParentPlan
    ensures { IsPlanFor result parents.now }
{
    let list = list_of(rt, order);
    assert!(rt; (service as usize) < parents.services());
    parents.plan_order(ServiceNo(service), &list)
}

fn plan_edit<L: Ledger>(
    rt: &impl Abort,
    parents: &mut Parents,
    steps: &mut Steps<L>,
    edit: Edit,
) -> Result<ParentPlan, NoMemory>
    ensures { IfOk result (λ plan. IsPlanFor plan parents.new) }
{
    match edit {
        Edit::Add(service, child, parent) => plan_add(rt, parents, (service, child, parent)),
        Edit::Remove(service, child, parent) => {
            Ok(plan_remove(rt, parents, steps, (service, child, parent)))
        }
        Edit::Order(service, order) => Ok(plan_order(rt, parents, service, order)),
    }
}

fn commit(rt: &impl Abort, parents: &mut Parents, plan: ParentPlan)
    requires { IsPlanFor plan parents.old }
{
    let rows = parents.rows_len();
    assert!(rt; rows < MAX_RELATIONS);
    parents.commit(plan);
}

fn commit_link(rt: &impl Abort, siblings: &mut Siblings, plan: SiblingPlan)
    requires { IsSiblingPlanFor plan siblings.old }
{
    let rows = siblings.rows_len();
    assert!(rt; rows < MAX_RELATIONS);
    siblings.commit(plan);
}

// The numbers below an end.
fn numbers(alloc: Global, end: u32) -> Result<Vec<u32>, NoMemory>
    ensures { IfOk result (λ v. v.items ≡ range_with_len 0 end) }
{
    let mut list = Vec::new(alloc);
    for number in 0..end {
        list.push(number)?;
    }
    Ok(list)
}

// All tags: they are whole clusters, also once plans are carried out.
fn all_tags(
    rt: &impl Abort,
    parents: &Parents,
    plan: Option<&ParentPlan>,
    siblings: &Siblings,
    chains: Option<&SiblingPlan>,
) -> Result<Vec<u32>, NoMemory>
    requires plan { ForSome plan (λ p. IsPlanFor p.now parents.now) }
    requires chains { ForSome chains (λ p. IsSiblingPlanFor p.now siblings.now) }
    ensures different { IfOk result (λ v. AreDifferent v.items) }
    ensures here { IfOk result (λ v. (t : ℕ) → t < parents.now.tags → has v.items t ≡ true) }
    ensures closed { IfOk result (λ v. (s : ℕ) → IsClosedFor (has v.items)
        (relations_of (planned (option_map (λ p. p.now) plan.entry) parents.now)
        (chained (option_map (λ p. p.now) chains.entry) siblings.now) s)) }
{
    let end = parents.tags();
    let other = siblings.tags();
    assert!(rt; end == other);
    let list = numbers(parents.alloc, end)?;
    Ok(list)
}

fn edit_all<L: Ledger>(
    rt: &impl Abort,
    parents: &mut Parents,
    steps: &mut Steps<L>,
    edits: &[Edit],
) -> Result<(), NoMemory> {
    for edit in edits {
        let plan = plan_edit(rt, parents, steps, *edit)?;
        commit(rt, parents, plan);
    }
    Ok(())
}

fn plan_link<L: Ledger>(
    rt: &impl Abort,
    siblings: &mut Siblings,
    steps: &mut Steps<L>,
    link: Link,
) -> Result<SiblingPlan, NoMemory>
    ensures { IfOk result (λ plan. IsSiblingPlanFor plan siblings.new) }
{
    match link {
        Link::Add(service, bad, good) => {
            plan_sibling(
                rt,
                siblings,
                steps,
                ServiceNo(service),
                TagNo(bad),
                TagNo(good),
            )
        }
        Link::Remove(service, bad) => {
            assert!(rt; bad < siblings.tags());
            let found = siblings.find(ServiceNo(service), TagNo(bad), steps);
            assert!(rt; found.is_some());
            siblings.plan_remove(ServiceNo(service), TagNo(bad), steps)
        }
    }
}

fn plan_sibling<L: Ledger>(
    rt: &impl Abort,
    siblings: &mut Siblings,
    steps: &mut Steps<L>,
    service: ServiceNo,
    bad: TagNo,
    good: TagNo,
) -> Result<SiblingPlan, NoMemory>
    ensures { IfOk result (λ plan. IsSiblingPlanFor plan siblings.new) }
{
    assert!(rt; (service.0 as usize) < siblings.services() && bad.0 < siblings.tags());
    assert!(rt; good.0 < siblings.tags() && siblings.rows_len() < MAX_RELATIONS);
    let found = siblings.find(service, bad, steps);
    assert!(rt; found.is_none());
    siblings.plan_add(service, bad, good, steps)
}

fn link_all<L: Ledger>(
    rt: &impl Abort,
    siblings: &mut Siblings,
    steps: &mut Steps<L>,
    links: &[Link],
) -> Result<(), NoMemory> {
    for link in links {
        let plan = plan_link(rt, siblings, steps, *link)?;
        commit_link(rt, siblings, plan);
    }
    Ok(())
}

fn assert_tags(rt: &impl Abort, tag: u32, found: &TagList, want: &[u32]) {
    assert_eq!(rt; found.len(), want.len(), "tags of {tag}");
    for (at, other) in want.iter().enumerate() {
        assert!(rt; at < found.len());
        assert_eq!(rt; *found.get(at), TagNo(*other), "tags of {tag}");
    }
}
