ghost use Rattle.std.specs.Prelude.{◌≡◌, ◌<◌};
ghost use Rattle.std.specs.Option.{ForSome};
ghost use Rattle.sibling_chains.specs.Planning.{IsPlanFor as IsSiblingPlanFor};
ghost use Rattle.parent_closure.specs.Planning.{IsPlanFor};

use super::{
    Edit, Link, all_tags, assert_tags, commit, commit_link, edit_all, link_all, plan_edit,
    plan_link, prepare,
};
use crate::{ParentPlan, Parents};
use media_types::{NoMemory, ServiceNo, Steps, TagNo};
use sibling_chains::{SiblingPlan, Siblings};
use std::alloc::Global;
use std::marker::Brand;
use std::process::Abort;
use std::sync::ledger::{Blank, Ledger};
use std::test::Fail;
use std::thread::Threads;

// By tag what it implies in service 0, once plans are carried out.
fn assert_implied<L: Ledger>(
    rt: &impl Abort,
    parents: &Parents,
    plan: Option<&ParentPlan>,
    siblings: &Siblings,
    chains: Option<&SiblingPlan>,
    steps: &mut Steps<L>,
    want: &[&[u32]],
) -> Result<(), NoMemory>
    requires plan { ForSome plan (λ p. IsPlanFor p.now parents.now) }
    requires chains { ForSome chains (λ p. IsSiblingPlanFor p.now siblings.now) }
{
    assert!(rt; 0 < parents.services() && 0 < siblings.services());
    let tags = all_tags(rt, parents, plan, siblings, chains)?;
    let end = parents.tags();
    let mut tag = 0;
    for list in want {
        assert!(rt; tag < end);
        let found = parents.implied_after(
            plan,
            siblings,
            chains,
            ServiceNo(0),
            tags.as_slice(),
            TagNo(tag),
            end,
            steps,
        )?;
        assert_tags(rt, tag, &found, list);
        tag += 1;
    }
    Ok(())
}

// A change of the parents and one of the siblings, and what each tag implies in service 0: before them, once
// one of them is carried out, and after both.
#[derive(Drop)]
struct Row<'a> {
    links: &'a [Link],
    edits: &'a [Edit<'a>],
    link: Link,
    edit: Edit<'a>,
    before: &'a [&'a [u32]],
    linked: &'a [&'a [u32]],
    edited: &'a [&'a [u32]],
    after: &'a [&'a [u32]],
}

fn commit_edit_first<L: Ledger>(
    rt: &impl Abort,
    parents: &mut Parents,
    plan: ParentPlan,
    siblings: &mut Siblings,
    chains: SiblingPlan,
    steps: &mut Steps<L>,
    row: &Row,
) -> Result<(), NoMemory>
    requires plan { IsPlanFor plan parents.old }
    requires chains { IsSiblingPlanFor chains siblings.old }
{
    commit(rt, parents, plan);
    assert_implied(rt, parents, None, siblings, None, steps, row.edited)?;
    assert_implied(rt, parents, None, siblings, Some(&chains), steps, row.after)?;
    commit_link(rt, siblings, chains);
    assert_implied(rt, parents, None, siblings, None, steps, row.after)
}

fn commit_link_first<L: Ledger>(
    rt: &impl Abort,
    parents: &mut Parents,
    plan: ParentPlan,
    siblings: &mut Siblings,
    chains: SiblingPlan,
    steps: &mut Steps<L>,
    row: &Row,
) -> Result<(), NoMemory>
    requires plan { IsPlanFor plan parents.old }
    requires chains { IsSiblingPlanFor chains siblings.old }
{
    commit_link(rt, siblings, chains);
    assert_implied(rt, parents, None, siblings, None, steps, row.linked)?;
    assert_implied(rt, parents, Some(&plan), siblings, None, steps, row.after)?;
    commit(rt, parents, plan);
    assert_implied(rt, parents, None, siblings, None, steps, row.after)
}

fn assert_planned<L: Ledger>(
    rt: &impl Abort,
    parents: &Parents,
    plan: &ParentPlan,
    siblings: &Siblings,
    chains: &SiblingPlan,
    steps: &mut Steps<L>,
    row: &Row,
) -> Result<(), NoMemory>
    requires plan { IsPlanFor plan.now parents.now }
    requires chains { IsSiblingPlanFor chains.now siblings.now }
{
    assert_implied(
        rt,
        parents,
        Some(plan),
        siblings,
        Some(chains),
        steps,
        row.after,
    )?;
    assert_implied(rt, parents, Some(plan), siblings, None, steps, row.edited)?;
    assert_implied(rt, parents, None, siblings, Some(chains), steps, row.linked)?;
    assert_implied(rt, parents, None, siblings, None, steps, row.before)
}

fn assert_within<L: Ledger>(
    rt: &impl Abort,
    parents: &mut Parents,
    siblings: &mut Siblings,
    steps: &mut Steps<L>,
    row: &Row,
    edit_first: bool,
) -> Result<(), NoMemory> {
    prepare(rt, parents, siblings, 4)?;
    link_all(rt, siblings, steps, row.links)?;
    edit_all(rt, parents, steps, row.edits)?;
    let plan = plan_edit(rt, parents, steps, row.edit)?;
    let chains = plan_link(rt, siblings, steps, row.link)?;
    assert_planned(rt, parents, &plan, siblings, &chains, steps, row)?;
    if edit_first {
        commit_edit_first(rt, parents, plan, siblings, chains, steps, row)
    } else {
        commit_link_first(rt, parents, plan, siblings, chains, steps, row)
    }
}

fn assert_row<L: Ledger>(
    rt: &(impl Abort + Threads),
    alloc: Global,
    blank: Blank,
    row: &Row,
    edit_first: bool,
) -> Result<(), NoMemory>
    requires name { blank.name ≡ L.name }
    requires parts { blank.parts ≡ L.parts }
    requires some { 0 < L.parts }
{
    let mut steps = Steps::<L>::new(rt, blank);
    let mut parents = Parents::new(alloc);
    let mut siblings = Siblings::new(alloc);
    assert_within(rt, &mut parents, &mut siblings, &mut steps, row, edit_first)
}

#[test]
fn plans_tell_what_commits_make(rt: HostRuntime) -> Result<(), Fail> {
    let rows = [
        Row {
            links: &[],
            edits: &[Edit::Add(0, 1, 2)],
            link: Link::Add(0, 0, 1),
            edit: Edit::Add(0, 2, 3),
            before: &[&[0], &[1, 2], &[2], &[3]],
            linked: &[&[1, 2], &[1, 2], &[2], &[3]],
            edited: &[&[0], &[1, 2, 3], &[2, 3], &[3]],
            after: &[&[1, 2, 3], &[1, 2, 3], &[2, 3], &[3]],
        },
        // A loop is cut, and so is the way of 0 into it.
        Row {
            links: &[Link::Add(0, 0, 1)],
            edits: &[Edit::Add(0, 1, 2), Edit::Add(0, 2, 1), Edit::Add(0, 2, 3)],
            link: Link::Remove(0, 0),
            edit: Edit::Remove(0, 1, 2),
            before: &[&[1, 2, 3], &[1, 2, 3], &[1, 2, 3], &[3]],
            linked: &[&[0], &[1, 2, 3], &[1, 2, 3], &[3]],
            edited: &[&[1], &[1], &[1, 2, 3], &[3]],
            after: &[&[0], &[1], &[1, 2, 3], &[3]],
        },
        // The pairs of service 1 come in. The good tag of 3 is a child there.
        Row {
            links: &[],
            edits: &[Edit::Add(1, 0, 1), Edit::Add(0, 1, 2), Edit::Add(1, 2, 3)],
            link: Link::Add(0, 3, 0),
            edit: Edit::Order(0, &[0, 1]),
            before: &[&[0], &[1, 2], &[2], &[3]],
            linked: &[&[0], &[1, 2], &[2], &[0]],
            edited: &[&[0, 1, 2, 3], &[1, 2, 3], &[2, 3], &[3]],
            after: &[&[0, 1, 2], &[0, 1, 2], &[0, 1, 2], &[0, 1, 2]],
        },
        // What is planned for service 1 changes nothing in service 0.
        Row {
            links: &[Link::Add(1, 0, 1)],
            edits: &[Edit::Add(0, 0, 2)],
            link: Link::Remove(1, 0),
            edit: Edit::Order(1, &[0]),
            before: &[&[0, 2], &[1], &[2], &[3]],
            linked: &[&[0, 2], &[1], &[2], &[3]],
            edited: &[&[0, 2], &[1], &[2], &[3]],
            after: &[&[0, 2], &[1], &[2], &[3]],
        },
    ];
    for row in &rows {
        assert_row::<Brand>(&rt, rt.alloc(), Blank::new(1), row, true)?;
        assert_row::<Brand>(&rt, rt.alloc(), Blank::new(1), row, false)?;
    }
    Ok(())
}
