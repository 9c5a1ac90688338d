ghost use Rattle.std.specs.Prelude.{◌≡◌, ◌<◌, [], ◌∷◌, length, OnOk};
ghost use Rattle.tree_upkeep.specs.Marks.{AreNodes};

use super::*;
use media_types::{FileNo, Hash64, HashNo, NoMemory, Steps};
use std::alloc::Global;
use std::marker::Brand;
use std::process::Abort;
use std::sync::ledger::{Blank, Ledger};
use std::test::Fail;
use std::thread::Threads;
use vp_tree::Tree;

fn note_all(upkeep: &mut Upkeep, numbers: &[u32], queued: bool) -> Result<(), NoMemory> {
    for number in numbers {
        upkeep.reserve()?;
        upkeep.note(FileNo(*number), queued);
    }
    Ok(())
}

fn assert_lowest<L: Ledger>(
    rt: &impl Abort,
    upkeep: &Upkeep,
    n: u32,
    numbers: &[u32],
    steps: &mut Steps<L>,
) -> Result<(), Fail> {
    let files = upkeep.next_search(n, steps)?;
    assert_eq!(rt; files.len(), numbers.len());
    for (file, number) in files.as_slice().iter().zip(numbers) {
        assert_eq!(rt; file.0, *number);
    }
    Ok(())
}

fn five_files<L: Ledger>(
    rt: &(impl Abort + Threads),
    alloc: Global,
    blank: Blank,
) -> Result<(), Fail>
    requires name { blank.name ≡ L.name }
    requires parts { blank.parts ≡ L.parts }
    requires some { 0 < L.parts }
{
    let mut steps = Steps::<L>::new(rt, blank);
    let mut upkeep = Upkeep::new(alloc);
    assert_eq!(rt; upkeep.queue_len(), 0);
    note_all(&mut upkeep, &[50, 10, 40, 20, 30, 10, 40], true)?;
    assert_eq!(rt; upkeep.queue_len(), 5);
    let lowest: [(u32, &[u32]); 4] = [
        (0, &[]),
        (2, &[10, 20]),
        (5, &[10, 20, 30, 40, 50]),
        (1_000_000, &[10, 20, 30, 40, 50]),
    ];
    for (n, numbers) in lowest {
        assert_lowest(rt, &upkeep, n, numbers, &mut steps)?;
    }
    note_all(&mut upkeep, &[30, 25, 50, 0, 30], false)?;
    assert_eq!(rt; upkeep.queue_len(), 3);
    assert_lowest(rt, &upkeep, 9, &[10, 20, 40], &mut steps)
}

#[test]
fn five_files_are_noted_in_a_mixed_order(rt: HostRuntime) -> Result<(), Fail> {
    five_files::<Brand>(&rt, rt.alloc(), Blank::new(1))
}

fn plans<L: Ledger>(rt: &(impl Abort + Threads), alloc: Global, blank: Blank) -> Result<(), Fail>
    requires name { blank.name ≡ L.name }
    requires parts { blank.parts ≡ L.parts }
    requires some { 0 < L.parts }
{
    let mut steps = Steps::<L>::new(rt, blank);
    let mut other = Upkeep::new(alloc);
    note_all(&mut other, &[70, 60, 20], true)?;
    let files = other.next_search(2, &mut steps)?;
    let mut upkeep = Upkeep::new(alloc);
    note_all(&mut upkeep, &[10, 20], true)?;
    let given_up = upkeep.plan_queue(&files)?;
    drop(given_up);
    assert_lowest(rt, &upkeep, 9, &[10, 20], &mut steps)?;
    let plan = upkeep.plan_queue(&files)?;
    assert_lowest(rt, &upkeep, 9, &[10, 20], &mut steps)?;
    upkeep.commit_queue(plan);
    assert_eq!(rt; upkeep.queue_len(), 2);
    assert_lowest(rt, &upkeep, 9, &[20, 60], &mut steps)?;
    note_all(&mut upkeep, &[30], true)?;
    assert_lowest(rt, &upkeep, 9, &[20, 30, 60], &mut steps)
}

#[test]
fn a_planned_queue_is_put_in_place(rt: HostRuntime) -> Result<(), Fail> {
    plans::<Brand>(&rt, rt.alloc(), Blank::new(1))
}

fn mark_all(upkeep: &mut Upkeep, numbers: &[u32]) -> Result<(), NoMemory> {
    for number in numbers {
        upkeep.reserve()?;
        upkeep.mark(HashNo(*number));
    }
    Ok(())
}

// A tree of one word.
fn place_first<L: Ledger>(tree: &mut Tree, steps: &mut Steps<L>) -> Result<(), NoMemory>
    requires { tree.old.rows ≡ [] }
    ensures { OnOk result (length tree.new.rows ≡ 1) }
{
    let plan = tree.plan_insert(Hash64(7))?;
    tree.commit_insert(plan, steps);
    Ok(())
}

// The marks are of nodes of a tree of one word.
fn mark_first(upkeep: &mut Upkeep) -> Result<(), NoMemory>
    requires { upkeep.old.marks ≡ [] }
    ensures { OnOk result (upkeep.new.marks ≡ 0 ∷ []) }
{
    upkeep.reserve()?;
    upkeep.mark(HashNo(0));
    Ok(())
}

fn rebuild<L: Ledger>(
    upkeep: &mut Upkeep,
    tree: &mut Tree,
    steps: &mut Steps<L>,
) -> Result<(), NoMemory>
    requires { AreNodes tree.old.rows upkeep.old.marks }
{
    let given_up = upkeep.plan_rebuild(tree, steps)?;
    drop(given_up);
    let plan = upkeep.plan_rebuild(tree, steps)?;
    upkeep.commit_rebuild(tree, plan);
    Ok(())
}

fn marks<L: Ledger>(rt: &(impl Abort + Threads), alloc: Global, blank: Blank) -> Result<(), Fail>
    requires name { blank.name ≡ L.name }
    requires parts { blank.parts ≡ L.parts }
    requires some { 0 < L.parts }
{
    let mut steps = Steps::<L>::new(rt, blank);
    let mut upkeep = Upkeep::new(alloc);
    assert_eq!(rt; upkeep.marked(&mut steps), None);
    mark_all(&mut upkeep, &[50, 10, 40, 20, 30, 10, 40])?;
    assert_eq!(rt; upkeep.marked(&mut steps), Some(HashNo(10)));
    upkeep.clear_marks();
    assert_eq!(rt; upkeep.marked(&mut steps), None);
    let mut tree = Tree::new(alloc);
    place_first(&mut tree, &mut steps)?;
    mark_first(&mut upkeep)?;
    assert_eq!(rt; upkeep.marked(&mut steps), Some(HashNo(0)));
    rebuild(&mut upkeep, &mut tree, &mut steps)?;
    assert_eq!(rt; upkeep.marked(&mut steps), None);
    Ok(())
}

#[test]
fn the_lowest_mark_is_rebuilt(rt: HostRuntime) -> Result<(), Fail> {
    marks::<Brand>(&rt, rt.alloc(), Blank::new(1))
}
