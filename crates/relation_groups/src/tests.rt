ghost use Rattle.std.specs.Prelude.{◌≡◌, ◌<◌};

use super::*;
use media_types::{Code, DecisionList, FileList, FileNo, MAX_FILES, NoMemory, Steps};
use std::alloc::Global;
use std::marker::Brand;
use std::process::Abort;
use std::sync::ledger::{Blank, Ledger};
use std::test::Fail;
use std::thread::Threads;

const SAME: Code = Code::Same;

const BETTER: Code = Code::Better;

const ALTERNATES: Code = Code::Alternates;

const NOT_RELATED: Code = Code::NotRelated;

fn assert_lists(rt: &impl Abort, found: &FileList, want: &[u32]) {
    assert_eq!(rt; found.len(), want.len());
    for (at, number) in want.iter().enumerate() {
        assert!(rt; at < found.len());
        assert_eq!(rt; *found.get(at), FileNo(*number));
    }
}

#[derive(Drop)]
struct Row<'a> {
    files: u32,
    decisions: &'a [(Code, u32, u32)],
    file: u32,
    king: u32,
    members: &'a [u32],
    alternates: &'a [u32],
    not_related: &'a [u32],
}

fn groups_of(rt: &impl Abort, alloc: Global, files: u32) -> Result<Groups, NoMemory> {
    let mut groups = Groups::new(alloc);
    for _ in 0..files {
        groups.reserve_file()?;
        assert!(rt; groups.len() < MAX_FILES);
        groups.add_file();
    }
    Ok(groups)
}

fn decide<L: Ledger>(
    rt: &impl Abort,
    groups: &mut Groups,
    steps: &mut Steps<L>,
    row: (Code, u32, u32),
) -> Result<(), NoMemory> {
    assert!(rt; row.1 < groups.len() && row.2 < groups.len() && row.1 != row.2);
    let plan = groups.plan_decide(row.0, FileNo(row.1), FileNo(row.2), steps)?;
    groups.commit(plan);
    Ok(())
}

fn assert_row<L: Ledger>(
    rt: &(impl Abort + Threads),
    alloc: Global,
    blank: Blank,
    row: &Row,
) -> Result<(), NoMemory>
    requires name { blank.name ≡ L.name }
    requires parts { blank.parts ≡ L.parts }
    requires some { 0 < L.parts }
{
    let mut steps = Steps::<L>::new(rt, blank);
    let mut groups = groups_of(rt, alloc, row.files)?;
    for decision in row.decisions {
        decide(rt, &mut groups, &mut steps, *decision)?;
    }
    assert!(rt; row.file < groups.len());
    let found = groups.standing(FileNo(row.file))?;
    assert_eq!(rt; found.king, FileNo(row.king));
    assert_lists(rt, &found.members, row.members);
    assert_lists(rt, &found.alternates, row.alternates);
    assert_lists(rt, &found.not_related, row.not_related);
    Ok(())
}

#[test]
fn a_file_that_was_no_king_leaves_its_group(rt: HostRuntime) -> Result<(), Fail> {
    let decisions = [(BETTER, 0, 1), (BETTER, 2, 3), (BETTER, 0, 3)];
    assert_row::<Brand>(
        &rt,
        rt.alloc(),
        Blank::new(1),
        &Row {
            files: 4,
            decisions: &decisions,
            file: 3,
            king: 0,
            members: &[0, 1, 3],
            alternates: &[],
            not_related: &[],
        },
    )?;
    Ok(())
}

#[test]
fn pairs_reach_alternates(rt: HostRuntime) -> Result<(), Fail> {
    let decisions = [(NOT_RELATED, 0, 1), (ALTERNATES, 1, 2), (SAME, 2, 3)];
    assert_row::<Brand>(
        &rt,
        rt.alloc(),
        Blank::new(1),
        &Row {
            files: 4,
            decisions: &decisions,
            file: 3,
            king: 2,
            members: &[2, 3],
            alternates: &[1],
            not_related: &[0],
        },
    )?;
    worked_rows();
    Ok(())
}

// File 0 isn't related to the class of file 1, whose alternates are file 2 with its duplicate, file 3.
fn assert_standing<L: Ledger>(rt: &impl Abort, groups: &Groups, steps: &mut Steps<L>) {
    assert!(rt; groups.len() == 4);
    assert_eq!(rt; groups.king_of(FileNo(3)), FileNo(2));
    assert_eq!(rt; groups.class_of(FileNo(3)), FileNo(1));
    assert!(rt; groups.is_not_related(FileNo(0), FileNo(1)));
    assert!(rt; !groups.is_not_related(FileNo(1), FileNo(2)));
    let two = Some(FileNo(2));
    assert_eq!(rt; groups.member_after(FileNo(2), None, steps), two);
    assert_eq!(rt; groups.member_after(FileNo(2), two, steps), Some(FileNo(3)));
    assert_eq!(rt; groups.king_after(FileNo(1), Some(FileNo(1)), steps), two);
    assert_eq!(rt; groups.king_after(FileNo(1), two, steps), None);
    assert_eq!(rt;
        groups.not_related_after(FileNo(1), None, steps),
        Some(FileNo(0))
    );
    assert_eq!(rt;
        groups.not_related_after(FileNo(0), Some(FileNo(u32::MAX)), steps),
        None
    );
}

fn assert_groups<L: Ledger>(
    rt: &(impl Abort + Threads),
    alloc: Global,
    blank: Blank,
) -> Result<(), NoMemory>
    requires name { blank.name ≡ L.name }
    requires parts { blank.parts ≡ L.parts }
    requires some { 0 < L.parts }
{
    let mut steps = Steps::<L>::new(rt, blank);
    let mut groups = groups_of(rt, alloc, 4)?;
    for row in [(NOT_RELATED, 0, 1), (ALTERNATES, 1, 2), (BETTER, 2, 3)] {
        decide(rt, &mut groups, &mut steps, row)?;
    }
    assert_standing(rt, &groups, &mut steps);
    assert!(rt; groups.len() == 4);
    let plan = groups.plan_decide(ALTERNATES, FileNo(0), FileNo(3), &mut steps)?;
    assert!(rt; !plan.is_not_related(&groups, FileNo(0), FileNo(1)));
    let moves = plan.moves();
    assert!(rt; moves.len() == 4);
    assert_eq!(rt; moves.get(3).king, FileNo(2));
    assert_eq!(rt; moves.get(3).class, FileNo(0));
    let nothing = groups.plan_refold(&FileList::new(alloc), &DecisionList::new(alloc), &mut steps)?;
    groups.commit(nothing);
    assert_standing(rt, &groups, &mut steps);
    Ok(())
}

#[test]
fn a_file_stands_alone_at_first(rt: HostRuntime) -> Result<(), Fail> {
    assert_row::<Brand>(
        &rt,
        rt.alloc(),
        Blank::new(1),
        &Row {
            files: 2,
            decisions: &[],
            file: 1,
            king: 1,
            members: &[1],
            alternates: &[],
            not_related: &[],
        },
    )?;
    Ok(())
}

#[test]
fn groups_answer_what_was_decided(rt: HostRuntime) -> Result<(), Fail> {
    assert_groups::<Brand>(&rt, rt.alloc(), Blank::new(1))?;
    Ok(())
}
