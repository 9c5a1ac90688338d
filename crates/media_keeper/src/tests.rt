ghost use Rattle.std.specs.Prelude.{◌≡◌, option_map, OnOk};
ghost use Rattle.media_base.specs.Keeping.{HasGivenAll, HasMore, next_place};

use super::*;
use media_base::{
    CallList, Change, ChangeList, DecisionNo, Keeper, NextFault, NoMemory, PutFault, StartFault,
};
use std::alloc::Global;
use std::process::Abort;
use std::test::Fail;

fn undo(number: u32) -> Change {
    Change::Undo(DecisionNo(number))
}

fn undos(alloc: Global, numbers: &[u32]) -> Result<ChangeList, NoMemory> {
    let mut changes = ChangeList::new(alloc);
    for number in numbers {
        changes.push(undo(*number))?;
    }
    Ok(changes)
}

fn calls(alloc: Global, numbers: &[u64]) -> Result<CallList, NoMemory> {
    let mut calls = CallList::new(alloc);
    calls.push_all(numbers)?;
    Ok(calls)
}

fn assert_undos(rt: &impl Abort, changes: &ChangeList, numbers: &[u32]) {
    assert_eq!(rt; changes.len(), numbers.len());
    for (change, number) in changes.as_slice().iter().zip(numbers) {
        assert!(rt; matches!(change, Change::Undo(DecisionNo(undone)) if undone == number));
    }
}

// Starts the keeper and takes all that it gives.
fn take_all<K: Keeper>(alloc: Global, keeper: &mut K) -> Result<ChangeList, Fail>
    ensures ready { OnOk result (K.ready keeper.new) }
    ensures all { OnOk result (HasGivenAll (K.place keeper.new)) }
{
    let mut changes = ChangeList::new(alloc);
    let told = keeper.start()?;
    for _number in 0..told {
        changes.push(keeper.next()?)?;
    }
    Ok(changes)
}

// Asks for the next change, and asks again where the keeper gave none.
fn next_at_second_try<K: Keeper>(keeper: &mut K) -> Result<Change, NextFault>
    requires ready { K.ready keeper.old }
    requires more { HasMore (K.place keeper.old) }
    ensures still_ready { K.ready keeper.new }
    ensures further { OnOk result (K.place keeper.new ≡ option_map next_place (K.place keeper.old)) }
{
    match keeper.next() {
        Ok(change) => Ok(change),
        Err(_) => keeper.next(),
    }
}

// How many calls are Ok: a start that tells one change, a next and a put, up to the first that isn't.
fn calls_in_order<K: Keeper>(keeper: &mut K) -> u32 {
    let Ok(1) = keeper.start() else {
        return 0;
    };
    let Ok(_change) = keeper.next() else {
        return 1;
    };
    match keeper.put(&undo(6)) {
        Ok(()) => 3,
        Err(_) => 2,
    }
}

#[test]
fn changes_come_in_order(rt: HostRuntime) -> Result<(), Fail> {
    let alloc = rt.alloc();
    let kept = undos(alloc, &[5, 6, 7])?;
    let mut keeper = MemoryKeeper::new(alloc, kept, CallList::new(alloc), 9);
    assert_undos(&rt, &take_all(alloc, &mut keeper)?, &[5, 6, 7]);
    assert_eq!(rt; keeper.put(&undo(8)), Ok(()));
    assert_undos(&rt, &take_all(alloc, &mut keeper)?, &[5, 6, 7, 8]);
    assert_undos(&rt, keeper.changes(), &[5, 6, 7, 8]);
    Ok(())
}

// Two rounds of calls over one change; the calls are counted over both.
#[test]
fn calls_fail_that_were_told(rt: HostRuntime) -> Result<(), Fail> {
    let alloc = rt.alloc();
    let table = [
        ([0, 0], 3, 0, 2),
        ([1, 0], 0, 3, 2),
        ([2, 0], 1, 3, 2),
        ([3, 0], 2, 3, 2),
        ([1, 3], 0, 1, 1),
        ([2, 5], 1, 2, 1),
    ];
    for (fails, first, second, kept) in table {
        let mut keeper = MemoryKeeper::new(alloc, undos(alloc, &[5])?, calls(alloc, &fails)?, 9);
        assert_eq!(rt;
            calls_in_order(&mut keeper),
            first,
            "first round, {fails:?}"
        );
        assert_eq!(rt;
            calls_in_order(&mut keeper),
            second,
            "second round, {fails:?}"
        );
        assert_eq!(rt; keeper.changes().len(), kept, "kept, {fails:?}");
    }
    Ok(())
}

#[test]
fn faults_have_their_names(rt: HostRuntime) -> Result<(), Fail> {
    let alloc = rt.alloc();
    let fails = calls(alloc, &[1, 3, 6])?;
    let mut keeper = MemoryKeeper::new(alloc, undos(alloc, &[5])?, fails, 9);
    assert_eq!(rt; keeper.start(), Err(StartFault::Failed));
    assert_eq!(rt; keeper.start()?, 1);
    assert_eq!(rt; keeper.next().err(), Some(NextFault::Failed));
    assert_undos(&rt, &take_all(alloc, &mut keeper)?, &[5]);
    assert_eq!(rt; keeper.put(&undo(6)), Err(PutFault::Failed));
    assert_undos(&rt, keeper.changes(), &[5]);
    Ok(())
}

#[test]
fn a_change_comes_at_the_second_try(rt: HostRuntime) -> Result<(), Fail> {
    let alloc = rt.alloc();
    let fails = calls(alloc, &[2])?;
    let mut keeper = MemoryKeeper::new(alloc, undos(alloc, &[5, 6])?, fails, 9);
    let told = keeper.start()?;
    assert_eq!(rt; told, 2);
    let mut changes = ChangeList::new(alloc);
    changes.push(next_at_second_try(&mut keeper)?)?;
    changes.push(keeper.next()?)?;
    assert_undos(&rt, &changes, &[5, 6]);
    Ok(())
}

// Where there is no room a call doesn't fail, but it is counted.
#[test]
fn one_change_fills_a_keeper_of_one(rt: HostRuntime) -> Result<(), Fail> {
    let alloc = rt.alloc();
    let fails = calls(alloc, &[3, 4])?;
    let mut keeper = MemoryKeeper::new(alloc, ChangeList::new(alloc), fails, 1);
    assert_eq!(rt; keeper.start()?, 0);
    let (first, second, third) = (undo(6), undo(7), undo(8));
    assert_eq!(rt; keeper.put(&first), Ok(()));
    assert_eq!(rt; keeper.put(&second), Err(PutFault::Full));
    assert_eq!(rt; keeper.put(&third), Err(PutFault::Full));
    assert_undos(&rt, keeper.changes(), &[6]);
    assert_eq!(rt; keeper.start(), Ok(1));
    Ok(())
}

#[test]
fn a_keeper_may_hold_more_than_its_limit(rt: HostRuntime) -> Result<(), Fail> {
    let alloc = rt.alloc();
    let kept = undos(alloc, &[5, 6])?;
    let mut keeper = MemoryKeeper::new(alloc, kept, CallList::new(alloc), 1);
    assert_undos(&rt, &take_all(alloc, &mut keeper)?, &[5, 6]);
    assert_eq!(rt; keeper.put(&undo(7)), Err(PutFault::Full));
    Ok(())
}

#[test]
fn a_quiet_keeper_takes_all_and_gives_none(rt: HostRuntime) -> Result<(), Fail> {
    let alloc = rt.alloc();
    let mut keeper = QuietKeeper::new();
    for _round in 0..2 {
        assert_undos(&rt, &take_all(alloc, &mut keeper)?, &[]);
        assert_eq!(rt; keeper.put(&undo(5)), Ok(()));
    }
    assert_eq!(rt; keeper.next().err(), Some(NextFault::NoMemory));
    Ok(())
}
