ghost use Rattle.std.specs.Prelude.{◌≡◌, ◌≤◌, ◌<◌, ◌+◌, OnOk, length};
ghost use Rattle.tag_types.specs.declared.limits.TheConstants.{MAX_SERVICES};
ghost use Rattle.display_cache.specs.Recorded.{list_place};

use super::*;
use media_types::{FileNo, ServiceNo, Steps, TagNo};
use std::alloc::Global;
use std::marker::Brand;
use std::process::Abort;
use std::sync::ledger::{Blank, Ledger};
use std::test::Fail;
use std::thread::Threads;
use tag_types::MapState;

fn add_tag(display: &mut Display) -> Result<(), Fail>
    ensures { OnOk result (length display.new.shown.lists ≡ length display.old.shown.lists + MAX_SERVICES) }
{
    let plan = display.plan_tag()?;
    display.commit(plan);
    Ok(())
}

fn map<L: Ledger>(
    display: &mut Display,
    t: TagNo,
    f: FileNo,
    was: Option<MapState>,
    now: Option<MapState>,
    steps: &mut Steps<L>,
) -> Result<(), Fail>
    requires { list_place 0 t.0 < length display.old.shown.lists }
    ensures { OnOk result (length display.new.shown.lists ≡ length display.old.shown.lists) }
{
    let plan = display.plan_mapping(ServiceNo(0), t, f, was, now, steps)?;
    display.commit(plan);
    Ok(())
}

// A tag that is mapped, asked for and taken away: what two files show, and the counts.
fn session<L: Ledger>(rt: &(impl Abort + Threads), alloc: Global, blank: Blank) -> Result<(), Fail>
    requires name { blank.name ≡ L.name }
    requires parts { blank.parts ≡ L.parts }
    requires some { 0 < L.parts }
{
    let mut steps = Steps::<L>::new(rt, blank);
    let mut display = Display::new(alloc);
    add_tag(&mut display)?;
    add_tag(&mut display)?;
    map(
        &mut display,
        TagNo(0),
        FileNo(0),
        None,
        Some(MapState::Current),
        &mut steps,
    )?;
    map(
        &mut display,
        TagNo(0),
        FileNo(1),
        None,
        Some(MapState::Current),
        &mut steps,
    )?;
    map(
        &mut display,
        TagNo(1),
        FileNo(0),
        None,
        Some(MapState::Pending),
        &mut steps,
    )?;
    check(
        rt,
        &display,
        &[(TagNo(0), false), (TagNo(1), true)],
        (2, 0),
        (0, 1),
        3,
        &mut steps,
    )?;
    map(
        &mut display,
        TagNo(1),
        FileNo(0),
        Some(MapState::Pending),
        Some(MapState::Current),
        &mut steps,
    )?;
    map(
        &mut display,
        TagNo(0),
        FileNo(0),
        Some(MapState::Current),
        Some(MapState::Deleted),
        &mut steps,
    )?;
    check(
        rt,
        &display,
        &[(TagNo(1), false)],
        (1, 0),
        (1, 0),
        2,
        &mut steps,
    )
}

fn check<L: Ledger>(
    rt: &impl Abort,
    display: &Display,
    shown: &[(TagNo, bool)],
    first: (u64, u64),
    second: (u64, u64),
    rows: u64,
    steps: &mut Steps<L>,
) -> Result<(), Fail> {
    let list = display.shown(ServiceNo(0), FileNo(0), steps)?;
    assert!(rt; list.as_slice() == shown);
    assert!(rt; display.counts(ServiceNo(0), TagNo(0), steps) == first);
    assert!(rt; display.counts(ServiceNo(0), TagNo(1), steps) == second);
    assert!(rt; display.rows() == rows);
    Ok(())
}

#[test]
fn what_files_show(rt: HostRuntime) -> Result<(), Fail> {
    session::<Brand>(&rt, rt.alloc(), Blank::new(1))
}
