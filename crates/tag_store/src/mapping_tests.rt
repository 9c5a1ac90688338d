ghost use Rattle.std.specs.Prelude.{◌≡◌, ◌<◌};

use super::*;
use media_types::{FileNo, ServiceNo, Steps, TagNo};
use std::alloc::Global;
use std::marker::Brand;
use std::process::Abort;
use std::sync::ledger::{Blank, Ledger};
use std::test::Fail;
use std::thread::Threads;
use tag_types::MapState;

// A mapping in the plain list: its service, tag and file, and its state.
type PlainRow = ((u8, u32, u32), MapState);

// A number below this one, of a generator with a fixed start.
fn draw(state: &mut u64, below: u64) -> u64
    requires { 0 < below }
    ensures { result < below }
{
    *state = state
        .wrapping_mul(6_364_136_223_846_793_005)
        .wrapping_add(1_442_695_040_888_963_407);
    (*state >> 33) % below
}

fn state_of(number: u64) -> Option<MapState> {
    match number {
        0 => None,
        1 => Some(MapState::Current),
        2 => Some(MapState::Pending),
        _ => Some(MapState::Deleted),
    }
}

fn is_past(after: Option<u32>, number: u32) -> bool {
    match after {
        Some(after) => after < number,
        None => true,
    }
}

// The plain list's way: look at each row.
fn plain_state(plain: &Vec<PlainRow>, key: (u8, u32, u32)) -> Option<MapState> {
    plain.iter().find(|row| row.0 == key).map(|row| row.1)
}

fn plain_of_file(
    plain: &Vec<PlainRow>,
    s: u8,
    f: u32,
    after: Option<u32>,
) -> Option<(TagNo, MapState)> {
    let mut least = None;
    for ((service, tag, file), state) in plain {
        let wanted = *service == s && *file == f && is_past(after, *tag);
        let earlier = match least {
            Some((TagNo(found), _)) => *tag < found,
            None => true,
        };
        if wanted && earlier {
            least = Some((TagNo(*tag), *state));
        }
    }
    least
}

fn plain_of_tag(
    plain: &Vec<PlainRow>,
    s: u8,
    t: u32,
    after: Option<u32>,
) -> Option<(FileNo, MapState)> {
    let mut least = None;
    for ((service, tag, file), state) in plain {
        let wanted = *service == s && *tag == t && is_past(after, *file);
        let earlier = match least {
            Some((FileNo(found), _)) => *file < found,
            None => true,
        };
        if wanted && earlier {
            least = Some((FileNo(*file), *state));
        }
    }
    least
}

fn set_both(
    mappings: &mut Mappings,
    plain: &mut Vec<PlainRow>,
    key: (u8, u32, u32),
    state: Option<MapState>,
) -> Result<(), Fail> {
    mappings.reserve()?;
    mappings.set(ServiceNo(key.0), TagNo(key.1), FileNo(key.2), state);
    plain.retain(|row| row.0 != key);
    if let Some(state) = state {
        plain.push((key, state))?;
    }
    Ok(())
}

fn assert_same<L: Ledger>(
    rt: &impl Abort,
    mappings: &Mappings,
    plain: &Vec<PlainRow>,
    key: (u8, u32, u32),
    steps: &mut Steps<L>,
) {
    let (service, tag, file) = (ServiceNo(key.0), TagNo(key.1), FileNo(key.2));
    assert!(rt; mappings.len() == plain.len() as u64);
    assert!(rt; mappings.state(service, tag, file, steps) == plain_state(plain, key));
    let first = plain_of_file(plain, key.0, key.2, None);
    assert!(rt; mappings.of_file(service, file, None, steps) == first);
    let next = plain_of_file(plain, key.0, key.2, Some(key.1));
    assert!(rt; mappings.of_file(service, file, Some(tag), steps) == next);
    let first = plain_of_tag(plain, key.0, key.1, None);
    assert!(rt; mappings.of_tag(service, tag, None, steps) == first);
    let next = plain_of_tag(plain, key.0, key.1, Some(key.2));
    assert!(rt; mappings.of_tag(service, tag, Some(file), steps) == next);
}

fn changes<L: Ledger>(rt: &(impl Abort + Threads), alloc: Global, blank: Blank) -> Result<(), Fail>
    requires name { blank.name ≡ L.name }
    requires parts { blank.parts ≡ L.parts }
    requires some { 0 < L.parts }
{
    let mut steps = Steps::<L>::new(rt, blank);
    let mut numbers = 1;
    let mut mappings = Mappings::new(alloc);
    let mut plain = Vec::new(alloc);
    for _ in 0..3_000 {
        let service = draw(&mut numbers, 2) as u8;
        let tag = draw(&mut numbers, 6) as u32;
        let file = draw(&mut numbers, 6) as u32;
        let state = state_of(draw(&mut numbers, 4));
        set_both(&mut mappings, &mut plain, (service, tag, file), state)?;
        let other = draw(&mut numbers, 6) as u32;
        assert_same(rt, &mappings, &plain, (service, other, file), &mut steps);
        assert_same(rt, &mappings, &plain, (service, tag, other), &mut steps);
    }
    Ok(())
}

#[test]
fn mappings_answer_as_a_plain_list(rt: HostRuntime) -> Result<(), Fail> {
    changes::<Brand>(&rt, rt.alloc(), Blank::new(1))
}

// More rows than a page has.
const ROWS: u32 = 600;

// Maps so many tags, in a mixed order, to a file and to its neighbours in the order of files and of services.
fn fill(mappings: &mut Mappings) -> Result<(), Fail> {
    for turn in 0..ROWS {
        let tag = TagNo(turn * 7 % ROWS);
        for (service, file) in [(1, 7), (0, 7), (1, 6), (1, 8), (2, 7)] {
            mappings.reserve()?;
            let state = if file == 7 {
                MapState::Current
            } else {
                MapState::Pending
            };
            mappings.set(ServiceNo(service), tag, FileNo(file), Some(state));
        }
    }
    Ok(())
}

fn assert_tags<L: Ledger>(rt: &impl Abort, mappings: &Mappings, steps: &mut Steps<L>) {
    let (service, file) = (ServiceNo(1), FileNo(7));
    let mut walk = mappings.walk_file(service, file, steps);
    let mut after = None;
    for tag in 0..ROWS {
        let row = Some((TagNo(tag), MapState::Current));
        assert!(rt; walk.next(steps) == row);
        assert!(rt; mappings.of_file(service, file, after, steps) == row);
        after = Some(TagNo(tag));
    }
    assert!(rt; walk.next(steps).is_none());
    assert!(rt; mappings.of_file(service, file, after, steps).is_none());
}

fn assert_files<L: Ledger>(
    rt: &impl Abort,
    mappings: &Mappings,
    tag: TagNo,
    files: &[(u32, MapState)],
    steps: &mut Steps<L>,
) {
    let mut walk = mappings.walk_tag(ServiceNo(1), tag, steps);
    for (file, state) in files {
        assert!(rt; walk.next(steps) == Some((FileNo(*file), *state)));
    }
    assert!(rt; walk.next(steps).is_none());
}

fn pages<L: Ledger>(rt: &(impl Abort + Threads), alloc: Global, blank: Blank) -> Result<(), Fail>
    requires name { blank.name ≡ L.name }
    requires parts { blank.parts ≡ L.parts }
    requires some { 0 < L.parts }
{
    let mut steps = Steps::<L>::new(rt, blank);
    let mut mappings = Mappings::new(alloc);
    fill(&mut mappings)?;
    assert!(rt; mappings.len() == 3_000);
    assert_tags(rt, &mappings, &mut steps);
    let files = [
        (6, MapState::Pending),
        (7, MapState::Current),
        (8, MapState::Pending),
    ];
    assert_files(rt, &mappings, TagNo(599), &files, &mut steps);
    assert_files(rt, &mappings, TagNo(600), &[], &mut steps);
    let last = (TagNo(u32::MAX), MapState::Deleted);
    mappings.reserve()?;
    mappings.set(ServiceNo(1), last.0, FileNo(7), Some(last.1));
    let after = Some(TagNo(599));
    assert!(rt; mappings.of_file(ServiceNo(1), FileNo(7), after, &mut steps) == Some(last));
    let after = Some(last.0);
    assert!(rt;
        mappings
            .of_file(ServiceNo(1), FileNo(7), after, &mut steps)
            .is_none()
    );
    Ok(())
}

#[test]
fn the_tags_of_a_file_lie_in_several_pages(rt: HostRuntime) -> Result<(), Fail> {
    pages::<Brand>(&rt, rt.alloc(), Blank::new(1))
}
