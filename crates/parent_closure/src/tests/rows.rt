ghost use Rattle.std.specs.Prelude.{◌≡◌, ◌<◌};

use super::{Edit, edit_all, prepare};
use crate::Parents;
use media_types::{NoMemory, ServiceNo, Steps, TagNo};
use sibling_chains::{RelationRow, Siblings};
use std::alloc::Global;
use std::marker::Brand;
use std::process::Abort;
use std::sync::ledger::{Blank, Ledger};
use std::test::Fail;
use std::thread::Threads;

fn assert_rows<L: Ledger>(
    rt: &impl Abort,
    parents: &Parents,
    steps: &mut Steps<L>,
    want: &[(u8, u32, u32, bool)],
) {
    assert_eq!(rt; parents.rows_len() as usize, want.len());
    for (at, (service, first, second, standing)) in want.iter().enumerate() {
        assert!(rt; at < parents.rows_len() as usize);
        let row = RelationRow {
            service: ServiceNo(*service),
            first: TagNo(*first),
            second: TagNo(*second),
            standing: *standing,
        };
        assert_eq!(rt; parents.row(at as u32, steps), row);
    }
}

fn assert_stands<L: Ledger>(
    rt: &impl Abort,
    parents: &Parents,
    steps: &mut Steps<L>,
    want: &[(u8, u32, u32, bool)],
) {
    for (service, child, parent, stands) in want {
        let found = parents.stands(ServiceNo(*service), TagNo(*child), TagNo(*parent), steps);
        assert_eq!(rt; found, *stands, "{service}: {child} to {parent}");
    }
}

fn assert_within<L: Ledger>(
    rt: &impl Abort,
    parents: &mut Parents,
    siblings: &mut Siblings,
    steps: &mut Steps<L>,
) -> Result<(), NoMemory> {
    assert!(rt; parents.services() == 0 && parents.tags() == 0 && parents.rows_len() == 0);
    prepare(rt, parents, siblings, 3)?;
    assert!(rt; parents.services() == 2 && parents.tags() == 3 && parents.rows_len() == 0);
    edit_all(
        rt,
        parents,
        steps,
        &[
            Edit::Add(0, 0, 1),
            Edit::Add(0, 0, 2),
            Edit::Add(1, 0, 1),
            Edit::Remove(0, 0, 1),
            Edit::Order(1, &[1, 0]),
            Edit::Add(0, 1, 0),
            Edit::Add(0, 0, 1),
            Edit::Remove(0, 0, 1),
            Edit::Remove(1, 0, 1),
        ],
    )?;
    assert_rows(
        rt,
        parents,
        steps,
        &[
            (0, 0, 1, false),
            (0, 0, 2, true),
            (1, 0, 1, false),
            (0, 1, 0, true),
            (0, 0, 1, false),
        ],
    );
    assert_stands(
        rt,
        parents,
        steps,
        &[
            (0, 0, 1, false),
            (0, 0, 2, true),
            (0, 1, 0, true),
            (0, 2, 0, false),
            (1, 0, 1, false),
            (1, 0, 2, false),
        ],
    );
    assert!(rt; parents.services() == 2 && parents.tags() == 3);
    Ok(())
}

fn assert_all<L: Ledger>(
    rt: &(impl Abort + Threads),
    alloc: Global,
    blank: Blank,
) -> Result<(), NoMemory>
    requires name { blank.name ≡ L.name }
    requires parts { blank.parts ≡ L.parts }
    requires some { 0 < L.parts }
{
    let mut steps = Steps::<L>::new(rt, blank);
    let mut parents = Parents::new(alloc);
    let mut siblings = Siblings::new(alloc);
    assert_within(rt, &mut parents, &mut siblings, &mut steps)
}

#[test]
fn rows_stay_in_order_of_recording(rt: HostRuntime) -> Result<(), Fail> {
    assert_all::<Brand>(&rt, rt.alloc(), Blank::new(1))?;
    Ok(())
}
