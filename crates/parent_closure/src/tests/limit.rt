ghost use Rattle.std.specs.Prelude.{◌≡◌, ◌<◌};

use super::{Edit, all_tags, edit_all, prepare};
use crate::Parents;
use media_types::{NoMemory, ServiceNo, Steps, TagNo};
use sibling_chains::Siblings;
use std::alloc::Global;
use std::marker::Brand;
use std::process::Abort;
use std::sync::ledger::{Blank, Ledger};
use std::test::Fail;
use std::thread::Threads;

fn assert_first<L: Ledger>(
    rt: &impl Abort,
    parents: &Parents,
    siblings: &Siblings,
    steps: &mut Steps<L>,
    end: u32,
    want: Option<TagNo>,
) -> Result<(), NoMemory> {
    let tags = all_tags(rt, parents, None, siblings, None)?;
    assert!(rt; 0 < parents.services() && 0 < siblings.services());
    let found = parents.first_over(
        None,
        siblings,
        None,
        ServiceNo(0),
        tags.as_slice(),
        end,
        steps,
    )?;
    assert_eq!(rt; found, want, "below {end}");
    Ok(())
}

// The tag 1 has 1,023 parents and itself, and then one more.
fn assert_limit<L: Ledger>(
    rt: &impl Abort,
    parents: &mut Parents,
    siblings: &mut Siblings,
    steps: &mut Steps<L>,
) -> Result<(), NoMemory> {
    prepare(rt, parents, siblings, 1_026)?;
    for parent in 2..1_025 {
        edit_all(rt, parents, steps, &[Edit::Add(0, 1, parent)])?;
    }
    assert_first(rt, parents, siblings, steps, 1_026, None)?;
    edit_all(rt, parents, steps, &[Edit::Add(0, 2, 3)])?;
    assert_first(rt, parents, siblings, steps, 1_026, None)?;
    edit_all(rt, parents, steps, &[Edit::Add(0, 2, 1_025)])?;
    assert_first(rt, parents, siblings, steps, 1_026, Some(TagNo(1)))?;
    assert_first(rt, parents, siblings, steps, 1_025, None)?;
    edit_all(rt, parents, steps, &[Edit::Remove(0, 1, 2)])?;
    assert_first(rt, parents, siblings, steps, 1_026, None)?;
    edit_all(
        rt,
        parents,
        steps,
        &[Edit::Add(0, 0, 1), Edit::Add(0, 1, 1_025)],
    )?;
    assert_first(rt, parents, siblings, steps, 1_026, Some(TagNo(0)))
}

fn assert_session<L: Ledger>(
    rt: &(impl Abort + Threads),
    alloc: Global,
    blank: Blank,
) -> Result<(), NoMemory>
    requires name { blank.name ≡ L.name }
    requires parts { blank.parts ≡ L.parts }
    requires some { 0 < L.parts }
{
    let mut steps = Steps::<L>::new(rt, blank);
    let mut parents = Parents::new(alloc);
    let mut siblings = Siblings::new(alloc);
    assert_limit(rt, &mut parents, &mut siblings, &mut steps)
}

#[test]
fn the_first_tag_over_the_limit_is_told(rt: HostRuntime) -> Result<(), Fail> {
    assert_session::<Brand>(&rt, rt.alloc(), Blank::new(1))?;
    Ok(())
}
