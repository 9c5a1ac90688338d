use super::{Edit, Step, assert_scripts};
use media_types::{ServiceNo, TagNo};
use std::test::Fail;

#[test]
fn pairs_make_relations(rt: HostRuntime) -> Result<(), Fail> {
    let scripts: [&[Step]; 5] = [
        // A parent is read between ideal tags, and in its own service.
        &[
            Step::Count(0, 0, 0),
            Step::Grow(3),
            Step::Grow(2),
            Step::Do(Edit::Sibling(0, 0, 1)),
            Step::Find(0, 0, Some(TagNo(1))),
            Step::Find(1, 0, None),
            Step::Do(Edit::Parent(0, 0, 2)),
            Step::Tags(0, 3, &[(1, &[2]), (1, &[2]), (2, &[]), (3, &[])]),
            Step::Tags(0, 2, &[(1, &[]), (1, &[]), (2, &[])]),
            Step::Tags(1, 3, &[(0, &[]), (1, &[]), (2, &[])]),
            Step::Stands(0, 0, 2, true),
            Step::Stands(0, 1, 2, false),
            Step::Stands(1, 0, 2, false),
            Step::Do(Edit::NoSibling(0, 0, 1)),
            Step::Find(0, 0, None),
            Step::Tags(0, 3, &[(0, &[2]), (1, &[]), (2, &[])]),
            Step::Count(3, 1, 1),
        ],
        // The good tag of a parent counts. A pair that leads to the ideal tag itself adds nothing.
        &[
            Step::Grow(4),
            Step::Do(Edit::Parent(0, 0, 1)),
            Step::Do(Edit::Sibling(0, 1, 2)),
            Step::Do(Edit::Sibling(0, 2, 3)),
            Step::Tags(0, 4, &[(0, &[3]), (3, &[]), (3, &[]), (3, &[])]),
            Step::Do(Edit::Sibling(0, 0, 2)),
            Step::Tags(0, 4, &[(3, &[]), (3, &[]), (3, &[]), (3, &[])]),
        ],
        // In a loop no tag is above itself, nor is the ideal tag of another.
        &[
            Step::Grow(4),
            Step::Do(Edit::Parent(0, 0, 1)),
            Step::Do(Edit::Parent(0, 1, 2)),
            Step::Do(Edit::Parent(0, 2, 0)),
            Step::Do(Edit::Sibling(0, 3, 0)),
            Step::Tags(
                0,
                4,
                &[(0, &[1, 2]), (1, &[0, 2]), (2, &[0, 1]), (0, &[1, 2])],
            ),
            Step::Do(Edit::NoParent(0, 1, 2)),
            Step::Tags(0, 4, &[(0, &[1]), (1, &[]), (2, &[0, 1]), (0, &[1])]),
        ],
        // Two ways lead from 0 to 3. A pair may be recorded again.
        &[
            Step::Grow(4),
            Step::Do(Edit::Parent(0, 0, 1)),
            Step::Do(Edit::Parent(0, 0, 2)),
            Step::Do(Edit::Parent(0, 1, 3)),
            Step::Do(Edit::Parent(0, 2, 3)),
            Step::Tags(0, 4, &[(0, &[1, 2, 3]), (1, &[3]), (2, &[3]), (3, &[])]),
            Step::Do(Edit::NoParent(0, 1, 3)),
            Step::Stands(0, 1, 3, false),
            Step::Tags(0, 4, &[(0, &[1, 2, 3]), (1, &[]), (2, &[3]), (3, &[])]),
            Step::Do(Edit::NoParent(0, 2, 3)),
            Step::Tags(0, 4, &[(0, &[1, 2]), (1, &[]), (2, &[]), (3, &[])]),
            Step::Do(Edit::Parent(0, 1, 3)),
            Step::Tags(0, 4, &[(0, &[1, 2, 3]), (1, &[3]), (2, &[]), (3, &[])]),
            Step::Count(4, 0, 5),
        ],
        // The pairs of another service count once it is in the list, those of the first one in it before others.
        &[
            Step::Grow(6),
            Step::Do(Edit::Parent(1, 0, 1)),
            Step::Do(Edit::Sibling(1, 1, 2)),
            Step::Do(Edit::Sibling(0, 1, 3)),
            Step::Tags(0, 6, &[(0, &[]), (3, &[]), (2, &[])]),
            Step::Tags(1, 6, &[(0, &[2]), (2, &[]), (2, &[])]),
            Step::Order(0, &[0], &[0, 1], None),
            Step::Tags(0, 6, &[(0, &[3]), (3, &[]), (2, &[])]),
            Step::Order(0, &[1, 0], &[1], None),
            Step::Order(1, &[], &[], None),
            Step::Tags(0, 6, &[(0, &[2]), (2, &[]), (2, &[])]),
            Step::Tags(1, 6, &[(0, &[]), (1, &[]), (2, &[])]),
            Step::Order(0, &[0, 1], &[0], None),
            Step::Tags(0, 6, &[(0, &[]), (3, &[]), (2, &[])]),
        ],
    ];
    assert_scripts(&rt, rt.alloc(), &scripts)?;
    Ok(())
}

const LAST: Edit = Edit::Parent(0, 511, 1_023);

const ONE_MORE: Edit = Edit::Parent(0, 1_023, 1_024);

const FIRST_TAG: Option<(ServiceNo, TagNo)> = Some((ServiceNo(0), TagNo(0)));

// With the tags 0 to 1,023 the tag 0 implies as many as it may.
#[test]
fn the_first_tag_over_the_limit_is_told(rt: HostRuntime) -> Result<(), Fail> {
    let script = [
        Step::Grow(1_028),
        Step::Tree(1_022),
        Step::Over(LAST, 1_028, None),
        Step::Do(LAST),
        Step::Over(ONE_MORE, 1_025, FIRST_TAG),
        Step::Over(ONE_MORE, 1_024, None),
        // Service 0 doesn't take the pairs of service 1.
        Step::Over(Edit::Parent(1, 1_023, 1_024), 1_028, None),
        // 1,025 would imply itself and these. It is past the second end.
        Step::Over(
            Edit::Parent(0, 1_025, 0),
            1_026,
            Some((ServiceNo(0), TagNo(1_025))),
        ),
        Step::Over(Edit::Parent(0, 1_025, 0), 1_025, None),
        // A bad tag isn't implied, and a loop adds none.
        Step::Over(Edit::Sibling(0, 1_025, 0), 1_028, None),
        Step::Over(Edit::Parent(0, 1_023, 0), 1_028, None),
        // None of these plans was carried out.
        Step::Count(1_028, 0, 1_023),
        Step::Do(Edit::Parent(0, 1_025, 1_026)),
        // The good tag brings its own parent.
        Step::Over(Edit::Sibling(0, 1_023, 1_025), 1_028, FIRST_TAG),
        Step::Over(Edit::Sibling(0, 1_023, 1_026), 1_028, None),
        // Service 1 alone takes the pairs of service 0.
        Step::Order(0, &[0], &[], None),
        Step::Order(1, &[1], &[1, 0], None),
        Step::Over(ONE_MORE, 1_028, Some((ServiceNo(1), TagNo(0)))),
        Step::Order(1, &[1], &[1], None),
        Step::Do(ONE_MORE),
        Step::Order(1, &[1], &[1, 0], Some(TagNo(0))),
        // A plan tells of the clusters that it touches.
        Step::Over(Edit::Parent(0, 1_026, 1_027), 1_028, None),
        Step::Over(Edit::NoParent(0, 0, 1), 1_028, None),
    ];
    assert_scripts(&rt, rt.alloc(), &[&script])?;
    Ok(())
}
