//! What keepers keep of sibling pairs.

use crate::tests::keepers::{Case, JOURNAL_FULL, NOT_KEPT, UNKNOWN_TAG, assert_all};
use crate::tests::lines::Line::{AddSibling, Ideal, RemoveSibling};
use media_base::{Change, ChangeList, NoMemory, ServiceNo, Status, TagPair};
use std::alloc::Global;
use std::process::Abort;
use std::test::Fail;
use std::thread::Threads;

pub(super) const CHANGED: &str = "{\"changed\":true}\n";

const PAIR_0_1: &str = "{\"bad\":0,\"good\":1}\n";

pub(super) const B_KNOWN: &str = "{\"error\":\"pair_known\",\"good\":\"b\"}\n";

pub(super) const UNKNOWN_PAIR: &str = "{\"error\":\"unknown_pair\"}\n";

pub(super) const IDEAL_A: &str = "{\"ideal\":\"a\",\"ancestors\":[]}\n";

pub(super) const IDEAL_B: &str = "{\"ideal\":\"b\",\"ancestors\":[]}\n";

pub(super) const IDEAL_C: &str = "{\"ideal\":\"c\",\"ancestors\":[]}\n";

const NOT_KEPT_PAIRS: [Case; 3] = [
    // A pair that isn't kept numbers no tag.
    Case {
        lines: &[
            AddSibling(0, "a", "b"),
            AddSibling(0, "c", "a"),
            Ideal(0, "b"),
            Ideal(0, "c"),
        ],
        failing_call: 2,
        replies: &[NOT_KEPT, PAIR_0_1, UNKNOWN_TAG, IDEAL_A],
        kept: 1,
        ..Case::PLAIN
    },
    Case {
        lines: &[
            AddSibling(0, "a", "b"),
            RemoveSibling(0, "a", "b"),
            Ideal(0, "a"),
        ],
        failing_call: 3,
        replies: &[PAIR_0_1, NOT_KEPT, IDEAL_B],
        kept: 1,
        ..Case::PLAIN
    },
    // What is refused wants no room.
    Case {
        lines: &[
            AddSibling(0, "a", "b"),
            AddSibling(0, "b", "c"),
            RemoveSibling(0, "a", "b"),
            AddSibling(0, "a", "c"),
            RemoveSibling(0, "b", "a"),
            Ideal(0, "a"),
            Ideal(0, "c"),
        ],
        limit: 1,
        replies: &[
            PAIR_0_1,
            JOURNAL_FULL,
            JOURNAL_FULL,
            B_KNOWN,
            UNKNOWN_PAIR,
            IDEAL_B,
            UNKNOWN_TAG,
        ],
        kept: 1,
        ..Case::PLAIN
    },
];

#[test]
fn a_pair_that_is_not_kept_is_refused(rt: HostRuntime) -> Result<(), Fail> {
    assert_all(&rt, rt.alloc(), &NOT_KEPT_PAIRS)
}

// Each line is a change.
const PAIRS: Case = Case {
    lines: &[
        AddSibling(0, " A", "b"),
        AddSibling(0, "b", "c"),
        RemoveSibling(0, "a", "B "),
        AddSibling(0, "c", "a"),
        AddSibling(0, "a", "b"),
        RemoveSibling(0, "b", "c"),
    ],
    replies: &[
        PAIR_0_1,
        "{\"bad\":1,\"good\":2}\n",
        CHANGED,
        "{\"bad\":2,\"good\":0}\n",
        PAIR_0_1,
        CHANGED,
    ],
    kept: 6,
    ..Case::PLAIN
};

/// Whether a pair was added or removed, its bad tag and its good one.
#[derive(Clone, Copy)]
struct Kept(bool, &'static str, &'static str);

const KEPT: [Kept; 6] = [
    Kept(true, "a", "b"),
    Kept(true, "b", "c"),
    Kept(false, "a", "b"),
    Kept(true, "c", "a"),
    Kept(true, "a", "b"),
    Kept(false, "b", "c"),
];

/// It is the pair of these tags in service 0.
pub(super) fn assert_pair(rt: &impl Abort, pair: &TagPair, first: &str, second: &str) {
    assert_eq!(rt; pair.service, ServiceNo(0));
    assert_eq!(rt; pair.first.as_str(), first);
    assert_eq!(rt; pair.second.as_str(), second);
}

impl Kept {
    fn assert_change(&self, rt: &impl Abort, change: &Change) {
        match change {
            Change::SiblingAdded(pair) if self.0 => assert_pair(rt, pair, self.1, self.2),
            Change::SiblingRemoved(pair) if !self.0 => assert_pair(rt, pair, self.1, self.2),
            _ => panic!(rt; "{change:?}"),
        }
    }
}

fn assert_kept(rt: &impl Abort, changes: &ChangeList) {
    assert_eq!(rt; changes.len(), KEPT.len());
    for (kept, change) in KEPT.iter().zip(changes.as_slice()) {
        kept.assert_change(rt, change);
    }
}

#[test]
fn pairs_are_kept_as_they_are_said(rt: HostRuntime) -> Result<(), Fail> {
    let alloc = rt.alloc();
    let keeper = PAIRS.assert_from(&rt, alloc, ChangeList::new(alloc))?;
    assert_kept(&rt, keeper.changes());
    Ok(())
}

/// A session over a keeper of some of the kept changes, by their places.
#[derive(Clone, Copy)]
pub(super) struct Opened {
    pub(super) places: &'static [usize],
    pub(super) case: Case,
}

pub(super) const IDEALS: Case = Case {
    lines: &[Ideal(0, "a"), Ideal(0, "b"), Ideal(0, "c")],
    ..Case::PLAIN
};

// Each front of the kept changes opens the library that was there after them.
const FRONTS: [Opened; 7] = [
    Opened {
        places: &[],
        case: Case {
            replies: &[UNKNOWN_TAG, UNKNOWN_TAG, UNKNOWN_TAG],
            kept: 0,
            ..IDEALS
        },
    },
    Opened {
        places: &[0],
        case: Case {
            replies: &[IDEAL_B, IDEAL_B, UNKNOWN_TAG],
            kept: 1,
            ..IDEALS
        },
    },
    Opened {
        places: &[0, 1],
        case: Case {
            replies: &[IDEAL_C, IDEAL_C, IDEAL_C],
            kept: 2,
            ..IDEALS
        },
    },
    Opened {
        places: &[0, 1, 2],
        case: Case {
            replies: &[IDEAL_A, IDEAL_C, IDEAL_C],
            kept: 3,
            ..IDEALS
        },
    },
    Opened {
        places: &[0, 1, 2, 3],
        case: Case {
            replies: &[IDEAL_A, IDEAL_A, IDEAL_A],
            kept: 4,
            ..IDEALS
        },
    },
    // a to b is passed over, and stands.
    Opened {
        places: &[0, 1, 2, 3, 4],
        case: Case {
            lines: &[Ideal(0, "a"), Ideal(0, "b"), AddSibling(0, "a", "c")],
            replies: &[IDEAL_A, IDEAL_A, B_KNOWN],
            kept: 5,
            ..IDEALS
        },
    },
    Opened {
        places: &[0, 1, 2, 3, 4, 5],
        case: Case {
            lines: &[
                Ideal(0, "a"),
                Ideal(0, "b"),
                Ideal(0, "c"),
                AddSibling(0, "d", "a"),
            ],
            replies: &[IDEAL_B, IDEAL_B, IDEAL_B, "{\"bad\":3,\"good\":0}\n"],
            kept: 7,
            ..IDEALS
        },
    },
];

// A pair stands where it is removed, and none of its bad tag where it is added.
const UNOPENED: [Opened; 3] = [
    Opened {
        places: &[2],
        case: Case {
            status: Status::BadStore(0),
            replies: &[],
            kept: 1,
            ..IDEALS
        },
    },
    Opened {
        places: &[0, 4],
        case: Case {
            status: Status::BadStore(1),
            replies: &[],
            kept: 2,
            ..IDEALS
        },
    },
    Opened {
        places: &[0, 1, 2, 2],
        case: Case {
            status: Status::BadStore(3),
            replies: &[],
            kept: 4,
            ..IDEALS
        },
    },
];

// The changes of these places.
fn some_of(alloc: Global, changes: &ChangeList, places: &[usize]) -> Result<ChangeList, NoMemory> {
    let mut some = ChangeList::new(alloc);
    for place in places {
        if let Some(change) = changes.as_slice().get(*place) {
            some.push(change.copied(alloc)?)?;
        }
    }
    Ok(some)
}

pub(super) fn assert_opened(
    rt: &(impl Threads + Abort),
    alloc: Global,
    changes: &ChangeList,
    openings: &[Opened],
) -> Result<(), Fail> {
    for opened in openings {
        let some = some_of(alloc, changes, opened.places)?;
        drop(opened.case.assert_from(rt, alloc, some)?);
    }
    Ok(())
}

#[test]
fn kept_pairs_open_as_they_were(rt: HostRuntime) -> Result<(), Fail> {
    let alloc = rt.alloc();
    let keeper = PAIRS.assert_from(&rt, alloc, ChangeList::new(alloc))?;
    assert_opened(&rt, alloc, keeper.changes(), &FRONTS)?;
    assert_opened(&rt, alloc, keeper.changes(), &UNOPENED)
}
