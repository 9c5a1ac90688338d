//! What keepers keep of parent pairs.

use crate::tests::keepers::{Case, JOURNAL_FULL, NOT_KEPT, UNKNOWN_TAG, assert_all};
use crate::tests::kept_siblings::{
    B_KNOWN, CHANGED, IDEAL_A, IDEAL_B, IDEAL_C, IDEALS, Opened, UNKNOWN_PAIR, assert_opened,
    assert_pair,
};
use crate::tests::lines::Line::{AddParent, Ideal, RemoveParent};
use media_base::{Change, ChangeList, Status};
use std::process::Abort;
use std::test::Fail;

const CHILD_0: &str = "{\"child\":0,\"parent\":1}\n";

const A_UNDER_B: &str = "{\"ideal\":\"a\",\"ancestors\":[\"b\"]}\n";

const B_UNDER_C: &str = "{\"ideal\":\"b\",\"ancestors\":[\"c\"]}\n";

const B_UNDER_A_C: &str = "{\"ideal\":\"b\",\"ancestors\":[\"a\",\"c\"]}\n";

const C_UNDER_A: &str = "{\"ideal\":\"c\",\"ancestors\":[\"a\"]}\n";

const NOT_KEPT_PAIRS: [Case; 3] = [
    // A pair that isn't kept numbers no tag.
    Case {
        lines: &[
            AddParent(0, "a", "b"),
            AddParent(0, "c", "a"),
            Ideal(0, "b"),
            Ideal(0, "c"),
        ],
        failing_call: 2,
        replies: &[NOT_KEPT, CHILD_0, UNKNOWN_TAG, C_UNDER_A],
        kept: 1,
        ..Case::PLAIN
    },
    Case {
        lines: &[
            AddParent(0, "a", "b"),
            RemoveParent(0, "a", "b"),
            Ideal(0, "a"),
        ],
        failing_call: 3,
        replies: &[CHILD_0, NOT_KEPT, A_UNDER_B],
        kept: 1,
        ..Case::PLAIN
    },
    // What is refused wants no room.
    Case {
        lines: &[
            AddParent(0, "a", "b"),
            AddParent(0, "b", "c"),
            RemoveParent(0, "a", "b"),
            AddParent(0, "a", "b"),
            RemoveParent(0, "b", "a"),
            Ideal(0, "a"),
            Ideal(0, "c"),
        ],
        limit: 1,
        replies: &[
            CHILD_0,
            JOURNAL_FULL,
            JOURNAL_FULL,
            B_KNOWN,
            UNKNOWN_PAIR,
            A_UNDER_B,
            UNKNOWN_TAG,
        ],
        kept: 1,
        ..Case::PLAIN
    },
];

#[test]
fn a_parent_pair_that_is_not_kept_is_refused(rt: HostRuntime) -> Result<(), Fail> {
    assert_all(&rt, rt.alloc(), &NOT_KEPT_PAIRS)
}

// Each line is a change.
const PAIRS: Case = Case {
    lines: &[
        AddParent(0, " A", "b"),
        AddParent(0, "b", "c"),
        RemoveParent(0, "a", "B "),
        AddParent(0, "c", "a"),
        AddParent(0, "a", "b"),
    ],
    replies: &[
        CHILD_0,
        "{\"child\":1,\"parent\":2}\n",
        CHANGED,
        "{\"child\":2,\"parent\":0}\n",
        CHILD_0,
    ],
    kept: 5,
    ..Case::PLAIN
};

/// Whether a pair was added or removed, its child and its parent.
#[derive(Clone, Copy)]
struct Kept(bool, &'static str, &'static str);

const KEPT: [Kept; 5] = [
    Kept(true, "a", "b"),
    Kept(true, "b", "c"),
    Kept(false, "a", "b"),
    Kept(true, "c", "a"),
    Kept(true, "a", "b"),
];

impl Kept {
    fn assert_change(&self, rt: &impl Abort, change: &Change) {
        match change {
            Change::ParentAdded(pair) if self.0 => assert_pair(rt, pair, self.1, self.2),
            Change::ParentRemoved(pair) if !self.0 => assert_pair(rt, pair, self.1, self.2),
            _ => panic!(rt; "{change:?}"),
        }
    }
}

fn assert_kept(rt: &impl Abort, changes: &ChangeList) {
    assert_eq!(rt; changes.len(), KEPT.len());
    for (kept, change) in KEPT.iter().zip(changes.as_slice()) {
        kept.assert_change(rt, change);
    }
}

// Each front of the kept changes opens the library that was there after them.
const FRONTS: [Opened; 5] = [
    Opened {
        places: &[0],
        case: Case {
            replies: &[A_UNDER_B, IDEAL_B, UNKNOWN_TAG],
            kept: 1,
            ..IDEALS
        },
    },
    Opened {
        places: &[0, 1],
        case: Case {
            replies: &[
                "{\"ideal\":\"a\",\"ancestors\":[\"b\",\"c\"]}\n",
                B_UNDER_C,
                IDEAL_C,
            ],
            kept: 2,
            ..IDEALS
        },
    },
    Opened {
        places: &[0, 1, 2],
        case: Case {
            replies: &[IDEAL_A, B_UNDER_C, IDEAL_C],
            kept: 3,
            ..IDEALS
        },
    },
    Opened {
        places: &[0, 1, 2, 3],
        case: Case {
            replies: &[IDEAL_A, B_UNDER_A_C, C_UNDER_A],
            kept: 4,
            ..IDEALS
        },
    },
    Opened {
        places: &[0, 1, 2, 3, 4],
        case: Case {
            lines: &[
                AddParent(0, "a", "b"),
                Ideal(0, "b"),
                Ideal(0, "c"),
                AddParent(0, "d", "a"),
            ],
            replies: &[
                B_KNOWN,
                B_UNDER_A_C,
                "{\"ideal\":\"c\",\"ancestors\":[\"a\",\"b\"]}\n",
                "{\"child\":3,\"parent\":0}\n",
            ],
            kept: 6,
            ..IDEALS
        },
    },
];

// A pair stands where it is removed, and doesn't where it is added.
const UNOPENED: [Opened; 3] = [
    Opened {
        places: &[2],
        case: Case {
            status: Status::BadStore(0),
            replies: &[],
            kept: 1,
            ..IDEALS
        },
    },
    Opened {
        places: &[0, 4],
        case: Case {
            status: Status::BadStore(1),
            replies: &[],
            kept: 2,
            ..IDEALS
        },
    },
    Opened {
        places: &[0, 1, 2, 2],
        case: Case {
            status: Status::BadStore(3),
            replies: &[],
            kept: 4,
            ..IDEALS
        },
    },
];

#[test]
fn kept_parent_pairs_open_as_they_were(rt: HostRuntime) -> Result<(), Fail> {
    let alloc = rt.alloc();
    let keeper = PAIRS.assert_from(&rt, alloc, ChangeList::new(alloc))?;
    assert_kept(&rt, keeper.changes());
    assert_opened(&rt, alloc, keeper.changes(), &FRONTS)?;
    assert_opened(&rt, alloc, keeper.changes(), &UNOPENED)
}
