//! Worked sessions of sibling pairs: each line with its reply.

use crate::tests::lines::Line::{
    self, AddSibling, Apply, Ideal, Map, Mappings, RemoveSibling, Text,
};
use crate::tests::lines::State::{Current, Pending};
use crate::tests::rows::{CHANGED, Case, assert_all};
use crate::tests::tagging::{
    BAD_SERVICE, BAD_TAG, SERVICE_0, SERVICE_1, UNKNOWN_SERVICE, UNKNOWN_TAG,
};
use std::test::Fail;

pub(super) const UNKNOWN_PAIR: &str = r#"{"error":"unknown_pair"}"#;

pub(super) const A_KNOWN: &str = r#"{"error":"pair_known","good":"a"}"#;

pub(super) const B_KNOWN: &str = r#"{"error":"pair_known","good":"b"}"#;

pub(super) const IDEAL_A: &str = r#"{"ideal":"a","ancestors":[]}"#;

const IDEAL_B: &str = r#"{"ideal":"b","ancestors":[]}"#;

const IDEAL_C: &str = r#"{"ideal":"c","ancestors":[]}"#;

const IDEAL_D: &str = r#"{"ideal":"d","ancestors":[]}"#;

const PLACES: [Case; 2] = [
    Case {
        shows: "a pair that would close a loop is passed over, and so is one of a later service",
        files: 0,
        rows: &[
            (Line::ADD_SERVICE, SERVICE_1),
            (Apply(0, &[0, 1], &[0]), SERVICE_0),
            (AddSibling(0, "a", "b"), r#"{"bad":0,"good":1}"#),
            (AddSibling(0, "b", "c"), r#"{"bad":1,"good":2}"#),
            (AddSibling(0, "c", "a"), r#"{"bad":2,"good":0}"#),
            (AddSibling(1, "a", "d"), r#"{"bad":0,"good":3}"#),
            (Ideal(0, "a"), IDEAL_C),
            (Ideal(0, "b"), IDEAL_C),
            (Ideal(0, "c"), IDEAL_C),
            (Ideal(1, "a"), IDEAL_D),
            (AddSibling(0, "a", "b"), B_KNOWN),
            (RemoveSibling(0, "b", "c"), CHANGED),
            (Ideal(0, "c"), IDEAL_B),
            (Ideal(0, "a"), IDEAL_B),
            (Ideal(0, "b"), IDEAL_B),
            (Ideal(0, "d"), IDEAL_D),
        ],
    },
    // b to a is passed over till it is the first.
    Case {
        shows: "a pair that is recorded again has a new place",
        files: 0,
        rows: &[
            (AddSibling(0, "a", "b"), r#"{"bad":0,"good":1}"#),
            (AddSibling(0, "b", "a"), r#"{"bad":1,"good":0}"#),
            (Ideal(0, "a"), IDEAL_B),
            (Ideal(0, "b"), IDEAL_B),
            (RemoveSibling(0, "a", "b"), CHANGED),
            (Ideal(0, "a"), IDEAL_A),
            (Ideal(0, "b"), IDEAL_A),
            (AddSibling(0, "a", "b"), r#"{"bad":0,"good":1}"#),
            (Ideal(0, "a"), IDEAL_A),
            (Ideal(0, "b"), IDEAL_A),
            (RemoveSibling(0, "b", "a"), CHANGED),
            (Ideal(0, "a"), IDEAL_B),
            (Ideal(0, "b"), IDEAL_B),
        ],
    },
];

const LISTS: [Case; 3] = [
    // The pair of service 1 is recorded first.
    Case {
        shows: "services come in the order of the list, and without a list each has its own pairs",
        files: 0,
        rows: &[
            (Line::ADD_SERVICE, SERVICE_1),
            (AddSibling(1, "a", "d"), r#"{"bad":0,"good":1}"#),
            (AddSibling(0, "a", "b"), r#"{"bad":0,"good":2}"#),
            (AddSibling(1, "b", "c"), r#"{"bad":2,"good":3}"#),
            (Ideal(0, "a"), IDEAL_B),
            (Ideal(1, "a"), IDEAL_D),
            (Apply(0, &[0, 1], &[0]), SERVICE_0),
            (Ideal(0, "a"), IDEAL_C),
            (Apply(0, &[1, 0], &[]), SERVICE_0),
            (Ideal(0, "a"), IDEAL_D),
            (Ideal(0, "b"), IDEAL_C),
            (Ideal(1, "a"), IDEAL_D),
            (Apply(0, &[], &[0, 1]), SERVICE_0),
            (Ideal(0, "a"), IDEAL_A),
            (Ideal(0, "b"), IDEAL_B),
            (AddSibling(0, "a", "d"), B_KNOWN),
            (AddSibling(0, "b", "a"), r#"{"bad":2,"good":0}"#),
            (Ideal(0, "b"), IDEAL_B),
            (Apply(1, &[0], &[]), SERVICE_1),
            (Ideal(1, "a"), IDEAL_B),
            (
                AddSibling(1, "a", "b"),
                r#"{"error":"pair_known","good":"d"}"#,
            ),
        ],
    },
    Case {
        shows: "a pair of a tag with itself has no effect, and no place before a later service",
        files: 0,
        rows: &[
            (Line::ADD_SERVICE, SERVICE_1),
            (Apply(0, &[0, 1], &[0]), SERVICE_0),
            (AddSibling(0, "a", "a"), r#"{"bad":0,"good":0}"#),
            (Ideal(0, "a"), IDEAL_A),
            (AddSibling(1, "a", "b"), r#"{"bad":0,"good":1}"#),
            (Ideal(0, "a"), IDEAL_B),
            (AddSibling(0, "a", "b"), A_KNOWN),
            (RemoveSibling(0, "a", "b"), UNKNOWN_PAIR),
            (RemoveSibling(0, "a", "a"), CHANGED),
            (Ideal(0, "a"), IDEAL_B),
            (AddSibling(0, "a", "c"), r#"{"bad":0,"good":2}"#),
            (Ideal(0, "a"), IDEAL_C),
            (Ideal(1, "a"), IDEAL_B),
        ],
    },
    Case {
        shows: "a later service leads on what was passed over",
        files: 0,
        rows: &[
            (Line::ADD_SERVICE, SERVICE_1),
            (Apply(0, &[0, 1], &[0]), SERVICE_0),
            (AddSibling(0, "a", "b"), r#"{"bad":0,"good":1}"#),
            (AddSibling(0, "b", "a"), r#"{"bad":1,"good":0}"#),
            (Ideal(0, "b"), IDEAL_B),
            (AddSibling(1, "b", "c"), r#"{"bad":1,"good":2}"#),
            (Ideal(0, "a"), IDEAL_C),
            (Ideal(0, "b"), IDEAL_C),
            (Ideal(1, "a"), IDEAL_A),
        ],
    },
];

const REMOVALS: [Case; 2] = [
    Case {
        shows: "only the very pair that stands in the service is removed",
        files: 0,
        rows: &[
            (Line::ADD_SERVICE, SERVICE_1),
            (AddSibling(0, "a", "b"), r#"{"bad":0,"good":1}"#),
            (AddSibling(1, "a", "c"), r#"{"bad":0,"good":2}"#),
            (RemoveSibling(0, "a", "c"), UNKNOWN_PAIR),
            (RemoveSibling(0, "b", "a"), UNKNOWN_PAIR),
            (RemoveSibling(1, "a", "b"), UNKNOWN_PAIR),
            (Ideal(0, "a"), IDEAL_B),
            (Ideal(1, "a"), IDEAL_C),
            (RemoveSibling(0, "a", "b"), CHANGED),
            (RemoveSibling(0, "a", "b"), UNKNOWN_PAIR),
            (Ideal(0, "a"), IDEAL_A),
            (Ideal(1, "a"), IDEAL_C),
            (RemoveSibling(1, "a", "c"), CHANGED),
            (Ideal(1, "a"), IDEAL_A),
            (Ideal(0, "c"), IDEAL_C),
        ],
    },
    // c gets its number from the map alone.
    Case {
        shows: "tags are cleaned, and numbered with those of mappings",
        files: 1,
        rows: &[
            (Map(0, "b", 0, Current), r#"{"tag":0,"changed":true}"#),
            (AddSibling(0, "  A\\t a", "B"), r#"{"bad":1,"good":0}"#),
            (Ideal(0, "a  A\\n"), IDEAL_B),
            (AddSibling(0, "A A", "c"), B_KNOWN),
            (Map(0, "c", 0, Pending), r#"{"tag":2,"changed":true}"#),
            (
                AddSibling(0, "\\\"Q\\\"", "\\u00e9\\\\"),
                r#"{"bad":3,"good":4}"#,
            ),
            (Ideal(0, "\\\"q\\\""), r#"{"ideal":"é\\","ancestors":[]}"#),
            (
                AddSibling(0, "\\\"q\\\"", "b"),
                r#"{"error":"pair_known","good":"é\\"}"#,
            ),
            (
                Mappings(0, 0),
                r#"{"current":["b"],"pending":["c"],"deleted":[]}"#,
            ),
            (RemoveSibling(0, " a a", "b "), CHANGED),
            (Ideal(0, "a a"), r#"{"ideal":"a a","ancestors":[]}"#),
        ],
    },
];

const BAD_BAD: &str = r#"{"error":"not_a_request","field":"bad"}"#;

const BAD_GOOD: &str = r#"{"error":"not_a_request","field":"good"}"#;

const REFUSALS: [Case; 3] = [
    Case {
        shows: "refusals in their order, which number no tag",
        files: 0,
        rows: &[
            (AddSibling(1, " ", ""), BAD_TAG),
            (AddSibling(1, "a", "\\t"), BAD_TAG),
            (AddSibling(1, "a", "b"), UNKNOWN_SERVICE),
            (RemoveSibling(1, " ", "b"), BAD_TAG),
            (RemoveSibling(1, "a", " "), BAD_TAG),
            (RemoveSibling(1, "a", "b"), UNKNOWN_SERVICE),
            (RemoveSibling(0, "a", "b"), UNKNOWN_TAG),
            (Ideal(1, " "), BAD_TAG),
            (Ideal(1, "a"), UNKNOWN_SERVICE),
            (Ideal(0, "a"), UNKNOWN_TAG),
            (AddSibling(0, "c", "a"), r#"{"bad":0,"good":1}"#),
            (AddSibling(1, "c", "b"), UNKNOWN_SERVICE),
            (AddSibling(0, "c", "b"), A_KNOWN),
            (AddSibling(0, "c", " "), BAD_TAG),
            (Ideal(0, "b"), UNKNOWN_TAG),
            (RemoveSibling(0, "c", "b"), UNKNOWN_TAG),
            (RemoveSibling(0, "b", "a"), UNKNOWN_TAG),
            (RemoveSibling(0, "a", "c"), UNKNOWN_PAIR),
            (RemoveSibling(255, "c", "a"), UNKNOWN_SERVICE),
            (RemoveSibling(0, "c", "a"), CHANGED),
            (AddSibling(0, "c", "b"), r#"{"bad":0,"good":2}"#),
        ],
    },
    Case {
        shows: "a faulty field before a bad tag, each before the fields behind it",
        files: 0,
        rows: &[
            (AddSibling(256, " ", " "), BAD_SERVICE),
            (RemoveSibling(256, " ", " "), BAD_SERVICE),
            (Ideal(256, " "), BAD_SERVICE),
            (
                Text("{\"do\":\"add_sibling\",\"bad\":7,\"good\":7}\n"),
                BAD_SERVICE,
            ),
            (
                Text("{\"do\":\"add_sibling\",\"service\":1,\"bad\":7,\"good\":7}\n"),
                BAD_BAD,
            ),
            (
                Text("{\"do\":\"add_sibling\",\"service\":1,\"bad\":\" \",\"good\":7}\n"),
                BAD_GOOD,
            ),
            (
                Text("{\"do\":\"remove_sibling\",\"service\":1,\"good\":7}\n"),
                BAD_BAD,
            ),
            (
                Text("{\"do\":\"remove_sibling\",\"service\":1,\"bad\":\" \"}\n"),
                BAD_GOOD,
            ),
            (
                Text("{\"do\":\"ideal\",\"service\":1}\n"),
                r#"{"error":"not_a_request","field":"tag"}"#,
            ),
        ],
    },
    Case {
        shows: "a list names services that are there, and stays as it was where it is refused",
        files: 0,
        rows: &[
            (AddSibling(0, "a", "b"), r#"{"bad":0,"good":1}"#),
            (Apply(0, &[1], &[]), UNKNOWN_SERVICE),
            (Apply(0, &[], &[1]), UNKNOWN_SERVICE),
            (
                Apply(0, &[0, 0], &[]),
                r#"{"error":"not_a_request","field":"siblings"}"#,
            ),
            (Ideal(0, "a"), IDEAL_B),
        ],
    },
];

#[test]
fn sessions_of_siblings_are_answered(rt: HostRuntime) -> Result<(), Fail> {
    let alloc = rt.alloc();
    assert_all(&rt, alloc, &PLACES)?;
    assert_all(&rt, alloc, &LISTS)?;
    assert_all(&rt, alloc, &REMOVALS)?;
    assert_all(&rt, alloc, &REFUSALS)
}
