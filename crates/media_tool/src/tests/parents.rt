//! Worked sessions of parent pairs: each line with its reply.

use crate::tests::lines::Line::{
    self, AddParent, AddSibling, Apply, Ideal, Map, RemoveParent, RemoveSibling, Text,
};
use crate::tests::lines::State::Current;
use crate::tests::rows::{CHANGED, Case, assert_all};
use crate::tests::siblings::{A_KNOWN, B_KNOWN, IDEAL_A, UNKNOWN_PAIR};
use crate::tests::tagging::{
    BAD_SERVICE, BAD_TAG, SERVICE_0, SERVICE_1, UNKNOWN_SERVICE, UNKNOWN_TAG,
};
use std::test::Fail;

const CHILD_0: &str = r#"{"child":0,"parent":1}"#;

const A_UNDER_B: &str = r#"{"ideal":"a","ancestors":["b"]}"#;

const LOOPS: [Case; 3] = [
    Case {
        shows: "a loop of two, and a sibling that leads into it",
        files: 0,
        rows: &[
            (AddParent(0, "x", "y"), CHILD_0),
            (AddParent(0, "y", "x"), r#"{"child":1,"parent":0}"#),
            (AddSibling(0, "z", "x"), r#"{"bad":2,"good":0}"#),
            (Ideal(0, "z"), r#"{"ideal":"x","ancestors":["y"]}"#),
            (Ideal(0, "y"), r#"{"ideal":"y","ancestors":["x"]}"#),
            (RemoveParent(0, "x", "y"), CHANGED),
            (Ideal(0, "z"), r#"{"ideal":"x","ancestors":[]}"#),
            (Ideal(0, "y"), r#"{"ideal":"y","ancestors":["x"]}"#),
            (RemoveParent(0, "x", "y"), UNKNOWN_PAIR),
        ],
    },
    Case {
        shows: "a loop of three does not list where it begins",
        files: 0,
        rows: &[
            (AddParent(0, "d", "a"), CHILD_0),
            (AddParent(0, "a", "b"), r#"{"child":1,"parent":2}"#),
            (AddParent(0, "b", "c"), r#"{"child":2,"parent":3}"#),
            (AddParent(0, "c", "a"), r#"{"child":3,"parent":1}"#),
            (Ideal(0, "d"), r#"{"ideal":"d","ancestors":["a","b","c"]}"#),
            (Ideal(0, "a"), r#"{"ideal":"a","ancestors":["b","c"]}"#),
            (Ideal(0, "b"), r#"{"ideal":"b","ancestors":["a","c"]}"#),
            (Ideal(0, "c"), r#"{"ideal":"c","ancestors":["a","b"]}"#),
            (AddSibling(0, "b", "d"), r#"{"bad":2,"good":0}"#),
            (Ideal(0, "d"), r#"{"ideal":"d","ancestors":["a","c"]}"#),
            (Ideal(0, "b"), r#"{"ideal":"d","ancestors":["a","c"]}"#),
            (Ideal(0, "a"), r#"{"ideal":"a","ancestors":["d","c"]}"#),
            (Ideal(0, "c"), r#"{"ideal":"c","ancestors":["d","a"]}"#),
        ],
    },
    Case {
        shows: "a pair of a tag with itself, or of two with one ideal tag, has no effect",
        files: 0,
        rows: &[
            (AddParent(0, "a", "a"), r#"{"child":0,"parent":0}"#),
            (Ideal(0, "a"), IDEAL_A),
            (AddParent(0, "a", "a"), A_KNOWN),
            (AddParent(0, "a", "b"), CHILD_0),
            (Ideal(0, "a"), A_UNDER_B),
            (AddSibling(0, "b", "a"), r#"{"bad":1,"good":0}"#),
            (Ideal(0, "a"), IDEAL_A),
            (Ideal(0, "b"), IDEAL_A),
            (AddParent(0, "b", "c"), r#"{"child":1,"parent":2}"#),
            (Ideal(0, "a"), r#"{"ideal":"a","ancestors":["c"]}"#),
            (Ideal(0, "b"), r#"{"ideal":"a","ancestors":["c"]}"#),
            (RemoveSibling(0, "b", "a"), CHANGED),
            (Ideal(0, "a"), r#"{"ideal":"a","ancestors":["b","c"]}"#),
            (RemoveParent(0, "a", "a"), CHANGED),
            (Ideal(0, "a"), r#"{"ideal":"a","ancestors":["b","c"]}"#),
            (Ideal(0, "b"), r#"{"ideal":"b","ancestors":["c"]}"#),
        ],
    },
];

const WAYS: [Case; 3] = [
    // The tags are numbered c, d, a, b.
    Case {
        shows: "ancestors come once, by number, and go only where no other way is left",
        files: 0,
        rows: &[
            (AddParent(0, "c", "d"), CHILD_0),
            (AddParent(0, "a", "b"), r#"{"child":2,"parent":3}"#),
            (AddParent(0, "b", "d"), r#"{"child":3,"parent":1}"#),
            (AddParent(0, "a", "c"), r#"{"child":2,"parent":0}"#),
            (Ideal(0, "a"), r#"{"ideal":"a","ancestors":["c","d","b"]}"#),
            (RemoveParent(0, "a", "b"), CHANGED),
            (Ideal(0, "a"), r#"{"ideal":"a","ancestors":["c","d"]}"#),
            (Ideal(0, "b"), r#"{"ideal":"b","ancestors":["d"]}"#),
            (AddParent(0, "a", "b"), r#"{"child":2,"parent":3}"#),
            (RemoveParent(0, "c", "d"), CHANGED),
            (Ideal(0, "a"), r#"{"ideal":"a","ancestors":["c","d","b"]}"#),
            (RemoveParent(0, "b", "d"), CHANGED),
            (Ideal(0, "a"), r#"{"ideal":"a","ancestors":["c","b"]}"#),
            (Ideal(0, "d"), r#"{"ideal":"d","ancestors":[]}"#),
        ],
    },
    Case {
        shows: "child and parent are led to their ideal tags first",
        files: 0,
        rows: &[
            (AddParent(0, "a", "b"), CHILD_0),
            (AddParent(0, "c", "d"), r#"{"child":2,"parent":3}"#),
            (AddSibling(0, "b", "c"), r#"{"bad":1,"good":2}"#),
            (Ideal(0, "a"), r#"{"ideal":"a","ancestors":["c","d"]}"#),
            (AddSibling(0, "c", "e"), r#"{"bad":2,"good":4}"#),
            (Ideal(0, "a"), r#"{"ideal":"a","ancestors":["d","e"]}"#),
            (Ideal(0, "b"), r#"{"ideal":"e","ancestors":["d"]}"#),
            (AddParent(0, "b", "f"), r#"{"child":1,"parent":5}"#),
            (Ideal(0, "e"), r#"{"ideal":"e","ancestors":["d","f"]}"#),
            (RemoveSibling(0, "b", "c"), CHANGED),
            (Ideal(0, "a"), r#"{"ideal":"a","ancestors":["b","f"]}"#),
            (Ideal(0, "e"), r#"{"ideal":"e","ancestors":["d"]}"#),
        ],
    },
    Case {
        shows: "tags are cleaned, and numbered with those of mappings and siblings",
        files: 1,
        rows: &[
            (Map(0, "b", 0, Current), r#"{"tag":0,"changed":true}"#),
            (
                AddParent(0, "  A\\t a", "\\\"Q\\\""),
                r#"{"child":1,"parent":2}"#,
            ),
            (AddParent(0, "A A", " B"), r#"{"child":1,"parent":0}"#),
            (
                Ideal(0, "a  A\\n"),
                r#"{"ideal":"a a","ancestors":["b","\"q\""]}"#,
            ),
            (
                AddParent(0, "a a", "\\\"q\\\" "),
                r#"{"error":"pair_known","good":"\"q\""}"#,
            ),
            (AddParent(0, "e", "a a"), r#"{"child":3,"parent":1}"#),
            (AddSibling(0, "f", "e"), r#"{"bad":4,"good":3}"#),
            (
                Ideal(0, "f"),
                r#"{"ideal":"e","ancestors":["b","a a","\"q\""]}"#,
            ),
            (RemoveParent(0, " A a", "b "), CHANGED),
            (
                Ideal(0, "e"),
                r#"{"ideal":"e","ancestors":["a a","\"q\""]}"#,
            ),
        ],
    },
];

const SERVICES: [Case; 2] = [
    // In service 0 d is the ideal tag of a, and in service 1 c is that of b.
    Case {
        shows: "a service takes the parents of its list, between ideal tags of its own",
        files: 0,
        rows: &[
            (Line::ADD_SERVICE, SERVICE_1),
            (AddParent(1, "a", "b"), CHILD_0),
            (Ideal(0, "a"), IDEAL_A),
            (Ideal(1, "a"), A_UNDER_B),
            (Apply(0, &[0], &[1]), SERVICE_0),
            (Ideal(0, "a"), A_UNDER_B),
            (AddSibling(1, "b", "c"), r#"{"bad":1,"good":2}"#),
            (Ideal(0, "a"), A_UNDER_B),
            (Ideal(1, "a"), r#"{"ideal":"a","ancestors":["c"]}"#),
            (AddSibling(0, "a", "d"), r#"{"bad":0,"good":3}"#),
            (Ideal(0, "a"), r#"{"ideal":"d","ancestors":["b"]}"#),
            (Ideal(1, "a"), r#"{"ideal":"a","ancestors":["c"]}"#),
            (Ideal(1, "d"), r#"{"ideal":"d","ancestors":[]}"#),
            (AddParent(0, "d", "a"), r#"{"child":3,"parent":0}"#),
            (Ideal(0, "d"), r#"{"ideal":"d","ancestors":["b"]}"#),
            (Apply(0, &[0], &[1, 0]), SERVICE_0),
            (Ideal(0, "d"), r#"{"ideal":"d","ancestors":["b"]}"#),
            (Apply(1, &[], &[0]), SERVICE_1),
            (Ideal(1, "d"), r#"{"ideal":"d","ancestors":["a"]}"#),
            (Ideal(1, "a"), IDEAL_A),
            (Apply(1, &[], &[0, 1]), SERVICE_1),
            (Ideal(1, "d"), r#"{"ideal":"d","ancestors":["a","b"]}"#),
            (Apply(1, &[0], &[0, 1]), SERVICE_1),
            (Ideal(1, "a"), r#"{"ideal":"d","ancestors":["b"]}"#),
            (Apply(0, &[], &[]), SERVICE_0),
            (Ideal(0, "a"), IDEAL_A),
            (Ideal(0, "d"), r#"{"ideal":"d","ancestors":[]}"#),
        ],
    },
    Case {
        shows: "a pair stands in each service for itself, and beside others of its child",
        files: 0,
        rows: &[
            (Line::ADD_SERVICE, SERVICE_1),
            (Apply(0, &[0], &[0, 1]), SERVICE_0),
            (AddParent(0, "a", "b"), CHILD_0),
            (AddParent(1, "a", "b"), CHILD_0),
            (AddParent(1, "a", "b"), B_KNOWN),
            (AddParent(1, "a", "c"), r#"{"child":0,"parent":2}"#),
            (AddParent(1, "a", "b"), B_KNOWN),
            (
                AddParent(1, "a", "c"),
                r#"{"error":"pair_known","good":"c"}"#,
            ),
            (RemoveParent(0, "a", "c"), UNKNOWN_PAIR),
            (RemoveParent(0, "b", "a"), UNKNOWN_PAIR),
            (RemoveParent(0, "a", "b"), CHANGED),
            (Ideal(0, "a"), r#"{"ideal":"a","ancestors":["b","c"]}"#),
            (RemoveParent(0, "a", "b"), UNKNOWN_PAIR),
            (RemoveParent(1, "a", "b"), CHANGED),
            (Ideal(0, "a"), r#"{"ideal":"a","ancestors":["c"]}"#),
            (AddParent(0, "a", "b"), CHILD_0),
            (Ideal(0, "a"), r#"{"ideal":"a","ancestors":["b","c"]}"#),
            (Ideal(1, "a"), r#"{"ideal":"a","ancestors":["c"]}"#),
        ],
    },
];

const BAD_CHILD: &str = r#"{"error":"not_a_request","field":"child"}"#;

const BAD_PARENT: &str = r#"{"error":"not_a_request","field":"parent"}"#;

const REFUSALS: [Case; 3] = [
    Case {
        shows: "refusals in their order, which number no tag",
        files: 0,
        rows: &[
            (AddParent(1, " ", ""), BAD_TAG),
            (AddParent(1, "a", "\\t"), BAD_TAG),
            (AddParent(1, "a", "b"), UNKNOWN_SERVICE),
            (RemoveParent(1, " ", "b"), BAD_TAG),
            (RemoveParent(1, "a", " "), BAD_TAG),
            (RemoveParent(1, "a", "b"), UNKNOWN_SERVICE),
            (RemoveParent(0, "a", "b"), UNKNOWN_TAG),
            (AddParent(0, "c", "a"), CHILD_0),
            (AddParent(1, "c", "a"), UNKNOWN_SERVICE),
            (AddParent(0, " C ", "A\\n"), A_KNOWN),
            (AddParent(0, "c", " "), BAD_TAG),
            (Ideal(0, "b"), UNKNOWN_TAG),
            (RemoveParent(0, "c", "b"), UNKNOWN_TAG),
            (RemoveParent(0, "b", "a"), UNKNOWN_TAG),
            (RemoveParent(0, "a", "c"), UNKNOWN_PAIR),
            (RemoveParent(255, "c", "a"), UNKNOWN_SERVICE),
            (RemoveParent(0, "c", "a"), CHANGED),
            (RemoveParent(0, "c", "a"), UNKNOWN_PAIR),
            (AddParent(0, "a", "b"), r#"{"child":1,"parent":2}"#),
        ],
    },
    Case {
        shows: "a sibling pair is no parent pair",
        files: 0,
        rows: &[
            (AddSibling(0, "a", "b"), r#"{"bad":0,"good":1}"#),
            (RemoveParent(0, "a", "b"), UNKNOWN_PAIR),
            (AddParent(0, "a", "b"), CHILD_0),
            (AddParent(0, "a", "b"), B_KNOWN),
            (RemoveSibling(0, "a", "b"), CHANGED),
            (RemoveSibling(0, "a", "b"), UNKNOWN_PAIR),
            (Ideal(0, "a"), A_UNDER_B),
            (AddSibling(0, "a", "b"), r#"{"bad":0,"good":1}"#),
            (RemoveParent(0, "a", "b"), CHANGED),
            (AddSibling(0, "a", "c"), B_KNOWN),
        ],
    },
    Case {
        shows: "a faulty field before a bad tag, each before the fields behind it",
        files: 0,
        rows: &[
            (AddParent(256, " ", " "), BAD_SERVICE),
            (RemoveParent(256, " ", " "), BAD_SERVICE),
            (
                Text("{\"do\":\"add_parent\",\"child\":7,\"parent\":7}\n"),
                BAD_SERVICE,
            ),
            (
                Text("{\"do\":\"add_parent\",\"service\":1,\"child\":7,\"parent\":7}\n"),
                BAD_CHILD,
            ),
            (
                Text("{\"do\":\"add_parent\",\"service\":1,\"child\":\" \",\"parent\":7}\n"),
                BAD_PARENT,
            ),
            (
                Text("{\"do\":\"remove_parent\",\"service\":1,\"parent\":7}\n"),
                BAD_CHILD,
            ),
            (
                Text("{\"do\":\"remove_parent\",\"service\":1,\"child\":\" \"}\n"),
                BAD_PARENT,
            ),
        ],
    },
];

#[test]
fn sessions_of_parents_are_answered(rt: HostRuntime) -> Result<(), Fail> {
    let alloc = rt.alloc();
    assert_all(&rt, alloc, &LOOPS)?;
    assert_all(&rt, alloc, &WAYS)?;
    assert_all(&rt, alloc, &SERVICES)?;
    assert_all(&rt, alloc, &REFUSALS)
}
