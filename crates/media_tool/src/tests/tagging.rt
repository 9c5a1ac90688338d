//! Worked sessions of services and mappings: each line with its reply.

use crate::tests::lines::Line::{self, Apply, Delete, Map, Mappings, Text, Undelete, Unmap};
use crate::tests::lines::State::{Current, Deleted, Pending};
use crate::tests::rows::{CHANGED, Case, UNCHANGED, UNKNOWN_FILE, assert_all};
use std::test::Fail;

pub(super) const UNKNOWN_SERVICE: &str = r#"{"error":"unknown_service"}"#;

pub(super) const UNKNOWN_TAG: &str = r#"{"error":"unknown_tag"}"#;

pub(super) const BAD_TAG: &str = r#"{"error":"bad_tag"}"#;

const FULL_SERVICES: &str = r#"{"error":"full_services"}"#;

const NO_TAGS: &str = r#"{"current":[],"pending":[],"deleted":[]}"#;

pub(super) const SERVICE_0: &str = r#"{"service":0}"#;

pub(super) const SERVICE_1: &str = r#"{"service":1}"#;

const MAPPINGS: [Case; 6] = [
    Case {
        shows: "a tag is mapped and taken away",
        files: 1,
        rows: &[
            (
                Map(0, "  Q\\t q ", 0, Pending),
                r#"{"tag":0,"changed":true}"#,
            ),
            (
                Mappings(0, 0),
                r#"{"current":[],"pending":["q q"],"deleted":[]}"#,
            ),
            (
                Map(0, "  Q\\t q ", 0, Pending),
                r#"{"tag":0,"changed":false}"#,
            ),
            (Unmap(0, "r", 0), UNKNOWN_TAG),
            (Map(0, "   ", 0, Current), BAD_TAG),
            (Unmap(0, "q q", 0), CHANGED),
            (Unmap(0, "q q", 0), UNCHANGED),
            (Mappings(0, 0), NO_TAGS),
            (Unmap(0, "Q  Q", 0), UNCHANGED),
            (Map(0, "r", 0, Current), r#"{"tag":1,"changed":true}"#),
            (Map(0, "q q", 0, Current), r#"{"tag":0,"changed":true}"#),
            (
                Mappings(0, 0),
                r#"{"current":["q q","r"],"pending":[],"deleted":[]}"#,
            ),
        ],
    },
    Case {
        shows: "tags come in the order of their numbers, by the latest state",
        files: 2,
        rows: &[
            (Map(0, "b", 1, Current), r#"{"tag":0,"changed":true}"#),
            (Map(0, "a", 1, Current), r#"{"tag":1,"changed":true}"#),
            (Map(0, "c", 0, Current), r#"{"tag":2,"changed":true}"#),
            (Map(0, "c", 1, Deleted), r#"{"tag":2,"changed":true}"#),
            (Map(0, "b", 1, Current), r#"{"tag":0,"changed":false}"#),
            (
                Mappings(0, 1),
                r#"{"current":["b","a"],"pending":[],"deleted":["c"]}"#,
            ),
            (Map(0, "b", 1, Pending), r#"{"tag":0,"changed":true}"#),
            (
                Mappings(0, 1),
                r#"{"current":["a"],"pending":["b"],"deleted":["c"]}"#,
            ),
            (Map(0, "a", 1, Deleted), r#"{"tag":1,"changed":true}"#),
            (Map(0, "c", 1, Pending), r#"{"tag":2,"changed":true}"#),
            (
                Mappings(0, 1),
                r#"{"current":[],"pending":["b","c"],"deleted":["a"]}"#,
            ),
            (
                Mappings(0, 0),
                r#"{"current":["c"],"pending":[],"deleted":[]}"#,
            ),
        ],
    },
    Case {
        shows: "a tag has one number in all services, and mappings in each",
        files: 1,
        rows: &[
            (Line::ADD_SERVICE, SERVICE_1),
            (Map(1, "b", 0, Current), r#"{"tag":0,"changed":true}"#),
            (Map(0, "a", 0, Current), r#"{"tag":1,"changed":true}"#),
            (Unmap(1, "a", 0), UNCHANGED),
            (Map(1, "a", 0, Pending), r#"{"tag":1,"changed":true}"#),
            (
                Mappings(1, 0),
                r#"{"current":["b"],"pending":["a"],"deleted":[]}"#,
            ),
            (
                Mappings(0, 0),
                r#"{"current":["a"],"pending":[],"deleted":[]}"#,
            ),
            (Unmap(0, "a", 0), CHANGED),
            (Mappings(0, 0), NO_TAGS),
            (
                Mappings(1, 0),
                r#"{"current":["b"],"pending":["a"],"deleted":[]}"#,
            ),
        ],
    },
    Case {
        shows: "a refused map numbers no tag",
        files: 1,
        rows: &[
            (Map(0, "a", 1, Current), UNKNOWN_FILE),
            (Map(1, "c", 0, Current), UNKNOWN_SERVICE),
            (Map(0, "b", 0, Current), r#"{"tag":0,"changed":true}"#),
            (Unmap(0, "a", 0), UNKNOWN_TAG),
            (Unmap(0, "c", 0), UNKNOWN_TAG),
            (Map(0, "c", 0, Deleted), r#"{"tag":1,"changed":true}"#),
            (
                Mappings(0, 0),
                r#"{"current":["b"],"pending":[],"deleted":["c"]}"#,
            ),
        ],
    },
    Case {
        shows: "only A to Z and white space are cleaned, and texts are written as JSON escapes them",
        files: 1,
        rows: &[
            (
                Map(0, "\\\"\\\\\\u0001\\u00e9", 0, Current),
                r#"{"tag":0,"changed":true}"#,
            ),
            (
                Mappings(0, 0),
                r#"{"current":["\"\\\u0001é"],"pending":[],"deleted":[]}"#,
            ),
            (
                Map(0, "\\\"\\\\\\u0001é", 0, Current),
                r#"{"tag":0,"changed":false}"#,
            ),
            (
                Map(0, "É\\/𝄞\\b", 0, Pending),
                r#"{"tag":1,"changed":true}"#,
            ),
            (
                Map(
                    0,
                    "\\u0085X\\u00a0\\u3000\u{2003}Ý\u{7f}\\u001F\\f",
                    0,
                    Deleted,
                ),
                r#"{"tag":2,"changed":true}"#,
            ),
            (
                Mappings(0, 0),
                "{\"current\":[\"\\\"\\\\\\u0001é\"],\"pending\":[\"É/𝄞\\b\"],\"deleted\":[\"x Ý\u{7f}\\u001f\"]}",
            ),
        ],
    },
    Case {
        shows: "a deleted file keeps its tags, and may get others",
        files: 2,
        rows: &[
            (Map(0, "a", 1, Current), r#"{"tag":0,"changed":true}"#),
            (Delete(1), CHANGED),
            (
                Mappings(0, 1),
                r#"{"current":["a"],"pending":[],"deleted":[]}"#,
            ),
            (Map(0, "b", 1, Current), r#"{"tag":1,"changed":true}"#),
            (Unmap(0, "a", 1), CHANGED),
            (Undelete(1), CHANGED),
            (
                Mappings(0, 1),
                r#"{"current":["b"],"pending":[],"deleted":[]}"#,
            ),
            (Mappings(0, 0), NO_TAGS),
        ],
    },
];

const SERVICES: [Case; 2] = [
    Case {
        shows: "services are added, and take the pairs of services that are there",
        files: 0,
        rows: &[
            (Apply(0, &[0, 1], &[0]), UNKNOWN_SERVICE),
            (Line::ADD_SERVICE, SERVICE_1),
            (Apply(0, &[0, 1], &[0]), SERVICE_0),
            (Apply(0, &[0, 1], &[0]), SERVICE_0),
            (Apply(2, &[], &[]), UNKNOWN_SERVICE),
            (Apply(0, &[0, 7], &[]), UNKNOWN_SERVICE),
            (Apply(0, &[], &[7, 1]), UNKNOWN_SERVICE),
            (Apply(1, &[], &[]), SERVICE_1),
            (Apply(1, &[1, 0], &[0, 1]), SERVICE_1),
        ],
    },
    Case {
        shows: "there are at most eight services",
        files: 0,
        rows: &[
            (Line::ADD_SERVICE, SERVICE_1),
            (Line::ADD_SERVICE, r#"{"service":2}"#),
            (Line::ADD_SERVICE, r#"{"service":3}"#),
            (Line::ADD_SERVICE, r#"{"service":4}"#),
            (Line::ADD_SERVICE, r#"{"service":5}"#),
            (Line::ADD_SERVICE, r#"{"service":6}"#),
            (Line::ADD_SERVICE, r#"{"service":7}"#),
            (Line::ADD_SERVICE, FULL_SERVICES),
            (Line::ADD_SERVICE, FULL_SERVICES),
            (Apply(8, &[], &[]), UNKNOWN_SERVICE),
            (
                Apply(7, &[7, 6, 5, 4, 3, 2, 1, 0], &[0, 1, 2, 3, 4, 5, 6, 7]),
                r#"{"service":7}"#,
            ),
        ],
    },
];

pub(super) const BAD_SERVICE: &str = r#"{"error":"not_a_request","field":"service"}"#;

const BAD_SIBLINGS: &str = r#"{"error":"not_a_request","field":"siblings"}"#;

const BAD_PARENTS: &str = r#"{"error":"not_a_request","field":"parents"}"#;

const NINE: &[u32] = &[0, 1, 2, 3, 4, 5, 6, 7, 8];

const REFUSALS: [Case; 3] = [
    Case {
        shows: "the file, the service, and then the tag, behind a bad tag",
        files: 1,
        rows: &[
            (Unmap(1, " ", 1), BAD_TAG),
            (Unmap(1, "a", 1), UNKNOWN_FILE),
            (Unmap(1, "a", 0), UNKNOWN_SERVICE),
            (Unmap(0, "a", 0), UNKNOWN_TAG),
            (Map(1, "", 1, Current), BAD_TAG),
            (Map(1, "a", 1, Current), UNKNOWN_FILE),
            (Map(1, "a", 0, Current), UNKNOWN_SERVICE),
            (Mappings(1, 1), UNKNOWN_FILE),
            (Mappings(1, 0), UNKNOWN_SERVICE),
            (Mappings(255, 0), UNKNOWN_SERVICE),
            (Mappings(0, 0), NO_TAGS),
        ],
    },
    Case {
        shows: "a faulty field before a bad tag, each before the fields behind it",
        files: 1,
        rows: &[
            (
                Text("{\"do\":\"map\",\"service\":256,\"tag\":7,\"file\":-1,\"state\":\"gone\"}\n"),
                BAD_SERVICE,
            ),
            (
                Text("{\"do\":\"map\",\"service\":1,\"tag\":7,\"file\":-1,\"state\":\"gone\"}\n"),
                r#"{"error":"not_a_request","field":"tag"}"#,
            ),
            (
                Text(
                    "{\"do\":\"map\",\"service\":1,\"tag\":\" \",\"file\":-1,\"state\":\"gone\"}\n",
                ),
                r#"{"error":"not_a_request","field":"file"}"#,
            ),
            (
                Text(
                    "{\"do\":\"map\",\"service\":1,\"tag\":\" \",\"file\":1,\"state\":\"gone\"}\n",
                ),
                r#"{"error":"not_a_request","field":"state"}"#,
            ),
            (Map(1, " ", 1, Pending), BAD_TAG),
            (Unmap(256, " ", 1), BAD_SERVICE),
            (
                Text("{\"do\":\"unmap\",\"service\":1,\"tag\":\" \"}\n"),
                r#"{"error":"not_a_request","field":"file"}"#,
            ),
            (Mappings(256, 1), BAD_SERVICE),
            (
                Text("{\"do\":\"mappings\",\"service\":1}\n"),
                r#"{"error":"not_a_request","field":"file"}"#,
            ),
        ],
    },
    Case {
        shows: "an order has up to eight services, none twice, before whether they are there",
        files: 0,
        rows: &[
            (Apply(256, &[0, 0], &[0, 0]), BAD_SERVICE),
            (Apply(1, &[0, 0], &[0, 0]), BAD_SIBLINGS),
            (Apply(1, NINE, &[]), BAD_SIBLINGS),
            (Apply(1, &[256], &[]), BAD_SIBLINGS),
            (Apply(1, &[7, 8], &[2, 1, 2]), BAD_PARENTS),
            (Apply(1, &[7, 8], NINE), BAD_PARENTS),
            (
                Text("{\"do\":\"apply\",\"service\":0,\"parents\":[]}\n"),
                BAD_SIBLINGS,
            ),
            (
                Text("{\"do\":\"apply\",\"service\":0,\"siblings\":[]}\n"),
                BAD_PARENTS,
            ),
            (Apply(1, &[7, 8], &[2, 1]), UNKNOWN_SERVICE),
            (Apply(0, &[0, 255], &[]), UNKNOWN_SERVICE),
            (Apply(0, &[], &[0]), SERVICE_0),
        ],
    },
];

#[test]
fn sessions_of_tags_are_answered(rt: HostRuntime) -> Result<(), Fail> {
    let alloc = rt.alloc();
    assert_all(&rt, alloc, &MAPPINGS)?;
    assert_all(&rt, alloc, &SERVICES)?;
    assert_all(&rt, alloc, &REFUSALS)
}
