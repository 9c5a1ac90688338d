//! Worked sessions: each line with its reply.

use crate::tests::lines::Code::{Alternates, Better, NotRelated, Same, Worse};
use crate::tests::lines::Line::{
    self, Decide, Decision, Delete, Hashed, Import, Page, PairCount, Relations, Search, SearchBoth,
    SearchDistance, SearchJob, Spaces, Text, Undelete, Undo,
};
use crate::tests::playing::Manner;
use crate::tests::scripts::Script;
use std::alloc::Global;
use std::process::Abort;
use std::test::Fail;
use std::thread::Threads;

#[derive(Clone, Copy)]
pub(super) struct Case {
    pub(super) shows: &'static str,
    /// How many files are there at first.
    pub(super) files: u32,
    pub(super) rows: &'static [(Line, &'static str)],
}

const DECISION_0: &str = r#"{"decision":0}"#;

const DECISION_1: &str = r#"{"decision":1}"#;

const DECISION_2: &str = r#"{"decision":2}"#;

pub(super) const CHANGED: &str = r#"{"changed":true}"#;

pub(super) const UNCHANGED: &str = r#"{"changed":false}"#;

pub(super) const UNKNOWN_FILE: &str = r#"{"error":"unknown_file"}"#;

const DUPLICATES: [Case; 5] = [
    Case {
        shows: "the better file is king",
        files: 2,
        rows: &[
            (Decide(Better, 0, 1), DECISION_0),
            (
                Relations(1),
                r#"{"king":0,"members":[0,1],"alternates":[],"not_related":[]}"#,
            ),
        ],
    },
    Case {
        shows: "the other file of a worse one is king",
        files: 2,
        rows: &[
            (Decide(Worse, 0, 1), DECISION_0),
            (
                Relations(0),
                r#"{"king":1,"members":[0,1],"alternates":[],"not_related":[]}"#,
            ),
        ],
    },
    Case {
        shows: "a worse file that was not king leaves its group behind",
        files: 4,
        rows: &[
            (Decide(Better, 0, 1), DECISION_0),
            (Decide(Better, 2, 3), DECISION_1),
            (Decide(Better, 0, 3), DECISION_2),
            (
                Relations(3),
                r#"{"king":0,"members":[0,1,3],"alternates":[],"not_related":[]}"#,
            ),
            (
                Relations(2),
                r#"{"king":2,"members":[2],"alternates":[],"not_related":[]}"#,
            ),
        ],
    },
    Case {
        shows: "the group of the one king goes to the other's",
        files: 4,
        rows: &[
            (Decide(Better, 0, 1), DECISION_0),
            (Decide(Better, 2, 3), DECISION_1),
            (Decide(Same, 0, 3), DECISION_2),
            (
                Relations(3),
                r#"{"king":2,"members":[0,1,2,3],"alternates":[],"not_related":[]}"#,
            ),
        ],
    },
    Case {
        shows: "alternates are no duplicates any more",
        files: 2,
        rows: &[
            (Decide(Better, 0, 1), DECISION_0),
            (Decide(Alternates, 0, 1), DECISION_1),
            (
                Relations(1),
                r#"{"king":1,"members":[1],"alternates":[0],"not_related":[]}"#,
            ),
        ],
    },
];

const UNDOINGS: [Case; 3] = [
    Case {
        shows: "the decisions behind an undone one stand",
        files: 3,
        rows: &[
            (Decide(Better, 0, 1), DECISION_0),
            (Decide(Better, 1, 2), DECISION_1),
            (
                Relations(2),
                r#"{"king":0,"members":[0,1,2],"alternates":[],"not_related":[]}"#,
            ),
            (Undo(0), r#"{"undone":0}"#),
            (
                Relations(2),
                r#"{"king":1,"members":[1,2],"alternates":[],"not_related":[]}"#,
            ),
            (
                Relations(0),
                r#"{"king":0,"members":[0],"alternates":[],"not_related":[]}"#,
            ),
            (Undo(0), r#"{"error":"already_undone"}"#),
            (Undo(2), r#"{"error":"unknown_decision"}"#),
        ],
    },
    Case {
        shows: "what is not related to a file is none to its alternates",
        files: 3,
        rows: &[
            (Decide(NotRelated, 0, 1), DECISION_0),
            (Decide(Alternates, 1, 2), DECISION_1),
            (
                Relations(2),
                r#"{"king":2,"members":[2],"alternates":[1],"not_related":[0]}"#,
            ),
            (Undo(1), r#"{"undone":1}"#),
            (
                Relations(2),
                r#"{"king":2,"members":[2],"alternates":[],"not_related":[]}"#,
            ),
            (
                Relations(0),
                r#"{"king":0,"members":[0],"alternates":[],"not_related":[1]}"#,
            ),
        ],
    },
    Case {
        shows: "a decision is told as it was recorded, also once it is undone",
        files: 2,
        rows: &[
            (Decide(Better, 0, 1), DECISION_0),
            (Decide(Worse, 0, 1), DECISION_1),
            (
                Decision(0),
                r#"{"code":4,"a":0,"b":1,"undone":false,"rule":[]}"#,
            ),
            (Undo(1), r#"{"undone":1}"#),
            (
                Decision(1),
                r#"{"code":4,"a":1,"b":0,"undone":true,"rule":[]}"#,
            ),
            (Decision(2), r#"{"error":"unknown_decision"}"#),
        ],
    },
];

const OTHERS: [Case; 4] = [
    Case {
        shows: "nothing is asked",
        files: 0,
        rows: &[],
    },
    Case {
        shows: "a known file keeps its number",
        files: 2,
        rows: &[(Import(0), r#"{"file":0,"status":2}"#)],
    },
    Case {
        shows: "files that aren't there",
        files: 1,
        rows: &[
            (Decide(Better, 0, 0), r#"{"error":"same_file"}"#),
            (Decide(Better, 0, 1), UNKNOWN_FILE),
            (Decide(Better, 7, 7), UNKNOWN_FILE),
            (Relations(1), UNKNOWN_FILE),
            (Relations(5), UNKNOWN_FILE),
            (Undo(0), r#"{"error":"unknown_decision"}"#),
            (Decide(Worse, 0, 0), r#"{"error":"same_file"}"#),
        ],
    },
    // The last line has no line feed, and its reply has one.
    Case {
        shows: "faulty lines",
        files: 0,
        rows: &[
            (Text("[\n"), r#"{"error":"not_json"}"#),
            (
                Text("{\"do\":\"fly\"}\n"),
                r#"{"error":"not_a_request","field":"do"}"#,
            ),
            (
                Text("{\"do\":\"import\",\"sha256\":\"00\",\"size\":1,\"width\":1,\"height\":1}\n"),
                r#"{"error":"bad_hash"}"#,
            ),
            (SearchDistance(17), r#"{"error":"bad_distance"}"#),
            (Page(None, 0, 16), r#"{"error":"bad_number"}"#),
            (Relations(5), UNKNOWN_FILE),
            (Spaces(65_537), r#"{"error":"line_too_long"}"#),
            (Text("\n"), r#"{"error":"not_json"}"#),
            (Text("[1]\n"), r#"{"error":"not_a_request","field":"do"}"#),
            (Text("{\"do\":\"queues\"}"), r#"{"search":0,"display":0}"#),
        ],
    },
];

// Files 0 and 1 with the hash aa.
const SEARCHES: [Case; 3] = [
    Case {
        shows: "the queue by distance",
        files: 0,
        rows: &[
            (Hashed(0, 0xaa), r#"{"file":0,"status":1}"#),
            (Hashed(1, 0xaa), r#"{"file":1,"status":1}"#),
            (Line::QUEUES, r#"{"search":2,"display":0}"#),
            (SearchJob(1), r#"{"searched":1,"left":1}"#),
            (SearchBoth(1, 1, 3), r#"{"searched":1,"left":1}"#),
            (Search(1, 2), r#"{"searched":0,"left":1}"#),
            (SearchJob(5), r#"{"searched":1,"left":0}"#),
            (SearchDistance(9), r#"{"distance":9}"#),
            (Line::QUEUES, r#"{"search":2,"display":0}"#),
        ],
    },
    Case {
        shows: "searches that are refused, and a rebalance",
        files: 1,
        rows: &[
            (Line::QUEUES, r#"{"search":0,"display":0}"#),
            (SearchBoth(0, 7, 3), UNKNOWN_FILE),
            (
                Text("{\"do\":\"search_files\",\"files\":[],\"distance\":17}\n"),
                r#"{"error":"bad_distance"}"#,
            ),
            (
                Text("{\"do\":\"search_files\",\"files\":[],\"distance\":16}\n"),
                r#"{"error":"bad_number"}"#,
            ),
            (SearchJob(1025), r#"{"error":"bad_number"}"#),
            (SearchJob(1024), r#"{"searched":0,"left":0}"#),
            (
                Text("{\"do\":\"search_distance\"}\n"),
                r#"{"error":"not_a_request","field":"distance"}"#,
            ),
            (Line::REBALANCE_JOB, r#"{"done":true}"#),
        ],
    },
    Case {
        shows: "hashes in an unlucky order, and the branch that is built anew",
        files: 0,
        rows: &[
            (Hashed(0, 0), r#"{"file":0,"status":1}"#),
            (Hashed(1, u64::MAX), r#"{"file":1,"status":1}"#),
            (Hashed(2, 1), r#"{"file":2,"status":1}"#),
            (Hashed(3, 2), r#"{"file":3,"status":1}"#),
            (Hashed(4, 3), r#"{"file":4,"status":1}"#),
            (Hashed(5, 4), r#"{"file":5,"status":1}"#),
            (Hashed(6, 5), r#"{"file":6,"status":1}"#),
            (Hashed(7, 6), r#"{"file":7,"status":1}"#),
            (Hashed(8, 7), r#"{"file":8,"status":1}"#),
            (Hashed(9, 8), r#"{"file":9,"status":1}"#),
            (Hashed(10, 9), r#"{"file":10,"status":1}"#),
            (Hashed(11, 10), r#"{"file":11,"status":1}"#),
            (Hashed(12, 11), r#"{"file":12,"status":1}"#),
            (Hashed(13, 12), r#"{"file":13,"status":1}"#),
            (Hashed(14, 13), r#"{"file":14,"status":1}"#),
            (Hashed(15, 14), r#"{"file":15,"status":1}"#),
            (Hashed(16, 15), r#"{"file":16,"status":1}"#),
            (Line::REBALANCE_JOB, r#"{"done":true}"#),
            (SearchJob(20), r#"{"searched":17,"left":0}"#),
            (PairCount(1), r#"{"count":32}"#),
            (Line::REBALANCE_JOB, r#"{"done":true}"#),
        ],
    },
];

// Files with hashes, searched, and the potential pairs of their groups.
const PAIRS: [Case; 6] = [
    Case {
        shows: "distances eight and nine",
        files: 0,
        rows: &[
            (Hashed(0, 0), r#"{"file":0,"status":1}"#),
            (Hashed(1, 0xff), r#"{"file":1,"status":1}"#),
            (Hashed(2, 0x1ff), r#"{"file":2,"status":1}"#),
            (SearchJob(3), r#"{"searched":3,"left":0}"#),
            (Page(None, 10, 16), r#"{"pairs":[[0,1,8],[1,2,1]]}"#),
            (SearchDistance(9), r#"{"distance":9}"#),
            (Line::QUEUES, r#"{"search":3,"display":0}"#),
            (SearchJob(3), r#"{"searched":3,"left":0}"#),
            (Page(None, 10, 16), r#"{"pairs":[[0,1,8],[0,2,9],[1,2,1]]}"#),
            (Page(Some((0, 1)), 1, 16), r#"{"pairs":[[0,2,9]]}"#),
            (PairCount(8), r#"{"count":2}"#),
        ],
    },
    Case {
        shows: "both must be searched",
        files: 0,
        rows: &[
            (Hashed(0, 0xaa), r#"{"file":0,"status":1}"#),
            (Hashed(1, 0xaa), r#"{"file":1,"status":1}"#),
            (SearchJob(1), r#"{"searched":1,"left":1}"#),
            (Page(None, 10, 16), r#"{"pairs":[]}"#),
            (SearchJob(1), r#"{"searched":1,"left":0}"#),
            (Page(None, 10, 16), r#"{"pairs":[[0,1,0]]}"#),
            (SearchJob(1), r#"{"searched":0,"left":0}"#),
        ],
    },
    Case {
        shows: "far words",
        files: 0,
        rows: &[
            (Hashed(0, 0), r#"{"file":0,"status":1}"#),
            (Hashed(1, u64::MAX), r#"{"file":1,"status":1}"#),
            (SearchDistance(16), r#"{"distance":16}"#),
            (SearchJob(2), r#"{"searched":2,"left":0}"#),
            (Page(None, 10, 16), r#"{"pairs":[]}"#),
        ],
    },
    Case {
        shows: "a pair of groups has their least distance, and goes where they join",
        files: 0,
        rows: &[
            (Hashed(0, 0), r#"{"file":0,"status":1}"#),
            (Hashed(1, 0x7), r#"{"file":1,"status":1}"#),
            (Hashed(2, 0xf), r#"{"file":2,"status":1}"#),
            (SearchJob(3), r#"{"searched":3,"left":0}"#),
            (Page(None, 10, 16), r#"{"pairs":[[0,1,3],[0,2,4],[1,2,1]]}"#),
            (Decide(Better, 0, 1), DECISION_0),
            (Page(None, 10, 16), r#"{"pairs":[[0,2,1]]}"#),
            (Decide(Worse, 0, 2), DECISION_1),
            (Page(None, 10, 16), r#"{"pairs":[]}"#),
            (Undo(0), r#"{"undone":0}"#),
            (Page(None, 10, 16), r#"{"pairs":[[1,2,1]]}"#),
            (Undo(1), r#"{"undone":1}"#),
            (Page(None, 10, 16), r#"{"pairs":[[0,1,3],[0,2,4],[1,2,1]]}"#),
        ],
    },
    Case {
        shows: "alternates and unrelated files are no pair",
        files: 0,
        rows: &[
            (Hashed(0, 0), r#"{"file":0,"status":1}"#),
            (Hashed(1, 0x7), r#"{"file":1,"status":1}"#),
            (Hashed(2, 0xf), r#"{"file":2,"status":1}"#),
            (Search(2, 4), r#"{"searched":1,"left":3}"#),
            (SearchJob(3), r#"{"searched":3,"left":0}"#),
            (Decide(NotRelated, 0, 1), DECISION_0),
            (Page(None, 10, 16), r#"{"pairs":[[0,2,4],[1,2,1]]}"#),
            (Decide(Alternates, 1, 2), DECISION_1),
            (Page(None, 10, 16), r#"{"pairs":[]}"#),
            (Undo(0), r#"{"undone":0}"#),
            (Page(None, 10, 16), r#"{"pairs":[[0,1,3],[0,2,4]]}"#),
        ],
    },
    Case {
        shows: "questions of pairs that are refused",
        files: 0,
        rows: &[
            (Page(Some((7, 3)), 1024, 16), r#"{"pairs":[]}"#),
            (Page(None, 0, 16), r#"{"error":"bad_number"}"#),
            (
                Text("{\"do\":\"pairs\",\"n\":0,\"at_most\":17}\n"),
                r#"{"error":"bad_distance"}"#,
            ),
            (
                Text("{\"do\":\"pairs\",\"after_k\":1,\"n\":1,\"at_most\":1}\n"),
                r#"{"error":"not_a_request","field":"after_j"}"#,
            ),
            (
                Text("{\"do\":\"pairs\",\"after_j\":1,\"n\":1,\"at_most\":1}\n"),
                r#"{"error":"not_a_request","field":"after_k"}"#,
            ),
            (PairCount(17), r#"{"error":"bad_distance"}"#),
            (PairCount(16), r#"{"count":0}"#),
        ],
    },
];

// Deletions, and what they leave.
const DELETIONS: [Case; 8] = [
    Case {
        shows: "an import of known and deleted files",
        files: 0,
        rows: &[
            (Import(0), r#"{"file":0,"status":1}"#),
            (Import(0), r#"{"file":0,"status":2}"#),
            (Delete(0), CHANGED),
            (Import(0), r#"{"file":0,"status":3}"#),
            (Delete(0), UNCHANGED),
        ],
    },
    Case {
        shows: "a deletion that is taken back",
        files: 2,
        rows: &[
            (Undelete(1), UNCHANGED),
            (Delete(1), CHANGED),
            (Import(0), r#"{"file":0,"status":2}"#),
            (Import(1), r#"{"file":1,"status":3}"#),
            (Undelete(1), CHANGED),
            (Import(1), r#"{"file":1,"status":2}"#),
            (Undelete(1), UNCHANGED),
            (Import(2), r#"{"file":2,"status":1}"#),
        ],
    },
    Case {
        shows: "deletions of files that aren't there",
        files: 1,
        rows: &[
            (Delete(1), UNKNOWN_FILE),
            (Undelete(1), UNKNOWN_FILE),
            (Delete(4_294_967_295), UNKNOWN_FILE),
            (Undelete(4_294_967_295), UNKNOWN_FILE),
            (
                Text("{\"do\":\"delete\"}\n"),
                r#"{"error":"not_a_request","field":"file"}"#,
            ),
            (
                Text("{\"do\":\"undelete\",\"file\":4294967296}\n"),
                r#"{"error":"not_a_request","field":"file"}"#,
            ),
            (Delete(0), CHANGED),
        ],
    },
    Case {
        shows: "a deleted file makes no pair",
        files: 0,
        rows: &[
            (Hashed(0, 0), r#"{"file":0,"status":1}"#),
            (Hashed(1, 0x7), r#"{"file":1,"status":1}"#),
            (Hashed(2, 0xf), r#"{"file":2,"status":1}"#),
            (SearchJob(3), r#"{"searched":3,"left":0}"#),
            (Page(None, 10, 16), r#"{"pairs":[[0,1,3],[0,2,4],[1,2,1]]}"#),
            (Delete(1), CHANGED),
            (Page(None, 10, 16), r#"{"pairs":[[0,2,4]]}"#),
            (PairCount(16), r#"{"count":1}"#),
            (Delete(2), CHANGED),
            (Page(None, 10, 16), r#"{"pairs":[]}"#),
            (Undelete(1), CHANGED),
            (Page(None, 10, 16), r#"{"pairs":[[0,1,3]]}"#),
            (Undelete(2), CHANGED),
            (Page(None, 10, 16), r#"{"pairs":[[0,1,3],[0,2,4],[1,2,1]]}"#),
        ],
    },
    // File 1 was searched within 8, so it wants a search again only once the distance is 9. File 3 has no
    // hash.
    Case {
        shows: "a deleted file leaves the queue, and returns if it wasn't searched",
        files: 0,
        rows: &[
            (Hashed(0, 0xaa), r#"{"file":0,"status":1}"#),
            (Hashed(1, 0xaa), r#"{"file":1,"status":1}"#),
            (Hashed(2, 0xaa), r#"{"file":2,"status":1}"#),
            (Import(3), r#"{"file":3,"status":1}"#),
            (Line::QUEUES, r#"{"search":3,"display":0}"#),
            (Delete(0), CHANGED),
            (Delete(3), CHANGED),
            (Line::QUEUES, r#"{"search":2,"display":0}"#),
            (SearchJob(1), r#"{"searched":1,"left":1}"#),
            (Undelete(0), CHANGED),
            (Undelete(3), CHANGED),
            (Line::QUEUES, r#"{"search":2,"display":0}"#),
            (Delete(1), CHANGED),
            (Undelete(1), CHANGED),
            (Line::QUEUES, r#"{"search":2,"display":0}"#),
            (Delete(1), CHANGED),
            (SearchDistance(9), r#"{"distance":9}"#),
            (Line::QUEUES, r#"{"search":2,"display":0}"#),
            (Undelete(1), CHANGED),
            (SearchJob(4), r#"{"searched":3,"left":0}"#),
        ],
    },
    Case {
        shows: "a deleted file may be searched",
        files: 0,
        rows: &[
            (Hashed(0, 0xaa), r#"{"file":0,"status":1}"#),
            (Hashed(1, 0xaa), r#"{"file":1,"status":1}"#),
            (Delete(1), CHANGED),
            (SearchJob(2), r#"{"searched":1,"left":0}"#),
            (Search(1, 5), r#"{"searched":1,"left":0}"#),
            (Search(1, 5), r#"{"searched":0,"left":0}"#),
            (Page(None, 10, 16), r#"{"pairs":[]}"#),
            (Undelete(1), CHANGED),
            (Page(None, 10, 16), r#"{"pairs":[[0,1,0]]}"#),
            (Line::QUEUES, r#"{"search":1,"display":0}"#),
        ],
    },
    // The deleted king 1 still names its group, whose live file is 4 from the other.
    Case {
        shows: "a deleted file keeps its group",
        files: 0,
        rows: &[
            (Hashed(0, 0), r#"{"file":0,"status":1}"#),
            (Hashed(1, 0x7), r#"{"file":1,"status":1}"#),
            (Hashed(2, 0xf), r#"{"file":2,"status":1}"#),
            (SearchJob(3), r#"{"searched":3,"left":0}"#),
            (Decide(Better, 1, 0), DECISION_0),
            (Page(None, 10, 16), r#"{"pairs":[[1,2,1]]}"#),
            (Delete(1), CHANGED),
            (Page(None, 10, 16), r#"{"pairs":[[1,2,4]]}"#),
            (
                Relations(0),
                r#"{"king":1,"members":[0,1],"alternates":[],"not_related":[]}"#,
            ),
            (Delete(0), CHANGED),
            (Page(None, 10, 16), r#"{"pairs":[]}"#),
            (Undo(0), r#"{"undone":0}"#),
            (Undelete(1), CHANGED),
            (Page(None, 10, 16), r#"{"pairs":[[1,2,1]]}"#),
        ],
    },
    Case {
        shows: "decisions of live and deleted files",
        files: 3,
        rows: &[
            (Delete(1), CHANGED),
            (Decide(Better, 0, 1), DECISION_0),
            (
                Relations(1),
                r#"{"king":0,"members":[0,1],"alternates":[],"not_related":[]}"#,
            ),
            (Delete(2), CHANGED),
            (Decide(NotRelated, 1, 2), DECISION_1),
            (
                Relations(2),
                r#"{"king":2,"members":[2],"alternates":[],"not_related":[0]}"#,
            ),
            (Undelete(1), CHANGED),
            (Undo(0), r#"{"undone":0}"#),
            (
                Relations(1),
                r#"{"king":1,"members":[1],"alternates":[],"not_related":[2]}"#,
            ),
        ],
    },
];

fn assert_case(rt: &(impl Threads + Abort), alloc: Global, case: &Case) -> Result<(), Fail> {
    let mut script = Script::with_files(alloc, case.files)?;
    script.say_all(case.rows)?;
    for narrow in [false, true] {
        let manner = Manner {
            narrow,
            ..Manner::PLAIN
        };
        script.assert_answered(rt, manner, case.shows)?;
    }
    Ok(())
}

pub(super) fn assert_all(
    rt: &(impl Threads + Abort),
    alloc: Global,
    cases: &[Case],
) -> Result<(), Fail> {
    for case in cases {
        assert_case(rt, alloc, case)?;
    }
    Ok(())
}

#[test]
fn sessions_are_answered(rt: HostRuntime) -> Result<(), Fail> {
    let alloc = rt.alloc();
    assert_all(&rt, alloc, &DUPLICATES)?;
    assert_all(&rt, alloc, &UNDOINGS)?;
    assert_all(&rt, alloc, &OTHERS)?;
    assert_all(&rt, alloc, &SEARCHES)?;
    assert_all(&rt, alloc, &PAIRS)?;
    assert_all(&rt, alloc, &DELETIONS)
}
