//! Sessions over keepers in memory.

use super::{DECISION_0, FILE_0, FILE_1, FOUR_LINES, FOUR_REPLIES, RELATED};
use crate::tests::lines::{Line, State, input_of};
use crate::tests::playing::{Outlet, assert_replies, calls_of, owned_words, run_over, source_of};
use library_core::LoadFail;
use media_base::{BytesSource, Change, ChangeList, NoMemory, Status};
use media_keeper::MemoryKeeper;
use std::alloc::Global;
use std::process::Abort;
use std::test::Fail;
use std::thread::Threads;

const UNKNOWN_FILE: &str = "{\"error\":\"unknown_file\"}\n";

pub(super) const UNKNOWN_TAG: &str = "{\"error\":\"unknown_tag\"}\n";

const TAG_0: &str = "{\"tag\":0,\"changed\":true}\n";

const SERVICE_0: &str = "{\"service\":0}\n";

const SERVICE_1: &str = "{\"service\":1}\n";

pub(super) const NOT_KEPT: &str = "{\"error\":\"not_kept\"}\n";

pub(super) const JOURNAL_FULL: &str = "{\"error\":\"journal_full\"}\n";

/// How a session over a keeper ended.
#[derive(Drop)]
pub struct Ended {
    pub status: Status,
    pub written: Vec<u8>,
    pub keeper: MemoryKeeper,
}

/// A keeper with room for so many changes whose call of this number fails, if that isn't 0.
pub fn keeper_of(
    alloc: Global,
    kept: ChangeList,
    failing_call: u64,
    limit: u64,
) -> Result<MemoryKeeper, NoMemory> {
    Ok(MemoryKeeper::new(alloc, kept, calls_of(alloc, failing_call)?, limit))
}

/// Plays the input over the keeper. The write of this number fails, if that isn't 0.
pub fn session_over(
    rt: &(impl Threads + Abort),
    alloc: Global,
    input: &str,
    keeper: MemoryKeeper,
    failing_write: u64,
) -> Result<Ended, Fail> {
    let mut source = source_of(rt, alloc, input, 65_536, 0)?;
    ended_over(rt, alloc, &mut source, keeper, failing_write)
}

fn ended_over(
    rt: &impl Threads,
    alloc: Global,
    source: &mut BytesSource,
    keeper: MemoryKeeper,
    failing_write: u64,
) -> Result<Ended, Fail> {
    let words = owned_words(alloc, &["play", "-"])?;
    let mut outlet = Outlet::new(alloc, false, failing_write)?;
    let (status, keeper) = run_over(rt, alloc, &words, source, &mut outlet, keeper);
    let written = Vec::from_slice(alloc, outlet.written())?;
    Ok(Ended {
        status,
        written,
        keeper,
    })
}

/// A session over a keeper, and what it must leave.
#[derive(Clone, Copy)]
pub(super) struct Case {
    pub(super) lines: &'static [Line],
    /// How many bytes a read gives at most.
    pub(super) piece: usize,
    /// The call of the keeper that fails, if this isn't 0.
    pub(super) failing_call: u64,
    /// How many changes the keeper has room for.
    pub(super) limit: u64,
    /// The write of the session that fails, if this isn't 0.
    pub(super) failing_write: u64,
    pub(super) status: Status,
    pub(super) replies: &'static [&'static str],
    pub(super) kept: usize,
}

impl Case {
    /// The four lines, and no call fails.
    pub(super) const PLAIN: Case = Case {
        lines: &FOUR_LINES,
        piece: 65_536,
        failing_call: 0,
        limit: 100,
        failing_write: 0,
        status: Status::Done,
        replies: &FOUR_REPLIES,
        kept: 3,
    };

    // Plays it over a keeper that keeps these changes before.
    pub(super) fn assert_from(
        &self,
        rt: &(impl Threads + Abort),
        alloc: Global,
        kept: ChangeList,
    ) -> Result<MemoryKeeper, Fail> {
        let keeper = keeper_of(alloc, kept, self.failing_call, self.limit)?;
        self.assert_over(rt, alloc, keeper)
    }

    // Plays it over this keeper, which comes back.
    pub(super) fn assert_over(
        &self,
        rt: &(impl Threads + Abort),
        alloc: Global,
        keeper: MemoryKeeper,
    ) -> Result<MemoryKeeper, Fail> {
        let input = input_of(alloc, self.lines)?;
        let mut source = source_of(rt, alloc, &input, self.piece, 0)?;
        let ended = ended_over(rt, alloc, &mut source, keeper, self.failing_write)?;
        self.assert_ended(rt, alloc, &ended)?;
        Ok(ended.keeper)
    }

    fn assert_ended(&self, rt: &impl Abort, alloc: Global, ended: &Ended) -> Result<(), Fail> {
        assert_eq!(rt; ended.status, self.status);
        assert_replies(rt, alloc, &ended.written, self.replies)?;
        assert_eq!(rt; ended.keeper.changes().len(), self.kept);
        Ok(())
    }
}

/// Each over a keeper that keeps nothing before.
pub(super) fn assert_all(
    rt: &(impl Threads + Abort),
    alloc: Global,
    cases: &[Case],
) -> Result<(), Fail> {
    for case in cases {
        drop(case.assert_from(rt, alloc, ChangeList::new(alloc))?);
    }
    Ok(())
}

const REFUSED_CHANGES: [Case; 3] = [
    Case {
        lines: &[Line::Import(0), Line::Import(1), Line::Import(1)],
        failing_call: 3,
        replies: &[FILE_0, NOT_KEPT, FILE_1],
        kept: 2,
        ..Case::PLAIN
    },
    Case {
        lines: &[Line::Import(0), Line::Import(1), Line::Import(1)],
        limit: 1,
        replies: &[FILE_0, JOURNAL_FULL, JOURNAL_FULL],
        kept: 1,
        ..Case::PLAIN
    },
    // A tag that isn't kept has no number.
    Case {
        lines: &[
            Line::Import(0),
            Line::Map(0, "a", 0, State::Current),
            Line::Map(0, "b", 0, State::Current),
            Line::Unmap(0, "a", 0),
        ],
        failing_call: 3,
        replies: &[FILE_0, NOT_KEPT, TAG_0, UNKNOWN_TAG],
        kept: 2,
        ..Case::PLAIN
    },
];

#[test]
fn a_change_that_is_not_kept_is_refused(rt: HostRuntime) -> Result<(), Fail> {
    assert_all(&rt, rt.alloc(), &REFUSED_CHANGES)
}

// They want no room. A service opens with its own pairs alone.
const IDLE_CHANGES: [Case; 2] = [
    Case {
        lines: &[
            Line::Import(0),
            Line::Map(0, "a", 0, State::Current),
            Line::Map(0, "a", 0, State::Current),
            Line::Map(0, "a", 0, State::Pending),
            Line::Mappings(0, 0),
        ],
        limit: 2,
        replies: &[
            FILE_0,
            TAG_0,
            "{\"tag\":0,\"changed\":false}\n",
            JOURNAL_FULL,
            "{\"current\":[\"a\"],\"pending\":[],\"deleted\":[]}\n",
        ],
        kept: 2,
        ..Case::PLAIN
    },
    Case {
        lines: &[
            Line::ADD_SERVICE,
            Line::Apply(0, &[1], &[0]),
            Line::Apply(0, &[1], &[0]),
            Line::Apply(1, &[1], &[1]),
            Line::Apply(1, &[], &[1]),
        ],
        limit: 2,
        replies: &[SERVICE_1, SERVICE_0, SERVICE_0, SERVICE_1, JOURNAL_FULL],
        kept: 2,
        ..Case::PLAIN
    },
];

#[test]
fn what_changes_nothing_is_not_kept(rt: HostRuntime) -> Result<(), Fail> {
    assert_all(&rt, rt.alloc(), &IDLE_CHANGES)
}

// The calls are a start and three puts: the question at the end puts nothing.
const FAILING_CALLS: [Case; 5] = [
    Case {
        failing_call: 1,
        status: Status::StoreFault,
        replies: &[],
        kept: 0,
        ..Case::PLAIN
    },
    Case {
        failing_call: 2,
        replies: &[NOT_KEPT, FILE_0, UNKNOWN_FILE, UNKNOWN_FILE],
        kept: 1,
        ..Case::PLAIN
    },
    Case {
        failing_call: 3,
        replies: &[FILE_0, NOT_KEPT, UNKNOWN_FILE, UNKNOWN_FILE],
        kept: 1,
        ..Case::PLAIN
    },
    Case {
        failing_call: 4,
        replies: &[
            FILE_0,
            FILE_1,
            NOT_KEPT,
            "{\"king\":1,\"members\":[1],\"alternates\":[],\"not_related\":[]}\n",
        ],
        kept: 2,
        ..Case::PLAIN
    },
    Case {
        failing_call: 5,
        ..Case::PLAIN
    },
];

#[test]
fn each_call_of_the_keeper_fails_in_turn(rt: HostRuntime) -> Result<(), Fail> {
    assert_all(&rt, rt.alloc(), &FAILING_CALLS)
}

const FAILING_WRITES: [Case; 5] = [
    Case {
        piece: 1,
        failing_write: 1,
        status: Status::WriteFault,
        replies: &[],
        kept: 1,
        ..Case::PLAIN
    },
    Case {
        piece: 1,
        failing_write: 2,
        status: Status::WriteFault,
        replies: &[FILE_0],
        kept: 2,
        ..Case::PLAIN
    },
    Case {
        piece: 1,
        failing_write: 3,
        status: Status::WriteFault,
        replies: &[FILE_0, FILE_1],
        ..Case::PLAIN
    },
    Case {
        piece: 1,
        failing_write: 4,
        status: Status::WriteFault,
        replies: &[FILE_0, FILE_1, DECISION_0],
        ..Case::PLAIN
    },
    Case {
        failing_write: 1,
        status: Status::WriteFault,
        replies: &[],
        ..Case::PLAIN
    },
];

// The lines of a read are done before their replies are written, and no line behind them.
#[test]
fn what_was_done_before_a_write_fault_is_kept(rt: HostRuntime) -> Result<(), Fail> {
    assert_all(&rt, rt.alloc(), &FAILING_WRITES)
}

fn push_copies(
    alloc: Global,
    copies: &mut ChangeList,
    change: &Change,
    count: usize,
) -> Result<(), NoMemory> {
    for _ in 0..count {
        copies.push(change.copied(alloc)?)?;
    }
    Ok(())
}

// So many copies of each change, one behind the other.
fn copies_of(alloc: Global, changes: &ChangeList, count: usize) -> Result<ChangeList, NoMemory> {
    let mut copies = ChangeList::new(alloc);
    for change in changes.as_slice() {
        push_copies(alloc, &mut copies, change, count)?;
    }
    Ok(copies)
}

const ONE_IMPORT: Case = Case {
    lines: &[Line::Import(0)],
    replies: &[FILE_0],
    kept: 1,
    ..Case::PLAIN
};

// Each keeper keeps copies of one import.
const UNOPENED: [Case; 3] = [
    Case {
        status: Status::BadStore(1),
        replies: &[],
        kept: 2,
        ..Case::PLAIN
    },
    Case {
        failing_call: 1,
        status: Status::StoreFault,
        replies: &[],
        kept: 1,
        ..Case::PLAIN
    },
    Case {
        failing_call: 2,
        status: Status::StoreFault,
        replies: &[],
        kept: 1,
        ..Case::PLAIN
    },
];

// Each over a keeper of copies of these changes.
fn assert_unopened(
    rt: &(impl Threads + Abort),
    alloc: Global,
    changes: &ChangeList,
    cases: &[Case],
) -> Result<(), Fail> {
    for case in cases {
        let kept = copies_of(alloc, changes, case.kept)?;
        drop(case.assert_from(rt, alloc, kept)?);
    }
    Ok(())
}

#[test]
fn a_library_that_does_not_open_ends_the_session(rt: HostRuntime) -> Result<(), Fail> {
    let alloc = rt.alloc();
    let imported = ONE_IMPORT.assert_from(&rt, alloc, ChangeList::new(alloc))?;
    assert_unopened(&rt, alloc, imported.changes(), &UNOPENED)
}

#[test]
fn a_library_that_does_not_open_says_why(rt: HostRuntime) -> Result<(), Fail> {
    let message = LoadFail::BadStore(3).to_string(rt.alloc())?;
    let wanted = "the kept change 3 can't be read, or isn't allowed at its place";
    assert_eq!(rt; message.as_str(), wanted);
    Ok(())
}

const REOPENED: Case = Case {
    lines: &[Line::Relations(1), Line::Import(1)],
    replies: &[RELATED, "{\"file\":1,\"status\":2}\n"],
    ..Case::PLAIN
};

// In the same keeper, and in another that keeps copies.
#[test]
fn what_one_session_kept_opens_the_next(rt: HostRuntime) -> Result<(), Fail> {
    let alloc = rt.alloc();
    let first = Case::PLAIN.assert_from(&rt, alloc, ChangeList::new(alloc))?;
    let kept = copies_of(alloc, first.changes(), 1)?;
    drop(REOPENED.assert_over(&rt, alloc, first)?);
    drop(REOPENED.assert_from(&rt, alloc, kept)?);
    Ok(())
}

const SEARCHED: &str = "{\"searched\":1,\"left\":1}\n";

const DISTANCE_9: &str = "{\"distance\":9}\n";

const SEARCHING: Case = Case {
    lines: &[
        Line::Hashed(0, 0xaa),
        Line::Hashed(1, 0xaa),
        Line::SearchJob(1),
        Line::SearchDistance(9),
        Line::Search(1, 10),
    ],
    replies: &[FILE_0, FILE_1, SEARCHED, DISTANCE_9, SEARCHED],
    kept: 5,
    ..Case::PLAIN
};

const SEARCHED_ON: Case = Case {
    lines: &[Line::QUEUES, Line::SearchDistance(9), Line::SearchJob(5)],
    replies: &[
        "{\"search\":1,\"display\":0}\n",
        DISTANCE_9,
        "{\"searched\":1,\"left\":0}\n",
    ],
    kept: 6,
    ..Case::PLAIN
};

// Searched distances, the distance and the queue are those of the first session.
#[test]
fn a_search_goes_on_in_the_next_session(rt: HostRuntime) -> Result<(), Fail> {
    let alloc = rt.alloc();
    let first = SEARCHING.assert_from(&rt, alloc, ChangeList::new(alloc))?;
    drop(SEARCHED_ON.assert_over(&rt, alloc, first)?);
    Ok(())
}
