//! A session of a ladder of parent pairs, below which a tag implies as many as one may: 1,024. A rung is t0, t32,
//! t64 and so on, and has the 31 tags up to the next rung and that rung itself as its parents. Besides one of a chain:
//! t0 to t1, t1 to t2, and so on.

use crate::tests::lines::Line::{
    self, AddParent, AddSibling, Apply, Ideal, RemoveParent, RemoveSibling,
};
use crate::tests::playing::Manner;
use crate::tests::rows::CHANGED;
use crate::tests::scripts::Script;
use crate::tests::siblings::UNKNOWN_PAIR;
use crate::tests::tagging::{SERVICE_0, SERVICE_1, UNKNOWN_TAG};
use std::alloc::{AllocError, Global};
use std::test::Fail;

// The ladder has the tags t0 to t1022.
const LAST: u32 = 1_022;

// The chain has the tags t0 to t300.
const CHAIN: u32 = 300;

const Z_OVER: &str = r#"{"error":"too_many_implied","service":0,"tag":"z"}"#;

const Z_OVER_IN_1: &str = r#"{"error":"too_many_implied","service":1,"tag":"z"}"#;

const LAST_ALONE: &str = r#"{"ideal":"t1022","ancestors":[]}"#;

const LAST_UNDER_W: &str = r#"{"ideal":"t1022","ancestors":["w"]}"#;

type Rows = &'static [(Line, &'static str)];

// Of z and y the one of the lower number is told, and of the new tag above them its text.
const LIMIT: Rows = &[
    (AddParent(0, "t1022", "new"), Z_OVER),
    (
        AddParent(0, "top", "z"),
        r#"{"error":"too_many_implied","service":0,"tag":"top"}"#,
    ),
    (AddParent(0, "y", "t0"), r#"{"child":1024,"parent":1}"#),
    (AddParent(0, "t1022", "new"), Z_OVER),
    (
        AddParent(0, "y", "t0"),
        r#"{"error":"pair_known","good":"t0"}"#,
    ),
    (RemoveParent(0, "y", "t0"), CHANGED),
    (Ideal(0, "new"), UNKNOWN_TAG),
    (RemoveParent(0, "top", "z"), UNKNOWN_TAG),
    (RemoveParent(0, "t1022", "z"), UNKNOWN_PAIR),
    (Ideal(0, "t1022"), LAST_ALONE),
    (AddParent(0, "u", "v"), r#"{"child":1025,"parent":1026}"#),
];

// u implies v, and w itself alone. While t1 is t2 there is room for one more.
const SIBLINGS: Rows = &[
    (AddSibling(0, "t1022", "u"), Z_OVER),
    (Ideal(0, "t1022"), LAST_ALONE),
    (RemoveSibling(0, "t1022", "u"), UNKNOWN_PAIR),
    (AddSibling(0, "t1022", "w"), r#"{"bad":1023,"good":1027}"#),
    (AddParent(0, "w", "new"), Z_OVER),
    (RemoveSibling(0, "t1022", "w"), CHANGED),
    (AddSibling(0, "t1", "t2"), r#"{"bad":2,"good":3}"#),
    (AddParent(0, "t1022", "u"), Z_OVER),
    (
        AddParent(0, "t1022", "w"),
        r#"{"child":1023,"parent":1027}"#,
    ),
    (RemoveSibling(0, "t1", "t2"), Z_OVER),
    (Ideal(0, "t1022"), LAST_UNDER_W),
    (RemoveParent(0, "t1022", "w"), CHANGED),
    (RemoveSibling(0, "t1", "t2"), CHANGED),
    (RemoveParent(0, "u", "v"), CHANGED),
];

// Service 1 has a pair of its own, with which the ladder is too long. The lowest service is told.
const SERVICES: Rows = &[
    (Line::ADD_SERVICE, SERVICE_1),
    (
        AddParent(1, "t1022", "w"),
        r#"{"child":1023,"parent":1027}"#,
    ),
    (Apply(0, &[0], &[0, 1]), Z_OVER),
    (Apply(1, &[1], &[1, 0]), Z_OVER_IN_1),
    (Ideal(0, "t1022"), LAST_ALONE),
    (Ideal(1, "t1022"), LAST_UNDER_W),
    (Apply(1, &[1], &[0]), SERVICE_1),
    (AddParent(0, "t1022", "new"), Z_OVER),
    (Apply(0, &[0], &[]), SERVICE_0),
    (AddParent(0, "t1022", "new"), Z_OVER_IN_1),
    (Apply(0, &[0], &[1]), SERVICE_0),
    (AddParent(1, "w", "x"), r#"{"child":1027,"parent":1028}"#),
    (AddParent(0, "t1022", "new"), Z_OVER_IN_1),
    (RemoveParent(0, "z", "t0"), CHANGED),
    (
        AddParent(0, "t1022", "new"),
        r#"{"child":1023,"parent":1029}"#,
    ),
];

/// The session.
#[derive(Drop)]
struct Ladder {
    alloc: Global,
    script: Script,
}

impl Ladder {
    fn new(alloc: Global) -> Result<Ladder, AllocError> {
        let mut script = Script::with_files(alloc, 0)?;
        script.add_parent(0, "z", "t0", "{\"child\":0,\"parent\":1}")?;
        Ok(Ladder { alloc, script })
    }

    // A tag is a parent. The numbers are those behind that of z.
    fn add(&mut self, child: u32, parent: u32) -> Result<(), AllocError> {
        let (first, second) = (child.saturating_add(1), parent.saturating_add(1));
        let reply = format!(in self.alloc; "{{\"child\":{first},\"parent\":{second}}}")?;
        let child = format!(in self.alloc; "t{child}")?;
        let parent = format!(in self.alloc; "t{parent}")?;
        self.script.add_parent(0, &child, &parent, &reply)
    }

    // The tags between rungs come first, so that most commands are of few tags.
    fn add_between(&mut self) -> Result<(), AllocError> {
        for tag in 0..=LAST {
            let over = tag % 32;
            if over != 0 {
                self.add(tag.saturating_sub(over), tag)?;
            }
        }
        Ok(())
    }

    fn add_rungs(&mut self) -> Result<(), AllocError> {
        for number in 0..LAST / 32 {
            let rung = number.saturating_mul(32);
            self.add(rung, rung.saturating_add(32))?;
        }
        Ok(())
    }

    fn add_chain(&mut self) -> Result<(), AllocError> {
        for tag in 0..CHAIN {
            self.add(tag, tag.saturating_add(1))?;
        }
        Ok(())
    }

    // z has the tags up to this one as its ancestors.
    fn ask(&mut self, last: u32) -> Result<(), AllocError> {
        let mut reply = String::from_str(self.alloc, "{\"ideal\":\"z\",\"ancestors\":[\"t0\"")?;
        for tag in 1..=last {
            write!(reply, ",\"t{tag}\"")?;
        }
        reply.push_str("]}")?;
        self.script.ask_for_ideal(0, "z", &reply)
    }
}

#[test]
fn a_tag_implies_so_many_and_no_more(rt: HostRuntime) -> Result<(), Fail> {
    let mut ladder = Ladder::new(rt.alloc())?;
    ladder.add_between()?;
    ladder.add_rungs()?;
    ladder.script.say_all(LIMIT)?;
    ladder.ask(LAST)?;
    ladder.script.say_all(SIBLINGS)?;
    ladder.ask(LAST)?;
    ladder.script.say_all(SERVICES)?;
    ladder
        .script
        .assert_answered(&rt, Manner::PLAIN, "a ladder")
}

#[test]
fn a_chain_of_parents_is_followed_to_its_end(rt: HostRuntime) -> Result<(), Fail> {
    let mut chain = Ladder::new(rt.alloc())?;
    chain.add_chain()?;
    chain.ask(CHAIN)?;
    chain.script.say(RemoveParent(0, "t150", "t151"), CHANGED)?;
    chain.ask(150)?;
    chain.add(150, 151)?;
    chain.ask(CHAIN)?;
    chain.script.assert_answered(&rt, Manner::PLAIN, "a chain")
}
