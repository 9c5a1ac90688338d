//! A session of random commands against a plain library, and what is kept of it.

use crate::tests::chance::Chance;
use crate::tests::decisions::Decision;
use crate::tests::keepers::keeper_of;
use crate::tests::lines::{Code, Line};
use crate::tests::plain_library::PlainLibrary;
use crate::tests::scripts::Script;
use media_base::ChangeList;
use media_keeper::MemoryKeeper;
use std::alloc::{AllocError, Global};
use std::process::Abort;
use std::test::Fail;
use std::thread::Threads;

const LINES: u32 = 3_000;

// The files have SHA-256s up to this number.
const LAST_SHA: u32 = 39;

const FAULTY: [(&str, &str); 6] = [
    ("[\n", r#"{"error":"not_json"}"#),
    ("\n", r#"{"error":"not_json"}"#),
    (
        "{\"do\":\"fly\"}\n",
        r#"{"error":"not_a_request","field":"do"}"#,
    ),
    (
        "{\"do\":\"delete\",\"file\":-1}\n",
        r#"{"error":"not_a_request","field":"file"}"#,
    ),
    (
        "{\"do\":\"decide\",\"code\":5,\"a\":0,\"b\":1}\n",
        r#"{"error":"not_a_request","field":"code"}"#,
    ),
    (
        "{\"do\":\"import\",\"sha256\":\"00\",\"size\":1,\"width\":1,\"height\":1}\n",
        r#"{"error":"bad_hash"}"#,
    ),
];

/// A session of random commands, with the replies of a plain library.
#[derive(Drop)]
struct RandomSession {
    chance: Chance,
    library: PlainLibrary,
    script: Script,
}

impl RandomSession {
    fn new(alloc: Global, seed: u64) -> Result<RandomSession, AllocError> {
        Ok(RandomSession {
            chance: Chance::new(seed),
            library: PlainLibrary::new(alloc),
            script: Script::with_files(alloc, 0)?,
        })
    }

    // The next line.
    fn ask(&mut self, rt: &impl Abort, turn: u32) -> Result<(), AllocError> {
        match self.chance.below(40) {
            0..=3 => self.import(),
            4..=6 => self.delete(),
            7..=10 => self.undelete(),
            11..=15 => self.decide(),
            16..=19 => self.undo(),
            20..=23 => self.ask_for_relations(rt),
            24..=27 => self.ask_for_page(rt),
            28..=30 => self.ask_for_count(rt),
            31 => self.set_distance(turn),
            32 | 33 => self.search_job(),
            34..=36 => self.search_files(turn),
            37 => self.script.say(Line::QUEUES, &self.library.queues()?),
            38 => self.script.say(Line::REBALANCE_JOB, "{\"done\":true}"),
            _ => self.say_faulty(),
        }
    }

    // A file, or now and then the number behind the last.
    fn file(&mut self) -> u32 {
        self.chance.up_to(self.library.files())
    }

    // A distance, or now and then one that is too great.
    fn distance(&mut self) -> u8 {
        self.chance.up_to(17) as u8
    }

    // How far to search, or now and then too far. Searches go farther as the session goes on, so that files
    // wait for one until its end.
    fn reach(&mut self, turn: u32) -> u8 {
        match self.chance.below(20) {
            0 => 17,
            _ => self.chance.up_to(turn / 250 + 4).min(16) as u8,
        }
    }

    // A hash that is near to a fourth of the others.
    fn hash(&mut self) -> u64 {
        let word = u64::from(self.chance.up_to(3)).wrapping_mul(0x9e37_79b9_7f4a_7c15);
        self.chance.near(word)
    }

    fn import(&mut self) -> Result<(), AllocError> {
        let sha = self.chance.up_to(LAST_SHA);
        let one = self.hash();
        let other = self.hash();
        match self.chance.below(5) {
            0 => {
                let reply = self.library.import(sha, &[])?;
                self.script.say(Line::Import(sha), &reply)
            }
            1 | 2 => {
                let reply = self.library.import(sha, &[one])?;
                self.script.say(Line::Hashed(sha, one), &reply)
            }
            _ => {
                let reply = self.library.import(sha, &[one, other])?;
                self.script.say(Line::HashedTwice(sha, one, other), &reply)
            }
        }
    }

    fn delete(&mut self) -> Result<(), AllocError> {
        let file = self.file();
        let reply = self.library.mark(file, false)?;
        self.script.say(Line::Delete(file), &reply)
    }

    fn undelete(&mut self) -> Result<(), AllocError> {
        let file = self.file();
        let reply = self.library.mark(file, true)?;
        self.script.say(Line::Undelete(file), &reply)
    }

    fn decide(&mut self) -> Result<(), AllocError> {
        let decision = Decision {
            code: Code::ALL[self.chance.below(5)],
            a: self.file(),
            b: self.file(),
        };
        let reply = self.library.decide(decision)?;
        self.script.say(decision.line(), &reply)
    }

    // Mostly a decision that stands.
    fn undo(&mut self) -> Result<(), AllocError> {
        let standing = self.library.standing()?;
        let at = self.chance.below(standing.len().saturating_add(1));
        let number = match standing.get(at) {
            Some(number) => *number,
            None => self.chance.up_to(self.library.decisions()),
        };
        let reply = self.library.undo(number)?;
        self.script.say(Line::Undo(number), &reply)
    }

    fn ask_for_relations(&mut self, rt: &impl Abort) -> Result<(), AllocError> {
        let file = self.file();
        let reply = self.library.relations(rt, file)?;
        self.script.say(Line::Relations(file), &reply)
    }

    // A page from the first pair on, or after some place.
    fn ask_for_page(&mut self, rt: &impl Abort) -> Result<(), AllocError> {
        let place = (self.chance.below(3) != 0).then_some((self.file(), self.file()));
        let n = self.chance.up_to(8);
        let at_most = self.distance();
        let reply = self.library.page(rt, place, n, at_most)?;
        self.script.say(Line::Page(place, n, at_most), &reply)
    }

    fn ask_for_count(&mut self, rt: &impl Abort) -> Result<(), AllocError> {
        let at_most = self.distance();
        let reply = self.library.pair_count(rt, at_most)?;
        self.script.say(Line::PairCount(at_most), &reply)
    }

    fn set_distance(&mut self, turn: u32) -> Result<(), AllocError> {
        let distance = self.reach(turn);
        let reply = self.library.set_distance(distance)?;
        self.script.say(Line::SearchDistance(distance), &reply)
    }

    fn search_job(&mut self) -> Result<(), AllocError> {
        let n = self.chance.up_to(3);
        let reply = self.library.search_job(n)?;
        self.script.say(Line::SearchJob(n), &reply)
    }

    fn search_files(&mut self, turn: u32) -> Result<(), AllocError> {
        let one = self.file();
        let other = self.file();
        let distance = self.reach(turn);
        let reply = self.library.search_files(&[one, other], distance)?;
        self.script
            .say(Line::SearchBoth(one, other, distance), &reply)
    }

    fn say_faulty(&mut self) -> Result<(), AllocError> {
        let (line, reply) = FAULTY[self.chance.below(6)];
        self.script.say(Line::Text(line), reply)
    }

    fn ask_lines(&mut self, rt: &impl Abort) -> Result<(), AllocError> {
        for turn in 0..LINES {
            self.ask(rt, turn)?;
        }
        Ok(())
    }

    // Asks for all that the library tells. There are many pairs.
    fn ask_all(&mut self, rt: &impl Abort) -> Result<(), AllocError> {
        let pairs = self.library.potential_pairs(rt)?;
        assert!(rt; 20 < pairs.len(), "{pairs:?}");
        self.library.ask_all(rt, &mut self.script)
    }

    // Plays the session over an empty keeper, which then keeps what came of it.
    fn assert_answered(
        &self,
        rt: &(impl Threads + Abort),
        alloc: Global,
    ) -> Result<MemoryKeeper, Fail> {
        let empty = keeper_of(alloc, ChangeList::new(alloc), 0, u64::from(LINES))?;
        self.script
            .assert_answered_over(rt, empty, "random commands")
    }

    // What was kept is opened, and asked for all that the library tells.
    fn assert_kept(
        &self,
        rt: &(impl Threads + Abort),
        alloc: Global,
        kept: MemoryKeeper,
    ) -> Result<(), Fail> {
        let mut questions = Script::with_files(alloc, 0)?;
        self.library.ask_all(rt, &mut questions)?;
        let _keeper = questions.assert_answered_over(rt, kept, "what was kept of them")?;
        Ok(())
    }
}

// What was kept of the session is then opened, and asked the same questions as the session at its end.
#[test]
fn a_random_session_is_answered_as_plain_lists_say(rt: HostRuntime) -> Result<(), Fail> {
    let alloc = rt.alloc();
    let mut session = RandomSession::new(alloc, 3_000)?;
    session.ask_lines(&rt)?;
    session.ask_all(&rt)?;
    let kept = session.assert_answered(&rt, alloc)?;
    session.assert_kept(&rt, alloc, kept)
}
