//! A session of random commands of tags against plain lists, and what is kept of it.

use crate::tests::chance::Chance;
use crate::tests::keepers::keeper_of;
use crate::tests::lines::{Line, State, write_map, write_unmap};
use crate::tests::plain_tags::PlainTags;
use crate::tests::scripts::Script;
use crate::tests::spelling::{any_tag, spelled};
use media_base::ChangeList;
use media_keeper::MemoryKeeper;
use std::alloc::{AllocError, Global};
use std::process::Abort;
use std::test::Fail;
use std::thread::Threads;

const LINES: u32 = 3_000;

// The files have SHA-256s up to this number.
const LAST_SHA: u32 = 29;

const SERVICES: u32 = 3;

const ORDERS: [&[u32]; 7] = [&[], &[0], &[1], &[1, 0], &[2, 0, 1], &[0, 2], &[0, 3]];

const FAULTY: [(&str, &str); 9] = [
    (
        "{\"do\":\"map\",\"service\":0,\"tag\":\" \\t\",\"file\":0,\"state\":\"current\"}\n",
        r#"{"error":"bad_tag"}"#,
    ),
    (
        "{\"do\":\"map\",\"service\":0,\"tag\":\"new\",\"file\":0,\"state\":\"gone\"}\n",
        r#"{"error":"not_a_request","field":"state"}"#,
    ),
    (
        "{\"do\":\"map\",\"service\":0,\"tag\":\"new\",\"file\":4000000,\"state\":\"current\"}\n",
        r#"{"error":"unknown_file"}"#,
    ),
    (
        "{\"do\":\"unmap\",\"service\":256,\"tag\":\"a\",\"file\":0}\n",
        r#"{"error":"not_a_request","field":"service"}"#,
    ),
    (
        "{\"do\":\"apply\",\"service\":0,\"siblings\":[0,1,0],\"parents\":[]}\n",
        r#"{"error":"not_a_request","field":"siblings"}"#,
    ),
    (
        "{\"do\":\"mappings\",\"service\":0}\n",
        r#"{"error":"not_a_request","field":"file"}"#,
    ),
    (
        "{\"do\":\"add_sibling\",\"service\":0,\"bad\":\"new\",\"good\":\" \"}\n",
        r#"{"error":"bad_tag"}"#,
    ),
    (
        "{\"do\":\"remove_sibling\",\"service\":0,\"good\":\"a\"}\n",
        r#"{"error":"not_a_request","field":"bad"}"#,
    ),
    (
        "{\"do\":\"add_parent\",\"service\":0,\"child\":\"new\",\"parent\":\"\"}\n",
        r#"{"error":"bad_tag"}"#,
    ),
];

/// A service, a clean text and a file, which may be mapped to one another.
#[derive(Drop)]
struct Triple {
    service: u32,
    text: String,
    file: u32,
}

/// A session of random commands, with the replies of plain lists.
#[derive(Drop)]
pub struct RandomTags {
    pub(super) alloc: Global,
    pub(super) chance: Chance,
    pub(super) plain: PlainTags,
    pub(super) script: Script,
}

impl RandomTags {
    fn new(alloc: Global, seed: u64) -> Result<RandomTags, AllocError> {
        Ok(RandomTags {
            alloc,
            chance: Chance::new(seed),
            plain: PlainTags::new(alloc)?,
            script: Script::with_files(alloc, 0)?,
        })
    }

    // The next line.
    fn ask(&mut self) -> Result<(), AllocError> {
        match self.chance.below(73) {
            0..=2 => self.import(),
            3 => self.mark(false),
            4 => self.mark(true),
            5 => self.add_service(),
            6 | 7 => self.apply(),
            8..=21 => self.map(),
            22..=29 => self.unmap(),
            30..=38 => self.ask_for_mappings(),
            39..=47 => self.add_sibling(),
            48..=51 => self.remove_sibling(),
            52..=59 => self.ask_for_ideal(),
            60..=67 => self.add_parent(),
            68..=71 => self.remove_parent(),
            _ => self.say_faulty(),
        }
    }

    // A file, or now and then the number behind the last.
    fn file(&mut self) -> u32 {
        self.chance.up_to(self.plain.files())
    }

    // A service, or now and then the number behind the last.
    pub(super) fn service(&mut self) -> u32 {
        match self.chance.below(12) {
            0 => self.plain.services(),
            _ => self.chance.up_to(self.plain.services().saturating_sub(1)),
        }
    }

    fn import(&mut self) -> Result<(), AllocError> {
        let sha = self.chance.up_to(LAST_SHA);
        let reply = self.plain.import(sha)?;
        self.script.say(Line::Import(sha), &reply)
    }

    fn mark(&mut self, live: bool) -> Result<(), AllocError> {
        let file = self.file();
        let line = if live {
            Line::Undelete(file)
        } else {
            Line::Delete(file)
        };
        let reply = self.plain.mark(file, live)?;
        self.script.say(line, &reply)
    }

    fn add_service(&mut self) -> Result<(), AllocError> {
        if self.plain.services() == SERVICES {
            return self.ask_for_mappings();
        }
        let reply = self.plain.add_service()?;
        self.script.say(Line::ADD_SERVICE, &reply)
    }

    fn apply(&mut self) -> Result<(), AllocError> {
        let service = self.service();
        let siblings = ORDERS[self.chance.below(7)];
        let parents = ORDERS[self.chance.below(7)];
        let reply = self.plain.apply(service, siblings, parents)?;
        self.script
            .say(Line::Apply(service, siblings, parents), &reply)
    }

    fn any_triple(&mut self) -> Result<Triple, AllocError> {
        Ok(Triple {
            service: self.service(),
            text: any_tag(self.alloc, &mut self.chance)?,
            file: self.file(),
        })
    }

    // Mostly one that is mapped.
    fn mapped_triple(&mut self) -> Result<Triple, AllocError> {
        let some = self.plain.mappings().saturating_mul(3) / 2;
        let place = self.chance.below(some.saturating_add(1));
        match self.plain.mapping_at(place) {
            Some((service, text, file)) => Ok(Triple {
                service,
                text: String::from_str(self.alloc, text)?,
                file,
            }),
            None => self.any_triple(),
        }
    }

    // Half of them are mapped so or so already.
    fn triple(&mut self) -> Result<Triple, AllocError> {
        match self.chance.below(2) {
            0 => self.any_triple(),
            _ => self.mapped_triple(),
        }
    }

    fn map(&mut self) -> Result<(), AllocError> {
        let triple = self.triple()?;
        let state = State::ALL[self.chance.below(3)];
        let said = spelled(self.alloc, &triple.text, &mut self.chance)?;
        let mut line = String::new(self.alloc);
        write_map(&mut line, triple.service, &said, triple.file, state)?;
        let reply = self
            .plain
            .map(triple.service, &triple.text, triple.file, state)?;
        self.script.say_text(&line, &reply)
    }

    fn unmap(&mut self) -> Result<(), AllocError> {
        let triple = self.triple()?;
        let said = spelled(self.alloc, &triple.text, &mut self.chance)?;
        let mut line = String::new(self.alloc);
        write_unmap(&mut line, triple.service, &said, triple.file)?;
        let reply = self.plain.unmap(triple.service, &triple.text, triple.file)?;
        self.script.say_text(&line, &reply)
    }

    fn ask_for_mappings(&mut self) -> Result<(), AllocError> {
        let service = self.service();
        let file = self.file();
        let reply = self.plain.mappings_of(service, file)?;
        self.script.say(Line::Mappings(service, file), &reply)
    }

    fn say_faulty(&mut self) -> Result<(), AllocError> {
        let (line, reply) = FAULTY[self.chance.below(9)];
        self.script.say(Line::Text(line), reply)
    }

    fn ask_lines(&mut self) -> Result<(), AllocError> {
        for _ in 0..LINES {
            self.ask()?;
        }
        Ok(())
    }

    // Asks for all mappings, of which there are many of most of the tags, and for all ideal tags.
    fn ask_all(&mut self, rt: &impl Abort) -> Result<(), AllocError> {
        let (tags, mappings) = (self.plain.tags(), self.plain.mappings());
        assert!(rt;
            30 < tags && 100 < mappings,
            "{mappings} mappings of {tags} tags"
        );
        let (siblings, parents) = (self.plain.siblings(), self.plain.parents());
        assert!(rt;
            5 < siblings && 5 < parents,
            "{siblings} sibling pairs, {parents} parent pairs"
        );
        self.plain.ask_all(&mut self.script)
    }

    // Plays the session over an empty keeper, which then keeps what came of it.
    fn assert_answered(
        &self,
        rt: &(impl Threads + Abort),
        alloc: Global,
    ) -> Result<MemoryKeeper, Fail> {
        let empty = keeper_of(alloc, ChangeList::new(alloc), 0, u64::from(LINES))?;
        self.script.assert_answered_over(rt, empty, "random tags")
    }

    // What was kept is opened, and asked for all mappings and all ideal tags.
    fn assert_kept(
        &self,
        rt: &(impl Threads + Abort),
        alloc: Global,
        kept: MemoryKeeper,
    ) -> Result<(), Fail> {
        let mut questions = Script::with_files(alloc, 0)?;
        self.plain.ask_all(&mut questions)?;
        let _keeper = questions.assert_answered_over(rt, kept, "what was kept of them")?;
        Ok(())
    }
}

fn assert_as_plain_lists(
    rt: &(impl Threads + Abort),
    alloc: Global,
    seed: u64,
) -> Result<(), Fail> {
    let mut session = RandomTags::new(alloc, seed)?;
    session.ask_lines()?;
    session.ask_all(rt)?;
    let kept = session.assert_answered(rt, alloc)?;
    session.assert_kept(rt, alloc, kept)
}

// What was kept of each session is then opened, and asked the same questions as the session at its end.
#[test]
fn random_tags_are_answered_as_plain_lists_say(rt: HostRuntime) -> Result<(), Fail> {
    for seed in [7, 8, 9] {
        assert_as_plain_lists(&rt, rt.alloc(), seed)?;
    }
    Ok(())
}
