//! Sessions with the replies that they must get.

ghost use Rattle.std.specs.Prelude.{◌<◌};

use crate::tests::keepers::session_over;
use crate::tests::lines::{Line, write_ideal};
use crate::tests::pair_lines::{PairCommand, write_pair};
use crate::tests::playing::{Manner, played};
use media_base::{NoMemory, Status};
use media_keeper::MemoryKeeper;
use std::alloc::{AllocError, Global};
use std::process::Abort;
use std::test::Fail;
use std::thread::Threads;

/// A session's input, and the replies that it must get.
#[derive(Drop)]
pub struct Script {
    alloc: Global,
    input: String,
    replies: String,
}

impl Script {
    /// A session that imports the files 0 up to so many.
    pub fn with_files(alloc: Global, files: u32) -> Result<Script, AllocError> {
        let mut script = Script {
            alloc,
            input: String::new(alloc),
            replies: String::new(alloc),
        };
        for file in 0..files {
            Line::Import(file).write_to(&mut script.input)?;
            writeln!(script.replies, "{{\"file\":{file},\"status\":1}}")?;
        }
        Ok(script)
    }

    /// The next line, and its reply without the line feed.
    pub fn say(&mut self, line: Line, reply: &str) -> Result<(), AllocError> {
        line.write_to(&mut self.input)?;
        writeln!(self.replies, "{reply}")
    }

    /// The next lines, each with its reply.
    pub fn say_all(&mut self, rows: &[(Line, &str)]) -> Result<(), AllocError> {
        for (line, reply) in rows {
            self.say(*line, reply)?;
        }
        Ok(())
    }

    /// The next line has this text and its line feed.
    pub fn say_text(&mut self, line: &str, reply: &str) -> Result<(), AllocError> {
        self.input.push_str(line)?;
        writeln!(self.replies, "{reply}")
    }

    // The next line is of a pair.
    fn say_pair(
        &mut self,
        command: PairCommand,
        service: u32,
        first: &str,
        second: &str,
        reply: &str,
    ) -> Result<(), AllocError> {
        write_pair(&mut self.input, command, service, first, second)?;
        writeln!(self.replies, "{reply}")
    }

    /// The next line records a sibling pair.
    pub fn add_sibling(
        &mut self,
        service: u32,
        bad: &str,
        good: &str,
        reply: &str,
    ) -> Result<(), AllocError> {
        self.say_pair(PairCommand::AddSibling, service, bad, good, reply)
    }

    /// The next line removes a sibling pair.
    pub fn remove_sibling(
        &mut self,
        service: u32,
        bad: &str,
        good: &str,
        reply: &str,
    ) -> Result<(), AllocError> {
        self.say_pair(PairCommand::RemoveSibling, service, bad, good, reply)
    }

    /// The next line records a parent pair.
    pub fn add_parent(
        &mut self,
        service: u32,
        child: &str,
        parent: &str,
        reply: &str,
    ) -> Result<(), AllocError> {
        self.say_pair(PairCommand::AddParent, service, child, parent, reply)
    }

    /// The next line removes a parent pair.
    pub fn remove_parent(
        &mut self,
        service: u32,
        child: &str,
        parent: &str,
        reply: &str,
    ) -> Result<(), AllocError> {
        self.say_pair(PairCommand::RemoveParent, service, child, parent, reply)
    }

    /// The next line asks for the ideal tag of a tag.
    pub fn ask_for_ideal(
        &mut self,
        service: u32,
        tag: &str,
        reply: &str,
    ) -> Result<(), AllocError> {
        write_ideal(&mut self.input, service, tag)?;
        writeln!(self.replies, "{reply}")
    }

    /// The next line is a decision, which gets this number.
    pub fn decide(&mut self, line: Line, number: usize) -> Result<(), AllocError> {
        line.write_to(&mut self.input)?;
        writeln!(self.replies, "{{\"decision\":{number}}}")
    }

    /// The next line is an undoing, which is accepted.
    pub fn undo(&mut self, number: u32) -> Result<(), AllocError> {
        Line::Undo(number).write_to(&mut self.input)?;
        writeln!(self.replies, "{{\"undone\":{number}}}")
    }

    /// Asks for all of these potential pairs, so many at once, until none is left.
    pub fn ask_for_pairs(
        &mut self,
        pairs: &[(u32, u32, u32)],
        at_once: u32,
    ) -> Result<(), AllocError>
        requires { 0 < at_once }
    {
        let mut place = None;
        for page in pairs.chunks(at_once as usize) {
            let reply = pairs_reply(self.alloc, page)?;
            self.say(Line::Page(place, at_once, 16), &reply)?;
            place = page.last().map(|(j, k, _)| (*j, *k));
        }
        self.say(Line::Page(place, at_once, 16), "{\"pairs\":[]}")
    }

    /// Plays it, and compares each line of what was written.
    pub fn assert_answered(
        &self,
        rt: &(impl Threads + Abort),
        manner: Manner,
        shows: &str,
    ) -> Result<(), Fail> {
        let played = played(rt, self.alloc, &["play", "-"], &self.input, manner)?;
        self.assert_written(rt, played.status, &played.written, shows)
    }

    /// The same over a keeper, which comes back.
    pub fn assert_answered_over(
        &self,
        rt: &(impl Threads + Abort),
        keeper: MemoryKeeper,
        shows: &str,
    ) -> Result<MemoryKeeper, Fail> {
        let ended = session_over(rt, self.alloc, &self.input, keeper, 0)?;
        self.assert_written(rt, ended.status, &ended.written, shows)?;
        Ok(ended.keeper)
    }

    // It ended well, and all replies were written.
    fn assert_written(
        &self,
        rt: &impl Abort,
        status: Status,
        written: &[u8],
        shows: &str,
    ) -> Result<(), Fail> {
        assert_eq!(rt; status, Status::Done, "{shows}");
        let found = str::from_utf8(written)?;
        self.assert_lines(rt, found, shows);
        assert!(rt; found == self.replies.as_str(), "{shows}: other replies");
        Ok(())
    }

    fn assert_lines(&self, rt: &impl Abort, found: &str, shows: &str) {
        let replies = found.lines().zip(self.replies.lines());
        for (line, (reply, want)) in self.input.lines().zip(replies) {
            assert_eq!(rt; reply, want, "{shows}: to {line}");
        }
    }
}

/// The reply to a question for potential pairs.
pub fn pairs_reply(alloc: Global, pairs: &[(u32, u32, u32)]) -> Result<String, AllocError> {
    let mut reply = String::from_str(alloc, "{\"pairs\":[")?;
    let mut between = "";
    for (j, k, distance) in pairs {
        write!(reply, "{between}[{j},{k},{distance}]")?;
        between = ",";
    }
    reply.push_str("]}")?;
    Ok(reply)
}
