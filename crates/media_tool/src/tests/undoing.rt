//! What an undoing leaves, against a library that never had the undone decisions.

use crate::tests::chance::Chance;
use crate::tests::decisions::{Decision, chosen};
use crate::tests::lines::{Line, input_of};
use crate::tests::playing::{Manner, Outcome, played};
use crate::tests::scripts::Script;
use media_base::Status;
use std::alloc::{AllocError, Global};
use std::process::Abort;
use std::test::Fail;
use std::thread::Threads;

const FILES: u32 = 12;

#[derive(Clone, Copy)]
struct Recorded {
    decision: Decision,
    undone: bool,
}

/// A session of decisions and undoings, and the decisions that it recorded.
#[derive(Drop)]
struct History {
    alloc: Global,
    recorded: Vec<Recorded>,
    /// How many undoings were accepted.
    accepted: u32,
    script: Script,
}

impl History {
    fn new(alloc: Global) -> Result<History, AllocError> {
        Ok(History {
            alloc,
            recorded: Vec::new(alloc),
            accepted: 0,
            script: Script::with_files(alloc, FILES)?,
        })
    }

    fn decide(&mut self, decision: Decision) -> Result<(), AllocError> {
        self.script.decide(decision.line(), self.recorded.len())?;
        self.recorded.push(Recorded {
            decision,
            undone: false,
        })?;
        Ok(())
    }

    // Whether the decision stood till now.
    fn undo(&mut self, number: u32) -> Result<bool, AllocError> {
        match self.recorded.get_mut(number as usize) {
            Some(row) if !row.undone => {
                row.undone = true;
                self.script.undo(number)?;
                Ok(true)
            }
            Some(_) => {
                self.script
                    .say(Line::Undo(number), "{\"error\":\"already_undone\"}")?;
                Ok(false)
            }
            None => {
                self.script
                    .say(Line::Undo(number), "{\"error\":\"unknown_decision\"}")?;
                Ok(false)
            }
        }
    }

    // The imports, the decisions that stand, and then the relations of all files.
    fn standing_lines(&self) -> Result<Vec<Line>, AllocError> {
        let mut lines = Vec::new(self.alloc);
        for file in 0..FILES {
            lines.push(Line::Import(file))?;
        }
        for row in &self.recorded {
            if !row.undone {
                lines.push(row.decision.line())?;
            }
        }
        for file in 0..FILES {
            lines.push(Line::Relations(file))?;
        }
        Ok(lines)
    }

    // Asks the relations of all files, whose replies must be those of a new session that is given only the
    // decisions that stand.
    fn ask_all(&mut self, rt: &(impl Threads + Abort)) -> Result<(), Fail> {
        let lines = self.standing_lines()?;
        let input = input_of(self.alloc, &lines)?;
        let played = played(rt, self.alloc, &["play", "-"], &input, Manner::PLAIN)?;
        self.ask_as(rt, &lines, &played)
    }

    // Asks for the relations that these lines ask for, which have the replies that were played.
    fn ask_as(&mut self, rt: &impl Abort, lines: &[Line], played: &Outcome) -> Result<(), Fail> {
        assert_eq!(rt; played.status, Status::Done);
        let replies = str::from_utf8(&played.written)?;
        assert_eq!(rt; replies.lines().count(), lines.len());
        for (line, reply) in lines.iter().zip(replies.lines()) {
            if let Line::Relations(_) = line {
                self.script.say(*line, reply)?;
            }
        }
        Ok(())
    }

    // The next line: two of three undo, and some are refused. All relations are compared after every second
    // undoing that was accepted.
    fn go_on(
        &mut self,
        rt: &(impl Threads + Abort),
        all: &[Decision],
        chance: &mut Chance,
    ) -> Result<(), Fail> {
        if chance.below(3) == 0 {
            self.decide(chosen(rt, all, chance))?;
            return Ok(());
        }
        let number = chance.below(self.recorded.len().saturating_add(1));
        if self.undo(u32::try_from(number)?)? {
            self.accepted = self.accepted.saturating_add(1);
            if self.accepted % 2 == 0 {
                self.ask_all(rt)?;
            }
        }
        Ok(())
    }
}

#[test]
fn an_undone_decision_was_never_there(rt: HostRuntime) -> Result<(), Fail> {
    let alloc = rt.alloc();
    let all = Decision::all(alloc, FILES)?;
    let mut chance = Chance::new(2_000);
    let mut history = History::new(alloc)?;
    for _ in 0..2_000 {
        history.go_on(&rt, &all, &mut chance)?;
    }
    assert!(rt; 400 < history.accepted, "{} undoings", history.accepted);
    history
        .script
        .assert_answered(&rt, Manner::PLAIN, "decisions and undoings")
}
