//! Sessions against a plain fold of their decisions.

use crate::tests::chance::Chance;
use crate::tests::decisions::{Decision, chosen};
use crate::tests::lines::{Code, Line};
use crate::tests::plain_fold::PlainFold;
use crate::tests::playing::Manner;
use crate::tests::scripts::Script;
use std::alloc::{AllocError, Global};
use std::process::Abort;
use std::test::Fail;
use std::thread::Threads;

const FILES: u32 = 4;

/// A session of decisions, and the fold of them.
#[derive(Drop)]
struct Folded {
    script: Script,
    fold: PlainFold,
}

impl Folded {
    fn new(alloc: Global) -> Result<Folded, AllocError> {
        Ok(Folded {
            script: Script::with_files(alloc, FILES)?,
            fold: PlainFold::new(alloc, FILES)?,
        })
    }

    fn decide(&mut self, rt: &impl Abort, decisions: &[Decision]) -> Result<(), AllocError> {
        for (number, decision) in decisions.iter().enumerate() {
            self.script.decide(decision.line(), number)?;
            self.fold.decide(rt, *decision)?;
        }
        Ok(())
    }

    // The relations of all files.
    fn ask_all(&mut self, rt: &impl Abort) -> Result<(), AllocError> {
        for file in 0..FILES {
            let reply = self.fold.relations(rt, file)?;
            self.script.say(Line::Relations(file), &reply)?;
        }
        Ok(())
    }
}

// The relations of all files after these decisions.
fn assert_folded(
    rt: &(impl Threads + Abort),
    alloc: Global,
    decisions: &[Decision],
) -> Result<(), Fail> {
    let mut folded = Folded::new(alloc)?;
    folded.decide(rt, decisions)?;
    folded.ask_all(rt)?;
    let shows = format!(in alloc; "after {decisions:?}")?;
    folded.script.assert_answered(rt, Manner::PLAIN, &shows)
}

// The decision alone, and with each second one.
fn assert_followed(
    rt: &(impl Threads + Abort),
    alloc: Global,
    first: Decision,
    all: &[Decision],
) -> Result<(), Fail> {
    assert_folded(rt, alloc, &[first])?;
    for second in all {
        assert_folded(rt, alloc, &[first, *second])?;
    }
    Ok(())
}

// Each decision of this code.
fn assert_all_followed(
    rt: &(impl Threads + Abort),
    alloc: Global,
    code: Code,
    all: &[Decision],
) -> Result<(), Fail> {
    for first in all {
        if first.code == code {
            assert_followed(rt, alloc, *first, all)?;
        }
    }
    Ok(())
}

// No decision, each one of this code, and each of them with each second decision.
fn assert_two_folded(rt: &(impl Threads + Abort), alloc: Global, code: Code) -> Result<(), Fail> {
    let all = Decision::all(alloc, FILES)?;
    assert_eq!(rt; all.len(), 60);
    assert_folded(rt, alloc, &[])?;
    assert_all_followed(rt, alloc, code, &all)
}

// A test for each code of the first decision keeps each short where it runs with all checks.
#[test]
fn not_related_and_a_second_are_a_fold(rt: HostRuntime) -> Result<(), Fail> {
    assert_two_folded(&rt, rt.alloc(), Code::NotRelated)
}

#[test]
fn same_and_a_second_are_a_fold(rt: HostRuntime) -> Result<(), Fail> {
    assert_two_folded(&rt, rt.alloc(), Code::Same)
}

#[test]
fn alternates_and_a_second_are_a_fold(rt: HostRuntime) -> Result<(), Fail> {
    assert_two_folded(&rt, rt.alloc(), Code::Alternates)
}

#[test]
fn better_and_a_second_are_a_fold(rt: HostRuntime) -> Result<(), Fail> {
    assert_two_folded(&rt, rt.alloc(), Code::Better)
}

#[test]
fn worse_and_a_second_are_a_fold(rt: HostRuntime) -> Result<(), Fail> {
    assert_two_folded(&rt, rt.alloc(), Code::Worse)
}

// Six of these decisions.
fn six_chosen(
    rt: &impl Abort,
    alloc: Global,
    all: &[Decision],
    chance: &mut Chance,
) -> Result<Vec<Decision>, AllocError> {
    let mut decisions = Vec::new(alloc);
    for _ in 0..6 {
        decisions.push(chosen(rt, all, chance))?;
    }
    Ok(decisions)
}

#[test]
fn six_decisions_are_a_fold(rt: HostRuntime) -> Result<(), Fail> {
    let alloc = rt.alloc();
    let all = Decision::all(alloc, FILES)?;
    let mut chance = Chance::new(6);
    for _ in 0..600 {
        let decisions = six_chosen(&rt, alloc, &all, &mut chance)?;
        assert_folded(&rt, alloc, &decisions)?;
    }
    Ok(())
}
