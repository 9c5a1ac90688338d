//! Sessions of a long chain of sibling pairs: t0 to t1, t1 to t2, and so on.

use crate::tests::playing::Manner;
use crate::tests::scripts::Script;
use std::alloc::{AllocError, Global};
use std::process::Abort;
use std::test::Fail;
use std::thread::Threads;

const LINKS: u32 = 300;

/// In which order the links are recorded.
#[derive(Clone, Copy, Debug)]
enum Order {
    Forwards,
    Backwards,
}

impl Order {
    // The bad tag of the link of this turn, by its place in the chain.
    fn link(self, turn: u32) -> u32 {
        match self {
            Order::Forwards => turn,
            Order::Backwards => LINKS.saturating_sub(1).saturating_sub(turn),
        }
    }

    // The number of the tag of this place, which follows from the order. Backwards the last link comes first, and
    // its two tags are numbered in the order of the chain.
    fn number(self, place: u32) -> u32 {
        match self {
            Order::Forwards => place,
            Order::Backwards if place == LINKS => 1,
            Order::Backwards if LINKS.saturating_sub(place) == 1 => 0,
            Order::Backwards => LINKS.saturating_sub(place),
        }
    }
}

/// A session of the chain.
#[derive(Drop)]
struct Chain {
    alloc: Global,
    order: Order,
    script: Script,
}

impl Chain {
    fn new(alloc: Global, order: Order) -> Result<Chain, AllocError> {
        Ok(Chain {
            alloc,
            order,
            script: Script::with_files(alloc, 0)?,
        })
    }

    // Records the pair of the tags of two places.
    fn add(&mut self, bad: u32, good: u32) -> Result<(), AllocError> {
        let (first, second) = (self.order.number(bad), self.order.number(good));
        let reply = format!(in self.alloc; "{{\"bad\":{first},\"good\":{second}}}")?;
        let bad = format!(in self.alloc; "t{bad}")?;
        let good = format!(in self.alloc; "t{good}")?;
        self.script.add_sibling(0, &bad, &good, &reply)
    }

    fn remove(&mut self, bad: u32, good: u32) -> Result<(), AllocError> {
        let bad = format!(in self.alloc; "t{bad}")?;
        let good = format!(in self.alloc; "t{good}")?;
        self.script
            .remove_sibling(0, &bad, &good, "{\"changed\":true}")
    }

    // The tag of the one place has that of the other as its ideal tag.
    fn ask(&mut self, place: u32, ideal: u32) -> Result<(), AllocError> {
        let tag = format!(in self.alloc; "t{place}")?;
        let reply = format!(in self.alloc; "{{\"ideal\":\"t{ideal}\",\"ancestors\":[]}}")?;
        self.script.ask_for_ideal(0, &tag, &reply)
    }

    fn add_all(&mut self) -> Result<(), AllocError> {
        for turn in 0..LINKS {
            let bad = self.order.link(turn);
            self.add(bad, bad.saturating_add(1))?;
        }
        Ok(())
    }

    // The tags of all places have the last one as their ideal tag.
    fn ask_all(&mut self) -> Result<(), AllocError> {
        for place in 0..=LINKS {
            self.ask(place, LINKS)?;
        }
        Ok(())
    }

    // A pair that would close the chain to a loop is passed over.
    fn close(&mut self) -> Result<(), AllocError> {
        self.add(LINKS, 0)?;
        self.ask(0, LINKS)?;
        self.ask(150, LINKS)?;
        self.ask(LINKS, LINKS)
    }

    // Without the link at 150 the closing pair is taken, and leads the upper half to the end of the lower one.
    fn part(&mut self) -> Result<(), AllocError> {
        self.remove(150, 151)?;
        self.ask(151, 150)?;
        self.ask(LINKS, 150)?;
        self.ask(0, 150)?;
        self.ask(150, 150)
    }

    // The link comes last now, and is the one that would close the loop.
    fn join(&mut self) -> Result<(), AllocError> {
        self.add(150, 151)?;
        self.ask(0, 150)?;
        self.ask(150, 150)?;
        self.ask(LINKS, 150)
    }
}

fn assert_chain(rt: &(impl Threads + Abort), alloc: Global, order: Order) -> Result<(), Fail> {
    let mut chain = Chain::new(alloc, order)?;
    chain.add_all()?;
    chain.ask_all()?;
    chain.close()?;
    chain.part()?;
    chain.join()?;
    let shows = format!(in alloc; "{LINKS} links, {order:?}")?;
    chain.script.assert_answered(rt, Manner::PLAIN, &shows)
}

#[test]
fn a_chain_recorded_forwards_has_one_ideal_tag(rt: HostRuntime) -> Result<(), Fail> {
    assert_chain(&rt, rt.alloc(), Order::Forwards)
}

#[test]
fn a_chain_recorded_backwards_has_one_ideal_tag(rt: HostRuntime) -> Result<(), Fail> {
    assert_chain(&rt, rt.alloc(), Order::Backwards)
}
