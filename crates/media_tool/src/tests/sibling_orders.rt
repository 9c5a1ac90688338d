//! Sessions of five sibling pairs over four tags in two services, in each of their orders, against plain lists.

use crate::tests::lines::Line;
use crate::tests::plain_tags::PlainTags;
use crate::tests::playing::Manner;
use crate::tests::scripts::Script;
use std::alloc::{AllocError, Global};
use std::process::Abort;
use std::test::Fail;
use std::thread::Threads;

/// A pair of a service: the bad tag and its good one.
#[derive(Clone, Copy, Debug)]
struct Link(u32, &'static str, &'static str);

// Three of service 1 close a loop, one leads into it, and that of service 0 out of it.
const LINKS: [Link; 5] = [
    Link(1, "a", "b"),
    Link(1, "b", "c"),
    Link(1, "c", "a"),
    Link(1, "d", "a"),
    Link(0, "c", "d"),
];

const ORDERS: usize = 120;

// Puts a link at a place among those before it, and gives what is left of the number.
fn put(order: &mut Vec<Link>, link: Link, number: usize) -> Result<usize, AllocError> {
    let places = order.len() + 1;
    order.insert(number % places, link)?;
    Ok(number / places)
}

// The links in the order of this number. Those below 120 tell all orders.
fn ordered(alloc: Global, number: usize) -> Result<Vec<Link>, AllocError> {
    let mut order = Vec::new(alloc);
    let mut rest = number;
    for link in LINKS {
        rest = put(&mut order, link, rest)?;
    }
    Ok(order)
}

/// A session, with the replies of plain lists.
#[derive(Drop)]
struct OrderedPairs {
    plain: PlainTags,
    script: Script,
}

impl OrderedPairs {
    // Each of two services takes its own pairs first.
    fn new(alloc: Global) -> Result<OrderedPairs, AllocError> {
        let mut plain = PlainTags::new(alloc)?;
        let mut script = Script::with_files(alloc, 0)?;
        script.say(Line::ADD_SERVICE, &plain.add_service()?)?;
        let reply = plain.apply(0, &[0, 1], &[0])?;
        script.say(Line::Apply(0, &[0, 1], &[0]), &reply)?;
        let reply = plain.apply(1, &[1, 0], &[1])?;
        script.say(Line::Apply(1, &[1, 0], &[1]), &reply)?;
        Ok(OrderedPairs { plain, script })
    }

    fn add(&mut self, Link(service, bad, good): Link) -> Result<(), AllocError> {
        let reply = self.plain.add_sibling(service, bad, good)?;
        self.script
            .say(Line::AddSibling(service, bad, good), &reply)
    }

    fn remove(&mut self, Link(service, bad, good): Link) -> Result<(), AllocError> {
        let reply = self.plain.remove_sibling(service, bad, good)?;
        self.script
            .say(Line::RemoveSibling(service, bad, good), &reply)
    }

    // Asks for all ideal tags after each pair.
    fn add_all(&mut self, order: &[Link]) -> Result<(), AllocError> {
        for link in order {
            self.add(*link)?;
            self.plain.ask_all(&mut self.script)?;
        }
        Ok(())
    }

    // The same, where they are removed.
    fn remove_all(&mut self, order: &[Link]) -> Result<(), AllocError> {
        for link in order {
            self.remove(*link)?;
            self.plain.ask_all(&mut self.script)?;
        }
        Ok(())
    }
}

fn assert_ordered(rt: &(impl Threads + Abort), alloc: Global, number: usize) -> Result<(), Fail> {
    let order = ordered(alloc, number)?;
    let mut session = OrderedPairs::new(alloc)?;
    session.add_all(&order)?;
    session.remove_all(&order)?;
    let shows = format!(in alloc; "{order:?}")?;
    session.script.assert_answered(rt, Manner::PLAIN, &shows)
}

#[test]
fn five_pairs_are_taken_in_their_order(rt: HostRuntime) -> Result<(), Fail> {
    for number in 0..ORDERS {
        assert_ordered(&rt, rt.alloc(), number)?;
    }
    Ok(())
}
