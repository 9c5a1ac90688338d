//! Sibling pairs in the plainest way: the standing ones in order of recording. For each question those of a
//! service are taken anew, one after the other, and then followed.

use crate::tests::plain_orders::PlainOrders;
use crate::tests::plain_tags::PlainTags;
use std::alloc::{AllocError, Global};

/// A bad tag and its good one.
#[derive(Clone, Copy)]
pub(super) struct PlainPair {
    bad: usize,
    good: usize,
}

/// A pair that stands in a service.
#[derive(Clone, Copy)]
struct PlainSibling {
    service: u32,
    pair: PlainPair,
}

impl PlainSibling {
    fn is_of(&self, service: u32, bad: usize) -> bool {
        self.service == service && self.pair.bad == bad
    }
}

#[derive(Drop)]
pub struct PlainSiblings {
    alloc: Global,
    standing: Vec<PlainSibling>,
    pub(super) orders: PlainOrders,
}

impl PlainSiblings {
    pub fn new(alloc: Global) -> PlainSiblings {
        PlainSiblings {
            alloc,
            standing: Vec::new(alloc),
            orders: PlainOrders::new(alloc),
        }
    }

    // The good tag of the standing pair of a service and a bad tag.
    fn good(&self, service: u32, bad: usize) -> Option<usize> {
        let found = self
            .standing
            .iter()
            .find(|sibling| sibling.is_of(service, bad))?;
        Some(found.pair.good)
    }

    fn add(&mut self, service: u32, pair: PlainPair) -> Result<(), AllocError> {
        self.standing.push(PlainSibling { service, pair })?;
        Ok(())
    }

    fn remove(&mut self, service: u32, bad: usize) {
        self.standing.retain(|sibling| !sibling.is_of(service, bad));
    }

    // Takes the standing pairs of a service, but for those that are passed over.
    fn take_from(&self, taken: &mut Vec<PlainPair>, service: u32) -> Result<(), AllocError> {
        for sibling in &self.standing {
            if sibling.service == service && !is_passed_over(taken, sibling.pair) {
                taken.push(sibling.pair)?;
            }
        }
        Ok(())
    }

    // The pairs that a service takes of those that stand.
    pub(super) fn taken(&self, reader: u32) -> Result<Vec<PlainPair>, AllocError> {
        let mut taken = Vec::new(self.alloc);
        for service in &self.orders.of(reader)? {
            self.take_from(&mut taken, *service)?;
        }
        Ok(taken)
    }
}

// The good tag to which a pair leads.
fn next_of(pairs: &[PlainPair], tag: usize) -> Option<usize> {
    let found = pairs.iter().find(|pair| pair.bad == tag)?;
    Some(found.good)
}

// Following the pairs from a tag reaches another, or they are one.
fn reaches(pairs: &[PlainPair], from: usize, to: usize) -> bool {
    let mut tag = from;
    for _step in pairs {
        if tag == to {
            return true;
        }
        tag = next_of(pairs, tag).unwrap_or(tag);
    }
    tag == to
}

fn is_passed_over(taken: &[PlainPair], pair: PlainPair) -> bool {
    next_of(taken, pair.bad).is_some() || reaches(taken, pair.good, pair.bad)
}

/// The end of the chain of pairs from a tag.
pub(super) fn end_of(pairs: &[PlainPair], tag: usize) -> usize {
    let mut end = tag;
    for _step in pairs {
        end = next_of(pairs, end).unwrap_or(end);
    }
    end
}

impl PlainTags {
    /// How many sibling pairs stand.
    pub fn siblings(&self) -> usize {
        self.siblings.standing.len()
    }

    /// The service, the bad text and the good text of the sibling pair of this place among those that stand.
    pub fn sibling_at(&self, place: usize) -> Option<(u32, &str, &str)> {
        let sibling = self.siblings.standing.get(place)?;
        let bad = self.text(sibling.pair.bad)?;
        let good = self.text(sibling.pair.good)?;
        Some((sibling.service, bad, good))
    }

    // The good text of the standing pair of a service and a bad text.
    fn good_text(&self, service: u32, bad: &str) -> Option<&str> {
        let bad = self.number(bad)?;
        let good = self.siblings.good(service, bad)?;
        self.text(good)
    }

    /// Records the pair of two clean texts.
    pub fn add_sibling(
        &mut self,
        service: u32,
        bad: &str,
        good: &str,
    ) -> Result<String, AllocError> {
        if self.services() <= service {
            return self.refused("unknown_service");
        }
        if let Some(known) = self.good_text(service, bad) {
            return format!(in self.alloc; "{{\"error\":\"pair_known\",\"good\":\"{known}\"}}");
        }
        let bad = self.number_or_next(bad)?;
        let good = self.number_or_next(good)?;
        self.siblings.add(service, PlainPair { bad, good })?;
        format!(in self.alloc; "{{\"bad\":{bad},\"good\":{good}}}")
    }

    /// Removes the pair of two clean texts.
    pub fn remove_sibling(
        &mut self,
        service: u32,
        bad: &str,
        good: &str,
    ) -> Result<String, AllocError> {
        if self.services() <= service {
            return self.refused("unknown_service");
        }
        let (Some(bad), Some(good)) = (self.number(bad), self.number(good)) else {
            return self.refused("unknown_tag");
        };
        if self.siblings.good(service, bad) != Some(good) {
            return self.refused("unknown_pair");
        }
        self.siblings.remove(service, bad);
        self.changed(true)
    }
}
