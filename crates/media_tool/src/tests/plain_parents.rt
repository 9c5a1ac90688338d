//! Parent pairs in the plainest way: the standing ones in order of recording. For each question those that a
//! service takes are read between ideal tags anew, and gone over once for each of them.

use crate::tests::plain_orders::PlainOrders;
use crate::tests::plain_siblings::{PlainPair, end_of};
use crate::tests::plain_tags::PlainTags;
use crate::tests::scripts::Script;
use std::alloc::{AllocError, Global};

/// A child and its parent.
#[derive(Clone, Copy)]
struct PlainLink {
    child: usize,
    parent: usize,
}

impl PlainLink {
    fn is(&self, other: PlainLink) -> bool {
        self.child == other.child && self.parent == other.parent
    }

    // The same between ideal tags.
    fn led_by(&self, siblings: &[PlainPair]) -> PlainLink {
        PlainLink {
            child: end_of(siblings, self.child),
            parent: end_of(siblings, self.parent),
        }
    }
}

/// A pair that stands in a service.
#[derive(Clone, Copy)]
struct PlainParent {
    service: u32,
    link: PlainLink,
}

impl PlainParent {
    fn is_of(&self, service: u32, link: PlainLink) -> bool {
        self.service == service && self.link.is(link)
    }
}

#[derive(Drop)]
pub struct PlainParents {
    alloc: Global,
    standing: Vec<PlainParent>,
    pub(super) orders: PlainOrders,
}

impl PlainParents {
    pub fn new(alloc: Global) -> PlainParents {
        PlainParents {
            alloc,
            standing: Vec::new(alloc),
            orders: PlainOrders::new(alloc),
        }
    }

    fn stands(&self, service: u32, link: PlainLink) -> bool {
        self.standing
            .iter()
            .any(|parent| parent.is_of(service, link))
    }

    fn add(&mut self, service: u32, link: PlainLink) -> Result<(), AllocError> {
        self.standing.push(PlainParent { service, link })?;
        Ok(())
    }

    fn remove(&mut self, service: u32, link: PlainLink) {
        self.standing.retain(|parent| !parent.is_of(service, link));
    }

    // Takes the standing pairs of a service, between ideal tags.
    fn take_from(
        &self,
        links: &mut Vec<PlainLink>,
        service: u32,
        siblings: &[PlainPair],
    ) -> Result<(), AllocError> {
        for parent in &self.standing {
            if parent.service == service {
                links.push(parent.link.led_by(siblings))?;
            }
        }
        Ok(())
    }

    // The pairs that a service takes of those that stand, between ideal tags.
    fn links(&self, reader: u32, siblings: &[PlainPair]) -> Result<Vec<PlainLink>, AllocError> {
        let mut links = Vec::new(self.alloc);
        for service in &self.orders.of(reader)? {
            self.take_from(&mut links, *service, siblings)?;
        }
        Ok(links)
    }

    // The tags that a tag implies by these pairs. Each round but the last comes to another parent.
    fn implied(&self, links: &[PlainLink], ideal: usize) -> Result<Vec<usize>, AllocError> {
        let mut implied = Vec::new(self.alloc);
        implied.push(ideal)?;
        for _round in links {
            let before = implied.len();
            put_parents(&mut implied, links)?;
            if implied.len() == before {
                break;
            }
        }
        Ok(implied)
    }
}

// The parents of those that are there come to them.
fn put_parents(tags: &mut Vec<usize>, links: &[PlainLink]) -> Result<(), AllocError> {
    for link in links {
        if tags.contains(&link.child) && !tags.contains(&link.parent) {
            tags.push(link.parent)?;
        }
    }
    Ok(())
}

impl PlainTags {
    /// How many parent pairs stand.
    pub fn parents(&self) -> usize {
        self.parents.standing.len()
    }

    /// The service, the child's text and the parent's of the pair of this place among those that stand.
    pub fn parent_at(&self, place: usize) -> Option<(u32, &str, &str)> {
        let parent = self.parents.standing.get(place)?;
        let child = self.text(parent.link.child)?;
        let other = self.text(parent.link.parent)?;
        Some((parent.service, child, other))
    }

    // The pair of two texts that have numbers.
    fn link(&self, child: &str, parent: &str) -> Option<PlainLink> {
        Some(PlainLink {
            child: self.number(child)?,
            parent: self.number(parent)?,
        })
    }

    // The pair of two texts stands in the service.
    fn has_parent(&self, service: u32, child: &str, parent: &str) -> bool {
        match self.link(child, parent) {
            Some(link) => self.parents.stands(service, link),
            None => false,
        }
    }

    /// Records the pair of two clean texts.
    pub fn add_parent(
        &mut self,
        service: u32,
        child: &str,
        parent: &str,
    ) -> Result<String, AllocError> {
        if self.services() <= service {
            return self.refused("unknown_service");
        }
        if self.has_parent(service, child, parent) {
            return format!(in self.alloc; "{{\"error\":\"pair_known\",\"good\":\"{parent}\"}}");
        }
        let child = self.number_or_next(child)?;
        let parent = self.number_or_next(parent)?;
        self.parents.add(service, PlainLink { child, parent })?;
        format!(in self.alloc; "{{\"child\":{child},\"parent\":{parent}}}")
    }

    /// Removes the pair of two clean texts.
    pub fn remove_parent(
        &mut self,
        service: u32,
        child: &str,
        parent: &str,
    ) -> Result<String, AllocError> {
        if self.services() <= service {
            return self.refused("unknown_service");
        }
        let Some(link) = self.link(child, parent) else {
            return self.refused("unknown_tag");
        };
        if !self.parents.stands(service, link) {
            return self.refused("unknown_pair");
        }
        self.parents.remove(service, link);
        self.changed(true)
    }

    // The texts of these tags but one, in the order of the tags' first use.
    fn texts_but(&self, tags: &[usize], left_out: usize) -> Result<String, AllocError> {
        let mut list = String::from_str(self.alloc, "[")?;
        let mut between = "";
        for (number, text) in self.tags.iter().enumerate() {
            if number != left_out && tags.contains(&number) {
                write!(list, "{between}\"{text}\"")?;
                between = ",";
            }
        }
        list.push(']')?;
        Ok(list)
    }

    // What is told of a tag.
    fn told(&self, service: u32, tag: usize) -> Result<String, AllocError> {
        let siblings = self.siblings.taken(service)?;
        let ideal = end_of(&siblings, tag);
        let links = self.parents.links(service, &siblings)?;
        let implied = self.parents.implied(&links, ideal)?;
        let text = self.text(ideal).unwrap_or("");
        let ancestors = self.texts_but(&implied, ideal)?;
        format!(in self.alloc; "{{\"ideal\":\"{text}\",\"ancestors\":{ancestors}}}")
    }

    /// Tells the ideal tag of a clean text, and its ancestors.
    pub fn ideal(&self, service: u32, text: &str) -> Result<String, AllocError> {
        if self.services() <= service {
            return self.refused("unknown_service");
        }
        match self.number(text) {
            Some(tag) => self.told(service, tag),
            None => self.refused("unknown_tag"),
        }
    }

    /// Asks for the ideal tags of all tags in a service, with their ancestors.
    pub fn ask_for_ideals(&self, service: u32, script: &mut Script) -> Result<(), AllocError> {
        for text in &self.tags {
            let reply = self.ideal(service, text.as_str())?;
            script.ask_for_ideal(service, text.as_str(), &reply)?;
        }
        Ok(())
    }
}
