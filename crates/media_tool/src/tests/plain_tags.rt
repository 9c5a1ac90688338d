//! Files, services and mappings in the plainest way: lists in the order of first use, which each command goes
//! over. `plain_siblings` has the commands of sibling pairs, and `plain_parents` those of parent pairs and what is
//! told of ideal tags.

use crate::tests::lines::{Line, State};
use crate::tests::plain_parents::PlainParents;
use crate::tests::plain_siblings::PlainSiblings;
use crate::tests::scripts::Script;
use std::alloc::{AllocError, Global};

#[derive(Clone, Copy)]
struct PlainFile {
    sha: u32,
    live: bool,
}

/// How a tag is mapped to a file in a service.
#[derive(Clone, Copy)]
struct PlainMapping {
    service: u32,
    tag: usize,
    file: u32,
    state: State,
}

impl PlainMapping {
    fn is_of(&self, service: u32, tag: usize, file: u32) -> bool {
        self.service == service && self.tag == tag && self.file == file
    }
}

#[derive(Drop)]
pub struct PlainTags {
    pub(super) alloc: Global,
    files: Vec<PlainFile>,
    /// How many services there are.
    services: u32,
    pub(super) tags: Vec<String>,
    mappings: Vec<PlainMapping>,
    pub(super) siblings: PlainSiblings,
    pub(super) parents: PlainParents,
}

impl PlainTags {
    pub fn new(alloc: Global) -> Result<PlainTags, AllocError> {
        let mut siblings = PlainSiblings::new(alloc);
        siblings.orders.set(0, &[0])?;
        let mut parents = PlainParents::new(alloc);
        parents.orders.set(0, &[0])?;
        Ok(PlainTags {
            alloc,
            files: Vec::new(alloc),
            services: 1,
            tags: Vec::new(alloc),
            mappings: Vec::new(alloc),
            siblings,
            parents,
        })
    }

    /// How many files there are.
    pub fn files(&self) -> u32 {
        u32::try_from(self.files.len()).unwrap_or(u32::MAX)
    }

    /// How many services there are.
    pub fn services(&self) -> u32 {
        self.services
    }

    /// How many tags have a number.
    pub fn tags(&self) -> usize {
        self.tags.len()
    }

    /// How many mappings there are.
    pub fn mappings(&self) -> usize {
        self.mappings.len()
    }

    /// The service, the text and the file of the mapping of this place among them.
    pub fn mapping_at(&self, place: usize) -> Option<(u32, &str, u32)> {
        let mapping = self.mappings.get(place)?;
        Some((mapping.service, self.text(mapping.tag)?, mapping.file))
    }

    pub(super) fn refused(&self, why: &str) -> Result<String, AllocError> {
        format!(in self.alloc; "{{\"error\":\"{why}\"}}")
    }

    pub(super) fn changed(&self, changed: bool) -> Result<String, AllocError> {
        format!(in self.alloc; "{{\"changed\":{changed}}}")
    }

    pub fn import(&mut self, sha: u32) -> Result<String, AllocError> {
        let known = self.files.iter().position(|file| file.sha == sha);
        let number = known.unwrap_or(self.files.len());
        let status = match self.files.get(number) {
            Some(file) if file.live => 2,
            Some(_) => 3,
            None => 1,
        };
        if known.is_none() {
            self.files.push(PlainFile { sha, live: true })?;
        }
        format!(in self.alloc; "{{\"file\":{number},\"status\":{status}}}")
    }

    /// A file becomes live, or deleted.
    pub fn mark(&mut self, file: u32, live: bool) -> Result<String, AllocError> {
        match self.files.get_mut(file as usize) {
            Some(file) => {
                let changed = file.live != live;
                file.live = live;
                self.changed(changed)
            }
            None => self.refused("unknown_file"),
        }
    }

    pub fn add_service(&mut self) -> Result<String, AllocError> {
        let number = self.services;
        self.services = number.wrapping_add(1);
        self.siblings.orders.set(number, &[number])?;
        self.parents.orders.set(number, &[number])?;
        format!(in self.alloc; "{{\"service\":{number}}}")
    }

    // Each of these services is there.
    fn has_all(&self, services: &[u32]) -> bool {
        services.iter().all(|service| *service < self.services)
    }

    pub fn apply(
        &mut self,
        service: u32,
        siblings: &[u32],
        parents: &[u32],
    ) -> Result<String, AllocError> {
        if self.has_all(&[service]) && self.has_all(siblings) && self.has_all(parents) {
            self.siblings.orders.set(service, siblings)?;
            self.parents.orders.set(service, parents)?;
            return format!(in self.alloc; "{{\"service\":{service}}}");
        }
        self.refused("unknown_service")
    }

    // Why a command of this service and file is refused.
    fn missing(&self, service: u32, file: u32) -> Option<&'static str> {
        if self.files() <= file {
            return Some("unknown_file");
        }
        if self.services <= service {
            return Some("unknown_service");
        }
        None
    }

    // The text that has this number.
    pub(super) fn text(&self, number: usize) -> Option<&str> {
        let text = self.tags.get(number)?;
        Some(text.as_str())
    }

    // The place of the text among those that have a number.
    pub(super) fn number(&self, text: &str) -> Option<usize> {
        self.tags.iter().position(|tag| tag.as_str() == text)
    }

    // The same, where a new text comes behind the others.
    pub(super) fn number_or_next(&mut self, text: &str) -> Result<usize, AllocError> {
        if let Some(number) = self.number(text) {
            return Ok(number);
        }
        self.tags.push(String::from_str(self.alloc, text)?)?;
        Ok(self.tags.len().saturating_sub(1))
    }

    // The state, where the tag is mapped to the file in the service.
    fn state(&self, service: u32, tag: usize, file: u32) -> Option<State> {
        let found = self
            .mappings
            .iter()
            .find(|mapping| mapping.is_of(service, tag, file))?;
        Some(found.state)
    }

    // The tag isn't mapped to the file in the service now.
    fn drop_mapping(&mut self, service: u32, tag: usize, file: u32) {
        self.mappings
            .retain(|mapping| !mapping.is_of(service, tag, file));
    }

    /// Maps the tag of a clean text.
    pub fn map(
        &mut self,
        service: u32,
        text: &str,
        file: u32,
        state: State,
    ) -> Result<String, AllocError> {
        if let Some(why) = self.missing(service, file) {
            return self.refused(why);
        }
        let tag = self.number_or_next(text)?;
        let changed = self.state(service, tag, file) != Some(state);
        self.drop_mapping(service, tag, file);
        self.mappings.push(PlainMapping {
            service,
            tag,
            file,
            state,
        })?;
        format!(in self.alloc; "{{\"tag\":{tag},\"changed\":{changed}}}")
    }

    /// Takes away the mapping of the tag of a clean text.
    pub fn unmap(&mut self, service: u32, text: &str, file: u32) -> Result<String, AllocError> {
        if let Some(why) = self.missing(service, file) {
            return self.refused(why);
        }
        let Some(tag) = self.number(text) else {
            return self.refused("unknown_tag");
        };
        let changed = self.state(service, tag, file).is_some();
        self.drop_mapping(service, tag, file);
        self.changed(changed)
    }

    // The file's mappings in the service, in the order of the tags' first use.
    fn rows_of(&self, service: u32, file: u32) -> Result<Vec<PlainMapping>, AllocError> {
        let mut rows: Vec<PlainMapping> = self
            .mappings
            .iter()
            .filter(|mapping| mapping.service == service && mapping.file == file)
            .copied()
            .collect(self.alloc)?;
        rows.sort_by_key(|mapping| mapping.tag)?;
        Ok(rows)
    }

    // The tags of the mappings that have this state.
    fn listed(&self, rows: &[PlainMapping], state: State) -> Result<String, AllocError> {
        let mut list = String::from_str(self.alloc, "[")?;
        let mut between = "";
        for row in rows {
            if row.state == state
                && let Some(text) = self.text(row.tag)
            {
                write!(list, "{between}\"{text}\"")?;
                between = ",";
            }
        }
        list.push(']')?;
        Ok(list)
    }

    pub fn mappings_of(&self, service: u32, file: u32) -> Result<String, AllocError> {
        if let Some(why) = self.missing(service, file) {
            return self.refused(why);
        }
        let rows = self.rows_of(service, file)?;
        let current = self.listed(&rows, State::Current)?;
        let pending = self.listed(&rows, State::Pending)?;
        let deleted = self.listed(&rows, State::Deleted)?;
        format!(in self.alloc;
            "{{\"current\":{current},\"pending\":{pending},\"deleted\":{deleted}}}"
        )
    }

    /// Asks in all services for the mappings of all files and the ideal tags of all tags.
    pub fn ask_all(&self, script: &mut Script) -> Result<(), AllocError> {
        for service in 0..self.services {
            self.ask_for_mappings(service, script)?;
            self.ask_for_ideals(service, script)?;
        }
        Ok(())
    }

    fn ask_for_mappings(&self, service: u32, script: &mut Script) -> Result<(), AllocError> {
        for file in 0..self.files() {
            let reply = self.mappings_of(service, file)?;
            script.say(Line::Mappings(service, file), &reply)?;
        }
        Ok(())
    }
}
