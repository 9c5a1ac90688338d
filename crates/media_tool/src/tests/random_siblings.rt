//! The lines of sibling pairs in a session of random commands of tags. They are of few tags, so that pairs meet
//! in chains and loops.

use crate::tests::random_tags::RandomTags;
use crate::tests::spelling::{common_tag, spelled};
use std::alloc::AllocError;

/// A service and two clean texts, which may be a pair.
#[derive(Drop)]
pub(super) struct PairTexts {
    pub(super) service: u32,
    pub(super) first: String,
    pub(super) second: String,
}

impl RandomTags {
    pub(super) fn any_pair(&mut self) -> Result<PairTexts, AllocError> {
        Ok(PairTexts {
            service: self.service(),
            first: common_tag(self.alloc, &mut self.chance)?,
            second: common_tag(self.alloc, &mut self.chance)?,
        })
    }

    // Mostly one that stands.
    fn standing_pair(&mut self) -> Result<PairTexts, AllocError> {
        let some = self.plain.siblings().saturating_mul(3) / 2;
        let place = self.chance.below(some.saturating_add(1));
        match self.plain.sibling_at(place) {
            Some((service, bad, good)) => Ok(PairTexts {
                service,
                first: String::from_str(self.alloc, bad)?,
                second: String::from_str(self.alloc, good)?,
            }),
            None => self.any_pair(),
        }
    }

    pub fn add_sibling(&mut self) -> Result<(), AllocError> {
        let pair = self.any_pair()?;
        let bad = spelled(self.alloc, &pair.first, &mut self.chance)?;
        let good = spelled(self.alloc, &pair.second, &mut self.chance)?;
        let reply = self
            .plain
            .add_sibling(pair.service, &pair.first, &pair.second)?;
        self.script.add_sibling(pair.service, &bad, &good, &reply)
    }

    pub fn remove_sibling(&mut self) -> Result<(), AllocError> {
        let pair = self.standing_pair()?;
        let bad = spelled(self.alloc, &pair.first, &mut self.chance)?;
        let good = spelled(self.alloc, &pair.second, &mut self.chance)?;
        let reply = self
            .plain
            .remove_sibling(pair.service, &pair.first, &pair.second)?;
        self.script
            .remove_sibling(pair.service, &bad, &good, &reply)
    }

    pub fn ask_for_ideal(&mut self) -> Result<(), AllocError> {
        let service = self.service();
        let tag = common_tag(self.alloc, &mut self.chance)?;
        let said = spelled(self.alloc, &tag, &mut self.chance)?;
        let reply = self.plain.ideal(service, &tag)?;
        self.script.ask_for_ideal(service, &said, &reply)
    }
}
