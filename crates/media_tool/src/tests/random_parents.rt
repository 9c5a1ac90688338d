//! The lines of parent pairs in a session of random commands of tags. They are of the few tags of sibling pairs.

use crate::tests::random_siblings::PairTexts;
use crate::tests::random_tags::RandomTags;
use crate::tests::spelling::spelled;
use std::alloc::AllocError;

impl RandomTags {
    // Mostly a pair that stands.
    fn standing_parent(&mut self) -> Result<PairTexts, AllocError> {
        let some = self.plain.parents().saturating_mul(3) / 2;
        let place = self.chance.below(some.saturating_add(1));
        match self.plain.parent_at(place) {
            Some((service, child, parent)) => Ok(PairTexts {
                service,
                first: String::from_str(self.alloc, child)?,
                second: String::from_str(self.alloc, parent)?,
            }),
            None => self.any_pair(),
        }
    }

    pub fn add_parent(&mut self) -> Result<(), AllocError> {
        let pair = self.any_pair()?;
        let child = spelled(self.alloc, &pair.first, &mut self.chance)?;
        let parent = spelled(self.alloc, &pair.second, &mut self.chance)?;
        let reply = self
            .plain
            .add_parent(pair.service, &pair.first, &pair.second)?;
        self.script
            .add_parent(pair.service, &child, &parent, &reply)
    }

    pub fn remove_parent(&mut self) -> Result<(), AllocError> {
        let pair = self.standing_parent()?;
        let child = spelled(self.alloc, &pair.first, &mut self.chance)?;
        let parent = spelled(self.alloc, &pair.second, &mut self.chance)?;
        let reply = self
            .plain
            .remove_parent(pair.service, &pair.first, &pair.second)?;
        self.script
            .remove_parent(pair.service, &child, &parent, &reply)
    }
}
