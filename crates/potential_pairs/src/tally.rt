ghost use Rattle.std.specs.Prelude.{◌≡◌, ◌≤◌, ◌+◌, ◌-◌, ℕ, Some, IfOk, IfSome, slice_index};
ghost use Rattle.media_types.specs.declared.limits.TheConstants.{MAX_DISTANCE};
ghost use Rattle.potential_pairs.specs.Levels.{IsDistance, one_at};
ghost use Rattle.potential_pairs.specs.Tallies.{if_any, least_counted};

use crate::heads::LEVELS;
use media_types::{MAX_DISTANCE, NoMemory};

/// How many near pairs there are at each distance.
#[derive(Clone, Copy)]
pub struct Tally {
    counts: [u32; LEVELS],
}

impl Tally {
    /// None at any distance.
    pub fn new() -> Tally
        ensures { (d : ℕ) → slice_index result.counts d ≡ 0 }
    {
        Tally {
            counts: [0; LEVELS],
        }
    }

    /// With one more near pair of a distance.
    pub fn and_one(self, distance: u8) -> Result<Tally, NoMemory>
        requires { distance ≤ MAX_DISTANCE }
        ensures { IfOk result (λ tally. (d : ℕ) → slice_index tally.counts d
            ≡ slice_index self.counts d + one_at d (Some distance)) }
    {
        let mut tally = self;
        match tally.counts[distance as usize].checked_add(1) {
            Some(count) => tally.counts[distance as usize] = count,
            None => return Err(NoMemory),
        }
        Ok(tally)
    }

    /// With one near pair of a distance less.
    pub fn but_one(self, distance: u8) -> Tally
        requires { distance ≤ MAX_DISTANCE }
        ensures { (d : ℕ) → slice_index result.counts d
            ≡ slice_index self.counts d - one_at d (Some distance) }
    {
        let mut tally = self;
        let count = tally.counts[distance as usize];
        tally.counts[distance as usize] = count.saturating_sub(1);
        tally
    }

    /// The least distance of which there is any.
    pub fn least(&self) -> Option<u8>
        ensures least { result ≡ least_counted self.now }
        ensures shallow { IfSome result IsDistance }
    {
        for (level, count) in self.counts.iter().enumerate() {
            if *count > 0 {
                return Some(level as u8);
            }
        }
        None
    }

    /// The tally, where it counts any.
    pub fn if_any(self) -> Option<Tally>
        ensures { result ≡ if_any self }
    {
        match self.least() {
            Some(_) => Some(self),
            None => None,
        }
    }
}
