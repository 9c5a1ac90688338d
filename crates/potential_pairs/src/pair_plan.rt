ghost use Rattle.std.specs.Prelude.{◌≡◌, length};
ghost use Rattle.potential_pairs.specs.Keeping.{ArePlanned};
ghost use Rattle.potential_pairs.specs.Planning.{room_of};

use crate::tally::Tally;
use media_types::FileNo;
use std::marker::Model;

/// A change of the pairs that is planned and not made yet. Dropping it is giving it up.
#[derive(Drop)]
pub struct PairPlan {
    /// The near pairs that are new, with the lower file first.
    pub(crate) near: Vec<((u32, u32), u8)>,
    /// The potential pairs whose tallies are new.
    pub(crate) tallies: Vec<((u32, u32), Tally)>,
    /// A file, and whether it is live from now on.
    pub(crate) live: Option<(FileNo, bool)>,
}

impl Model for PairPlan {
    ghost use Rattle.potential_pairs.specs.Keeping.{ArePlanned};
    ghost use Rattle.potential_pairs.specs.Planning.{PlanView};

    ghost Value = { PlanView };

    ghost view = { λ plan. record {
      near = plan.near.items;
      tallies = plan.tallies.items;
      live = plan.live;
    } };

    ghost invariant = { λ plan. ArePlanned plan.near.items plan.tallies.items };
}

impl PairPlan {
    /// The file that is live from now on, or no longer.
    pub(crate) fn live(&self) -> Option<(FileNo, bool)>
        ensures { result ≡ self.now.live }
    {
        self.live
    }

    /// How many near pairs it adds.
    pub fn near_len(&self) -> u64
        ensures { result ≡ length self.now.near }
    {
        self.near.len() as u64
    }

    /// For how many changes it needs room.
    pub(crate) fn room(&self) -> usize
        ensures { result ≡ room_of self.now }
    {
        let pairs = self.near.len().max(self.tallies.len());
        pairs.max(usize::from(self.live.is_some()))
    }

    /// The near pairs that it adds.
    pub(crate) fn near(&self) -> &[((u32, u32), u8)]
        ensures rows { result.now ≡ self.now.near }
        ensures planned { ArePlanned self.now.near self.now.tallies }
    {
        self.near.as_slice()
    }

    /// The potential pairs whose tallies are new.
    pub(crate) fn tallies(&self) -> &[((u32, u32), Tally)]
        ensures { result.now ≡ self.now.tallies }
    {
        self.tallies.as_slice()
    }
}
