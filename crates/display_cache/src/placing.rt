ghost use Rattle.std.specs.Prelude.{◌≡◌, ◌≤◌, ◌+◌, ◌*◌, ℕ, OnOk, length};
ghost use Rattle.tag_types.specs.declared.limits.TheConstants.{MAX_SERVICES};
ghost use Rattle.display_cache.specs.Cache.{Keeps};
ghost use Rattle.display_cache.specs.Drafting.{cache_after};
ghost use Rattle.display_cache.specs.Placing.{IsPlaced};
ghost use Rattle.display_cache.specs.Shown.{World};

use crate::draft::{Draft, Tables};
use crate::support::Support;
use media_types::{NoMemory, Steps};
use std::sync::ledger::Ledger;

impl Tables {
    /// Plans that a tag on a file gives otherwise: whatever world is kept, the changed one is kept then.
    pub fn plan_place<L: Ledger>(
        &self,
        draft: &mut Draft,
        service: u32,
        tag: u32,
        file: u32,
        live: bool,
        was: Support,
        now: Support,
        old: &[u32],
        new: &[u32],
        steps: &mut Steps<L>,
    ) -> Result<(), NoMemory>
        ensures keeps { (W V : World) → IsPlaced W V service tag file live was now old.now new.now
            → Keeps MAX_SERVICES W (cache_after draft.old self.now)
            → OnOk result (Keeps MAX_SERVICES V (cache_after draft.new self.now)) }
        ensures reads { steps.new ≤ steps.old + 6 * (length old.now + length new.now) }
    {
        self.take_from(draft, (service, file), live, was, old, steps)?;
        self.give_to(draft, (service, file), live, now, new, steps)
    }
}
