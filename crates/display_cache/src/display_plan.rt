ghost use Rattle.std.specs.Prelude.{◌≡◌};

use crate::support::Support;
use std::marker::Model;

/// A change of what is displayed that was planned, and that a commit makes.
#[derive(Drop)]
pub struct DisplayPlan {
    supports: Vec<((u32, u32, u32), Support)>,
    counts: Vec<((u32, u32), Support)>,
    rows: u64,
    /// Whether there is one tag more.
    new_tag: bool,
    /// A file, and whether it is live from now on.
    live: Option<(u32, bool)>,
}

impl Model for DisplayPlan {
    ghost use Rattle.display_cache.specs.Displayed.{PlanView};

    ghost Value = { PlanView };

    ghost view = { λ plan. record {
      cache = record { supports = plan.supports.items; counts = plan.counts.items; rows = plan.rows };
      new_tag = plan.new_tag;
      live = plan.live;
    } };
}

impl DisplayPlan {
    pub(crate) fn new(
        supports: Vec<((u32, u32, u32), Support)>,
        counts: Vec<((u32, u32), Support)>,
        rows: u64,
        new_tag: bool,
        live: Option<(u32, bool)>,
    ) -> DisplayPlan
        ensures { result ≡ record {
          cache = record { supports = supports.items; counts = counts.items; rows = rows };
          new_tag = new_tag;
          live = live;
        } }
    {
        DisplayPlan {
            supports,
            counts,
            rows,
            new_tag,
            live,
        }
    }

    /// The number of services, files and tags of which the file shows the tag, once the plan is committed.
    pub fn rows_after(&self) -> u64
        ensures { result ≡ self.now.cache.rows }
    {
        self.rows
    }

    pub(crate) fn supports(&self) -> &[((u32, u32, u32), Support)]
        ensures { result.now ≡ self.now.cache.supports }
    {
        self.supports.as_slice()
    }

    pub(crate) fn counts(&self) -> &[((u32, u32), Support)]
        ensures { result.now ≡ self.now.cache.counts }
    {
        self.counts.as_slice()
    }

    pub(crate) fn has_new_tag(&self) -> bool
        ensures { result ≡ self.now.new_tag }
    {
        self.new_tag
    }

    pub(crate) fn live(&self) -> Option<(u32, bool)>
        ensures { result ≡ self.now.live }
    {
        self.live
    }
}
