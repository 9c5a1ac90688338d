//! Whether a tag would imply too many.

ghost use Rattle.std.specs.Prelude.{◌≡◌, ℕ, ◌+◌, ◌*◌, ◌<◌, ◌≤◌, IfOk, find, length};
ghost use Rattle.std.specs.Option.{ForSome, option_map};
ghost use Rattle.sibling_chains.specs.Clusters.{rows_within};
ghost use Rattle.sibling_chains.specs.Planning.{IsPlanFor as IsSiblingPlanFor};
ghost use Rattle.parent_closure.specs.Ancestors.{is_over};
ghost use Rattle.parent_closure.specs.Implied.{chained, planned, relations_of};
ghost use Rattle.parent_closure.specs.CountLaws.{AreDifferent};
ghost use Rattle.parent_closure.specs.Planning.{IsPlanFor};
ghost use Rattle.parent_closure.specs.Reached.{has};
ghost use Rattle.parent_closure.specs.Sets.{IsClosedFor};

use crate::ancestors::ideal_after;
use crate::cluster::implied_from;
use crate::parent_plan::ParentPlan;
use crate::parents::Parents;
use crate::search::by_child;
use media_types::{NoMemory, ServiceNo, Steps, TagNo};
use sibling_chains::{SiblingPlan, Siblings};
use std::sync::ledger::Ledger;
use tag_types::MAX_IMPLIED;

impl Parents {
    /// The first of these tags that would imply more than `MAX_IMPLIED` of the tags below the end in a service, once
    /// plans are carried out. The tags are those of whole clusters then. It reads what `pairs_among` reads, and no
    /// chain is followed where there are fewer pairs than that.
    pub fn first_over<L: Ledger>(
        &self,
        plan: Option<&ParentPlan>,
        siblings: &Siblings,
        chains: Option<&SiblingPlan>,
        service: ServiceNo,
        tags: &[u32],
        end: u32,
        steps: &mut Steps<L>,
    ) -> Result<Option<TagNo>, NoMemory>
        requires plan { ForSome plan (λ p. IsPlanFor p.now self.now) }
        requires chains { ForSome chains (λ p. IsSiblingPlanFor p.now siblings.now) }
        requires service { service.0 < length self.now.orders }
        requires siblings { service.0 < length siblings.now.orders }
        requires different { AreDifferent tags.now }
        requires closed { IsClosedFor (has tags.now) (relations_of (planned (option_map (λ p. p.now) plan) self.now)
            (chained (option_map (λ p. p.now) chains) siblings.now) service.0) }
        ensures first { IfOk result (λ found. option_map (λ t. t.0) found ≡ find (is_over end
            (relations_of (planned (option_map (λ p. p.now) plan.entry) self.now)
            (chained (option_map (λ p. p.now) chains.entry) siblings.now) service.0)) tags.now) }
        ensures reads { steps.new ≤ steps.old + (length tags.now + 2 * length (rows_within (has tags.now) self.now.rows)) }
    {
        let found = self.pairs_among(plan, siblings, chains, service, tags, steps)?;
        if found.len() < MAX_IMPLIED {
            return Ok(None);
        }
        let pairs = by_child(found);
        for tag in tags {
            let ideal = ideal_after(siblings, chains, service, TagNo(*tag));
            let implied = implied_from(self.alloc, pairs.as_slice(), ideal.0, end)?;
            if implied.len() > MAX_IMPLIED {
                return Ok(Some(TagNo(*tag)));
            }
        }
        Ok(None)
    }
}
