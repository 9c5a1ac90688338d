//! Whether a change would leave a tag that implies too many.

ghost use Rattle.std.specs.Prelude.{◌≡◌, ℕ, ◌+◌, ◌*◌, ◌<◌, ◌≤◌, IfOk, find, length};
ghost use Rattle.std.specs.List.{range_with_len};
ghost use Rattle.std.specs.Option.{option_map};
ghost use Rattle.parent_closure.specs.Ancestors.{is_over};
ghost use Rattle.parent_closure.specs.LimitLaws.{AreBelow};
ghost use Rattle.parent_closure.specs.Limits.{over_among};
ghost use Rattle.parent_closure.specs.Reached.{has};
ghost use Rattle.sibling_chains.specs.Clusters.{rows_within};
ghost use Rattle.tag_types.specs.declared.limits.TheConstants.{MAX_SERVICES};
ghost use Rattle.tag_relations.specs.Planning.{IsOrderPlanFor, IsPlanFor, after, after_orders};
ghost use Rattle.tag_relations.specs.Related.{relations_at};

use crate::plans::{OrderPlan, RelationPlan};
use crate::relations::TagRelations;
use media_types::{NoMemory, ServiceNo, Steps, TagNo};
use std::alloc::Global;
use std::sync::ledger::Ledger;

impl TagRelations {
    /// The first of the tags that a plan touches that would imply more than 1,024 of the tags below the end, once the
    /// plan is carried out: the lowest service in which one would, and the lowest such tag. It reads the parent rows
    /// of the touched tags once for each service.
    pub fn first_over<L: Ledger>(
        &self,
        plan: &RelationPlan,
        end: u32,
        steps: &mut Steps<L>,
    ) -> Result<Option<(ServiceNo, TagNo)>, NoMemory>
        requires fits { IsPlanFor plan.now self.now }
        requires few { length self.now.siblings.orders ≤ MAX_SERVICES }
        ensures first { IfOk result (λ found. option_map (λ over. (over.0.0, over.1.0)) found
            ≡ over_among (length self.now.siblings.orders) end (relations_at (after plan.now self.now)) plan.now.touched.items) }
        ensures reads { steps.new ≤ steps.old + length self.now.siblings.orders
            * (length plan.now.touched.items + 2 * length (rows_within (has plan.now.touched.items) self.now.parents.rows)) }
    {
        for number in 0..self.siblings.services() {
            let service = ServiceNo(number as u8);
            let over = self.over_in(plan, service, end, steps)?;
            if let Some(tag) = over {
                return Ok(Some((service, tag)));
            }
        }
        Ok(None)
    }

    // The first of the touched tags that would imply too many in a service.
    fn over_in<L: Ledger>(
        &self,
        plan: &RelationPlan,
        service: ServiceNo,
        end: u32,
        steps: &mut Steps<L>,
    ) -> Result<Option<TagNo>, NoMemory>
        requires fits { IsPlanFor plan.now self.now }
        requires service { service.0 < length self.now.siblings.orders }
        ensures first { IfOk result (λ found. option_map (λ tag. tag.0) found
            ≡ find (is_over end (relations_at (after plan.now self.now) service.0)) plan.now.touched.items) }
        ensures reads { steps.new ≤ steps.old
            + (length plan.now.touched.items + 2 * length (rows_within (has plan.now.touched.items) self.now.parents.rows)) }
    {
        self.parents.first_over(
            plan.parents.as_ref(),
            &self.siblings,
            plan.siblings.as_ref(),
            service,
            plan.touched.as_slice(),
            end,
            steps,
        )
    }

    /// The lowest of the tags below the end that would imply more than 1,024 of them in the service whose orders are
    /// planned, once the plan is carried out. It looks at all of these tags and their parent rows.
    pub fn first_over_in_order<L: Ledger>(
        &self,
        plan: &OrderPlan,
        end: u32,
        steps: &mut Steps<L>,
    ) -> Result<Option<TagNo>, NoMemory>
        requires fits { IsOrderPlanFor plan.now self.now }
        requires siblings { AreBelow end self.now.siblings.rows }
        requires parents { AreBelow end self.now.parents.rows }
        ensures { IfOk result (λ found. option_map (λ tag. tag.0) found
            ≡ find (is_over end (relations_at (after_orders plan.now self.now) plan.now.service.0)) (range_with_len 0 end)) }
    {
        let tags = numbers_below(self.alloc, end)?;
        self.parents.first_over(
            Some(&plan.parents),
            &self.siblings,
            Some(&plan.siblings),
            plan.service,
            tags.as_slice(),
            end,
            steps,
        )
    }
}

// The numbers below an end, ascending.
fn numbers_below(alloc: Global, end: u32) -> Result<Vec<u32>, NoMemory>
    ensures { IfOk result (λ v. v.items ≡ range_with_len 0 end) }
{
    Ok((0..end).collect(alloc)?)
}
