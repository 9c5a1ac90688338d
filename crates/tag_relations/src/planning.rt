ghost use Rattle.std.specs.Prelude.{◌≡◌, ℕ, ◌+◌, ◌*◌, ◌<◌, ◌≤◌, [], ◌∷◌, ◌++◌, true, length, None, IfOk, IsSome, slice_set};
ghost use Rattle.std.specs.Option.{ForSome, option_map};
ghost use Rattle.tag_types.specs.declared.limits.TheConstants.{MAX_RELATIONS};
ghost use Rattle.parent_closure.specs.Implied.{chained, planned};
ghost use Rattle.parent_closure.specs.Kept.{first_place, is_pair, stands_in};
ghost use Rattle.parent_closure.specs.Kept.{IsSame as AreSameParents};
ghost use Rattle.parent_closure.specs.Planning.{IsPlanFor as IsParentPlanFor};
ghost use Rattle.sibling_chains.specs.Following.{good_of};
ghost use Rattle.sibling_chains.specs.Known.{tags_of_two};
ghost use Rattle.sibling_chains.specs.Known.{IsSame as AreSameSiblings};
ghost use Rattle.sibling_chains.specs.Planning.{IsPlanFor as IsSiblingPlanFor};
ghost use Rattle.sibling_chains.specs.Recorded.{pairs_of, removed_at, standing_place};
ghost use Rattle.tag_relations.specs.Planning.{AreFew, IsOrderPlanFor, IsPlanFor, after, after_orders};
ghost use Rattle.tag_relations.specs.Related.{IsSame};
ghost use Rattle.tag_relations.specs.Work.{cluster_work};

use crate::plans::{OrderPlan, RelationPlan};
use crate::relations::TagRelations;
use media_types::{NoMemory, ServiceNo, Steps, TagNo};
use parent_closure::{ParentPlan, Parents};
use sibling_chains::{SiblingPlan, Siblings};
use std::sync::ledger::Ledger;
use tag_types::Orders;

impl TagRelations {
    /// Plans to record a sibling pair. It makes the clusters of the two tags anew, and changes nothing.
    pub fn plan_sibling<L: Ledger>(
        &mut self,
        service: ServiceNo,
        bad: TagNo,
        good: TagNo,
        steps: &mut Steps<L>,
    ) -> Result<RelationPlan, NoMemory>
        requires service { service.0 < length self.old.siblings.orders }
        requires bad { bad.0 < self.old.siblings.tags }
        requires good { good.0 < self.old.siblings.tags }
        requires new { good_of (pairs_of self.old.siblings.rows service) bad.0 ≡ None }
        ensures same { IsSame self.new self.old }
        ensures fits { IfOk result (λ plan. IsPlanFor plan self.new) }
        ensures touched { IfOk result (λ plan. plan.touched.items ≡ tags_of_two self.new.siblings bad.0 good.0) }
        ensures siblings { IfOk result (λ plan. (after plan self.new).siblings.rows ≡ self.old.siblings.rows
            ++ (record { service = service; first = bad; second = good; standing = true }) ∷ []) }
        ensures parents { IfOk result (λ plan. (after plan self.new).parents.rows ≡ self.old.parents.rows) }
        ensures reads { steps.new ≤ steps.old + 7 * cluster_work self.old.siblings.rows self.old.parents.rows self.old.siblings.tags bad.0 good.0 }
    {
        let _tags = self.tags();
        let touched = self.siblings.tags_of_two(bad, good, steps)?;
        let siblings = self.siblings.plan_add(service, bad, good, steps)?;
        Ok(RelationPlan {
            touched,
            siblings: Some(siblings),
            parents: None,
        })
    }

    /// Plans to remove the standing sibling pair of a bad tag. It makes the tag's cluster anew, and changes nothing.
    pub fn plan_no_sibling<L: Ledger>(
        &mut self,
        service: ServiceNo,
        bad: TagNo,
        steps: &mut Steps<L>,
    ) -> Result<RelationPlan, NoMemory>
        requires bad { bad.0 < self.old.siblings.tags }
        requires stands { IsSome (good_of (pairs_of self.old.siblings.rows service) bad.0) }
        ensures same { IsSame self.new self.old }
        ensures fits { IfOk result (λ plan. IsPlanFor plan self.new) }
        ensures touched { IfOk result (λ plan. plan.touched.items ≡ tags_of_two self.new.siblings bad.0 bad.0) }
        ensures siblings { IfOk result (λ plan. (after plan self.new).siblings.rows
            ≡ removed_at (standing_place service.0 bad.0 self.old.siblings.rows) self.old.siblings.rows) }
        ensures parents { IfOk result (λ plan. (after plan self.new).parents.rows ≡ self.old.parents.rows) }
        ensures reads { steps.new ≤ steps.old + 7 * cluster_work self.old.siblings.rows self.old.parents.rows self.old.siblings.tags bad.0 bad.0 }
    {
        let _tags = self.tags();
        let touched = self.siblings.tags_of_two(bad, bad, steps)?;
        let siblings = self.siblings.plan_remove(service, bad, steps)?;
        Ok(RelationPlan {
            touched,
            siblings: Some(siblings),
            parents: None,
        })
    }

    /// Plans to record a parent pair, which ties the clusters of the two tags together. It changes nothing.
    pub fn plan_parent<L: Ledger>(
        &mut self,
        service: ServiceNo,
        child: TagNo,
        parent: TagNo,
        steps: &mut Steps<L>,
    ) -> Result<RelationPlan, NoMemory>
        requires service { service.0 < length self.old.siblings.orders }
        requires child { child.0 < self.old.siblings.tags }
        requires parent { parent.0 < self.old.siblings.tags }
        ensures same { IsSame self.new self.old }
        ensures fits { IfOk result (λ plan. IsPlanFor plan self.new) }
        ensures touched { IfOk result (λ plan. plan.touched.items ≡ tags_of_two self.new.siblings child.0 parent.0) }
        ensures siblings { IfOk result (λ plan. (after plan self.new).siblings.rows ≡ self.old.siblings.rows) }
        ensures parents { IfOk result (λ plan. (after plan self.new).parents.rows ≡ self.old.parents.rows
            ++ (record { service = service; first = child; second = parent; standing = true }) ∷ []) }
        ensures reads { steps.new ≤ steps.old + 7 * cluster_work self.old.siblings.rows self.old.parents.rows self.old.siblings.tags child.0 parent.0 }
    {
        let _tags = self.tags();
        let touched = self.siblings.tags_of_two(child, parent, steps)?;
        let siblings = self.siblings.plan_tie(child, parent, steps)?;
        let parents = self.parents.plan_add(service, child, parent)?;
        Ok(RelationPlan {
            touched,
            siblings: Some(siblings),
            parents: Some(parents),
        })
    }

    /// Plans to remove a standing parent pair. It changes nothing.
    pub fn plan_no_parent<L: Ledger>(
        &mut self,
        service: ServiceNo,
        child: TagNo,
        parent: TagNo,
        steps: &mut Steps<L>,
    ) -> Result<RelationPlan, NoMemory>
        requires child { child.0 < self.old.siblings.tags }
        requires stands { stands_in self.old.parents.rows service.0 child.0 parent.0 ≡ true }
        ensures same { IsSame self.new self.old }
        ensures fits { IfOk result (λ plan. IsPlanFor plan self.new) }
        ensures touched { IfOk result (λ plan. plan.touched.items ≡ tags_of_two self.new.siblings child.0 child.0) }
        ensures siblings { IfOk result (λ plan. (after plan self.new).siblings.rows ≡ self.old.siblings.rows) }
        ensures parents { IfOk result (λ plan. (after plan self.new).parents.rows
            ≡ removed_at (first_place (is_pair service.0 child.0 parent.0) self.old.parents.rows) self.old.parents.rows) }
        ensures reads { steps.new ≤ steps.old + 7 * cluster_work self.old.siblings.rows self.old.parents.rows self.old.siblings.tags child.0 child.0 }
    {
        let _tags = self.tags();
        let touched = self.siblings.tags_of_two(child, child, steps)?;
        let parents = self.parents.plan_remove(service, child, parent, steps);
        Ok(RelationPlan {
            touched,
            siblings: None,
            parents: Some(parents),
        })
    }

    /// Plans that a service takes its pairs from other services, or in other orders. It looks at all tags and all
    /// sibling rows, and changes nothing.
    pub fn plan_orders<L: Ledger>(
        &mut self,
        service: ServiceNo,
        orders: &Orders,
        steps: &mut Steps<L>,
    ) -> Result<OrderPlan, NoMemory>
        requires { service.0 < length self.old.siblings.orders }
        ensures same { IsSame self.new self.old }
        ensures fits { IfOk result (λ plan. IsOrderPlanFor plan self.new) }
        ensures service { IfOk result (λ plan. plan.service ≡ service) }
        ensures siblings { IfOk result (λ plan. (after_orders plan self.new).siblings.orders
            ≡ slice_set self.old.siblings.orders service.0 orders.now.siblings) }
        ensures parents { IfOk result (λ plan. (after_orders plan self.new).parents.orders
            ≡ slice_set self.old.parents.orders service.0 orders.now.parents) }
    {
        let siblings = self.siblings.plan_order(service, &orders.siblings, steps)?;
        let parents = self.parents.plan_order(service, &orders.parents);
        Ok(OrderPlan {
            service,
            siblings,
            parents,
        })
    }

    /// Carries a plan out, which was made of these as they are. It takes no memory.
    pub fn commit(&mut self, plan: RelationPlan)
        requires fits { IsPlanFor plan self.old }
        requires few { AreFew (after plan self.old) }
        ensures { IsSame self.new (after plan self.old) }
    {
        commit_siblings(&mut self.siblings, plan.siblings);
        commit_parents(&mut self.parents, plan.parents);
    }

    /// Sets the orders of a plan, which was made of these as they are. It takes no memory.
    pub fn commit_orders(&mut self, plan: OrderPlan)
        requires fits { IsOrderPlanFor plan self.old }
        requires few { AreFew self.old }
        ensures { IsSame self.new (after_orders plan self.old) }
    {
        self.siblings.commit(plan.siblings);
        self.parents.commit(plan.parents);
    }
}

fn commit_siblings(siblings: &mut Siblings, plan: Option<SiblingPlan>)
    requires fits { ForSome plan (λ p. IsSiblingPlanFor p siblings.old) }
    requires few { length (chained plan siblings.old).rows ≤ MAX_RELATIONS }
    ensures { AreSameSiblings siblings.new (chained plan siblings.old) }
{
    if let Some(plan) = plan {
        siblings.commit(plan);
    }
}

fn commit_parents(parents: &mut Parents, plan: Option<ParentPlan>)
    requires fits { ForSome plan (λ p. IsParentPlanFor p parents.old) }
    requires few { length (planned plan parents.old).rows ≤ MAX_RELATIONS }
    ensures { AreSameParents parents.new (planned plan parents.old) }
{
    if let Some(plan) = plan {
        parents.commit(plan);
    }
}
