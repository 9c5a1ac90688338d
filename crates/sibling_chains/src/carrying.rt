ghost use Rattle.std.specs.Prelude.{◌≡◌, ◌==◌, ℕ, ◌+◌, ◌<◌, ◌≤◌, [], ◌∷◌, ◌++◌, Some, None, length, slice_index_or, slice_set, if◌then◌else◌};
ghost use Rattle.std.specs.List.{list_any};
ghost use Rattle.tag_types.specs.declared.limits.TheConstants.{MAX_RELATIONS};
ghost use Rattle.sibling_chains.specs.Ends.{at, end_beside};
ghost use Rattle.sibling_chains.specs.Known.{IsSame, ideal_in};
ghost use Rattle.sibling_chains.specs.Planning.{IsAdding, IsOrdering, IsPlanFor, IsRemoving, IsTying, after, row_of};
ghost use Rattle.sibling_chains.specs.Recorded.{removed_at, standing_place};

use crate::fold::{put_all_ends, seek};
use crate::sibling_plan::{Adding, Change, Ordered, Refold, Removing, SiblingPlan, Tying};
use crate::siblings::Siblings;
use media_types::{ServiceNo, TagNo};

impl Siblings {
    /// Carries a plan out, which was made of these siblings as they are. It takes no memory, and there may be no
    /// room for more rows after it.
    pub fn commit(&mut self, plan: SiblingPlan)
        requires fits { IsPlanFor plan self.old }
        requires few { length (after plan self.old).rows ≤ MAX_RELATIONS }
        ensures after { IsSame self.new (after plan self.old) }
        ensures tag_room { self.old.tag_room ≤ self.new.tag_room }
        ensures service_room { self.new.service_room ≡ self.old.service_room }
    {
        match plan.change {
            Change::Add(it) => self.add(it),
            Change::Remove(it) => self.remove(it),
            Change::Tie(it) => self.tie(it),
            Change::Order(it) => self.order(it),
        }
    }

    fn add(&mut self, it: Adding)
        requires fits { IsAdding self.old it }
        requires few { length self.old.rows < MAX_RELATIONS }
        ensures rows { self.new.rows ≡ self.old.rows ++ row_of it ∷ [] }
        ensures ties { self.new.ties ≡ self.old.ties }
        ensures orders { self.new.orders ≡ self.old.orders }
        ensures tags { self.new.tags ≡ self.old.tags }
        ensures tag_room { self.old.tag_room ≤ self.new.tag_room }
        ensures service_room { self.new.service_room ≡ self.old.service_room }
    {
        let Refold { cluster, ends } = it.refold;
        put_all_ends(&mut self.ends, cluster.tags.as_slice(), ends.as_slice());
        self.clusters.add(it.service, it.bad, it.good, &cluster);
    }

    fn remove(&mut self, it: Removing)
        requires { IsRemoving self.old it }
        ensures rows { self.new.rows
            ≡ removed_at (standing_place it.service.0 it.bad.0 self.old.rows) self.old.rows }
        ensures ties { self.new.ties ≡ self.old.ties }
        ensures orders { self.new.orders ≡ self.old.orders }
        ensures tags { self.new.tags ≡ self.old.tags }
        ensures tag_room { self.old.tag_room ≤ self.new.tag_room }
        ensures service_room { self.new.service_room ≡ self.old.service_room }
    {
        let Refold { cluster, ends } = it.refold;
        put_all_ends(&mut self.ends, cluster.tags.as_slice(), ends.as_slice());
        self.clusters.remove(it.service, it.bad);
    }

    fn tie(&mut self, it: Tying)
        requires { IsTying self.old it }
        ensures rows { self.new.rows ≡ self.old.rows }
        ensures ties { self.new.ties ≡ self.old.ties ++ (it.a.0, it.b.0) ∷ [] }
        ensures orders { self.new.orders ≡ self.old.orders }
        ensures tags { self.new.tags ≡ self.old.tags }
        ensures tag_room { self.old.tag_room ≤ self.new.tag_room }
        ensures service_room { self.new.service_room ≡ self.old.service_room }
    {
        self.clusters.tie(it.a, it.b, &it.cluster);
    }

    fn order(&mut self, it: Ordered)
        requires { IsOrdering self.old it }
        ensures rows { self.new.rows ≡ self.old.rows }
        ensures ties { self.new.ties ≡ self.old.ties }
        ensures orders { self.new.orders ≡ slice_set self.old.orders it.service.0 it.order }
        ensures tags { self.new.tags ≡ self.old.tags }
        ensures tag_room { self.new.tag_room ≡ self.old.tag_room }
        ensures service_room { self.new.service_room ≡ self.old.service_room }
    {
        let at = it.service.0 as usize;
        self.orders[at] = it.order;
        self.ends[at] = it.ends;
    }
}

impl SiblingPlan {
    /// The ideal tag of a tag in a service, once the plan is carried out on the siblings that it was made of. It
    /// takes no memory, and looks at each tag of the clusters that the plan makes anew.
    pub fn ideal(&self, base: &Siblings, service: ServiceNo, tag: TagNo) -> TagNo
        requires fits { IsPlanFor self.now base.now }
        requires service { service.0 < length base.now.orders }
        ensures { result.0 ≡ ideal_in (after self.now base.now) service.0 tag.0 }
    {
        match &self.change {
            Change::Add(it) => it.refold.ideal(base, service, tag),
            Change::Remove(it) => it.refold.ideal(base, service, tag),
            Change::Tie(_) => base.ideal(service, tag),
            Change::Order(it) => it.ideal(base, service, tag),
        }
    }
}

impl Refold {
    // The end that was made anew, or the ideal tag as it is.
    fn ideal(&self, base: &Siblings, service: ServiceNo, tag: TagNo) -> TagNo
        requires service { service.0 < length base.now.orders }
        requires count { length self.now.ends.items ≡ length base.now.orders }
        requires long { length (slice_index_or self.now.ends.items service.0 []) ≡ length self.now.cluster.tags.items }
        ensures { result.0 ≡ (if list_any (λ x. x == tag.0) self.now.cluster.tags.items
            then end_beside self.now.cluster.tags.items (slice_index_or self.now.ends.items service.0 []) tag.0
            else ideal_in base.now service.0 tag.0) }
    {
        let ends = self.ends[service.0 as usize].as_slice();
        match seek(self.cluster.tags.as_slice(), ends, tag.0) {
            Some(end) => TagNo(end),
            None => base.ideal(service, tag),
        }
    }
}

impl Ordered {
    fn ideal(&self, base: &Siblings, service: ServiceNo, tag: TagNo) -> TagNo
        requires { service.0 < length base.now.orders }
        ensures { result.0 ≡ (if service.0 == self.now.service.0 then at self.now.ends tag.0
            else ideal_in base.now service.0 tag.0) }
    {
        if service.0 == self.service.0 {
            TagNo(self.ends.end(tag.0))
        } else {
            base.ideal(service, tag)
        }
    }
}
