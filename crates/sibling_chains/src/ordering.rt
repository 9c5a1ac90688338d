ghost use Rattle.std.specs.Prelude.{◌≡◌, ◌==◌, ℕ, ◌+◌, ◌<◌, ◌≤◌, IfOk, OnOk, length, nat_lt, slice_set, if◌then◌else◌};
ghost use Rattle.sibling_chains.specs.Ends.{at};
ghost use Rattle.sibling_chains.specs.Known.{IsSame, label_in};
ghost use Rattle.sibling_chains.specs.Planning.{IsPlanFor, after};
ghost use Rattle.sibling_chains.specs.Recorded.{ideal};

use crate::chain_ends::ChainEnds;
use crate::fold::fold_cluster;
use crate::sibling_plan::{Change, Ordered, SiblingPlan};
use crate::siblings::Siblings;
use media_types::{NoMemory, ServiceNo, Steps};
use std::sync::ledger::Ledger;
use tag_types::ServiceList;

impl Siblings {
    /// Plans that a service takes its pairs from other services, or in another order. It looks at all tags and
    /// all rows, and changes nothing.
    pub fn plan_order<L: Ledger>(
        &mut self,
        service: ServiceNo,
        order: &ServiceList,
        steps: &mut Steps<L>,
    ) -> Result<SiblingPlan, NoMemory>
        requires { service.0 < length self.old.orders }
        ensures same { self.new ≡ self.old }
        ensures fits { IfOk result (λ plan. IsPlanFor plan self.new) }
        ensures after { IfOk result (λ plan. after plan self.new
            ≡ record self.new { orders = slice_set self.old.orders service.0 order.now }) }
    {
        let ends = self.ends_by(order, steps)?;
        Ok(SiblingPlan {
            change: Change::Order(Ordered {
                service,
                order: *order,
                ends,
            }),
        })
    }

    // The ends of all tags, for a service that takes pairs from these services.
    fn ends_by<L: Ledger>(
        &self,
        order: &ServiceList,
        steps: &mut Steps<L>,
    ) -> Result<ChainEnds, NoMemory>
        ensures { IfOk result (λ it. (t : ℕ) → at it t ≡ ideal order.now self.now.rows t) }
    {
        let tags = self.tags();
        let mut ends = ChainEnds::own(self.alloc, tags)?;
        for label in 0..tags {
            self.fold_label(&mut ends, label, order, steps)?;
        }
        Ok(ends)
    }

    // Folds the cluster of a label, where the number is one.
    fn fold_label<L: Ledger>(
        &self,
        ends: &mut ChainEnds,
        label: u32,
        order: &ServiceList,
        steps: &mut Steps<L>,
    ) -> Result<(), NoMemory>
        requires label { label < self.now.tags }
        requires long { self.now.tags ≤ length ends.old }
        ensures ok { OnOk result ((t : ℕ) → at ends.new t
            ≡ (if label_in self.now t == label then ideal order.now self.now.rows t else at ends.old t)) }
        ensures len { length ends.new ≡ length ends.old }
    {
        if self.clusters.label(label) != label {
            return Ok(());
        }
        let cluster = self.clusters.cluster_of(label, label, steps)?;
        let rows = self.clusters.rows_of(cluster.rows.as_slice(), None, steps)?;
        let list = fold_cluster(self.alloc, cluster.tags.as_slice(), rows.as_slice(), order)?;
        ends.put(cluster.tags.as_slice(), list.as_slice());
        Ok(())
    }
}
