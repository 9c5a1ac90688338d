//! Parent pairs of tags.

ghost use Rattle.std.specs.Prelude.{◌≡◌, ◌<◌, ◌≤◌, ◌+◌, ◌*◌, ℕ, true, false, length, IfOk, OnOk};
ghost use Rattle.media_base.specs.declared.change.Change.TheVariants as changes;
ghost use Rattle.tag_types.specs.declared.limits.TheConstants.{MAX_TAGS};
ghost use Rattle.tag_relations.specs.Work.{cluster_work};
ghost use Rattle.library_machine.specs.Needs.{has_service, has_tag};
ghost use Rattle.library_machine.specs.Records.{Fits, Records};
ghost use Rattle.library_machine.specs.Relating.{has_parent, pair_tags, with_both, with_parent, without_parent};
ghost use Rattle.library_tables.specs.Counting.{relation_reads};
ghost use Rattle.library_tables.specs.Preparing.{IsPrepared};
ghost use Rattle.library_tables.specs.Relations.{IsTouching, planned_records};
ghost use Rattle.library_tables.specs.Tables.{marked_tree, records_of};

use crate::plan::Prepared;
use crate::tables::Tables;
use media_base::{Answer, MAX_RELATIONS, NoMemory, PairTags, Steps, TagPair, Unmet};
use std::sync::ledger::Ledger;
use tag_relations::RelationPlan;

impl Tables {
    pub(crate) fn plan_parent<L: Ledger>(
        &mut self,
        pair: &TagPair,
        steps: &mut Steps<L>,
    ) -> Result<Prepared, NoMemory>
        ensures records { records_of self.new ≡ records_of self.old }
        ensures tree { marked_tree self.new ≡ marked_tree self.old }
        ensures prepared { IfOk result (IsPrepared (changes.ParentAdded pair.now) self.new) }
        ensures reads { steps.new ≤ steps.old
            + relation_reads (with_parent (records_of self.old) pair.now) (pair_tags (records_of self.old) pair.now) }
    {
        if !self.has_service(pair.service) {
            return Ok(Unmet::UnknownService.into());
        }
        if self.has_parent(pair, steps) {
            return Ok(Unmet::PairKnown(pair.second.copied(self.alloc)?).into());
        }
        if !self.has_room_for_tags(pair) {
            return Ok(Unmet::FullTags.into());
        }
        let tags = self.pair_tags(pair);
        let plan = self.ready_parent(pair, tags, steps)?;
        let full = self.relations.parent_rows_len() >= MAX_RELATIONS;
        let outcome = self.settle_pair(pair, plan, full, Answer::Parent(tags), steps)?;
        Ok(outcome)
    }

    pub(crate) fn plan_no_parent<L: Ledger>(
        &mut self,
        pair: &TagPair,
        steps: &mut Steps<L>,
    ) -> Result<Prepared, NoMemory>
        ensures records { records_of self.new ≡ records_of self.old }
        ensures tree { marked_tree self.new ≡ marked_tree self.old }
        ensures prepared { IfOk result (IsPrepared (changes.ParentRemoved pair.now) self.new) }
        ensures reads { steps.new ≤ steps.old
            + relation_reads (without_parent (records_of self.old) pair.now) (pair_tags (records_of self.old) pair.now) }
    {
        if !self.has_service(pair.service) {
            return Ok(Unmet::UnknownService.into());
        }
        if !self.has_tag(&pair.first) || !self.has_tag(&pair.second) {
            return Ok(Unmet::UnknownTag.into());
        }
        if !self.has_parent(pair, steps) {
            return Ok(Unmet::UnknownPair.into());
        }
        let plan = self.ready_no_parent(pair, steps)?;
        let outcome = self.settle_pair(pair, plan, false, Answer::Changed(true), steps)?;
        Ok(outcome)
    }

    // Whether this pair stands.
    fn has_parent<L: Ledger>(&self, pair: &TagPair, steps: &mut Steps<L>) -> bool
        ensures stands { result ≡ has_parent (records_of self.now) pair.now }
        ensures fits { Fits (records_of self.now) }
        ensures reads { steps.new ≤ steps.old + 2 * cluster_work (records_of self.now).siblings (records_of self.now).parents
            self.now.relations.siblings.tags (pair_tags (records_of self.now) pair.now).first.0 (pair_tags (records_of self.now) pair.now).first.0 }
    {
        match (self.tags.find(&pair.first), self.tags.find(&pair.second)) {
            (Some(child), Some(parent)) => self
                .relations
                .stands(pair.service, child, parent, steps),
            _ => false,
        }
    }

    // Plans to record a pair, and makes room for its tags.
    fn ready_parent<L: Ledger>(
        &mut self,
        pair: &TagPair,
        tags: PairTags,
        steps: &mut Steps<L>,
    ) -> Result<RelationPlan, NoMemory>
        requires service { has_service (records_of self.old) pair.now.service ≡ true }
        requires tags { tags ≡ pair_tags (records_of self.old) pair.now }
        requires few { length (with_both self.old.tags.texts pair.now.first pair.now.second) ≤ MAX_TAGS }
        ensures records { records_of self.new ≡ records_of self.old }
        ensures tree { marked_tree self.new ≡ marked_tree self.old }
        ensures fits { Fits (records_of self.new) }
        ensures room { OnOk result (2 ≤ self.new.tags.spare) }
        ensures touching { IfOk result (λ plan. IsTouching plan pair.now self.new tags.first.0 tags.second.0) }
        ensures leads { IfOk result (λ plan. planned_records self.new plan pair.now ≡ with_parent (records_of self.old) pair.now) }
        ensures reads { steps.new ≤ steps.old
            + 7 * cluster_work (records_of self.old).siblings (records_of self.old).parents self.new.relations.siblings.tags tags.first.0 tags.second.0 }
    {
        self.reserve_pair(tags)?;
        let plan = self
            .relations
            .plan_parent(pair.service, tags.first, tags.second, steps)?;
        Ok(plan)
    }

    // Plans to remove a pair that stands.
    fn ready_no_parent<L: Ledger>(
        &mut self,
        pair: &TagPair,
        steps: &mut Steps<L>,
    ) -> Result<RelationPlan, NoMemory>
        requires first { has_tag (records_of self.old) pair.now.first ≡ true }
        requires second { has_tag (records_of self.old) pair.now.second ≡ true }
        requires stands { has_parent (records_of self.old) pair.now ≡ true }
        ensures records { records_of self.new ≡ records_of self.old }
        ensures tree { marked_tree self.new ≡ marked_tree self.old }
        ensures fits { Fits (records_of self.new) }
        ensures room { OnOk result (2 ≤ self.new.tags.spare) }
        ensures touching { IfOk result (λ plan. IsTouching plan pair.now self.new
            (pair_tags (records_of self.old) pair.now).first.0 (pair_tags (records_of self.old) pair.now).first.0) }
        ensures leads { IfOk result (λ plan. planned_records self.new plan pair.now ≡ without_parent (records_of self.old) pair.now) }
        ensures reads { steps.new ≤ steps.old + 7 * cluster_work (records_of self.old).siblings (records_of self.old).parents
            self.new.relations.siblings.tags (pair_tags (records_of self.old) pair.now).first.0 (pair_tags (records_of self.old) pair.now).first.0 }
    {
        let tags = self.pair_tags(pair);
        self.reserve_pair(tags)?;
        let plan = self
            .relations
            .plan_no_parent(pair.service, tags.first, tags.second, steps)?;
        Ok(plan)
    }
}
