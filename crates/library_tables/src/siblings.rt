//! Sibling pairs of tags.

ghost use Rattle.std.specs.Prelude.{◌≡◌, ◌<◌, ◌≤◌, ◌+◌, ◌*◌, ℕ, true, length, IfOk, None, OnOk};
ghost use Rattle.std.specs.Option.{option_map};
ghost use Rattle.media_base.specs.declared.change.Change.TheVariants as changes;
ghost use Rattle.tag_types.specs.declared.limits.TheConstants.{MAX_TAGS};
ghost use Rattle.tag_relations.specs.Work.{cluster_work};
ghost use Rattle.library_machine.specs.Needs.{has_service, has_tag, is_met, pair_stands};
ghost use Rattle.library_machine.specs.Records.{Fits, Records};
ghost use Rattle.library_machine.specs.Relating.{good_number, pair_tags, text_of, with_both, with_sibling, without_sibling};
ghost use Rattle.library_tables.specs.Counting.{relation_reads};
ghost use Rattle.library_tables.specs.Preparing.{IsPrepared};
ghost use Rattle.library_tables.specs.Relations.{IsTouching, planned_records};
ghost use Rattle.library_tables.specs.Tables.{marked_tree, records_of};

use crate::plan::Prepared;
use crate::tables::Tables;
use media_base::{
    Answer, MAX_RELATIONS, NoMemory, PairTags, ServiceNo, Steps, TagPair, TagText, Unmet,
};
use std::sync::ledger::Ledger;
use tag_relations::RelationPlan;

impl Tables {
    pub(crate) fn plan_sibling<L: Ledger>(
        &mut self,
        pair: &TagPair,
        steps: &mut Steps<L>,
    ) -> Result<Prepared, NoMemory>
        ensures records { records_of self.new ≡ records_of self.old }
        ensures tree { marked_tree self.new ≡ marked_tree self.old }
        ensures prepared { IfOk result (IsPrepared (changes.SiblingAdded pair.now) self.new) }
        ensures reads { steps.new ≤ steps.old
            + relation_reads (with_sibling (records_of self.old) pair.now) (pair_tags (records_of self.old) pair.now) }
    {
        if !self.has_service(pair.service) {
            return Ok(Unmet::UnknownService.into());
        }
        if let Some(good) = self.good_text(pair.service, &pair.first, steps) {
            return Ok(Unmet::PairKnown(good.copied(self.alloc)?).into());
        }
        if !self.has_room_for_tags(pair) {
            return Ok(Unmet::FullTags.into());
        }
        let tags = self.pair_tags(pair);
        let plan = self.ready_sibling(pair, tags, steps)?;
        let full = self.relations.sibling_rows_len() >= MAX_RELATIONS;
        let outcome = self.settle_pair(pair, plan, full, Answer::Sibling(tags), steps)?;
        Ok(outcome)
    }

    pub(crate) fn plan_no_sibling<L: Ledger>(
        &mut self,
        pair: &TagPair,
        steps: &mut Steps<L>,
    ) -> Result<Prepared, NoMemory>
        ensures records { records_of self.new ≡ records_of self.old }
        ensures tree { marked_tree self.new ≡ marked_tree self.old }
        ensures prepared { IfOk result (IsPrepared (changes.SiblingRemoved pair.now) self.new) }
        ensures reads { steps.new ≤ steps.old
            + relation_reads (without_sibling (records_of self.old) pair.now) (pair_tags (records_of self.old) pair.now) }
    {
        if !self.has_service(pair.service) {
            return Ok(Unmet::UnknownService.into());
        }
        if !self.has_tag(&pair.first) || !self.has_tag(&pair.second) {
            return Ok(Unmet::UnknownTag.into());
        }
        if !self.has_pair(pair, steps) {
            return Ok(Unmet::UnknownPair.into());
        }
        let plan = self.ready_no_sibling(pair, steps)?;
        let outcome = self.settle_pair(pair, plan, false, Answer::Changed(true), steps)?;
        Ok(outcome)
    }

    // The text of the good tag to which a standing pair of the service leads this text, where one does.
    fn good_text<L: Ledger>(
        &self,
        service: ServiceNo,
        text: &TagText,
        steps: &mut Steps<L>,
    ) -> Option<&TagText>
        ensures text { option_map (λ good. good.now) result
            ≡ option_map (text_of (records_of self.now)) (good_number (records_of self.now) service text.now) }
        ensures reads { steps.new ≤ steps.old + 2 }
    {
        let bad = self.tags.find(text)?;
        let good = self.relations.find(service, bad, steps)?;
        Some(self.tags.text(good))
    }

    // Whether this pair stands.
    fn has_pair<L: Ledger>(&self, pair: &TagPair, steps: &mut Steps<L>) -> bool
        ensures stands { result ≡ is_met (records_of self.now) (pair_stands pair.now) }
        ensures reads { steps.new ≤ steps.old + 2 }
    {
        match self.good_text(pair.service, &pair.first, steps) {
            Some(good) => *good == pair.second,
            None => false,
        }
    }

    // Plans to record a pair, and makes room for its tags.
    fn ready_sibling<L: Ledger>(
        &mut self,
        pair: &TagPair,
        tags: PairTags,
        steps: &mut Steps<L>,
    ) -> Result<RelationPlan, NoMemory>
        requires service { has_service (records_of self.old) pair.now.service ≡ true }
        requires tags { tags ≡ pair_tags (records_of self.old) pair.now }
        requires new { good_number (records_of self.old) pair.now.service pair.now.first ≡ None }
        requires few { length (with_both self.old.tags.texts pair.now.first pair.now.second) ≤ MAX_TAGS }
        ensures records { records_of self.new ≡ records_of self.old }
        ensures tree { marked_tree self.new ≡ marked_tree self.old }
        ensures fits { Fits (records_of self.new) }
        ensures room { OnOk result (2 ≤ self.new.tags.spare) }
        ensures touching { IfOk result (λ plan. IsTouching plan pair.now self.new tags.first.0 tags.second.0) }
        ensures leads { IfOk result (λ plan. planned_records self.new plan pair.now ≡ with_sibling (records_of self.old) pair.now) }
        ensures reads { steps.new ≤ steps.old
            + 7 * cluster_work (records_of self.old).siblings (records_of self.old).parents self.new.relations.siblings.tags tags.first.0 tags.second.0 }
    {
        self.reserve_pair(tags)?;
        let plan = self
            .relations
            .plan_sibling(pair.service, tags.first, tags.second, steps)?;
        Ok(plan)
    }

    // Plans to remove a pair that stands.
    fn ready_no_sibling<L: Ledger>(
        &mut self,
        pair: &TagPair,
        steps: &mut Steps<L>,
    ) -> Result<RelationPlan, NoMemory>
        requires first { has_tag (records_of self.old) pair.now.first ≡ true }
        requires second { has_tag (records_of self.old) pair.now.second ≡ true }
        requires stands { is_met (records_of self.old) (pair_stands pair.now) ≡ true }
        ensures records { records_of self.new ≡ records_of self.old }
        ensures tree { marked_tree self.new ≡ marked_tree self.old }
        ensures fits { Fits (records_of self.new) }
        ensures room { OnOk result (2 ≤ self.new.tags.spare) }
        ensures touching { IfOk result (λ plan. IsTouching plan pair.now self.new
            (pair_tags (records_of self.old) pair.now).first.0 (pair_tags (records_of self.old) pair.now).first.0) }
        ensures leads { IfOk result (λ plan. planned_records self.new plan pair.now ≡ without_sibling (records_of self.old) pair.now) }
        ensures reads { steps.new ≤ steps.old + 7 * cluster_work (records_of self.old).siblings (records_of self.old).parents
            self.new.relations.siblings.tags (pair_tags (records_of self.old) pair.now).first.0 (pair_tags (records_of self.old) pair.now).first.0 }
    {
        let tags = self.pair_tags(pair);
        self.reserve_pair(tags)?;
        let plan = self
            .relations
            .plan_no_sibling(pair.service, tags.first, steps)?;
        Ok(plan)
    }
}
