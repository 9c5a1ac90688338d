//! Pairs of tags, whether siblings or parents: what is looked up for both, and the change that is made.

ghost use Rattle.std.specs.Prelude.{◌≡◌, ◌<◌, ◌≤◌, ◌+◌, ◌*◌, ℕ, ◌∷◌, [], length, IfOk, OnOk};
ghost use Rattle.tag_relations.specs.Work.{cluster_work};
ghost use Rattle.tag_types.specs.declared.limits.TheConstants.{MAX_TAGS};
ghost use Rattle.library_machine.specs.Needs.{is_met, room_for_tags};
ghost use Rattle.library_machine.specs.Records.{Fits, Records};
ghost use Rattle.library_machine.specs.Relating.{pair_tags, with_both};
ghost use Rattle.library_tables.specs.Preparing.{pair_outcome};
ghost use Rattle.library_tables.specs.Relations.{IsTouching, LeadsPair, over_told, planned_records};
ghost use Rattle.library_tables.specs.Tables.{HasWords, marked_tree, records_of};

use crate::plan::{Prepared, TablesPlan};
use crate::tables::Tables;
use media_base::{Answer, MAX_TAGS, NoMemory, PairTags, Steps, TagPair, Unmet};
use std::alloc::Global;
use std::sync::ledger::Ledger;
use tag_relations::{RelationPlan, TagRelations};

/// A pair that is ready to be recorded or removed.
#[derive(Drop)]
pub struct PlannedPair {
    pub(crate) pair: TagPair,
    pub(crate) relations: RelationPlan,
}

/// The relations of a library in which nothing is recorded: service 0 takes its own pairs.
pub fn first_relations(alloc: Global) -> Result<TagRelations, NoMemory>
    ensures sibling_rows { IfOk result (λ relations. relations.siblings.rows ≡ []) }
    ensures parent_rows { IfOk result (λ relations. relations.parents.rows ≡ []) }
    ensures sibling_orders { IfOk result (λ relations. relations.siblings.orders ≡ ((record { 0 = 0 }) ∷ []) ∷ []) }
    ensures parent_orders { IfOk result (λ relations. relations.parents.orders ≡ ((record { 0 = 0 }) ∷ []) ∷ []) }
{
    let mut relations = TagRelations::new(alloc);
    relations.reserve_service()?;
    relations.add_service();
    Ok(relations)
}

impl Tables {
    // How many tags there are, once those of a pair are numbered.
    pub(crate) fn tags_with(&self, pair: &TagPair) -> u32
        ensures { result ≡ length (with_both self.now.tags.texts pair.now.first pair.now.second) }
    {
        let first = u32::from(!self.has_tag(&pair.first));
        let second = u32::from(self.tags.is_new_behind(&pair.first, &pair.second));
        self.tags.len() + first + second
    }

    pub(crate) fn has_room_for_tags(&self, pair: &TagPair) -> bool
        ensures { result ≡ is_met (records_of self.now) (room_for_tags pair.now.first pair.now.second) }
    {
        self.tags_with(pair) <= MAX_TAGS
    }

    // The numbers that the tags have, or would have.
    pub(crate) fn pair_tags(&self, pair: &TagPair) -> PairTags
        ensures tags { result ≡ pair_tags (records_of self.now) pair.now }
        ensures fits { Fits (records_of self.now) }
    {
        PairTags {
            first: self.tags.number(&pair.first),
            second: self.tags.number_behind(&pair.first, &pair.second),
        }
    }

    // Makes room for the tags of a pair.
    pub(crate) fn reserve_pair(&mut self, tags: PairTags) -> Result<(), NoMemory>
        requires first { tags.first.0 < MAX_TAGS }
        requires second { tags.second.0 < MAX_TAGS }
        ensures records { records_of self.new ≡ records_of self.old }
        ensures tree { marked_tree self.new ≡ marked_tree self.old }
        ensures fits { Fits (records_of self.new) }
        ensures room { OnOk result (2 ≤ self.new.tags.spare) }
        ensures first { OnOk result (tags.first.0 < self.new.relations.siblings.tags) }
        ensures second { OnOk result (tags.second.0 < self.new.relations.siblings.tags) }
    {
        self.tags.reserve(2)?;
        let count = tags.first.0.max(tags.second.0) + 1;
        self.relations.grow(count)
    }

    // What comes of a planned pair.
    pub(crate) fn settle_pair<L: Ledger>(
        &self,
        pair: &TagPair,
        plan: RelationPlan,
        full: bool,
        answer: Answer,
        steps: &mut Steps<L>,
    ) -> Result<Prepared, NoMemory>
        requires { (a b : ℕ) × IsTouching plan pair.now self.now a b }
        ensures outcome { IfOk result (λ outcome. outcome ≡ pair_outcome (over_told (planned_records self.now plan pair.now)) full
            (record { pair = pair.now; relations = plan }) answer) }
        ensures reads { (a b : ℕ) → IsTouching plan pair.now self.now a b → steps.new ≤ steps.old
            + 16 * cluster_work self.now.relations.siblings.rows self.now.relations.parents.rows self.now.relations.siblings.tags a b }
    {
        if let Some(why) = self.over_pair(&plan, pair, steps)? {
            return Ok(why.into());
        }
        if full {
            return Ok(Unmet::FullRelations.into());
        }
        let plan = PlannedPair {
            pair: pair.copied(self.alloc)?,
            relations: plan,
        };
        Ok(Prepared::Ready(TablesPlan::Pair(plan), answer))
    }

    pub(crate) fn commit_pair(&mut self, plan: PlannedPair)
        requires { (after : Records) × LeadsPair plan self.old after }
        ensures records { (after : Records) → LeadsPair plan self.old after → records_of self.new ≡ after }
        ensures tree { marked_tree self.new ≡ marked_tree self.old }
        ensures words { HasWords self.new.tree.rows (records_of self.new) }
    {
        let PlannedPair { pair, relations } = plan;
        let TagPair {
            service: _,
            first,
            second,
        } = pair;
        let _first = self.tags.insert(first);
        let _second = self.tags.insert(second);
        self.relations.commit(relations);
    }
}
