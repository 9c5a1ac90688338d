//! What tags imply, and whether a change would leave one that implies too many.

ghost use Rattle.std.specs.Prelude.{◌≡◌, ◌<◌, ◌≤◌, ◌+◌, ◌*◌, ℕ, [], All, length, map, IfOk, slice_index_or};
ghost use Rattle.std.specs.Option.{option_map};
ghost use Rattle.media_base.specs.declared.command.Query.TheVariants as queries;
ghost use Rattle.tag_relations.specs.Planning.{IsOrderPlanFor};
ghost use Rattle.tag_relations.specs.Work.{cluster_work};
ghost use Rattle.library_machine.specs.Asking as machine;
ghost use Rattle.library_machine.specs.Records.{Records};
ghost use Rattle.library_machine.specs.Relating.{ancestor_numbers, text_of, with_both};
ghost use Rattle.library_tables.specs.Counting.{ideal_reads};
ghost use Rattle.library_tables.specs.Relations.{IsOrdered, IsTouching, over_told, planned_records};
ghost use Rattle.library_tables.specs.Tables.{records_of};

use crate::tables::Tables;
use media_base::{
    Answer, IdealTag, NoMemory, ServiceNo, Steps, TagNo, TagPair, TagText, TagTextList, Unmet,
};
use std::sync::ledger::Ledger;
use tag_relations::{OrderPlan, RelationPlan};

impl Tables {
    #[tactic(auto, unfolding(library_machine::specs::Asking::query_needs, library_machine::specs::Asking::answer))]
    pub(crate) fn tell_ideal<L: Ledger>(
        &self,
        service: ServiceNo,
        text: &TagText,
        steps: &mut Steps<L>,
    ) -> Result<Result<Answer, Unmet>, NoMemory>
        ensures answer { IfOk result (λ answer. answer ≡ machine.asked (records_of self.now) (queries.Ideal service text.now)) }
        ensures reads { steps.new ≤ steps.old + ideal_reads (records_of self.now) service text.now }
    {
        if !self.has_service(service) {
            return Ok(Err(Unmet::UnknownService));
        }
        let tag = match self.tags.find(text) {
            Some(tag) => tag,
            None => return Ok(Err(Unmet::UnknownTag)),
        };
        let ideal = self.relations.ideal(service, tag);
        Ok(Ok(Answer::Ideal(IdealTag {
            ideal: self.tags.text(ideal).copied(self.alloc)?,
            ancestors: self.ancestors(service, tag, steps)?,
        })))
    }

    // The texts of the ancestors of a tag, in the order of their numbers.
    fn ancestors<L: Ledger>(
        &self,
        service: ServiceNo,
        tag: TagNo,
        steps: &mut Steps<L>,
    ) -> Result<TagTextList, NoMemory>
        requires service { service.0 < length self.now.services }
        requires tag { tag.0 < length self.now.tags.texts }
        ensures texts { IfOk result (λ list. list ≡ map (text_of (records_of self.now)) (ancestor_numbers (records_of self.now) service tag)) }
        ensures reads { steps.new ≤ steps.old + 4 * cluster_work self.now.relations.siblings.rows self.now.relations.parents.rows (length self.now.tags.texts) tag.0 tag.0 }
    {
        let end = self.tags.len();
        let numbers = self.relations.ancestors(service, tag, end, steps)?;
        self.texts_of(numbers.as_slice())
    }

    // The texts of these tags.
    fn texts_of(&self, tags: &[TagNo]) -> Result<TagTextList, NoMemory>
        requires { All (λ tag. tag.0 < length self.now.tags.texts) tags.now }
        ensures { IfOk result (λ list. list ≡ map (λ tag. slice_index_or self.now.tags.texts tag.0 []) tags.now) }
    {
        let mut texts = TagTextList::new(self.alloc);
        for tag in tags {
            texts.push(self.tags.text(*tag).copied(self.alloc)?)?;
        }
        Ok(texts)
    }

    // Why a planned pair is refused that would leave a tag that implies too many, where it would.
    pub(crate) fn over_pair<L: Ledger>(
        &self,
        plan: &RelationPlan,
        pair: &TagPair,
        steps: &mut Steps<L>,
    ) -> Result<Option<Unmet>, NoMemory>
        requires { (a b : ℕ) × IsTouching plan.now pair.now self.now a b }
        ensures told { IfOk result (λ why. why ≡ over_told (planned_records self.now plan.now pair.now)) }
        ensures reads { (a b : ℕ) → IsTouching plan.now pair.now self.now a b → steps.new ≤ steps.old
            + 16 * cluster_work self.now.relations.siblings.rows self.now.relations.parents.rows self.now.relations.siblings.tags a b }
    {
        let end = self.tags_with(pair);
        let over = self.relations.first_over(plan, end, steps)?;
        match over {
            Some((service, tag)) => Ok(Some(Unmet::TooManyImplied {
                service,
                tag: self.text_with(pair, tag).copied(self.alloc)?,
            })),
            None => Ok(None),
        }
    }

    // The text of a tag, once those of a pair are numbered.
    fn text_with<'a>(&'a self, pair: &'a TagPair, tag: TagNo) -> &'a TagText
        requires { tag.0 < length (with_both self.now.tags.texts pair.now.first pair.now.second) }
        ensures { result.now ≡ slice_index_or (with_both self.now.tags.texts pair.now.first pair.now.second) tag.0 [] }
    {
        if tag.0 < self.tags.len() {
            self.tags.text(tag)
        } else if tag.0 == self.tags.number(&pair.first).0 {
            &pair.first
        } else {
            &pair.second
        }
    }

    // Why planned orders are refused by which a tag would imply too many, where one would.
    pub(crate) fn over_orders<L: Ledger>(
        &self,
        plan: &OrderPlan,
        steps: &mut Steps<L>,
    ) -> Result<Option<Unmet>, NoMemory>
        requires planned { IsOrderPlanFor plan.now self.now.relations }
        ensures { (after : Records) → IsOrdered plan.now self.now after → IfOk result (λ why. why ≡ over_told after) }
    {
        let end = self.tags.len();
        let over = self.relations.first_over_in_order(plan, end, steps)?;
        match over {
            Some(tag) => Ok(Some(Unmet::TooManyImplied {
                service: plan.service(),
                tag: self.tags.text(tag).copied(self.alloc)?,
            })),
            None => Ok(None),
        }
    }
}
