//! The near pairs that a search finds, and the potential pairs that replies tell.

ghost use Rattle.std.specs.Prelude.{◌≡◌, ◌≤◌, ◌+◌, ◌*◌, List, length, IfOk};
ghost use Rattle.media_types.specs.declared.numbers.FileNo.{FileNo as File};
ghost use Rattle.file_records.specs.Searching.{rising, searched};
ghost use Rattle.relation_groups.specs.Reading.{relations_in};
ghost use Rattle.potential_pairs.specs.Planning.{after};
ghost use Rattle.near_search.specs.Work.{work};
ghost use Rattle.media_base.specs.declared.command.Query.TheVariants as queries;
ghost use Rattle.library_machine.specs.Asking as machine;
ghost use Rattle.library_tables.specs.Pairs.{LeadsPairs};
ghost use Rattle.library_tables.specs.Tables.{records_of};

use crate::tables::Tables;
use media_base::{Answer, FileNo, NoMemory, PairPage, SearchDistance, Steps, Unmet};
use near_search::find_near;
use potential_pairs::{PairPlan, Pairs};
use std::sync::ledger::Ledger;

impl Tables {
    /// Plans to note the pairs that these files make near once they are searched.
    #[tactic(auto, using(file_records::specs::NearLaws::below, file_records::specs::NearLaws::still_deleted))]
    pub(crate) fn plan_near<L: Ledger>(
        &mut self,
        risen: &[FileNo],
        distance: SearchDistance,
        steps: &mut Steps<L>,
    ) -> Result<PairPlan, NoMemory>
        requires risen { (named : List File) × (risen.now ≡ rising distance named self.old.files.rows) }
        ensures same { self.new ≡ record self.old {
          pairs = record {
            rows = self.old.pairs.rows;
            spare = self.new.pairs.spare;
          };
        } }
        ensures paired { IfOk result (λ plan. LeadsPairs plan (relations_in self.new.groups)
            (searched distance risen.now self.new.files.rows) self.new.pairs) }
        ensures counted { IfOk result (λ plan. length (after plan self.new.pairs.rows).near
            ≡ length self.new.pairs.rows.near + length plan.near) }
        ensures reads { steps.new ≤ steps.old + 8 * (length risen.now
            + 2 * work self.old.tree.rows self.old.files.rows distance risen.now) }
    {
        let found = find_near(self.alloc, &self.files, &self.tree, risen, distance, steps)?;
        self.pairs.plan_found(&found, &self.groups, steps)
    }

    // The pairs that are kept, which are those of the records.
    fn potential_pairs(&self) -> &Pairs
        ensures { result.now.rows.pairs ≡ machine.potential_pairs (records_of self.now) }
    {
        &self.pairs
    }

    #[tactic(auto, unfolding(library_machine::specs::Asking::query_needs, library_machine::specs::Asking::answer))]
    pub(crate) fn tell_pairs<L: Ledger>(
        &self,
        page: PairPage,
        steps: &mut Steps<L>,
    ) -> Result<Result<Answer, Unmet>, NoMemory>
        ensures answer { IfOk result (λ answer. answer ≡ machine.asked (records_of self.now) (queries.Pairs page)) }
        ensures reads { steps.new ≤ steps.old + (2 * page.n + 17) }
    {
        let PairPage { after, n, at_most } = page;
        let pairs = self
            .potential_pairs()
            .page(after, n.number(), at_most.bits(), steps)?;
        Ok(Ok(Answer::Pairs(pairs)))
    }

    #[tactic(auto, unfolding(library_machine::specs::Asking::answer))]
    pub(crate) fn tell_pair_count(&self, at_most: SearchDistance) -> Answer
        ensures { result ≡ machine.answer (records_of self.now) (queries.PairCount at_most) }
    {
        Answer::PairCount(self.potential_pairs().count(at_most.bits()))
    }
}
