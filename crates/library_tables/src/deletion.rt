//! Deletion, and its taking back.

ghost use Rattle.std.specs.Prelude.{◌≡◌, ◌≤◌, ◌+◌, IfOk};
ghost use Rattle.media_base.specs.declared.change.Change.TheVariants as changes;
ghost use Rattle.library_machine.specs.Records.{Records};
ghost use Rattle.library_tables.specs.Counting.{live_reads};
ghost use Rattle.library_tables.specs.Deletion.{LeadsLive};
ghost use Rattle.library_tables.specs.Preparing.{IsPrepared};
ghost use Rattle.library_tables.specs.Tables.{HasWords, marked_tree, records_of};

use crate::plan::{Prepared, TablesPlan};
use crate::tables::Tables;
use media_base::{Answer, FileNo, NoMemory, Steps, Unmet};
use potential_pairs::PairPlan;
use std::sync::ledger::Ledger;

/// A deletion, or its taking back, that is ready to be made.
#[derive(Drop)]
pub struct PlannedLive {
    pub(crate) file: FileNo,
    pub(crate) live: bool,
    /// Whether the file is to be searched then.
    pub(crate) queued: bool,
    pub(crate) pairs: PairPlan,
}

impl Tables {
    #[tactic(auto, using(file_records::specs::NearLaws::below), unfolding(library_machine::specs::Changing::needs, library_machine::specs::Changing::is_idle, library_machine::specs::Effects::effect, library_machine::specs::Changing::answer_to))]
    pub(crate) fn plan_live<L: Ledger>(
        &mut self,
        file: FileNo,
        live: bool,
        steps: &mut Steps<L>,
    ) -> Result<Prepared, NoMemory>
        ensures records { records_of self.new ≡ records_of self.old }
        ensures tree { marked_tree self.new ≡ marked_tree self.old }
        ensures prepared { IfOk result (IsPrepared (changes.Live file live) self.new) }
        ensures reads { steps.new ≤ steps.old + live_reads (records_of self.old) file }
    {
        if !self.has_file(file) {
            return Ok(Unmet::UnknownFile.into());
        }
        if self.files.row(file, steps).live == live {
            return Ok(Prepared::Idle(Answer::Changed(false)));
        }
        self.upkeep.reserve()?;
        let queued = live && self.files.wants_search(file, self.distance, steps);
        let pairs = self.pairs.plan_live(file, live, &self.groups, steps)?;
        Ok(Prepared::Ready(
            TablesPlan::Live(PlannedLive {
                file,
                live,
                queued,
                pairs,
            }),
            Answer::Changed(true),
        ))
    }

    #[tactic(auto, using(file_records::specs::MarkLaws::same_length, file_records::specs::MarkLaws::words, file_records::specs::MarkLaws::queue))]
    pub(crate) fn commit_live(&mut self, plan: PlannedLive)
        requires { (after : Records) × LeadsLive plan self.old after }
        ensures records { (after : Records) → LeadsLive plan self.old after → records_of self.new ≡ after }
        ensures tree { marked_tree self.new ≡ marked_tree self.old }
        ensures words { HasWords self.new.tree.rows (records_of self.new) }
    {
        self.files.set_live(plan.file, plan.live);
        self.upkeep.note(plan.file, plan.queued);
        self.pairs.commit(plan.pairs);
    }
}
