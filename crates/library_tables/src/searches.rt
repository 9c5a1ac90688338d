//! Searches of files, and the queue of those that are to be searched.

ghost use Rattle.std.specs.Prelude.{◌≡◌, ◌<◌, ◌≤◌, ◌+◌, ◌*◌, List, length, filter, All, IfOk};
ghost use Rattle.std.specs.List.{list_all};
ghost use Rattle.media_types.specs.declared.numbers.FileNo.{FileNo as File};
ghost use Rattle.media_base.specs.declared.change.Change.TheVariants as changes;
ghost use Rattle.media_base.specs.declared.command.Job.TheVariants as jobs;
ghost use Rattle.media_base.specs.declared.command.Query.TheVariants as queries;
ghost use Rattle.file_records.specs.Searching.{is_queued, passes, queue_of, rising, searched};
ghost use Rattle.library_machine.specs.Asking as machine;
ghost use Rattle.library_machine.specs.Needs.{has_file};
ghost use Rattle.library_machine.specs.Records.{Records};
ghost use Rattle.library_machine.specs.Searches.{next_search};
ghost use Rattle.library_tables.specs.Counting.{search_meets};
ghost use Rattle.library_tables.specs.Preparing.{IsPrepared, IsWorkedOut};
ghost use Rattle.library_tables.specs.Searches.{LeadsDistance, LeadsSearch};
ghost use Rattle.library_tables.specs.Tables.{HasWords, marked_tree, records_of};

use crate::plan::{Deed, Prepared, TablesPlan};
use crate::tables::Tables;
use file_records::Files;
use media_base::{
    Answer, BatchSize, Change, FileBatch, FileList, FileNo, MAX_NEAR, NoMemory, QueueLengths,
    SearchCounts, SearchDistance, Searching, Steps, Unmet,
};
use potential_pairs::PairPlan;
use std::sync::ledger::Ledger;
use tree_upkeep::{QueuePlan, Upkeep};

/// Another distance that is ready to be set, with the queue that it makes.
#[derive(Drop)]
pub struct PlannedDistance {
    pub(crate) distance: SearchDistance,
    pub(crate) queue: QueuePlan,
}

/// A search that is ready to be noted.
#[derive(Drop)]
pub struct PlannedSearch {
    /// Those whose searched distance rises.
    pub(crate) files: FileList,
    pub(crate) distance: SearchDistance,
    pub(crate) pairs: PairPlan,
}

impl Tables {
    #[tactic(auto, using(library_machine::specs::GoodLaws::changes_keep_fit, file_records::specs::QueueLaws::queue_ascends, file_records::specs::QueueLaws::queue_known), unfolding(library_machine::specs::Changing::needs, library_machine::specs::Changing::is_idle, library_machine::specs::Effects::effect, library_machine::specs::Changing::answer_to))]
    pub(crate) fn plan_distance<L: Ledger>(
        &mut self,
        distance: SearchDistance,
        steps: &mut Steps<L>,
    ) -> Result<Prepared, NoMemory>
        ensures records { records_of self.new ≡ records_of self.old }
        ensures tree { marked_tree self.new ≡ marked_tree self.old }
        ensures prepared { IfOk result (IsPrepared (changes.Distance distance) self.new) }
    {
        let answer = Answer::Distance(distance);
        if self.distance == distance {
            return Ok(Prepared::Idle(answer));
        }
        let files = self.files.queue(distance, steps)?;
        let queue = self.upkeep.plan_queue(&files)?;
        Ok(Prepared::Ready(
            TablesPlan::Distance(PlannedDistance { distance, queue }),
            answer,
        ))
    }

    #[tactic(auto, using(library_machine::specs::GoodLaws::changes_keep_fit, file_records::specs::SearchLaws::known, file_records::specs::SearchLaws::rising_ascends), unfolding(library_machine::specs::Changing::needs, library_machine::specs::Changing::is_idle, library_machine::specs::Effects::effect, library_machine::specs::Changing::answer_to))]
    pub(crate) fn plan_search<L: Ledger>(
        &mut self,
        searching: &Searching,
        steps: &mut Steps<L>,
    ) -> Result<Prepared, NoMemory>
        ensures records { records_of self.new ≡ records_of self.old }
        ensures tree { marked_tree self.new ≡ marked_tree self.old }
        ensures prepared { IfOk result (IsPrepared (changes.Searched searching.now) self.new) }
        ensures reads { steps.new ≤ steps.old + 16 * search_meets (records_of self.old) self.old.tree.rows searching.now }
    {
        let named = searching.files.as_slice();
        if !self.has_all(named) {
            return Ok(Unmet::UnknownFile.into());
        }
        let distance = searching.distance;
        let files = self.files.rising(named, distance, steps)?;
        let left = self.waiting_after(files.as_slice(), distance, steps);
        let answer = counted(files.len() as u64, left);
        if files.is_empty() {
            return Ok(Prepared::Idle(answer));
        }
        let pairs = self.plan_near(files.as_slice(), distance, steps)?;
        if pairs.near_len() > MAX_NEAR - self.pairs.near_len() {
            return Ok(Unmet::FullNear.into());
        }
        Ok(Prepared::Ready(
            TablesPlan::Search(PlannedSearch {
                files,
                distance,
                pairs,
            }),
            answer,
        ))
    }

    fn has_all(&self, files: &[FileNo]) -> bool
        ensures { result ≡ list_all (has_file (records_of self.now)) files.now }
    {
        files.iter().all(|file| self.has_file(*file))
    }

    // How many files wait to be searched once these are, whose searched distance rises.
    #[tactic(auto, using(file_records::specs::QueueLaws::queue_stays))]
    fn waiting_after<L: Ledger>(
        &self,
        risen: &[FileNo],
        distance: SearchDistance,
        steps: &mut Steps<L>,
    ) -> u64
        requires known { All (λ file. file.0 < length self.now.files.rows) risen.now }
        requires risen { (named : List File) × (risen.now ≡ rising distance named self.now.files.rows) }
        ensures left { (named : List File) → risen.now ≡ rising distance named self.now.files.rows
            → result ≡ length (queue_of self.now.distance (searched distance named self.now.files.rows)) }
        ensures reads { steps.new ≤ steps.old + length risen.now }
    {
        let waiting = self.upkeep.queue_len();
        if distance.bits() < self.distance.bits() {
            return waiting;
        }
        waiting - self.count_queued(risen, steps)
    }

    // How many of these files wait to be searched.
    fn count_queued<L: Ledger>(&self, files: &[FileNo], steps: &mut Steps<L>) -> u64
        requires { All (λ file. file.0 < length self.now.files.rows) files.now }
        ensures count { result ≡ length (filter
            (λ file. passes (is_queued self.now.distance) self.now.files.rows file.0) files.now) }
        ensures reads { steps.new ≡ steps.old + length files.now }
    {
        let mut count = 0;
        for file in files {
            if self.files.is_queued(*file, self.distance, steps) {
                count += 1;
            }
        }
        count
    }

    #[tactic(auto, unfolding(library_machine::specs::Jobs::worked_out))]
    pub(crate) fn work_out_search<L: Ledger>(
        &self,
        size: BatchSize,
        steps: &mut Steps<L>,
    ) -> Result<Deed, NoMemory>
        ensures deed { IfOk result (IsWorkedOut (records_of self.now) (jobs.Search size)) }
        ensures reads { steps.new ≤ steps.old + (1 + length (next_search (records_of self.now) size).files) }
    {
        let files = self.upkeep.next_search(size.number(), steps)?;
        let distance = self.distance;
        Ok(match FileBatch::new(files) {
            None => Deed::Tells(counted(0, self.upkeep.queue_len())),
            Some(files) => Deed::Makes(Change::Searched(Searching { files, distance })),
        })
    }

    #[tactic(auto, unfolding(library_machine::specs::Asking::answer))]
    pub(crate) fn tell_queues(&self) -> Answer
        ensures { result ≡ machine.answer (records_of self.now) queries.Queues }
    {
        Answer::Queues(QueueLengths {
            search: self.upkeep.queue_len(),
            display: 0,
        })
    }

    pub(crate) fn commit_distance(&mut self, plan: PlannedDistance)
        requires { (after : Records) × LeadsDistance plan self.old after }
        ensures records { (after : Records) → LeadsDistance plan self.old after → records_of self.new ≡ after }
        ensures tree { marked_tree self.new ≡ marked_tree self.old }
        ensures words { HasWords self.new.tree.rows (records_of self.new) }
    {
        self.upkeep.commit_queue(plan.queue);
        self.distance = plan.distance;
    }

    #[tactic(auto, using(file_records::specs::SearchLaws::same_length, file_records::specs::SearchLaws::words))]
    pub(crate) fn commit_search(&mut self, plan: PlannedSearch)
        requires { (after : Records) × LeadsSearch plan self.old after }
        ensures records { (after : Records) → LeadsSearch plan self.old after → records_of self.new ≡ after }
        ensures tree { marked_tree self.new ≡ marked_tree self.old }
        ensures words { HasWords self.new.tree.rows (records_of self.new) }
    {
        let library = self.distance;
        let risen = plan.files.as_slice();
        note_searched(
            &mut self.files,
            &mut self.upkeep,
            risen,
            plan.distance,
            library,
        );
        self.pairs.commit(plan.pairs);
    }
}

fn counted(searched: u64, left: u64) -> Answer
    ensures { result ≡ Answer.Searched (record { searched = searched; left = left }) }
{
    Answer::Searched(SearchCounts { searched, left })
}

// Notes that these files are searched within a distance, and takes those out of the queue of the library's
// distance that were searched far enough.
#[tactic(auto, using(file_records::specs::SearchLaws::same_length, file_records::specs::SearchLaws::none))]
fn note_searched(
    files: &mut Files,
    upkeep: &mut Upkeep,
    found: &[FileNo],
    distance: SearchDistance,
    library: SearchDistance,
)
    requires known { All (λ file. file.0 < length files.old.rows) found.now }
    requires queued { upkeep.old.queue ≡ queue_of library files.old.rows }
    ensures rows { files.new.rows ≡ searched distance found.now files.old.rows }
    ensures queued { upkeep.new.queue ≡ queue_of library files.new.rows }
    ensures marks { upkeep.new.marks ≡ upkeep.old.marks }
{
    for file in found {
        files.set_searched(*file, distance);
        if library.bits() <= distance.bits() {
            upkeep.note(*file, false);
        }
    }
}
