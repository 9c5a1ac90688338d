//! What is done, by kinds: a query is answered, a change is planned, a job is worked out, and upkeep is done.

ghost use Rattle.std.specs.Prelude.{◌≡◌, IfOk, OnErr, OnOk};
ghost use Rattle.library_machine.specs.Asking as machine;
ghost use Rattle.library_machine.specs.Jobs.{tended};
ghost use Rattle.library_tables.specs.Counting.{IsWithin, change_reads, job_reads, query_reads};
ghost use Rattle.library_tables.specs.Preparing.{IsPrepared, IsTended, IsWorkedOut};
ghost use Rattle.library_tables.specs.Tables.{HasWords, marked_tree, records_of};

use crate::plan::{Deed, Prepared};
use crate::tables::Tables;
use media_base::{Answer, Change, Job, NoMemory, Query, Steps, Unmet, Upkeep};
use std::sync::ledger::Ledger;

impl Tables {
    /// Answers what tells of the records. Relations take time in proportion to the files.
    #[tactic(auto, unfolding(library_machine::specs::Asking::query_needs))]
    pub fn ask<L: Ledger>(
        &self,
        query: &Query,
        steps: &mut Steps<L>,
    ) -> Result<Result<Answer, Unmet>, NoMemory>
        ensures answer { IfOk result (λ answer. answer ≡ machine.asked (records_of self.now) query.now) }
        ensures reads { IsWithin (query_reads (records_of self.now) query.now) steps.old steps.new }
    {
        match query {
            Query::Relations(file) => self.tell_relations(*file),
            Query::Decision(number) => Ok(self.tell_decision(*number, steps)),
            Query::Pairs(page) => self.tell_pairs(*page, steps),
            Query::PairCount(at_most) => Ok(Ok(self.tell_pair_count(*at_most))),
            Query::Queues => Ok(Ok(self.tell_queues())),
            Query::Mappings { service, file } => self.tell_mappings(*service, *file, steps),
            Query::Ideal { service, tag } => self.tell_ideal(*service, tag, steps),
        }
    }

    /// Prepares what a change comes to. It changes nothing that is recorded.
    ///
    /// An import takes a look-up. A decision and an undoing take time in proportion to the files, and an
    /// undoing makes all standing decisions anew.
    pub fn plan<L: Ledger>(
        &mut self,
        change: &Change,
        steps: &mut Steps<L>,
    ) -> Result<Prepared, NoMemory>
        ensures records { records_of self.new ≡ records_of self.old }
        ensures tree { marked_tree self.new ≡ marked_tree self.old }
        ensures prepared { IfOk result (IsPrepared change.now self.new) }
        ensures reads { IsWithin (change_reads (records_of self.old) self.old.tree.rows change.now)
            steps.old steps.new }
    {
        match change {
            Change::File(file) => self.plan_import(file, steps),
            Change::Live { file, live } => self.plan_live(*file, *live, steps),
            Change::Decision(decision) => self.plan_decide(*decision, steps),
            Change::Undo(number) => self.plan_undo(*number, steps),
            Change::Distance(distance) => self.plan_distance(*distance, steps),
            Change::Searched(searching) => self.plan_search(searching, steps),
            Change::Service => self.plan_service(),
            Change::Orders { service, orders } => self.plan_orders(*service, orders, steps),
            Change::Mapping(mapping) => self.plan_mapping(mapping, steps),
            Change::SiblingAdded(pair) => self.plan_sibling(pair, steps),
            Change::SiblingRemoved(pair) => self.plan_no_sibling(pair, steps),
            Change::ParentAdded(pair) => self.plan_parent(pair, steps),
            Change::ParentRemoved(pair) => self.plan_no_parent(pair, steps),
        }
    }

    /// Works out what a job comes to.
    pub fn work_out<L: Ledger>(&self, job: &Job, steps: &mut Steps<L>) -> Result<Deed, NoMemory>
        ensures deed { IfOk result (IsWorkedOut (records_of self.now) job.now) }
        ensures reads { IsWithin (job_reads (records_of self.now) job.now) steps.old steps.new }
    {
        match job {
            Job::Search(size) => self.work_out_search(*size, steps),
        }
    }

    /// Changes how the records are kept, and no record: the branch at the lowest marked node is built anew.
    #[tactic(auto, unfolding(library_machine::specs::Jobs::tended))]
    pub fn tend<L: Ledger>(
        &mut self,
        upkeep: Upkeep,
        steps: &mut Steps<L>,
    ) -> Result<Answer, NoMemory>
        ensures records { records_of self.new ≡ records_of self.old }
        ensures tree { OnOk result (IsTended upkeep (marked_tree self.old) (marked_tree self.new)) }
        ensures err { OnErr result (marked_tree self.new ≡ marked_tree self.old) }
        ensures words { HasWords self.new.tree.rows (records_of self.new) }
        ensures answer { IfOk result (λ answer. answer ≡ tended upkeep) }
    {
        match upkeep {
            Upkeep::Rebalance => {
                self.rebalance(steps)?;
                Ok(Answer::Rebalanced)
            }
        }
    }
}
