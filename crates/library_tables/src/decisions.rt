//! Decisions of two files, undoings, and the relations that the standing decisions make.

ghost use Rattle.std.specs.Prelude.{◌≡◌, ◌≤◌, ◌+◌, ◌&&◌, IfOk};
ghost use Rattle.media_base.specs.declared.change.Change.TheVariants as changes;
ghost use Rattle.media_base.specs.declared.command.Query.TheVariants as queries;
ghost use Rattle.library_machine.specs.Asking as machine;
ghost use Rattle.library_machine.specs.Needs.{has_file};
ghost use Rattle.library_machine.specs.Records.{Records};
ghost use Rattle.library_tables.specs.Decisions.{LeadsDecide, LeadsUndo};
ghost use Rattle.library_tables.specs.Preparing.{IsPrepared};
ghost use Rattle.library_tables.specs.Tables.{HasWords, marked_tree, records_of};

use crate::numbers::all_files;
use crate::plan::{Prepared, TablesPlan};
use crate::tables::Tables;
use media_base::{Answer, Decision, DecisionNo, FileNo, MAX_DECISIONS, NoMemory, Steps, Unmet};
use potential_pairs::PairPlan;
use relation_groups::GroupPlan;
use std::sync::ledger::Ledger;

/// A decision that is ready to be made.
#[derive(Drop)]
pub struct PlannedDecision {
    pub(crate) decision: Decision,
    pub(crate) groups: GroupPlan,
    pub(crate) pairs: PairPlan,
}

/// An undoing that is ready to be made.
#[derive(Drop)]
pub struct PlannedUndo {
    pub(crate) number: DecisionNo,
    pub(crate) groups: GroupPlan,
    pub(crate) pairs: PairPlan,
}

impl Tables {
    #[tactic(auto, using(file_records::specs::NearLaws::below), unfolding(library_machine::specs::Changing::needs, library_machine::specs::Changing::is_idle, library_machine::specs::Effects::effect, library_machine::specs::Changing::answer_to))]
    pub(crate) fn plan_decide<L: Ledger>(
        &mut self,
        decision: Decision,
        steps: &mut Steps<L>,
    ) -> Result<Prepared, NoMemory>
        ensures records { records_of self.new ≡ records_of self.old }
        ensures tree { marked_tree self.new ≡ marked_tree self.old }
        ensures prepared { IfOk result (IsPrepared (changes.Decision decision) self.new) }
    {
        if !self.has_both(decision) {
            return Ok(Unmet::UnknownFile.into());
        }
        if decision.a == decision.b {
            return Ok(Unmet::SameFile.into());
        }
        let count = self.book.len();
        if count >= MAX_DECISIONS {
            return Ok(Unmet::FullDecisions.into());
        }
        self.book.reserve(steps)?;
        let Decision { code, a, b } = decision;
        let groups = self.groups.plan_decide(code, a, b, steps)?;
        let pairs = self.pairs.plan_moved(&groups, &self.groups, steps)?;
        Ok(Prepared::Ready(
            TablesPlan::Decide(PlannedDecision {
                decision,
                groups,
                pairs,
            }),
            Answer::Decided(DecisionNo(count)),
        ))
    }

    fn has_both(&self, decision: Decision) -> bool
        ensures { let r = records_of self.now in result ≡ (has_file r decision.a && has_file r decision.b) }
    {
        self.has_file(decision.a) && self.has_file(decision.b)
    }

    #[tactic(auto, using(file_records::specs::NearLaws::below), unfolding(library_machine::specs::Changing::needs, library_machine::specs::Changing::is_idle, library_machine::specs::Effects::effect, library_machine::specs::Changing::answer_to))]
    pub(crate) fn plan_undo<L: Ledger>(
        &mut self,
        number: DecisionNo,
        steps: &mut Steps<L>,
    ) -> Result<Prepared, NoMemory>
        ensures records { records_of self.new ≡ records_of self.old }
        ensures tree { marked_tree self.new ≡ marked_tree self.old }
        ensures prepared { IfOk result (IsPrepared (changes.Undo number) self.new) }
    {
        if number.0 >= self.book.len() {
            return Ok(Unmet::UnknownDecision.into());
        }
        if self.book.row(number, steps).undone {
            return Ok(Unmet::AlreadyUndone.into());
        }
        let standing = self.book.standing_without(number, self.alloc, steps)?;
        let files = all_files(self.alloc, self.files.len())?;
        let groups = self.groups.plan_refold(&files, &standing, steps)?;
        let pairs = self.pairs.plan_moved(&groups, &self.groups, steps)?;
        Ok(Prepared::Ready(
            TablesPlan::Undo(PlannedUndo {
                number,
                groups,
                pairs,
            }),
            Answer::Undone(number),
        ))
    }

    pub(crate) fn commit_decide(&mut self, plan: PlannedDecision)
        requires { (after : Records) × LeadsDecide plan self.old after }
        ensures records { (after : Records) → LeadsDecide plan self.old after → records_of self.new ≡ after }
        ensures tree { marked_tree self.new ≡ marked_tree self.old }
        ensures words { HasWords self.new.tree.rows (records_of self.new) }
    {
        let Decision { code, a, b } = plan.decision;
        let _number = self.book.add(code, a, b);
        self.groups.commit(plan.groups);
        self.pairs.commit(plan.pairs);
    }

    pub(crate) fn commit_undo(&mut self, plan: PlannedUndo)
        requires { (after : Records) × LeadsUndo plan self.old after }
        ensures records { (after : Records) → LeadsUndo plan self.old after → records_of self.new ≡ after }
        ensures tree { marked_tree self.new ≡ marked_tree self.old }
        ensures words { HasWords self.new.tree.rows (records_of self.new) }
    {
        self.book.undo(plan.number);
        self.groups.commit(plan.groups);
        self.pairs.commit(plan.pairs);
    }

    #[tactic(auto, unfolding(library_machine::specs::Asking::query_needs, library_machine::specs::Asking::answer))]
    pub(crate) fn tell_relations(&self, file: FileNo) -> Result<Result<Answer, Unmet>, NoMemory>
        ensures { IfOk result (λ answer. answer ≡ machine.asked (records_of self.now) (queries.Relations file)) }
    {
        if !self.has_file(file) {
            return Ok(Err(Unmet::UnknownFile));
        }
        Ok(Ok(Answer::Relations(self.groups.standing(file)?)))
    }

    #[tactic(auto, unfolding(library_machine::specs::Asking::query_needs, library_machine::specs::Asking::answer))]
    pub(crate) fn tell_decision<L: Ledger>(
        &self,
        number: DecisionNo,
        steps: &mut Steps<L>,
    ) -> Result<Answer, Unmet>
        ensures answer { result ≡ machine.asked (records_of self.now) (queries.Decision number) }
        ensures reads { steps.new ≤ steps.old + 1 }
    {
        if number.0 >= self.book.len() {
            return Err(Unmet::UnknownDecision);
        }
        let row = self.book.row(number, steps);
        Ok(Answer::Decision {
            decision: row.decision(),
            undone: row.undone,
        })
    }
}
