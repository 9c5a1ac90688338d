//! Imports of files.

ghost use Rattle.std.specs.Prelude.{◌≡◌, ◌<◌, [], length, IfOk};
ghost use Rattle.media_base.specs.declared.change.Change.TheVariants as changes;
ghost use Rattle.vp_tree.specs.Marking.{ArePlaced};
ghost use Rattle.library_machine.specs.Changing as machine;
ghost use Rattle.library_machine.specs.Records.{Records};
ghost use Rattle.library_tables.specs.Imports.{LeadsImport, words_planned};
ghost use Rattle.library_tables.specs.Preparing.{IsPrepared};
ghost use Rattle.library_tables.specs.Tables.{HasWords, marked_tree, records_of};

use crate::plan::{Prepared, TablesPlan};
use crate::tables::Tables;
use crate::words::{place_words, plan_words};
use file_records::ImportPlan;
use media_base::{
    Answer, FileNo, ImportStatus, Imported, MAX_FILES, NewFile, NoMemory, Steps, Unmet,
};
use std::sync::ledger::Ledger;
use vp_tree::InsertPlan;

/// An import that is ready to be made.
#[derive(Drop)]
pub struct PlannedImport {
    pub(crate) file: ImportPlan,
    pub(crate) words: Vec<InsertPlan>,
    /// Whether the file is to be searched.
    pub(crate) queued: bool,
}

impl Tables {
    #[tactic(auto, using(library_machine::specs::GoodLaws::changes_keep_fit), unfolding(library_machine::specs::Changing::needs, library_machine::specs::Changing::is_idle, library_machine::specs::Effects::effect, library_machine::specs::Changing::answer_to))]
    pub(crate) fn plan_import<L: Ledger>(
        &mut self,
        file: &NewFile,
        steps: &mut Steps<L>,
    ) -> Result<Prepared, NoMemory>
        ensures records { records_of self.new ≡ records_of self.old }
        ensures tree { marked_tree self.new ≡ marked_tree self.old }
        ensures prepared { IfOk result (IsPrepared (changes.File file.now) self.new) }
    {
        if let Some(number) = self.files.find(&file.sha) {
            return Ok(Prepared::Idle(Answer::Imported(Imported {
                file: number,
                status: self.known_status(number, steps),
            })));
        }
        let count = self.files.len();
        if count >= MAX_FILES {
            return Ok(Unmet::FullFiles.into());
        }
        self.book.reserve(steps)?;
        self.groups.reserve_file()?;
        self.upkeep.reserve()?;
        let queued = !file.hashes.as_slice().is_empty();
        let file = self.files.plan_import(file)?;
        let words = plan_words(&mut self.tree, self.alloc, file.words())?;
        Ok(Prepared::Ready(
            TablesPlan::Import(PlannedImport {
                file,
                words,
                queued,
            }),
            Answer::Imported(Imported {
                file: FileNo(count),
                status: ImportStatus::New,
            }),
        ))
    }

    // What an import finds of a file that is known.
    fn known_status<L: Ledger>(&self, file: FileNo, steps: &mut Steps<L>) -> ImportStatus
        requires { file.0 < length self.now.files.rows }
        ensures { result ≡ machine.known_status self.now.files.rows file.0 }
    {
        if self.files.row(file, steps).live {
            ImportStatus::Known
        } else {
            ImportStatus::Deleted
        }
    }

    pub(crate) fn commit_import<L: Ledger>(&mut self, plan: PlannedImport, steps: &mut Steps<L>)
        requires { (after : Records) × LeadsImport plan self.old after }
        ensures records { (after : Records) → LeadsImport plan self.old after → records_of self.new ≡ after }
        ensures tree { ArePlaced (marked_tree self.old) (words_planned plan.words.items) (marked_tree self.new) }
        ensures words { HasWords self.new.tree.rows (records_of self.new) }
        ensures steps { words_planned plan.words.items ≡ [] → steps.new ≡ steps.old }
    {
        let PlannedImport {
            file,
            words,
            queued,
        } = plan;
        let number = self.files.commit_import(file);
        self.book.add_file();
        self.groups.add_file();
        place_words(&mut self.tree, &mut self.upkeep, words, steps);
        self.upkeep.note(number, queued);
    }
}
