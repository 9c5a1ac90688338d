ghost use Rattle.std.specs.Prelude.{◌≡◌, ◌≢◌, true, Some, Ok, Err};
ghost use Rattle.media_base.specs.Keeping.{Readings};
ghost use Rattle.media_base.specs.declared.refusal.Refusal.{Refusal};
ghost use Rattle.library_machine.specs.Opening.{opened};
ghost use Rattle.library_machine.specs.Records.{Fits};
ghost use Rattle.library_machine.specs.Step as machine;
ghost use Rattle.library_tables.specs.Counting.{IsWithin, change_reads, most_reads};
ghost use Rattle.library_tables.specs.Tables.{HasWords};
ghost use Rattle.library_core.specs.Done.{IsDone};
ghost use Rattle.library_core.specs.Keeping.{Follows, GrowsBy};
ghost use Rattle.library_core.specs.Faults.{put_refusal};

use library_tables::{Deed, Prepared, Tables};
use media_base::{Caller, Change, Command, Keeper, PutFault, Refusal, Reply, Steps};
use std::marker::Model;
use std::sync::ledger::Ledger;

/// A library and the keeper of its changes. Contracts see its state and the keeper.
#[derive(Drop)]
pub struct Library<K: Keeper> {
    pub(crate) tables: Tables,
    pub(crate) keeper: K,
}

impl<K: Keeper> Model for Library<K> {
    ghost use Rattle.library_machine.specs.Desks.{no_desks};
    ghost use Rattle.library_tables.specs.Tables.{marked_tree, records_of};
    ghost use Rattle.library_core.specs.Keeping.{LibraryView, IsInStep};

    ghost Value = { LibraryView K };

    ghost view = { λ l. record {
      state = record { kept = records_of l.tables; desks = no_desks };
      tree = marked_tree l.tables;
      keeper = l.keeper;
    } };

    ghost invariant = { λ l. IsInStep K.ready K.place K.alien K.kept (records_of l.tables) l.tables.tree.rows l.keeper };
}

impl<K: Keeper> Library<K> {
    /// Does what the command says, and answers it. Where the records would change, the change is put into the
    /// keeper first; it is committed only once it is kept.
    ///
    /// A known file is found without a walk over the files. Decisions, undoings and questions of relations
    /// take time in proportion to the files, and relations to the not-related pairs too; an undoing makes all
    /// standing decisions anew. `steps` counts what is read through tables that count.
    pub fn answer<L: Ledger>(
        &mut self,
        caller: Caller,
        command: &Command,
        steps: &mut Steps<L>,
    ) -> Reply
        // The step is answered, and the keeper has its change.
        ensures done { IsDone (record { kept = K.kept; alien = K.alien; faults = K.faults; used = K.used; units = K.units; limit = K.limit })
            self.old.state self.old.keeper (machine.step self.old.state caller command.now)
            result self.new.state self.new.keeper }
        ensures refused { (why : Refusal) → result ≡ Err why → self.new.state ≡ self.old.state }

        ensures fits { Fits self.new.state.kept }
        ensures opens { (readings : Readings) → K.kept self.new.keeper ≡ Some readings
            → opened readings ≡ Ok self.new.state.kept }

        // An import that is accepted places its new words in the tree, and each marks the branch that it leaves
        // lopsided. A rebalance builds the branch at the lowest mark anew. All else leaves the tree and its marks.
        ensures tree { Follows self.old.state.kept command.now
            (machine.change_of (machine.step self.old.state caller command.now)) result self.old.tree self.new.tree }
        ensures words { HasWords self.new.tree.nodes self.new.state.kept }

        // Searches, pages of pairs and deletions read no more than this.
        ensures reads { IsWithin (most_reads self.old.state.kept self.old.tree.nodes command.now) steps.old steps.new }
    {
        let Caller::Console = caller;
        let reply = self.answer_of(command, steps);
        self.in_step();
        reply
    }

    // The same for a caller who may ask it.
    fn answer_of<L: Ledger>(&mut self, command: &Command, steps: &mut Steps<L>) -> Reply
        ensures done { IsDone (record { kept = K.kept; alien = K.alien; faults = K.faults; used = K.used; units = K.units; limit = K.limit })
            self.old.state self.old.keeper (machine.step_of self.old.state command.now)
            result self.new.state self.new.keeper }
        ensures tree { Follows self.old.state.kept command.now
            (machine.change_of (machine.step_of self.old.state command.now)) result self.old.tree self.new.tree }
        ensures reads { IsWithin (most_reads self.old.state.kept self.old.tree.nodes command.now) steps.old steps.new }
    {
        match command {
            Command::Ask(query) => Ok(self.tables.ask(query, steps)??),
            Command::Do(change) => self.make(change, steps),
            Command::Run(job) => match self.tables.work_out(job, steps)? {
                Deed::Tells(answer) => Ok(answer),
                Deed::Makes(change) => self.make(&change, steps),
            },
            Command::Tend(upkeep) => Ok(self.tables.tend(*upkeep, steps)?),
        }
    }

    // Makes a change, where it is lawful and would change anything, once it is kept.
    fn make<L: Ledger>(&mut self, change: &Change, steps: &mut Steps<L>) -> Reply
        ensures done { IsDone (record { kept = K.kept; alien = K.alien; faults = K.faults; used = K.used; units = K.units; limit = K.limit })
            self.old.state self.old.keeper (machine.made self.old.state.kept self.old.state.desks change.now)
            result self.new.state self.new.keeper }
        ensures tree { GrowsBy self.old.state.kept
            (machine.change_of (machine.made self.old.state.kept self.old.state.desks change.now))
            result self.old.tree self.new.tree }
        ensures reads { IsWithin (change_reads self.old.state.kept self.old.tree.nodes change.now) steps.old steps.new }
    {
        match self.tables.plan(change, steps)? {
            Prepared::Refused(why) => Err(Refusal::Unmet(why)),
            Prepared::Idle(answer) => Ok(answer),
            Prepared::Ready(plan, answer) => match self.keeper.put(change) {
                Ok(()) => {
                    self.tables.commit(plan, steps);
                    Ok(answer)
                }
                Err(fault) => {
                    self.tables.withdraw(plan);
                    drop(answer);
                    Err(refusal_of(fault))
                }
            },
        }
    }

    // The records fit, the tree has their words, and what is kept opens them. The call does nothing.
    fn in_step(&self)
        ensures fits { Fits self.now.state.kept }
        ensures opens { (readings : Readings) → K.kept self.now.keeper ≡ Some readings
            → opened readings ≡ Ok self.now.state.kept }
        ensures words { HasWords self.now.tree.nodes self.now.state.kept }
    {
        let _tables = &self.tables;
    }

    /// Hands the keeper back.
    pub fn release(self) -> K
        ensures fits { Fits self.state.kept }
        ensures keeper { result ≡ self.keeper }
        ensures own { K.alien result ≢ Some true }
        ensures opens { (readings : Readings) → K.kept result ≡ Some readings
            → opened readings ≡ Ok self.state.kept }
    {
        self.keeper
    }
}

// Why a command is refused whose change wasn't kept.
fn refusal_of(fault: PutFault) -> Refusal
    ensures { result ≡ put_refusal fault }
{
    match fault {
        PutFault::Failed => Refusal::NotKept,
        PutFault::NoMemory => Refusal::NoMemory,
        PutFault::Full => Refusal::JournalFull,
    }
}
