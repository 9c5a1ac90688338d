ghost use Rattle.media_base.specs.declared.refusal.Refusal.TheVariants as refusals;
ghost use Rattle.library_machine.specs.Covering.{PairsCover, PagesCover, CountsCover};
ghost use Rattle.library_machine.specs.Records.{Fits, no_records};
ghost use Rattle.library_machine.specs.Laws.{RefusalsChangeNothing, RefusedAnswersChangeNothing, StepsKeepFit, AnswersKeepFit, ChangesKeepFit, ChangesAreTold, ChangesLead, WantsChange, RefusalsHaveCauses, JobsLackRoomAlone, DeletionsAreTakenBack};

/// A refused command changes nothing.
pub fn refusals_change_nothing()
    ensures in_a_step { RefusalsChangeNothing }
    ensures in_an_answer { RefusedAnswersChangeNothing }
{}

/// The records of every session are within the limits, with no two files of one SHA-256, and each decision
/// is of two different files that are there.
pub fn records_stay_fit()
    ensures at_first { Fits no_records }
    ensures after_a_step { StepsKeepFit }
    ensures after_an_answer { AnswersKeepFit }
    ensures after_a_change { ChangesKeepFit }
{}

/// Exactly why the step refuses each command. A search of the next files of the queue never lacks a file.
pub fn refusals_have_causes()
    ensures all { RefusalsHaveCauses }
    ensures jobs { JobsLackRoomAlone }
{}

/// A step tells a change exactly where the records change, and the change alone leads to the same records.
/// That it wasn't kept is answered only where there is one.
pub fn changes_are_kept()
    ensures told { ChangesAreTold }
    ensures lead { ChangesLead }
    ensures room { WantsChange refusals.JournalFull }
    ensures kept { WantsChange refusals.NotKept }
{}

/// A file that was deleted comes back, and then the records are those from before its deletion.
pub fn deletions_are_taken_back()
    ensures { DeletionsAreTakenBack }
{}

/// Where no file waits to be searched, the potential pairs within the library's distance are those of all
/// live files that have a hash, and such pairs are told.
pub fn empty_queue_covers()
    ensures within { PairsCover }
    ensures pages { PagesCover }
    ensures counts { CountsCover }
{}
