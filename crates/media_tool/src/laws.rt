//! What follows from the definitions of a session. Each law is a public function that does nothing, whose
//! clauses are the law.

ghost use Rattle.std.specs.Prelude.{◌≡◌, ℕ, ◌+◌, ◌-◌, ◌^◌, ◌<◌, ◌≤◌, min, List, ◌∷◌, ◌++◌, length, Option};
ghost use Rattle.media_base.specs.declared.change.Change.{Change};
ghost use Rattle.media_base.specs.declared.refusal.Refusal.TheVariants as refusals;
ghost use Rattle.media_base.specs.Replying.{Reply};
ghost use Rattle.library_core.specs.Done.{HasNoRoom};
ghost use Rattle.media_tool.specs.Lines.{Cut};
ghost use Rattle.media_tool.specs.Room.{NeverRefused, ToldWithin};
ghost use Rattle.media_tool.specs.Run.{Run, SessionState, count_not_kept, telling};
ghost use Rattle.media_tool.specs.Session.{AnswersEnded, AnswersWithin, AnswersFront};

use command_text::refusal_laws;
use media_base::Keeper;
use media_keeper::QuietKeeper;

/// Bytes have one cut into lines, so a run speaks of the lines and no others.
pub fn one_cut()
    ensures { (bytes : List ℕ) (first second : List (List ℕ)) (rest last : List ℕ)
        → Cut bytes first rest → Cut bytes second last → (first ≡ second) × (rest ≡ last) }
{}

/// What a session leaves at a read fault or past the limit is a front of the text of all lines too.
pub fn ended_lines_are_a_front<K: Keeper>()
    ensures read_fault { (opening after : SessionState K) (given : List ℕ) (old new : Option (List ℕ))
        → AnswersEnded (telling K.kept K.alien K.faults K.used K.units K.limit) opening after given old new
        → AnswersFront (telling K.kept K.alien K.faults K.used K.units K.limit) opening after given old new }
    ensures too_long { (opening after : SessionState K) (given : List ℕ) (old new : Option (List ℕ))
        → AnswersWithin (telling K.kept K.alien K.faults K.used K.units K.limit) opening after given old new
        → AnswersFront (telling K.kept K.alien K.faults K.used K.units K.limit) opening after given old new }
{}

/// The replies of a run that say that a change wasn't kept are at most as many as the keeper's count of
/// faults rose by, up to the end of its 64 bits.
pub fn failures_are_counted<K: Keeper>()
    ensures { (opening after : SessionState K) (lines : List (List ℕ)) (replies : List Reply)
        → Run (telling K.kept K.alien K.faults K.used K.units K.limit) opening lines replies after
        → min (K.faults opening.keeper + count_not_kept replies) (2 ^ 64 - 1) ≤ K.faults after.keeper }
{
    refusal_laws();
}

/// At each line of a run `journal_full` comes exactly where the keeper of that moment has no room for the
/// line's change, but for want of memory. The keeper's room is taken by the changes that are kept alone.
pub fn room_is_told<K: Keeper>()
    ensures { (opening after : SessionState K) (earlier later : List (List ℕ)) (line : List ℕ) (given more : List Reply) (reply : Reply)
        → length earlier ≡ length given
        → Run (telling K.kept K.alien K.faults K.used K.units K.limit) opening (earlier ++ line ∷ later) (given ++ reply ∷ more) after
        → ToldWithin (telling K.kept K.alien K.faults K.used K.units K.limit) opening earlier given line reply later more after }
{
    refusal_laws();
}

/// Where keepers have room for each change, no reply is `journal_full`; where they never count a fault, none is
/// `not_kept`.
pub fn ready_keepers_keep_all<K: Keeper>()
    ensures room { ((keeper : K) (change : Change)
        → HasNoRoom (telling K.kept K.alien K.faults K.used K.units K.limit) keeper change → ⊥)
        → (opening after : SessionState K) (lines : List (List ℕ)) (replies : List Reply)
        → Run (telling K.kept K.alien K.faults K.used K.units K.limit) opening lines replies after
        → NeverRefused refusals.JournalFull replies }
    ensures kept { (count : ℕ) → count < 2 ^ 64 - 1 → ((keeper : K) → K.faults keeper ≡ count)
        → (opening after : SessionState K) (lines : List (List ℕ)) (replies : List Reply)
        → Run (telling K.kept K.alien K.faults K.used K.units K.limit) opening lines replies after
        → NeverRefused refusals.NotKept replies }
{
    refusal_laws();
}

/// No reply of a session over a library in memory is `journal_full` or `not_kept`.
pub fn memory_keeps_all()
    ensures room { (opening after : SessionState QuietKeeper) (lines : List (List ℕ)) (replies : List Reply)
        → Run (telling ⟦<QuietKeeper as Keeper>⟧.kept ⟦<QuietKeeper as Keeper>⟧.alien ⟦<QuietKeeper as Keeper>⟧.faults
        ⟦<QuietKeeper as Keeper>⟧.used ⟦<QuietKeeper as Keeper>⟧.units ⟦<QuietKeeper as Keeper>⟧.limit)
        opening lines replies after
        → NeverRefused refusals.JournalFull replies }
    ensures kept { (opening after : SessionState QuietKeeper) (lines : List (List ℕ)) (replies : List Reply)
        → Run (telling ⟦<QuietKeeper as Keeper>⟧.kept ⟦<QuietKeeper as Keeper>⟧.alien ⟦<QuietKeeper as Keeper>⟧.faults
        ⟦<QuietKeeper as Keeper>⟧.used ⟦<QuietKeeper as Keeper>⟧.units ⟦<QuietKeeper as Keeper>⟧.limit)
        opening lines replies after
        → NeverRefused refusals.NotKept replies }
{
    ready_keepers_keep_all::<QuietKeeper>();
}
