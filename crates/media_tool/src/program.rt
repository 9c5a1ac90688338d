ghost use Rattle.std.specs.Prelude.{◌≡◌, ◌≢◌, ◌≤◌, ◌↔◌, ℕ, map, string_bytes, IsTrue, true, false, Some, Err};
ghost use Rattle.std.specs.Io.KnownBytes.{IsAtEnd};
ghost use Rattle.media_types.specs.Cause.{Rose};
ghost use Rattle.media_base.specs.Keeping.{Readings};
ghost use Rattle.library_machine.specs.Opening.{opened};
ghost use Rattle.media_tool.specs.Run.{telling};
ghost use Rattle.media_tool.specs.Session.{HasOpened, Plays};
ghost use Rattle.media_tool.specs.Words.{play_words};

use crate::play::play;
use media_base::{Keeper, Sink, Source, Status, Steps};
use std::alloc::Global;
use std::sync::ledger::Ledger;

fn is_play(words: &[String]) -> bool
    ensures { IsTrue result ↔ (map string_bytes words.now ≡ play_words) }
{
    match words {
        [command, path] => command.as_str() == "play" && path.as_str() == "-",
        _ => false,
    }
}

/// Does what the words ask, without the program's own name: `play -` opens a library over the keeper and
/// answers the lines of the source. The keeper comes back.
pub fn run<S: Source, W: Sink, K: Keeper, L: Ledger>(
    alloc: Global,
    words: &[String],
    source: &mut S,
    sink: &mut W,
    keeper: K,
    steps: &mut Steps<L>,
) -> (Status, K)
    // The sink took, and the keeper keeps, what this status promises for the bytes that the source gave.
    ensures plays { Plays (telling K.kept K.alien K.faults K.used K.units K.limit)
        (K.gives keeper) keeper result.1 result.0
        (S.left source.old) (S.left source.new) (W.taken sink.old) (W.taken sink.new) }
    ensures done { result.0 ≡ Status.Done → IsAtEnd (S.left source.new) }

    // Where no library opened, nothing is read or written.
    ensures unread { (HasOpened result.0 → ⊥) → (source.new ≡ source.old) × (sink.new ≡ sink.old) }

    // Each other status has its cause.
    ensures usage { (result.0 ≡ Status.Usage) ↔ (map string_bytes words.now ≢ play_words) }
    ensures untouched { result.0 ≡ Status.Usage
        → (source.new ≡ source.old) × (sink.new ≡ sink.old) × (result.1 ≡ keeper) }
    ensures later_read { S.faults source.old ≤ S.faults source.new }
    ensures later_write { W.faults sink.old ≤ W.faults sink.new }
    ensures later_store { K.faults keeper ≤ K.faults result.1 }
    ensures read { result.0 ≡ Status.ReadFault → Rose (S.faults source.old) (S.faults source.new) }
    ensures write { result.0 ≡ Status.WriteFault → Rose (W.faults sink.old) (W.faults sink.new) }
    ensures store { result.0 ≡ Status.StoreFault → Rose (K.faults keeper) (K.faults result.1) }
    ensures bad { (readings : Readings) (n : ℕ) → K.gives keeper ≡ Some readings
        → result.0 ≡ Status.BadStore n → opened readings ≡ Err n }
    ensures bad_own { (n : ℕ) → result.0 ≡ Status.BadStore n → K.alien keeper ≢ Some true }
    ensures alien { result.0 ≡ Status.AlienStore → K.alien keeper ≢ Some false }
{
    if is_play(words) {
        play(alloc, source, sink, keeper, steps)
    } else {
        (Status::Usage, keeper)
    }
}
