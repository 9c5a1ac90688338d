ghost use Rattle.std.specs.Prelude.{◌≡◌, ◌≢◌, ◌<◌, ◌≤◌, ℕ, [], length, true, false, Some, Err, IfOk, MatchResult};
ghost use Rattle.std.specs.Io.KnownBytes.{IsAtEnd};
ghost use Rattle.library_machine.specs.Opening.{opened};
ghost use Rattle.media_types.specs.Cause.{HasCause, Rose, failed};
ghost use Rattle.media_base.specs.Keeping.{Readings};
ghost use Rattle.media_base.specs.Transfer.{GaveFront};
ghost use Rattle.media_tool.specs.Run.{state_of, telling};
ghost use Rattle.media_tool.specs.Session.{HasOpened, HasRun, Plays, PlaysFrom, load_status};
ghost use Rattle.media_tool.specs.declared.play.TheConstants.{PIECE};

use crate::session::Session;
use library_core::{Library, LoadFail};
use media_base::{Failed, Keeper, Sink, Source, Status, Steps};
use std::alloc::Global;
use std::sync::ledger::Ledger;

/// The most bytes that a session takes: 1 GiB.
pub const MAX_INPUT: usize = 1_073_741_824;

/// How many bytes are read at once.
pub const PIECE: usize = 65_536;

// Reads into the front of the chunk.
fn read_front<S: Source>(source: &mut S, chunk: &mut [u8], most: usize) -> Result<usize, Failed>
    requires some { 0 < most }
    requires fits { most ≤ length chunk.old }
    ensures cause { HasCause (S.faults source.old) (S.faults source.new) failed result }
    ensures most { IfOk result (λ count. count ≤ most) }
    ensures reads { MatchResult result (GaveFront (S.left source.old) (S.left source.new) chunk.new)
        (λ _. S.left source.new ≡ S.left source.old) }
{
    source.read(&mut chunk[..most])
}

// Answers what the source gives, piece by piece.
fn play_pieces<S: Source, W: Sink, K: Keeper, L: Ledger>(
    alloc: Global,
    session: &mut Session<K>,
    chunk: &mut [u8],
    source: &mut S,
    sink: &mut W,
    steps: &mut Steps<L>,
) -> Status
    requires line { session.old.line ≡ [] }
    requires chunk { length chunk.old ≡ PIECE }
    ensures plays { PlaysFrom (telling K.kept K.alien K.faults K.used K.units K.limit) (state_of session.old.library)
        (state_of session.new.library)
        result (S.left source.old) (S.left source.new) (W.taken sink.old) (W.taken sink.new) }
    ensures done { result ≡ Status.Done → IsAtEnd (S.left source.new) }
    ensures ran { HasOpened result }
    ensures later_read { S.faults source.old ≤ S.faults source.new }
    ensures later_write { W.faults sink.old ≤ W.faults sink.new }
    ensures read { result ≡ Status.ReadFault → Rose (S.faults source.old) (S.faults source.new) }
    ensures write { result ≡ Status.WriteFault → Rose (W.faults sink.old) (W.faults sink.new) }
{
    let mut room = MAX_INPUT;
    while room > 0 {
        match read_front(source, chunk, room.min(PIECE)) {
            Ok(0) => return session.finish(alloc, sink, steps),
            Ok(count) => {
                match session.feed(alloc, &chunk[..count], sink, steps) {
                    Ok(()) => {}
                    Err(_) => return Status::WriteFault,
                }
                room -= count;
            }
            Err(_) => return Status::ReadFault,
        }
    }
    match read_front(source, chunk, 1) {
        Ok(0) => session.finish(alloc, sink, steps),
        Ok(_) => Status::InputTooLong,
        Err(_) => Status::ReadFault,
    }
}

// Answers the lines of the source, in a session that has answered none yet.
fn play_session<S: Source, W: Sink, K: Keeper, L: Ledger>(
    alloc: Global,
    session: &mut Session<K>,
    source: &mut S,
    sink: &mut W,
    steps: &mut Steps<L>,
) -> Status
    requires { session.old.line ≡ [] }
    ensures plays { PlaysFrom (telling K.kept K.alien K.faults K.used K.units K.limit) (state_of session.old.library)
        (state_of session.new.library)
        result (S.left source.old) (S.left source.new) (W.taken sink.old) (W.taken sink.new) }
    ensures done { result ≡ Status.Done → IsAtEnd (S.left source.new) }
    ensures ran { HasRun result }
    ensures unread { (HasOpened result → ⊥) → (source.new ≡ source.old) × (sink.new ≡ sink.old) }
    ensures later_read { S.faults source.old ≤ S.faults source.new }
    ensures later_write { W.faults sink.old ≤ W.faults sink.new }
    ensures read { result ≡ Status.ReadFault → Rose (S.faults source.old) (S.faults source.new) }
    ensures write { result ≡ Status.WriteFault → Rose (W.faults sink.old) (W.faults sink.new) }
{
    match vec![in alloc; 0; PIECE] {
        Ok(mut chunk) => play_pieces(alloc, session, &mut chunk, source, sink, steps),
        Err(_) => Status::NoMemory,
    }
}

// How a session ends whose library doesn't open.
fn status_of(fail: LoadFail) -> Status
    ensures { result ≡ load_status fail }
{
    match fail {
        LoadFail::StoreFault => Status::StoreFault,
        LoadFail::NoMemory => Status::NoMemory,
        LoadFail::BadStore(number) => Status::BadStore(number),
        LoadFail::AlienStore => Status::AlienStore,
    }
}

/// Opens a library over the keeper and answers the lines of the source. The keeper comes back.
pub fn play<S: Source, W: Sink, K: Keeper, L: Ledger>(
    alloc: Global,
    source: &mut S,
    sink: &mut W,
    keeper: K,
    steps: &mut Steps<L>,
) -> (Status, K)
    ensures plays { Plays (telling K.kept K.alien K.faults K.used K.units K.limit)
        (K.gives keeper) keeper result.1 result.0
        (S.left source.old) (S.left source.new) (W.taken sink.old) (W.taken sink.new) }
    ensures done { result.0 ≡ Status.Done → IsAtEnd (S.left source.new) }
    ensures ran { result.0 ≢ Status.Usage }
    ensures unread { (HasOpened result.0 → ⊥) → (source.new ≡ source.old) × (sink.new ≡ sink.old) }
    ensures later_read { S.faults source.old ≤ S.faults source.new }
    ensures later_write { W.faults sink.old ≤ W.faults sink.new }
    ensures later_store { K.faults keeper ≤ K.faults result.1 }
    ensures read { result.0 ≡ Status.ReadFault → Rose (S.faults source.old) (S.faults source.new) }
    ensures write { result.0 ≡ Status.WriteFault → Rose (W.faults sink.old) (W.faults sink.new) }
    ensures store { result.0 ≡ Status.StoreFault → Rose (K.faults keeper) (K.faults result.1) }
    ensures bad { (readings : Readings) (n : ℕ) → K.gives keeper ≡ Some readings
        → result.0 ≡ Status.BadStore n → opened readings ≡ Err n }
    ensures bad_own { (n : ℕ) → result.0 ≡ Status.BadStore n → K.alien keeper ≢ Some true }
    ensures alien { result.0 ≡ Status.AlienStore → K.alien keeper ≢ Some false }
{
    match Library::load(alloc, keeper, steps) {
        Ok(library) => match Session::new(alloc, library) {
            Ok(session) => {
                let mut session = session;
                let status = play_session(alloc, &mut session, source, sink, steps);
                (status, session.library.release())
            }
            Err(library) => (Status::NoMemory, library.release()),
        },
        Err((fail, keeper)) => (status_of(fail), keeper),
    }
}
