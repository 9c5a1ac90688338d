ghost use Rattle.std.specs.Prelude.{◌≡◌, ◌≤◌, ◌⊎◌, ℕ, List, [], ◌++◌, Option, IfOk, IfErr, OnOk, OnErr};
ghost use Rattle.media_types.specs.Cause.{HasCause, Rose, failed};
ghost use Rattle.media_base.specs.Transfer.{Gathered, Took, TookFront};
ghost use Rattle.media_tool.specs.Feeding.{Fed, FedKept, LineSent, Stopped, TookBehind};
ghost use Rattle.media_tool.specs.Kept.{Keeps, kept_of};
ghost use Rattle.media_tool.specs.Lines.{HasNoFeed, with_feed};
ghost use Rattle.media_tool.specs.Run.{LineAnswered, SessionState, state_of, telling};
ghost use Rattle.media_tool.specs.Session.{Played};

use crate::kept_line::KeptLine;
use crate::lines::split_line;
use command_text::{long_line_laws, read_line};
use library_core::Library;
use media_base::{Caller, Failed, Gather, Keeper, Reply, Sink, Status, Steps};
use reply_text::put_reply_line;
use std::alloc::Global;
use std::sync::ledger::Ledger;

/// A session between two pieces of its input.
#[derive(Drop)]
pub struct Session<K: Keeper> {
    pub library: Library<K>,
    pub line: KeptLine,
}

// The reply to one line.
fn reply_to<K: Keeper, L: Ledger>(
    alloc: Global,
    library: &mut Library<K>,
    line: &[u8],
    steps: &mut Steps<L>,
) -> Reply
    ensures { LineAnswered (telling K.kept K.alien K.faults K.used K.units K.limit) (state_of library.old) line.now result
        (state_of library.new) }
{
    let command = read_line(alloc, line)?;
    library.answer(Caller::Console, &command, steps)
}

// Answers one line. The reply goes behind what is gathered.
fn answer_line<W: Sink, K: Keeper, L: Ledger>(
    alloc: Global,
    library: &mut Library<K>,
    line: &[u8],
    gather: &mut Gather,
    sink: &mut W,
    steps: &mut Steps<L>,
) -> Result<(), Failed>
    ensures cause { HasCause (W.faults sink.old) (W.faults sink.new) failed result }
    ensures sent { LineSent (telling K.kept K.alien K.faults K.used K.units K.limit) (state_of library.old) line.now
        (state_of library.new) (Gathered (W.taken sink.old) gather.old (W.taken sink.new) gather.new)
        (TookBehind (W.taken sink.old) gather.old (W.taken sink.new)) result }
{
    let reply = reply_to(alloc, library, line, steps);
    put_reply_line(&reply, gather, sink)
}

impl<K: Keeper> Session<K> {
    /// A session that has been given nothing yet. The library comes back where there is no room for a line.
    pub fn new(alloc: Global, library: Library<K>) -> Result<Session<K>, Library<K>>
        ensures library { IfOk result (λ session. session.library ≡ library) }
        ensures line { IfOk result (λ session. session.line ≡ []) }
        ensures back { IfErr result (λ other. other ≡ library) }
    {
        match KeptLine::new(alloc) {
            Ok(line) => Ok(Session { library, line }),
            Err(_) => Err(library),
        }
    }

    /// Answers the lines that the piece ends, and keeps what comes behind them. The replies are gathered, and
    /// all are written before it returns.
    pub fn feed<W: Sink, L: Ledger>(
        &mut self,
        alloc: Global,
        piece: &[u8],
        sink: &mut W,
        steps: &mut Steps<L>,
    ) -> Result<(), Failed>
        ensures cause { HasCause (W.faults sink.old) (W.faults sink.new) failed result }
        // Whatever line it keeps these bytes of.
        ensures fed { OnOk result ((line : List ℕ) → Keeps self.old.line line
            → FedKept (telling K.kept K.alien K.faults K.used K.units K.limit) (state_of self.old.library) line piece.now
            (state_of self.new.library) self.new.line (Took (W.taken sink.old) (W.taken sink.new))) }
        ensures stopped { OnErr result ((line : List ℕ) → Keeps self.old.line line
            → Stopped (telling K.kept K.alien K.faults K.used K.units K.limit) (state_of self.old.library) line piece.now
            (state_of self.new.library) (TookFront (W.taken sink.old) (W.taken sink.new))) }
    {
        let mut gather = Gather::new();
        self.answer_lines(alloc, piece, &mut gather, sink, steps)?;
        gather.flush(sink)
    }

    /// Answers the line that is left at the end of the input, if it isn't empty.
    pub fn finish<W: Sink, L: Ledger>(
        &mut self,
        alloc: Global,
        sink: &mut W,
        steps: &mut Steps<L>,
    ) -> Status
        ensures later { W.faults sink.old ≤ W.faults sink.new }
        ensures write { result ≡ Status.WriteFault → Rose (W.faults sink.old) (W.faults sink.new) }
        ensures either { (result ≡ Status.Done) ⊎ (result ≡ Status.WriteFault) }
        ensures ends { (opening : SessionState K) (given : List ℕ) (taken : Option (List ℕ))
            → FedKept (telling K.kept K.alien K.faults K.used K.units K.limit) opening [] given (state_of self.old.library) self.old.line
            (Took taken (W.taken sink.old))
            → Played (telling K.kept K.alien K.faults K.used K.units K.limit) result opening (state_of self.new.library)
            given taken (W.taken sink.new) }
    {
        if self.line.is_empty() {
            return Status::Done;
        }
        match self.send_kept(alloc, sink, steps) {
            Ok(()) => Status::Done,
            Err(_) => Status::WriteFault,
        }
    }

    // Answers the lines that the piece ends, and keeps what comes behind them. The replies go behind what is gathered.
    fn answer_lines<W: Sink, L: Ledger>(
        &mut self,
        alloc: Global,
        piece: &[u8],
        gather: &mut Gather,
        sink: &mut W,
        steps: &mut Steps<L>,
    ) -> Result<(), Failed>
        ensures cause { HasCause (W.faults sink.old) (W.faults sink.new) failed result }
        ensures fed { OnOk result ((line : List ℕ) → Keeps self.old.line line
            → FedKept (telling K.kept K.alien K.faults K.used K.units K.limit) (state_of self.old.library) line piece.now
            (state_of self.new.library) self.new.line
            (Gathered (W.taken sink.old) gather.old (W.taken sink.new) gather.new)) }
        ensures stopped { OnErr result ((line : List ℕ) → Keeps self.old.line line
            → Stopped (telling K.kept K.alien K.faults K.used K.units K.limit) (state_of self.old.library) line piece.now
            (state_of self.new.library) (TookBehind (W.taken sink.old) gather.old (W.taken sink.new))) }
    {
        let mut rest = piece;
        while let Some((line, after)) = split_line(rest) {
            self.end_line(alloc, line, gather, sink, steps)?;
            rest = after;
        }
        self.line.keep(rest);
        Ok(())
    }

    // Answers the kept line, which these bytes finish. A line that came in one piece isn't copied.
    fn end_line<W: Sink, L: Ledger>(
        &mut self,
        alloc: Global,
        front: &[u8],
        gather: &mut Gather,
        sink: &mut W,
        steps: &mut Steps<L>,
    ) -> Result<(), Failed>
        requires { HasNoFeed front.now }
        ensures empty { OnOk result (self.new.line ≡ []) }
        ensures cause { HasCause (W.faults sink.old) (W.faults sink.new) failed result }
        ensures fed { OnOk result ((line : List ℕ) → Keeps self.old.line line
            → Fed (telling K.kept K.alien K.faults K.used K.units K.limit) (state_of self.old.library) line (with_feed front.now)
            (state_of self.new.library) [] (Gathered (W.taken sink.old) gather.old (W.taken sink.new) gather.new)) }
        ensures stopped { OnErr result ((line more : List ℕ) → Keeps self.old.line line
            → Stopped (telling K.kept K.alien K.faults K.used K.units K.limit) (state_of self.old.library) line (with_feed front.now ++ more)
            (state_of self.new.library) (TookBehind (W.taken sink.old) gather.old (W.taken sink.new))) }
    {
        if self.line.is_empty() {
            answer_line(alloc, &mut self.library, front, gather, sink, steps)?;
        } else {
            self.line.keep(front);
            self.answer_kept(alloc, gather, sink, steps)?;
        }
        Ok(())
    }

    // Answers the kept line, and the reply is written.
    fn send_kept<W: Sink, L: Ledger>(
        &mut self,
        alloc: Global,
        sink: &mut W,
        steps: &mut Steps<L>,
    ) -> Result<(), Failed>
        ensures cause { HasCause (W.faults sink.old) (W.faults sink.new) failed result }
        ensures sent { (line : List ℕ) → self.old.line ≡ kept_of line
            → LineSent (telling K.kept K.alien K.faults K.used K.units K.limit) (state_of self.old.library) line
            (state_of self.new.library) (Took (W.taken sink.old) (W.taken sink.new))
            (TookFront (W.taken sink.old) (W.taken sink.new)) result }
    {
        let mut gather = Gather::new();
        self.answer_kept(alloc, &mut gather, sink, steps)?;
        gather.flush(sink)
    }

    // Answers the kept line. By its front, a line that is too long is refused as it is by all its bytes.
    fn answer_kept<W: Sink, L: Ledger>(
        &mut self,
        alloc: Global,
        gather: &mut Gather,
        sink: &mut W,
        steps: &mut Steps<L>,
    ) -> Result<(), Failed>
        ensures cause { HasCause (W.faults sink.old) (W.faults sink.new) failed result }
        ensures sent { (line : List ℕ) → self.old.line ≡ kept_of line
            → LineSent (telling K.kept K.alien K.faults K.used K.units K.limit) (state_of self.old.library) line
            (state_of self.new.library) (Gathered (W.taken sink.old) gather.old (W.taken sink.new) gather.new)
            (TookBehind (W.taken sink.old) gather.old (W.taken sink.new)) result }
        ensures empty { OnOk result (self.new.line ≡ []) }
        ensures same { OnErr result (self.new.line ≡ self.old.line) }
    {
        long_line_laws();
        answer_line(
            alloc,
            &mut self.library,
            self.line.as_slice(),
            gather,
            sink,
            steps,
        )?;
        self.line.clear();
        Ok(())
    }
}
