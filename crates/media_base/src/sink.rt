ghost use Rattle.std.specs.Prelude.{◌≡◌, ℕ, ◌<◌, List, Option, OnOk, length};
ghost use Rattle.media_types.specs.Cause.{HasCause, failed};
ghost use Rattle.media_base.specs.Transfer.{Writes, Sends};

use media_types::Failed;

/// Where bytes go.
pub trait Sink {
    /// How often it has failed.
    ghost faults: { Self → ℕ };

    /// The bytes that it took, where the sink tells them.
    ghost taken: { Self → Option (List ℕ) };

    /// Takes the front of `piece`, at least one byte of a piece that isn't empty, and says how many.
    fn write(&mut self, piece: &[u8]) -> Result<usize, Failed>
        ensures cause { HasCause (faults self.old) (faults self.new) failed result }
        ensures quiet { OnOk result (faults self.new ≡ faults self.old) }
        ensures writes { Writes (taken self.old) (taken self.new) piece.now result };
}

/// Writes the whole text, in as many writes as the sink wants.
pub fn write_all<W: Sink>(text: &[u8], sink: &mut W) -> Result<(), Failed>
    ensures cause { HasCause (W.faults sink.old) (W.faults sink.new) failed result }
    ensures quiet { OnOk result (W.faults sink.new ≡ W.faults sink.old) }
    ensures sends { Sends (W.taken sink.old) (W.taken sink.new) text.now result }
{
    let mut rest = text;
    while !rest.is_empty() {
        let count = sink.write(rest)?;
        let (_, after) = rest.split_at(count);
        rest = after;
    }
    Ok(())
}
