//! Where the text of a reply goes.

ghost use Rattle.reply_text.specs.Putting.{GathersBehind, Counts};
ghost use Rattle.reply_text.specs.PuttingLaws.{gathers_nothing, gathers_both, gathers_no_more, counts_nothing, counts_both, counts_no_more};

use media_base::{Failed, Gather, Sink};

/// Where the pieces of a text go, one behind the other, and what they go on to from there.
pub trait Out<W> {
    ghost use Rattle.std.specs.Prelude.{ℕ, List, [], ◌++◌, Ok, Err};
    ghost use Rattle.std.specs.Result.{IsErr};
    ghost use Rattle.media_types.specs.declared.fault.Failed.{Failed};
    ghost use Rattle.reply_text.specs.Putting.{Outcome};

    /// What becomes of both where this text is put.
    ghost Puts: { Self → W → Self → W → List ℕ → Outcome → Type 0 };

    fn put(&mut self, piece: &[u8], sink: &mut W) -> Result<(), Failed>
        ensures { Puts self.old sink.old self.new sink.new piece.now result };

    /// No text leaves both as they were.
    ghost nothing: { (a : Self) (s : W) → Puts a s a s [] (Ok tt) };

    /// One text and then another are both texts.
    ghost both: { (a b c : Self) (s t u : W) (first second : List ℕ) (result : Outcome)
        → Puts a s b t first (Ok tt) → Puts b t c u second result → Puts a s c u (first ++ second) result };

    /// Where a text fails, it fails with more behind it.
    ghost stops: { (a b : Self) (s t : W) (first second : List ℕ) (error : Failed) (result : Outcome)
        → IsErr result → Puts a s b t first (Err error) → Puts a s b t (first ++ second) result };
}

impl<W: Sink> Out<W> for Gather {
    ghost Puts = { λ held sink now after text result. GathersBehind (W.faults sink) (W.faults after) (W.taken sink) held (W.taken after) now text result };

    fn put(&mut self, piece: &[u8], sink: &mut W) -> Result<(), Failed> {
        Gather::put(self, piece, sink)
    }

    ghost nothing = { λ held sink. gathers_nothing (W.faults sink) (W.taken sink) held };

    ghost both = { λ held now last before between after first second result.
        gathers_both (W.faults before) (W.faults between) (W.faults after) (W.taken before) (W.taken between) (W.taken after) held now last first second result };

    ghost stops = { λ held now before after first second error result.
        gathers_no_more (W.faults before) (W.faults after) (W.taken before) (W.taken after) held now first second error result };
}

/// Counts bytes, up to the greatest count.
#[derive(Clone, Copy)]
pub struct Count(pub u64);

impl Out<()> for Count {
    ghost Puts = { λ count _ now _ text result. Counts count.0 now.0 text result };

    fn put(&mut self, piece: &[u8], _sink: &mut ()) -> Result<(), Failed> {
        self.0 = self.0.saturating_add(piece.len() as u64);
        Ok(())
    }

    ghost nothing = { λ count _. counts_nothing count.0 };

    ghost both = { λ before between after _ _ _ first second result.
        counts_both before.0 between.0 after.0 first second result };

    ghost stops = { λ before after _ _ first second error result.
        counts_no_more before.0 after.0 first second error result };
}
