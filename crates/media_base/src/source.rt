ghost use Rattle.std.specs.Prelude.{◌≡◌, ℕ, ◌<◌, List, Option, OnOk, length};
ghost use Rattle.media_types.specs.Cause.{HasCause, failed};
ghost use Rattle.media_base.specs.Transfer.{Reads};

use media_types::Failed;

/// Where bytes come from.
pub trait Source {
    /// How often it has failed.
    ghost faults: { Self → ℕ };

    /// The bytes that are left, where the source tells them.
    ghost left: { Self → Option (List ℕ) };

    /// Takes the next bytes into the front of `into`, and says how many. 0 says that the input ended.
    fn read(&mut self, into: &mut [u8]) -> Result<usize, Failed>
        requires { 0 < length into.old }
        ensures cause { HasCause (faults self.old) (faults self.new) failed result }
        ensures quiet { OnOk result (faults self.new ≡ faults self.old) }
        ensures reads { Reads (left self.old) (left self.new) into.new result };
}
