ghost use Rattle.std.specs.Prelude.{◌≡◌, ◌↔◌, ◌++◌, [], IfOk, IsTrue};
ghost use Rattle.media_tool.specs.Kept.{kept_of};

use command_text::MAX_LINE;
use media_base::NoMemory;
use std::alloc::Global;
use std::marker::Model;

// One byte more than a line may have.
const MAX_KEPT: usize = MAX_LINE + 1;

/// The line that no line feed ended yet, or the front of it where it is too long. Its room is taken once, so
/// keeping bytes takes no memory.
#[derive(Drop)]
pub struct KeptLine {
    bytes: Vec<u8>,
}

impl Model for KeptLine {
    ghost use Rattle.std.specs.Prelude.{◌+◌, ◌≤◌, ℕ, List, length, vec_capacity};
    ghost use Rattle.command_text.specs.declared.request.TheConstants.{MAX_LINE};

    ghost Value = { List ℕ };

    ghost view = { λ line. line.bytes.items };

    ghost invariant = { λ line. (length line.bytes.items ≤ MAX_LINE + 1) × (MAX_LINE + 1 ≤ vec_capacity line.bytes) };
}

impl KeptLine {
    /// An empty line, with room for all that is kept of any.
    pub fn new(alloc: Global) -> Result<KeptLine, NoMemory>
        ensures { IfOk result (λ line. line ≡ []) }
    {
        Ok(KeptLine {
            bytes: Vec::with_capacity(alloc, MAX_KEPT)?,
        })
    }

    pub fn is_empty(&self) -> bool
        ensures { IsTrue result ↔ (self.now ≡ []) }
    {
        self.bytes.is_empty()
    }

    pub fn as_slice(&self) -> &[u8]
        ensures { result.now ≡ self.now }
    {
        &self.bytes
    }

    /// Keeps bytes of the line, as far as a line may go and one byte more.
    pub fn keep(&mut self, bytes: &[u8])
        ensures { self.new ≡ kept_of (self.old ++ bytes.now) }
    {
        let room = MAX_KEPT - self.bytes.len();
        let front = &bytes[..room.min(bytes.len())];
        match self.bytes.extend_from_slice(front) {
            Ok(()) => {}
            Err(_) => unreachable!(),
        }
    }

    pub fn clear(&mut self)
        ensures { self.new ≡ [] }
    {
        self.bytes.clear();
    }
}
