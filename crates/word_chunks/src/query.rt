ghost use Rattle.std.specs.Prelude.{◌≡◌, ◌<◌, ◌++◌, OnOk};
ghost use Rattle.media_types.specs.Distance.{distance_of};
ghost use Rattle.word_chunks.specs.Telling.{told};

use crate::chunk::is_first_near;
use media_types::{Hash64, HashNo, NoMemory, distance};

/// What is searched for among the values of one chunk, 0 to 3.
#[derive(Clone, Copy)]
pub struct Query {
    pub word: Hash64,
    pub within: u32,
    pub chunk: u32,
}

impl Query {
    /// Tells a word where it is near, and no chunk before is.
    pub fn tell(
        self,
        number: u32,
        word: Hash64,
        hits: &mut Vec<(HashNo, u32)>,
    ) -> Result<(), NoMemory>
        requires { self.chunk < 4 }
        ensures { OnOk result (hits.new.items
            ≡ hits.old.items ++ told self.chunk self.word self.within ((0, number), word)) }
    {
        let away = distance(self.word, word);
        if away <= self.within && is_first_near(self.word, word, self.chunk, self.within / 4) {
            hits.push((HashNo(number), away))?;
        }
        Ok(())
    }
}
