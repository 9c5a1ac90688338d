ghost use Rattle.std.specs.Prelude.{◌≡◌, ◌<◌};
ghost use Rattle.word_chunks.specs.Chunks.{chunk, chunk_distance};
ghost use Rattle.word_chunks.specs.Telling.{is_first};

use media_types::Hash64;

/// The chunk of this number, 0 to 3, from the lowest bits on.
pub fn chunk_of(word: Hash64, c: u32) -> u16
    requires { c < 4 }
    ensures { result ≡ chunk c word }
{
    ((word.0 >> (16 * c)) % 65536) as u16
}

fn chunk_away(x: Hash64, y: Hash64, c: u32) -> u32
    requires { c < 4 }
    ensures { result ≡ chunk_distance c x y }
{
    (chunk_of(x, c) ^ chunk_of(y, c)).count_ones()
}

/// Whether no chunk before this one is within so many bits.
pub fn is_first_near(query: Hash64, word: Hash64, c: u32, bits: u32) -> bool
    requires { c < 4 }
    ensures { result ≡ is_first c bits query word }
{
    if c == 0 {
        return true;
    }
    bits < chunk_away(query, word, c - 1) && is_first_near(query, word, c - 1, bits)
}
