ghost use Rattle.std.specs.Prelude.{◌≡◌, ◌≤◌, length, IfOk};
ghost use Rattle.word_chunks.specs.Masks.{masks_below};

use media_types::NoMemory;
use std::alloc::Global;

/// The values of a chunk by the bits that they have, made once: what turns few bits of another value.
#[derive(Drop)]
pub struct Masks {
    of_none: Vec<u16>,
    of_one: Vec<u16>,
    of_two: Vec<u16>,
    of_three: Vec<u16>,
    of_four: Vec<u16>,
    ghost none: { of_none.items ≡ masks_below 0 65536 },
    ghost one: { of_one.items ≡ masks_below 1 65536 },
    ghost two: { of_two.items ≡ masks_below 2 65536 },
    ghost three: { of_three.items ≡ masks_below 3 65536 },
    ghost four: { of_four.items ≡ masks_below 4 65536 },
}

impl Masks {
    pub fn new(alloc: Global) -> Result<Masks, NoMemory> {
        Ok(Masks {
            of_none: masks_within(alloc, 0)?,
            of_one: masks_within(alloc, 1)?,
            of_two: masks_within(alloc, 2)?,
            of_three: masks_within(alloc, 3)?,
            of_four: masks_within(alloc, 4)?,
        })
    }

    /// The values of at most so many bits, ascending.
    pub fn within(&self, bits: u8) -> &[u16]
        requires { bits ≤ 4 }
        ensures { result.now ≡ masks_below bits 65536 }
    {
        match bits {
            0 => &self.of_none,
            1 => &self.of_one,
            2 => &self.of_two,
            3 => &self.of_three,
            _ => &self.of_four,
        }
    }
}

// The values of a chunk of at most so many bits, ascending.
fn masks_within(alloc: Global, bits: u32) -> Result<Vec<u16>, NoMemory>
    ensures { IfOk result (λ masks. masks.items ≡ masks_below bits 65536) }
{
    let mut masks = Vec::new(alloc);
    for mask in 0u32..65536 {
        if mask.count_ones() <= bits {
            masks.push(mask as u16)?;
        }
    }
    Ok(masks)
}
