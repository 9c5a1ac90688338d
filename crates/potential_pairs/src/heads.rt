ghost use Rattle.std.specs.Prelude.{◌≡◌, ◌+◌, min, length};
ghost use Rattle.media_types.specs.declared.limits.TheConstants.{MAX_DISTANCE};
ghost use Rattle.potential_pairs.specs.Levels.{IsLeastHead, IsLesser};

use crate::names::is_before;
use media_types::MAX_DISTANCE;

/// How many distances there are.
pub const LEVELS: usize = MAX_DISTANCE as usize + 1;

/// For each distance the first name that is still to come, where there is any.
pub type Heads = [Option<(u32, u32)>; LEVELS];

/// How many distances there are within one.
pub fn levels_within(at_most: u8) -> u8
    ensures { result ≡ min at_most MAX_DISTANCE + 1 }
{
    at_most.min(MAX_DISTANCE) + 1
}

/// The least of the names, with the distance that it is the head of.
pub fn least_head(heads: &[Option<(u32, u32)>]) -> Option<(usize, (u32, u32))>
    ensures { IsLeastHead heads.now (length heads.now) result }
{
    let mut least = None;
    for (distance, head) in heads.iter().enumerate() {
        least = lesser(least, distance, *head);
    }
    least
}

// The lesser of two heads, with its distance.
fn lesser(
    least: Option<(usize, (u32, u32))>,
    distance: usize,
    head: Option<(u32, u32)>,
) -> Option<(usize, (u32, u32))>
    ensures { IsLesser least distance head result }
{
    match (least, head) {
        (None, Some(name)) => Some((distance, name)),
        (Some((_, first)), Some(name)) if is_before(name, first) => Some((distance, name)),
        _ => least,
    }
}
