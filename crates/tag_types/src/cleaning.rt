ghost use Rattle.std.specs.Prelude.{◌≡◌, ◌<◌, ◌≤◌, ℕ, None, Some, Ok, Err, ◌∷◌, List, IfOk, length, string_bytes, string_len};
ghost use Rattle.tag_types.specs.declared.limits.TheConstants.{MAX_TAG_BYTES};
ghost use Rattle.tag_types.specs.Cleaning.{tag_of};
ghost use Rattle.tag_types.specs.Following.{with_following};

use crate::limits::MAX_TAG_BYTES;
use crate::tag_text::TagText;
use media_types::NoMemory;
use std::alloc::{AllocError, Global};

/// Why a text isn't cleaned to a tag.
#[derive(Clone, Copy, Debug, PartialEq, Eq, Hash)]
pub enum CleanFail {
    /// What is left of the text is empty, or more than `MAX_TAG_BYTES` bytes.
    BadTag,
    NoMemory,
}

impl From<NoMemory> for CleanFail {
    ghost use Rattle.std.specs.Prelude.{◌≡◌};
    ghost use Rattle.tag_types.specs.declared.cleaning.CleanFail.TheVariants as fails;

    ghost from_gives = { λ _ fail. fail ≡ fails.NoMemory };

    fn from(_error: NoMemory) -> CleanFail {
        CleanFail::NoMemory
    }
}

impl From<AllocError> for CleanFail {
    ghost use Rattle.std.specs.Prelude.{◌≡◌};
    ghost use Rattle.tag_types.specs.declared.cleaning.CleanFail.TheVariants as fails;

    ghost from_gives = { λ _ fail. fail ≡ fails.NoMemory };

    fn from(_error: AllocError) -> CleanFail {
        CleanFail::NoMemory
    }
}

/// The tag that a text says. White space at both ends is cut, each run of it inside becomes one space,
/// and A to Z become a to z; all else stays. White space is what Unicode's `White_Space` names.
///
/// It reads the text up to the first character that makes the tag too long, and takes memory for the tag
/// alone.
pub fn clean(alloc: Global, text: &str) -> Result<TagText, CleanFail>
    ensures tag { IfOk result (λ tag. tag_of text.now ≡ Some tag) }
    ensures bad { result ≡ Err CleanFail.BadTag → tag_of text.now ≡ None }
{
    let mut cleaned = String::new(alloc);
    let mut is_apart = false;
    for c in text.chars() {
        is_apart = take_char(&mut cleaned, is_apart, c)?;
    }
    if cleaned.is_empty() {
        return Err(CleanFail::BadTag);
    }
    Ok(TagText { text: cleaned })
}

/// Takes the next character of a text to what is cleaned of it so far. `is_apart` tells whether white
/// space stands between what is cleaned and the character; it returns the same for the next one.
fn take_char(cleaned: &mut String, is_apart: bool, c: char) -> Result<bool, CleanFail>
    requires { string_len cleaned.old ≤ MAX_TAG_BYTES }
    ensures few { string_len cleaned.new ≤ MAX_TAG_BYTES }
    ensures taken { IfOk result (λ apart. (more : List ℕ)
        → with_following (string_bytes cleaned.new) apart more
        ≡ with_following (string_bytes cleaned.old) is_apart (c ∷ more)) }
    ensures bad { result ≡ Err CleanFail.BadTag → (more : List ℕ)
        → MAX_TAG_BYTES < length (with_following (string_bytes cleaned.old) is_apart (c ∷ more)) }
{
    if c.is_whitespace() {
        return Ok(!cleaned.is_empty());
    }
    let letter = c.to_ascii_lowercase();
    if cleaned.len() + usize::from(is_apart) + letter.len_utf8() > MAX_TAG_BYTES {
        return Err(CleanFail::BadTag);
    }
    if is_apart {
        cleaned.push(' ')?;
    }
    cleaned.push(letter)?;
    Ok(false)
}
