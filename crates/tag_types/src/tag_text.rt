ghost use Rattle.std.specs.Prelude.{◌≡◌, ◌↔◌, IsTrue, IfOk};
ghost use Rattle.tag_types.specs.Cleaning.{IsTag};

use media_types::NoMemory;
use std::alloc::Global;
use std::hash::{Hash, Hasher};
use std::marker::Model;

/// A tag: a text that is cleaned, so of 1 to `MAX_TAG_BYTES` bytes. Contracts see its bytes, in UTF-8.
///
/// Only `clean` makes one of a text, so no table and no change ever holds a tag that isn't cleaned.
#[derive(Debug, Drop)]
pub struct TagText {
    pub(crate) text: String,
}

impl Model for TagText {
    ghost use Rattle.std.specs.Prelude.{List, ℕ, string_bytes};
    ghost use Rattle.tag_types.specs.Cleaning.{IsTag};

    ghost Value = { List ℕ };

    ghost view = { λ tag. string_bytes tag.text };

    ghost invariant = { λ tag. IsTag (string_bytes tag.text) };
}

impl TagText {
    pub fn as_str(&self) -> &str
        ensures text { result.now ≡ self.now }
        ensures tag { IsTag self.now }
    {
        self.text.as_str()
    }

    /// In UTF-8.
    pub fn as_bytes(&self) -> &[u8]
        ensures bytes { result.now ≡ self.now }
        ensures tag { IsTag self.now }
    {
        self.text.as_bytes()
    }

    /// The same once more. It takes memory for its bytes alone.
    pub fn copied(&self, alloc: Global) -> Result<TagText, NoMemory>
        ensures { IfOk result (λ tag. tag ≡ self.now) }
    {
        Ok(TagText {
            text: String::from_str(alloc, self.text.as_str())?,
        })
    }
}

impl PartialEq for TagText {
    ghost use Rattle.std.specs.Prelude.{bytes_eq};
    ghost use Rattle.std.specs.Cmp.{partial_equiv_from_equiv};
    ghost use Rattle.std.specs.Cmp.Lexicographic.{nat_list_eq_equiv};

    ghost eq = { bytes_eq };

    ghost laws = { partial_equiv_from_equiv nat_list_eq_equiv };

    fn eq(&self, other: &TagText) -> bool
        ensures value { result ≡ bytes_eq self.now other.now }
        ensures same { IsTrue result ↔ (self.now ≡ other.now) }
    {
        self.text == other.text
    }
}

impl Eq for TagText {
    ghost use Rattle.std.specs.Cmp.Lexicographic.{nat_list_eq_equiv};

    ghost laws = { nat_list_eq_equiv };
}

impl Hash for TagText {
    ghost use Rattle.std.specs.Hash as fed;
    ghost use Rattle.tag_types.specs.Equality.{tags-alike};

    ghost hash_input = { fed.str };

    ghost respects_eq = { tags-alike };

    fn hash<H: Hasher>(&self, state: &mut H) {
        self.text.hash(state);
    }
}
