ghost use Rattle.std.specs.Prelude.{◌≡◌, ◌≤◌, ℕ, List, length, Some, IsUtf8};
ghost use Rattle.tag_types.specs.declared.limits.TheConstants.{MAX_TAG_BYTES};
ghost use Rattle.tag_types.specs.Cleaning.{tag_of};

/// What holds of the tags of all texts. The call does nothing.
pub fn cleaning_laws()
    // A cleaned tag, cleaned once more, is itself.
    ensures again { (text tag : List ℕ) → IsUtf8 text → tag_of text ≡ Some tag → tag_of tag ≡ Some tag }

    ensures some { (text tag : List ℕ) → tag_of text ≡ Some tag → 1 ≤ length tag }
    ensures few { (text tag : List ℕ) → tag_of text ≡ Some tag → length tag ≤ MAX_TAG_BYTES }
{}
