//! Clean tags, and other texts that say them.

use crate::tests::chance::Chance;
use std::alloc::{AllocError, Global};

// A clean tag, as JSON spells it, is one of these words and one of the endings.
const WORDS: [&str; 8] = [
    "zebra",
    "a",
    "été",
    "\\\"quoted\\\"",
    "creator:ann b",
    "x",
    "/1girl",
    "𝄞 q",
];

const ENDINGS: [&str; 5] = ["", " b", " \\\\", " Ünder", "x"];

// White space, as JSON spells it.
const BLANKS: [&str; 7] = [
    " ", "\\t", "\\n", "\\u0085", "\\u2003", "\u{3000}", "\u{a0}",
];

/// Any of 40 clean tags.
pub fn any_tag(alloc: Global, chance: &mut Chance) -> Result<String, AllocError> {
    let word = WORDS[chance.below(8)];
    let ending = ENDINGS[chance.below(5)];
    format!(in alloc; "{word}{ending}")
}

/// One of five of them, or now and then any.
pub fn common_tag(alloc: Global, chance: &mut Chance) -> Result<String, AllocError> {
    match chance.below(12) {
        0 => any_tag(alloc, chance),
        _ => String::from_str(alloc, WORDS[chance.below(5)]),
    }
}

// White space that is cut, or becomes one space.
fn push_blanks(spelled: &mut String, chance: &mut Chance, least: usize) -> Result<(), AllocError> {
    for _ in 0..chance.below(3).saturating_add(least) {
        spelled.push_str(BLANKS[chance.below(7)])?;
    }
    Ok(())
}

// A character of a clean tag. A to Z become a to z.
fn push_said(spelled: &mut String, chance: &mut Chance, c: char) -> Result<(), AllocError> {
    if c == ' ' {
        return push_blanks(spelled, chance, 1);
    }
    if chance.below(2) == 0 {
        return spelled.push(c.to_ascii_uppercase());
    }
    spelled.push(c)
}

/// Another text that says the tag of this clean one.
pub fn spelled(alloc: Global, text: &str, chance: &mut Chance) -> Result<String, AllocError> {
    let mut spelled = String::new(alloc);
    push_blanks(&mut spelled, chance, 0)?;
    for c in text.chars() {
        push_said(&mut spelled, chance, c)?;
    }
    push_blanks(&mut spelled, chance, 0)?;
    Ok(spelled)
}
