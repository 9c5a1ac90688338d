//! Decisions as values: all of some files, and chosen ones.

use crate::tests::chance::Chance;
use crate::tests::lines::{Code, Line};
use std::alloc::{AllocError, Global};
use std::process::Abort;

#[derive(Clone, Copy, Debug)]
pub struct Decision {
    pub code: Code,
    pub a: u32,
    pub b: u32,
}

impl Decision {
    /// Each code at each two of so many files, in both orders.
    pub fn all(alloc: Global, files: u32) -> Result<Vec<Decision>, AllocError> {
        let mut all = Vec::new(alloc);
        for code in Code::ALL {
            for a in 0..files {
                for b in 0..files {
                    if a != b {
                        all.push(Decision { code, a, b })?;
                    }
                }
            }
        }
        Ok(all)
    }

    pub fn line(self) -> Line {
        Line::Decide(self.code, self.a, self.b)
    }
}

/// One of these decisions.
pub fn chosen(rt: &impl Abort, decisions: &[Decision], chance: &mut Chance) -> Decision {
    assert!(rt; !decisions.is_empty());
    let at = chance.below(decisions.len());
    decisions.get(at).copied().expect(rt, "a place in the list")
}
