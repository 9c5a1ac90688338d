ghost use Rattle.std.specs.Prelude.{◌≡◌, ◌<◌};
ghost use Rattle.std.specs.Option.{ForSome};

use media_types::HashNo;
use std::marker::Model;

/// Stands for no child. Every number of a node is below it.
const NO_CHILD: u32 = 0xffff_ffff;

/// A child of a node, or none, in four bytes.
#[derive(Debug, Drop)]
pub struct Link {
    number: u32,
}

impl Model for Link {
    ghost use Rattle.std.specs.Prelude.{Option};
    ghost use Rattle.media_types.specs.declared.numbers.HashNo.{HashNo};
    ghost use Rattle.vp_tree.specs.Spared.{child_of};

    ghost Value = { Option HashNo };

    ghost view = { λ link. child_of link.number };
}

impl Link {
    pub fn new(child: Option<HashNo>) -> Link
        requires { ForSome child (λ c. c.0 < 0xffff_ffff) }
        ensures { result ≡ child }
    {
        match child {
            None => Link { number: NO_CHILD },
            Some(child) => Link { number: child.0 },
        }
    }

    pub fn child(&self) -> Option<HashNo>
        ensures value { result ≡ self.now }
        ensures fits { ForSome result (λ c. c.0 < 0xffff_ffff) }
    {
        if self.number == NO_CHILD {
            None
        } else {
            Some(HashNo(self.number))
        }
    }
}
