ghost use Rattle.std.specs.Prelude.{◌≡◌, ◌<◌};
ghost use Rattle.std.specs.Option.{ForSome};

use std::marker::Model;

/// Stands for no radius. Every radius is a distance, and so at most 64.
const NO_RADIUS: u8 = 0xff;

/// The radius of a node, or none, in one byte.
#[derive(Debug, Drop)]
pub struct Radius {
    bits: u8,
}

impl Model for Radius {
    ghost use Rattle.std.specs.Prelude.{Option, ℕ};
    ghost use Rattle.vp_tree.specs.Spared.{radius_of};

    ghost Value = { Option ℕ };

    ghost view = { λ radius. radius_of radius.bits };
}

impl Radius {
    pub fn new(radius: Option<u8>) -> Radius
        requires { ForSome radius (λ r. r < 0xff) }
        ensures { result ≡ radius }
    {
        match radius {
            None => Radius { bits: NO_RADIUS },
            Some(bits) => Radius { bits },
        }
    }

    pub fn bits(&self) -> Option<u8>
        ensures value { result ≡ self.now }
        ensures fits { ForSome result (λ r. r < 0xff) }
    {
        if self.bits == NO_RADIUS {
            None
        } else {
            Some(self.bits)
        }
    }
}
