//! Numbers that look random, and are the same in each run.

ghost use Rattle.std.specs.Prelude.{◌<◌, ◌≤◌};

#[derive(Drop)]
pub struct Chance {
    state: u64,
}

impl Chance {
    pub fn new(seed: u64) -> Chance {
        Chance { state: seed }
    }

    /// The next number, below this bound.
    pub fn below(&mut self, bound: usize) -> usize
        requires { 0 < bound }
        ensures { result < bound }
    {
        self.state = self
            .state
            .wrapping_mul(6_364_136_223_846_793_005)
            .wrapping_add(1_442_695_040_888_963_407);
        (self.state >> 33) as usize % bound
    }
    /// The next number, up to this one.
    pub fn up_to(&mut self, most: u32) -> u32
        ensures { result ≤ most }
    {
        self.below(most as usize + 1) as u32
    }

    /// The word with up to nine of its bits turned.
    pub fn near(&mut self, word: u64) -> u64 {
        let mut near = word;
        for _turn in 0..self.below(10) {
            near ^= 1 << self.below(64);
        }
        near
    }
}
