//! Numbers that look as if drawn by chance.

/// Numbers that look as if drawn by chance, the same ones for the same seed.
#[derive(Drop)]
pub struct Chance {
    state: u64,
}

impl Chance {
    pub fn new(seed: u64) -> Chance {
        Chance { state: seed }
    }

    /// A number from 0 up to this one, which it does not reach, or 0 where this is 0.
    pub fn below(&mut self, end: usize) -> usize {
        self.state = self
            .state
            .wrapping_mul(6_364_136_223_846_793_005)
            .wrapping_add(1_442_695_040_888_963_407);
        match end as u64 {
            0 => 0,
            end => ((self.state >> 33) % end) as usize,
        }
    }

    /// Whether one in so many comes up.
    pub fn one_in(&mut self, count: usize) -> bool {
        self.below(count) == 0
    }
}
