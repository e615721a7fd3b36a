//! Numbers that look as if drawn by chance.

/// Numbers that look as if drawn by chance, the same ones for the same seed (splitmix64).
#[derive(Drop)]
pub struct Chance {
    state: u64,
}

impl Chance {
    /// The numbers of a seed. Each stream of one seed has other ones.
    pub fn new(seed: u32, stream: u32) -> Chance {
        Chance {
            state: u64::from(seed) << 32 | u64::from(stream),
        }
    }

    fn next(&mut self) -> u64 {
        self.state = self.state.wrapping_add(0x9e37_79b9_7f4a_7c15);
        let once = (self.state ^ (self.state >> 30)).wrapping_mul(0xbf58_476d_1ce4_e5b9);
        let twice = (once ^ (once >> 27)).wrapping_mul(0x94d0_49bb_1331_11eb);
        twice ^ (twice >> 31)
    }

    /// A number from 0 up to this one, which it does not reach, or 0 where this is 0.
    pub fn below(&mut self, end: usize) -> usize {
        match end as u64 {
            0 => 0,
            end => (self.next() % end) as usize,
        }
    }

    /// Whether one in so many comes up.
    pub fn one_in(&mut self, count: usize) -> bool {
        self.below(count) == 0
    }
}
