//! A number that stands for all results.

ghost use Rattle.std.specs.Prelude.{None, false};

use bg_types::Sink;

/// A number that stands for all that was put, byte by byte and in order (FNV-1a, 64 bits).
#[derive(Drop)]
pub struct Digest {
    hash: u64,
}

impl Digest {
    /// The digest of nothing.
    pub fn new() -> Digest {
        Digest {
            hash: 0xcbf2_9ce4_8422_2325,
        }
    }

    /// Takes these bytes in.
    pub fn add(&mut self, bytes: &[u8]) {
        let mut hash = self.hash;
        for byte in bytes {
            hash = (hash ^ u64::from(*byte)).wrapping_mul(0x0100_0000_01b3);
        }
        self.hash = hash;
    }

    /// Takes a number in.
    pub fn add_number(&mut self, number: usize) {
        self.add(&(number as u64).to_le_bytes());
    }

    /// The digest.
    pub fn value(&self) -> u64 {
        self.hash
    }
}

impl Sink for Digest {
    ghost written = { λ _. None };

    ghost has_failed = { λ _. false };

    fn failed(&self) -> bool {
        false
    }

    fn put(&mut self, bytes: &[u8]) -> Option<usize> {
        self.add(bytes);
        Some(bytes.len())
    }
}
