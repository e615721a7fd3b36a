//! The hasher of tables by identifier, with a key.

ghost use Rattle.std.specs.Prelude.{◌≡◌, ◌+◌, ◌*◌, ◌/◌, ◌%◌, ◌^◌, ◌<◌, get_or};
ghost use Rattle.bg_types.specs.Hashing.{word, keyed, written};
ghost use Rattle.bg_types.specs.declared.keyed.Keyed.{Keyed};

use std::hash::{BuildHasher, Hasher};

const WORD: u128 = 0x1_0000_0000_0000_0000;

// Added to the key's halves, so that even the key 0 gives two factors above 0.
const FIRST: u64 = 0x9e37_79b9_7f4a_7c15;

const NEXT: u64 = 0x2545_f491_4f6c_dd1d;

/// How many neighbouring first numbers share a product, so that they share a slot of a table too.
const NEIGHBOURS: u64 = 8;

/// What neighbours differ by: the highest bits of a hash of 32 bits, which name no slot.
const APART: u32 = 0x2000_0000;

/// Hashes by multiplying with a key (multiply-shift). Eight identifiers of a site with neighbouring
/// counters share a slot, so that what comes in a run is found side by side. Any two others chosen
/// without knowing the key share one of n slots (n a power of two, at most 2^29) with a probability
/// of at most 2 / n, so no choice of identifiers makes the calls slow.
#[derive(Clone, Copy)]
pub struct Keyed {
    start: KeyedHasher,
}

impl Keyed {
    /// The hasher with this key.
    pub fn new(key: u128) -> Keyed
        ensures { result ≡ keyed key }
    {
        Keyed {
            start: KeyedHasher {
                sum: 0,
                near: 0,
                is_new: true,
                factor: ((key % WORD) as u64).wrapping_add(FIRST),
                next: ((key / WORD) as u64).wrapping_add(NEXT),
            },
        }
    }
}

/// Something with tables by identifier, hashed with a key.
pub trait Hashed {
    /// The hasher of the tables.
    ghost hasher: { Self → Keyed };
}

impl BuildHasher for Keyed {
    type Hasher = KeyedHasher;

    ghost build_hasher = { λ k. k.start };

    fn build_hasher(&self) -> KeyedHasher {
        self.start
    }
}

/// The sum of the numbers that were written, each times its factor, and what neighbours differ by.
/// An identifier writes two: its counter, of which the sum has the eighth part, and its site.
#[derive(Clone, Copy)]
pub struct KeyedHasher {
    sum: u64,
    near: u32,
    /// Whether nothing was written yet.
    is_new: bool,
    /// The factor of the first number.
    factor: u64,
    /// The factor of each number after the first.
    next: u64,
}

impl Hasher for KeyedHasher {
    ghost write = { λ h bytes. written h (word bytes) };

    ghost finish = { λ h. (h.sum / 2 ^ 32 + h.near) % 2 ^ 32 };

    fn finish(&self) -> u64 {
        let upper = (self.sum >> 32) as u32;
        upper.wrapping_add(self.near) as u64
    }

    fn write(&mut self, bytes: &[u8]) {
        let number = first_four(bytes);
        if self.is_new {
            self.sum = self.factor.wrapping_mul(number / NEIGHBOURS);
            self.near = APART * (number % NEIGHBOURS) as u32;
            self.is_new = false;
        } else {
            self.sum = self.sum.wrapping_add(self.next.wrapping_mul(number));
        }
    }
}

/// The first four bytes as a number, the lowest first.
fn first_four(bytes: &[u8]) -> u64
    ensures { result ≡ word bytes.now }
{
    byte(bytes, 0)
        + 0x100 * byte(bytes, 1)
        + 0x1_0000 * byte(bytes, 2)
        + 0x100_0000 * byte(bytes, 3)
}

/// A byte, or 0 where there is none.
fn byte(bytes: &[u8], i: usize) -> u64
    ensures value { result ≡ get_or bytes.now i 0 }
    ensures bound { result < 256 }
{
    if i < bytes.len() { bytes[i] as u64 } else { 0 }
}
