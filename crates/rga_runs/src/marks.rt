//! Marks of characters.

ghost use Rattle.std.specs.Prelude.{◌≡◌, ◌+◌, ◌*◌, ◌/◌, ◌%◌, ◌^◌, ◌<◌, ℕ};

use std::marker::Model;

/// How many values a byte has, and how many two bytes.
const BYTES: u32 = 256;

const PAIRS: u32 = 65_536;

/// A number of 24 bits in 3 bytes. A bit that is set marks a character.
#[derive(Clone, Copy)]
pub struct Marks {
    low: u8,
    middle: u8,
    high: u8,
}

const _: () = prove!(size_of::<Marks>() == 3);

impl Model for Marks {
    ghost Value = { ℕ };

    ghost view = { λ a. a.high * 65_536 + a.middle * 256 + a.low };

    // The bounds that the types give are repeated, since a view sees plain numbers.
    ghost invariant = { λ a. (a.low < 256) × (a.middle < 256) × (a.high < 256) };

    ghost inverse = { λ v. record { high = v / 65_536; middle = v / 256 % 256; low = v % 256 } };
}

impl Marks {
    /// The marks that are the bits of a number.
    pub fn of(bits: u32) -> Marks
        requires { bits < 2 ^ 24 }
        ensures { result ≡ bits }
    {
        Marks {
            low: (bits % BYTES) as u8,
            middle: (bits / BYTES % BYTES) as u8,
            high: (bits / PAIRS) as u8,
        }
    }

    /// The number whose bits they are.
    pub fn bits(self) -> u32
        ensures value { result ≡ self }
        ensures few { self < 2 ^ 24 }
    {
        u32::from(self.high) * PAIRS + u32::from(self.middle) * BYTES + u32::from(self.low)
    }
}
