//! Keys.

ghost use Rattle.std.specs.Prelude.{◌≡◌, ◌^◌, ◌<◌};

use bg_types::Id;

/// How many values a hint has.
const HINTS: usize = 65_536;

/// The identifier with which a stretch begins, the number of its block, and a place there from which on it is sought first. It
/// moves behind that as others are put in before it.
#[derive(Clone, Copy)]
pub struct Key {
    // Before the identifier, which need not begin at a multiple of 4 bytes.
    pub number: u32,
    pub first: Id,
    pub hint: u16,
    ghost counter: { first.counter < 2 ^ 32 },
}

const _: () = prove!(size_of::<Key>() == 12);

impl Key {
    /// The key of a stretch that begins with an identifier, at a place of a block.
    pub fn of(first: Id, number: usize, at: usize) -> Key
        requires { number < 2 ^ 32 }
        ensures first { result.first ≡ first }
        ensures number { result.number ≡ number }
    {
        // Reading the identifier shows the proof that its counter fits.
        let _known = first.counter();
        Key {
            first,
            number: number as u32,
            hint: (at % HINTS) as u16,
        }
    }
}
