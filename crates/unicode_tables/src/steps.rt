//! Steps over the characters of a text, by their first bytes.

ghost use Rattle.std.specs.Prelude.{◌≡◌, ℕ, ◌<◌, ◌≤◌, Bool, false, length, take, slice_index};
ghost use Rattle.std.specs.List.{list_any};
ghost use Rattle.std.specs.Str.{IsCharBoundary, chars};
ghost use Rattle.unicode_tables.specs.FirstBytes.{first_byte, AreSteps, StopAt};

use crate::page::fill;

/// How many bytes there are.
const BYTES: usize = 256;

/// For each byte how many bytes the characters have that begin with it: a step over each of these. Or 0, where no character
/// begins with it, or one does that is not to be stepped over.
#[derive(Drop)]
pub(crate) struct Steps {
    pub(crate) steps: [u8; BYTES],
}

/// The first byte of a code point in UTF-8.
fn first_byte(c: usize) -> usize
    requires { c < 0x110000 }
    ensures which { result ≡ first_byte c }
    ensures byte { result < 256 }
{
    match c {
        0..=0x7F => c,
        0x80..=0x7FF => 0xC0 + c / 0x40,
        0x800..=0xFFFF => 0xE0 + c / 0x1000,
        _ => 0xF0 + c / 0x4_0000,
    }
}

impl Steps {
    /// A step over each character.
    pub(crate) fn over_all() -> Steps
        ensures { AreSteps result.steps }
    {
        let mut steps = [0; BYTES];
        for byte in 0..BYTES {
            steps[byte] = match byte {
                0..=0x7F => 1,
                0x80..=0xBF => 0,
                0xC0..=0xDF => 2,
                0xE0..=0xEF => 3,
                _ => 4,
            };
        }
        Steps { steps }
    }

    /// Takes away the steps over the code points from one up to another.
    pub(crate) fn stop(&mut self, from: usize, end: usize)
        requires some { from < end }
        requires within { end ≤ 0x110000 }
        requires steps { AreSteps self.old.steps }
        ensures steps { AreSteps self.new.steps }
        ensures none { (c : ℕ) → from ≤ c → c < end → slice_index self.new.steps (first_byte c) ≡ 0 }
        ensures others { (byte : ℕ) → slice_index self.old.steps byte ≡ 0 → slice_index self.new.steps byte ≡ 0 }
    {
        let first = first_byte(from);
        let last = first_byte(end - 1);
        fill(&mut self.steps, first, last + 1, 0);
    }

    /// How many bytes and how many characters of a text are stepped over from its start on.
    #[inline]
    pub(crate) fn passed(&self, text: &str) -> (usize, usize)
        requires { AreSteps self.now.steps }
        ensures boundary { IsCharBoundary text.now result.0 }
        ensures count { result.1 ≡ length (chars (take result.0 text.now)) }
        ensures none { (test : ℕ → Bool) → StopAt test 0x110000 self.now.steps → list_any test (chars (take result.0 text.now)) ≡ false }
    {
        let bytes = text.as_bytes();
        let mut end = 0;
        let mut count = 0;
        while end < bytes.len() {
            let step = self.steps[bytes[end] as usize];
            if step == 0 {
                return (end, count);
            }
            end += step as usize;
            count += 1;
        }
        (end, count)
    }
}
