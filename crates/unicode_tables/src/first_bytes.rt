//! What the first byte of a character tells of it.

ghost use Rattle.std.specs.Prelude.{◌≡◌, ℕ, ◌+◌, ◌<◌, ◌≤◌};
ghost use Rattle.unicode_tables.specs.FirstBytes.{AreSteps, AreFirstBytes};

use crate::class::{is_segment_separator, is_separator};
use crate::steps::Steps;
use crate::word::Word;

/// Steps over characters of which the first byte tells enough.
#[derive(Drop)]
pub(crate) struct FirstBytes {
    /// Over none that separates paragraphs or segments.
    pub(crate) to_separators: Steps,
    /// Over none that is shown by another at an odd level.
    pub(crate) to_replaced: Steps,
}

impl FirstBytes {
    /// Of code points of which nothing is known yet.
    pub(crate) fn new() -> FirstBytes
        ensures { (word : ℕ → Word) → AreFirstBytes word 0 result }
    {
        FirstBytes {
            to_separators: Steps::over_all(),
            to_replaced: Steps::over_all(),
        }
    }

    /// The code points from one up to another have this word.
    pub(crate) fn add(&mut self, own: Word, from: usize, end: usize)
        requires some { from < end }
        requires within { end ≤ 0x110000 }
        requires separators { AreSteps self.old.to_separators.steps }
        requires replaced { AreSteps self.old.to_replaced.steps }
        ensures { (word : ℕ → Word) → AreFirstBytes word from self.old → ((c : ℕ) → from ≤ c → c < end → word c ≡ own) → AreFirstBytes word end self.new }
    {
        if is_separator(own.bidi) || is_segment_separator(own.bidi) {
            self.to_separators.stop(from, end);
        }
        if is_segment_separator(own.bidi) || own.has_mirror {
            self.to_replaced.stop(from, end);
        }
    }
}
