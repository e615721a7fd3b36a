//! Where a reader stands between two frames.

ghost use Rattle.std.specs.Prelude.{◌≡◌};
ghost use Rattle.op_codec.specs.Spelling.{version_number, most_insertions};

use bg_types::Id;

/// The version of an operation file.
#[derive(Clone, Copy, Debug, PartialEq, Eq)]
pub enum Version {
    /// Each frame is one operation.
    One,
    /// A frame may be a run of insertions too.
    Two,
}

impl Version {
    /// The byte that follows the magic.
    pub fn number(self) -> u8
        ensures { result ≡ version_number self }
    {
        match self {
            Version::One => 1,
            Version::Two => 2,
        }
    }

    /// The most insertions that a frame has.
    pub fn most_insertions(self) -> usize
        ensures { result ≡ most_insertions self }
    {
        match self {
            Version::One => 1,
            Version::Two => 1_024,
        }
    }
}

/// Where a reader stands after whole frames.
#[derive(Clone, Copy)]
pub struct Position {
    pub version: Version,
    /// How many frames stand before.
    pub frames: usize,
    /// The insertion that the next one must not join: the last one, unless its frame is full.
    pub tip: Option<Id>,
}
