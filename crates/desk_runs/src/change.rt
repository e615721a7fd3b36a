//! What a site does to a text.

ghost use Rattle.std.specs.Prelude.{◌<◌};

/// A change of a text: characters from a place on are erased, and others typed there. Places
/// count visible characters, from 0. A character is a Unicode scalar value.
#[derive(Clone, Copy, Debug)]
pub struct Change {
    /// The site that makes the change, at least 1.
    pub site: u16,
    /// Where the change is made: at the text's end if `None`.
    pub place: Option<u32>,
    /// How many characters are erased.
    pub erased: u32,
}
