//! What is kept of a paragraph.

use bg_types::Bidi;

/// A place that X9 keeps.
#[derive(Clone, Copy, Debug)]
pub struct Kept {
    /// Its explicit level, at most 125.
    pub level: u8,
    /// Its class after overrides.
    pub class: Bidi,
}
