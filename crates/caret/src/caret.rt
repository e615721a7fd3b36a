//! A caret.

/// A caret on a grid.
#[derive(Debug, Clone, Copy, PartialEq, Eq)]
pub struct Caret {
    /// The row, from 0.
    pub row: usize,
    /// The gap of the row, from 0: gap g stands left of entry g, and the last gap right of the last entry.
    pub gap: usize,
    /// The place in the text, in code points.
    pub place: usize,
}
