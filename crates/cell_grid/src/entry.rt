//! An entry of a row.

use paragraphs::Span;

/// A cluster in a row: where it stands in the text, its level, the column of its first cell,
/// counted in cells from the row's left edge, and how many columns it has, 0 to 2.
#[derive(Clone, Copy, Debug, PartialEq, Eq)]
pub struct Entry {
    pub span: Span,
    pub column: u16,
    pub level: u8,
    pub columns: u8,
}
