//! The gaps of a row.

ghost use Rattle.std.specs.Prelude.{◌≡◌, ◌+◌, ◌≤◌, length};
ghost use Rattle.reorder.specs.VisualList.{is_odd};
ghost use Rattle.caret.specs.Gaps.{left_side, right_side, row_end, gap_column, last_gap_by, gap_place};
ghost use Rattle.caret.specs.Moves.{caret_by};

use crate::caret::Caret;
use cell_grid::{Entry, Row};

/// Whether a level is odd: a cluster of it is read from right to left, and a paragraph of it begins at the right edge.
pub(crate) fn is_odd(level: u8) -> bool
    ensures { result ≡ is_odd level }
{
    level % 2 == 1
}

/// The place on the left side of an entry.
pub(crate) fn left_side(entry: &Entry) -> usize
    ensures { result ≡ left_side entry.now }
{
    if is_odd(entry.level) {
        entry.span.end_place as usize
    } else {
        entry.span.first_place as usize
    }
}

/// The place on the right side of an entry.
pub(crate) fn right_side(entry: &Entry) -> usize
    ensures { result ≡ right_side entry.now }
{
    if is_odd(entry.level) {
        entry.span.first_place as usize
    } else {
        entry.span.end_place as usize
    }
}

/// The column where the entries of a row end; for an empty row, where it starts.
fn row_end(row: &Row) -> usize
    ensures { result ≡ row_end row.now }
{
    let last = row.entry_count().saturating_sub(1);
    match row.entry(last) {
        Some(entry) => entry.column as usize + entry.columns as usize,
        None if is_odd(row.para_level()) => usize::from(row.width()),
        None => 0,
    }
}

/// The column of a gap: that of the entry right of it, or the row's end for the last gap.
/// Cost: that of `Row::entry`.
pub fn gap_column(row: &Row, gap: usize) -> usize
    ensures { result ≡ gap_column row.now gap }
{
    match row.entry(gap) {
        Some(entry) => usize::from(entry.column),
        None => row_end(row),
    }
}

/// The last gap of a row whose column isn't greater than `column`, else gap 0.
fn last_gap_by(row: &Row, column: usize) -> usize
    ensures gap { result ≡ last_gap_by row.now column }
    ensures within { result ≤ length row.now.entries }
{
    // A row has no more entries than can be counted.
    let _count = row.entry_count();
    let mut last = 0;
    let mut gap = 0usize;
    for entry in row.entries() {
        if usize::from(entry.column) <= column {
            last = gap;
        }
        gap += 1;
    }
    if row_end(row) <= column {
        last = gap;
    }
    last
}

/// The place at a gap: the right side of the entry left of it, at gap 0 the left side of entry 0, in an empty row the row's.
fn gap_place(row: &Row, gap: usize) -> usize
    ensures { result ≡ gap_place row.now gap }
{
    if gap == 0 {
        return match row.entry(0) {
            Some(entry) => left_side(&entry),
            None => row.first_place(),
        };
    }
    match row.entry(gap - 1) {
        Some(entry) => right_side(&entry),
        None => row.first_place(),
    }
}

/// The caret in a row at the last gap whose column isn't greater than `column`, else at gap 0.
pub(crate) fn caret_by(row: &Row, number: usize, column: usize) -> Caret
    ensures caret { result ≡ caret_by column number row.now }
    ensures within { result.gap ≤ length row.now.entries }
{
    let gap = last_gap_by(row, column);
    Caret {
        row: number,
        gap,
        place: gap_place(row, gap),
    }
}
