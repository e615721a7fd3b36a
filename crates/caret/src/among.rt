//! Moves of a caret among rows: those of a grid, or a part of them.

ghost use Rattle.std.specs.Prelude.{◌≡◌, ◌<◌, ◌≤◌, true, length, IfSome};
ghost use Rattle.cell_grid.specs.Windows.{FirstPlacesRise};
ghost use Rattle.caret.specs.Gaps.{IsCaretOf};
ghost use Rattle.caret.specs.Lists.{element_before};
ghost use Rattle.caret.specs.Moves.{logical_start, logical_end, onwards, backwards, right_of, left_of, up_of, down_of};
ghost use Rattle.caret.specs.Places.{begins_by, caret_among};

use crate::caret::Caret;
use crate::gaps::{caret_by, gap_column, is_odd, left_side, right_side};
use crate::place::{at_cluster, at_end, row_at};
use cell_grid::{Entry, Row};

/// A row's logical start: its left edge in a paragraph of even level, its right edge in one of odd level.
fn logical_start(row: &Row, number: usize) -> Caret
    ensures caret { result ≡ logical_start number row.now }
    ensures within { result.gap ≤ length row.now.entries }
{
    Caret {
        row: number,
        gap: if is_odd(row.para_level()) {
            row.entry_count()
        } else {
            0
        },
        place: row.first_place(),
    }
}

/// A row's logical end: the other edge.
fn logical_end(row: &Row, number: usize) -> Caret
    ensures caret { result ≡ logical_end number row.now }
    ensures within { result.gap ≤ length row.now.entries }
{
    Caret {
        row: number,
        gap: if is_odd(row.para_level()) {
            0
        } else {
            row.entry_count()
        },
        place: row.last_place(),
    }
}

/// To the next row's logical start; in the last row the caret stays.
fn onwards(rows: &[Row], caret: Caret) -> Caret
    requires { IsCaretOf rows.now caret }
    ensures caret { result ≡ onwards rows.now caret }
    ensures within { IsCaretOf rows.now result }
{
    rows.get(caret.row + 1)
        .map_or(caret, |row| logical_start(row, caret.row + 1))
}

/// To the logical end of the row before; in the first row the caret stays.
fn backwards(rows: &[Row], caret: Caret) -> Caret
    requires { IsCaretOf rows.now caret }
    ensures caret { result ≡ backwards rows.now caret }
    ensures within { IsCaretOf rows.now result }
{
    if caret.row == 0 {
        return caret;
    }
    logical_end(&rows[caret.row - 1], caret.row - 1)
}

/// `right` among these rows, as on a grid of them.
/// Cost: that of `Row::entry`.
pub fn right_among(rows: &[Row], caret: Caret) -> Caret
    requires { IsCaretOf rows.now caret }
    ensures caret { result ≡ right_of rows.now caret }
    ensures within { IsCaretOf rows.now result }
{
    let row = &rows[caret.row];
    // A row has no more entries than can be counted.
    let _count = row.entry_count();
    match row.entry(caret.gap) {
        Some(entry) => Caret {
            row: caret.row,
            gap: caret.gap + 1,
            place: right_side(&entry),
        },
        None if is_odd(row.para_level()) => backwards(rows, caret),
        None => onwards(rows, caret),
    }
}

/// `left` among these rows.
/// Cost: that of `Row::entry`.
pub fn left_among(rows: &[Row], caret: Caret) -> Caret
    requires { IsCaretOf rows.now caret }
    ensures caret { result ≡ left_of rows.now caret }
    ensures within { IsCaretOf rows.now result }
{
    let row = &rows[caret.row];
    match entry_before(row, caret.gap) {
        Some(before) => Caret {
            row: caret.row,
            gap: caret.gap - 1,
            place: left_side(&before),
        },
        None if is_odd(row.para_level()) => onwards(rows, caret),
        None => backwards(rows, caret),
    }
}

/// The entry left of a gap of a row, if there is one.
fn entry_before(row: &Row, gap: usize) -> Option<Entry>
    ensures entry { result ≡ element_before row.now.entries gap }
    ensures some { IfSome result (λ _. 0 < gap) }
{
    if gap == 0 {
        return None;
    }
    row.entry(gap - 1)
}

/// `up` among these rows.
/// Cost: O(n) of the row's entries.
pub fn up_among(rows: &[Row], caret: Caret) -> Caret
    requires { IsCaretOf rows.now caret }
    ensures caret { result ≡ up_of rows.now caret }
    ensures within { IsCaretOf rows.now result }
{
    if caret.row == 0 {
        return caret;
    }
    let column = gap_column(&rows[caret.row], caret.gap);
    caret_by(&rows[caret.row - 1], caret.row - 1, column)
}

/// `down` among these rows.
/// Cost: O(n) of the row's entries.
pub fn down_among(rows: &[Row], caret: Caret) -> Caret
    requires { IsCaretOf rows.now caret }
    ensures caret { result ≡ down_of rows.now caret }
    ensures within { IsCaretOf rows.now result }
{
    match rows.get(caret.row + 1) {
        Some(next) => {
            let column = gap_column(&rows[caret.row], caret.gap);
            caret_by(next, caret.row + 1, column)
        }
        None => caret,
    }
}

/// The caret at a place among these rows, of which the first begins at the place or before: `at_place`
/// where the rows are a grid's. The row is found by binary search.
/// Cost: O(log n) of the rows, O(n) of the row's entries.
pub fn at_place_among(rows: &[Row], place: usize) -> Caret
    requires rises { FirstPlacesRise rows.now }
    requires begun { begins_by rows.now place 0 ≡ true }
    ensures caret { result ≡ caret_among rows.now place }
    ensures within { IsCaretOf rows.now result }
{
    let number = row_at(rows, place);
    let row = &rows[number];
    if place == row.last_place() {
        at_end(row, number)
    } else {
        at_cluster(row, number, place)
    }
}
