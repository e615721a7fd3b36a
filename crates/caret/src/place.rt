//! The caret at a place of the text.

ghost use Rattle.std.specs.Prelude.{◌≡◌, ◌+◌, ◌<◌, ◌≤◌, true, length, IfSome};
ghost use Rattle.std.specs.Str.{chars};
ghost use Rattle.cell_grid.specs.Windows.{FirstPlacesRise};
ghost use Rattle.caret.specs.Gaps.{IsCaretOf};
ghost use Rattle.caret.specs.Places.{holds, ends_at, entry_where, begins_by, row_at, gap_zero, at_cluster, at_end, caret_at};

use crate::among::at_place_among;
use crate::caret::Caret;
use crate::gaps::is_odd;
use cell_grid::{Entry, Grid, Row, laws};

/// The entry of a row whose cluster has a place, with its number.
fn entry_at(row: &Row, place: usize) -> Option<(usize, Entry)>
    ensures entry { result ≡ entry_where (holds place) row.now.entries }
    ensures within { IfSome result (λ found. found.0 < length row.now.entries) }
{
    // A row has no more entries than can be counted.
    let _count = row.entry_count();
    row.entries().enumerate().find(|(_, entry)| {
        entry.span.first_place as usize <= place && place < entry.span.end_place as usize
    })
}

/// The entry of a row whose cluster ends at a place, with its number.
fn entry_up_to(row: &Row, place: usize) -> Option<(usize, Entry)>
    ensures entry { result ≡ entry_where (ends_at place) row.now.entries }
    ensures within { IfSome result (λ found. found.0 < length row.now.entries) }
{
    // A row has no more entries than can be counted.
    let _count = row.entry_count();
    row.entries()
        .enumerate()
        .find(|(_, entry)| entry.span.end_place as usize == place)
}

/// The last row whose first place is at most `place`, by binary search.
/// Cost: O(log n) of the rows.
pub fn row_at(rows: &[Row], place: usize) -> usize
    requires rises { FirstPlacesRise rows.now }
    requires begun { begins_by rows.now place 0 ≡ true }
    ensures number { result ≡ row_at rows.now place }
    ensures within { result < length rows.now }
{
    let count = rows.partition_point(|row| row.first_place() <= place);
    count - 1
}

/// Gap 0 of a row, with a place.
fn gap_zero(number: usize, place: usize) -> Caret
    ensures { result ≡ gap_zero number place }
{
    Caret {
        row: number,
        gap: 0,
        place,
    }
}

/// The caret at the start of a row's cluster that has a place: the cluster's left gap at an even
/// level, its right gap at an odd one.
pub(crate) fn at_cluster(row: &Row, number: usize, place: usize) -> Caret
    ensures caret { result ≡ at_cluster place number row.now }
    ensures row { result.row ≡ number }
    ensures within { result.gap ≤ length row.now.entries }
{
    // A row has no more entries than can be counted.
    let _count = row.entry_count();
    match entry_at(row, place) {
        Some((gap, entry)) => Caret {
            row: number,
            gap: if is_odd(entry.level) { gap + 1 } else { gap },
            place: entry.span.first_place as usize,
        },
        None => gap_zero(number, place),
    }
}

/// The caret at the end of a row's logically last cluster: the cluster's right gap at an even level,
/// its left gap at an odd one. In an empty row it is gap 0.
pub(crate) fn at_end(row: &Row, number: usize) -> Caret
    ensures caret { result ≡ at_end number row.now }
    ensures row { result.row ≡ number }
    ensures within { result.gap ≤ length row.now.entries }
{
    // A row has no more entries than can be counted.
    let _count = row.entry_count();
    match entry_up_to(row, row.last_place()) {
        Some((gap, entry)) => Caret {
            row: number,
            gap: if is_odd(entry.level) { gap } else { gap + 1 },
            place: entry.span.end_place as usize,
        },
        None => gap_zero(number, row.last_place()),
    }
}

/// The caret at a place of the text, counted in code points and at most the text's length.
///
/// It is in the last row whose first place is at most `place`, at the start of the cluster that has
/// the place; at the text's end, after the row's logically last cluster. The row is found by binary
/// search.
/// Cost: O(log n) of the rows, O(n) of the row's entries.
pub fn at_place(grid: &Grid, place: usize) -> Caret
    requires { place ≤ length (chars grid.now.text) }
    ensures caret { result ≡ caret_at grid.now place }
    ensures within { IsCaretOf grid.now.rows result }
{
    laws::rows_follow();
    laws::first_places_rise();
    at_place_among(grid.rows(), place)
}
