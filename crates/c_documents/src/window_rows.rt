//! The rows that a document shows, and their entries.

ghost use Rattle.std.specs.Prelude.{◌≡◌, ◌≤◌, ◌++◌, Some, None, drop, length, map, slice_get};
ghost use Rattle.std.specs.Option.{MatchOption};
ghost use Rattle.c_answers.specs.Copying.{AreListed};
ghost use Rattle.c_pictures.specs.Numbers.{entry_numbers, no_row, row_numbers};

use crate::numbers::window_row_numbers;
use c_answers::{BAD_ROW, OK, SHORT_BUFFER};
use c_pictures::{EntryNumbers, RowNumbers, entry_numbers};
use live_document::{Document, WindowRow};

/// Writes what a row that is shown has, counted from 0 at the top.
pub fn tell_row(document: &Document, number: usize, out: &mut RowNumbers) -> u32
    ensures { MatchOption (slice_get document.now.window.rows number) ((result ≡ 108) × (out.new ≡ no_row)) (λ r. (result ≡ 0) × (out.new ≡ row_numbers r)) }
{
    match row_shown(document, number) {
        Some(row) => {
            *out = window_row_numbers(&row);
            OK
        }
        None => {
            *out = RowNumbers::NONE;
            BAD_ROW
        }
    }
}

/// The row with this number of those that are shown.
pub(crate) fn row_shown(document: &Document, number: usize) -> Option<WindowRow<'_>>
    ensures { MatchOption result (slice_get document.now.window.rows number ≡ None) (λ row. slice_get document.now.window.rows number ≡ Some row) }
{
    let window = document.window();
    if number >= window.len() {
        return None;
    }
    Some(window.row(number))
}

/// Writes what all entries of a row that is shown have, from the left.
pub fn tell_entries(
    document: &Document,
    row: usize,
    out: &mut [EntryNumbers],
    count: &mut usize,
) -> u32
    ensures { MatchOption (slice_get document.now.window.rows row) ((result ≡ 108) × (out.new ≡ out.old) × (count.new ≡ 0)) (λ r. AreListed entry_numbers r.entries out.old out.new count.new result) }
{
    *count = 0;
    let Some(row) = row_shown(document, row) else {
        return BAD_ROW;
    };
    *count = row.entry_count();
    if out.len() < row.entry_count() {
        return SHORT_BUFFER;
    }
    write_entries(&row, out);
    OK
}

/// Writes the numbers of a row's entries to the front of a list, which has room for them.
fn write_entries(row: &WindowRow, out: &mut [EntryNumbers])
    requires { length row.now.entries ≤ length out.old }
    ensures { out.new ≡ map entry_numbers row.now.entries ++ drop (length row.now.entries) out.old }
{
    let mut number = 0usize;
    for entry in row.entries() {
        out[number] = entry_numbers(&entry);
        number += 1;
    }
}
