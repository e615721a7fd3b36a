//! Pictures: drawn, their rows and entries, freed.

ghost use Rattle.std.specs.Prelude.{◌≡◌, ◌<◌, ◌≤◌, ◌++◌, Some, None, drop, length, map, slice_get, IfOk, IfErr};
ghost use Rattle.std.specs.Option.{MatchOption};
ghost use Rattle.c_pictures.specs.Bases.{base_of};
ghost use Rattle.c_pictures.specs.Drawing.{IsDrawnBy, IsRefusedDrawing, IsWidth};
ghost use Rattle.c_pictures.specs.Numbers.{row_numbers, no_row, entry_numbers, no_entry};
ghost use Rattle.c_answers.specs.Copying.{AreListed};

use crate::numbers::{EntryNumbers, RowNumbers, entry_numbers, row_numbers};
use bg_types::Base;
use c_answers::{
    BAD_BASE, BAD_ENTRY, BAD_ROW, BAD_WIDTH, MEMORY, NOT_UTF8, OK, SHORT_BUFFER, TEXT_TOO_LONG,
};
use cell_grid::Row;
use pictures::{Picture, SharedTables};
use std::alloc::Global;

/// The most bytes that are drawn.
const LONGEST: usize = 4_000_000;

/// The picture of a text, for a handle, or the number of the fault.
pub fn draw_text(
    alloc: Global,
    tables: &SharedTables,
    width: u32,
    base: u32,
    text: &[u8],
) -> Result<Box<Picture>, u32>
    ensures ok { IfOk result (λ boxed. IsDrawnBy tables.now width base text.now boxed.value) }
    ensures fault { IfErr result (IsRefusedDrawing width base text.now) }
    ensures some { IfErr result (λ fault. 0 < fault) }
{
    let Some(width) = width_of(width) else {
        return Err(BAD_WIDTH);
    };
    let Some(base) = base_of(base) else {
        return Err(BAD_BASE);
    };
    if text.len() > LONGEST {
        return Err(TEXT_TOO_LONG);
    }
    let Ok(text) = std::str::from_utf8(text) else {
        return Err(NOT_UTF8);
    };
    let Ok(picture) = Picture::draw(alloc, tables, width, base, text) else {
        return Err(MEMORY);
    };
    match Box::new(alloc, picture) {
        Ok(boxed) => Ok(boxed),
        Err(_) => Err(MEMORY),
    }
}

/// The width of this many columns.
pub fn width_of(columns: u32) -> Option<u16>
    ensures { MatchOption result (¬ (IsWidth columns)) (λ width. (width ≡ columns) × IsWidth columns) }
{
    if columns < 2 || columns > 500 {
        return None;
    }
    Some(columns as u16)
}

/// The base direction with this number.
pub fn base_of(number: u32) -> Option<Base>
    ensures { result ≡ base_of number }
{
    match number {
        0 => Some(Base::Auto),
        1 => Some(Base::Left),
        2 => Some(Base::Right),
        _ => None,
    }
}

/// Writes what a row has, counted from 0 at the top.
pub fn tell_row(picture: &Picture, number: usize, out: &mut RowNumbers) -> u32
    ensures { MatchOption (slice_get picture.now.rows number) ((result ≡ 108) × (out.new ≡ no_row)) (λ r. (result ≡ 0) × (out.new ≡ row_numbers r)) }
{
    match picture.rows().get(number) {
        Some(row) => {
            *out = row_numbers(row);
            OK
        }
        None => {
            *out = RowNumbers::NONE;
            BAD_ROW
        }
    }
}

/// Writes what an entry of a row has, counted from 0 at the left.
pub fn tell_entry(picture: &Picture, row: usize, number: usize, out: &mut EntryNumbers) -> u32
    ensures { MatchOption (slice_get picture.now.rows row) ((result ≡ 108) × (out.new ≡ no_entry)) (λ r. MatchOption (slice_get r.entries number) ((result ≡ 109) × (out.new ≡ no_entry)) (λ e. (result ≡ 0) × (out.new ≡ entry_numbers e))) }
{
    *out = EntryNumbers::NONE;
    let Some(row) = picture.rows().get(row) else {
        return BAD_ROW;
    };
    match row.entry(number) {
        Some(entry) => {
            *out = entry_numbers(&entry);
            OK
        }
        None => BAD_ENTRY,
    }
}

/// Writes what all entries of a row have, from the left.
pub fn tell_entries(
    picture: &Picture,
    row: usize,
    out: &mut [EntryNumbers],
    count: &mut usize,
) -> u32
    ensures { MatchOption (slice_get picture.now.rows row) ((result ≡ 108) × (out.new ≡ out.old) × (count.new ≡ 0)) (λ r. AreListed entry_numbers r.entries out.old out.new count.new result) }
{
    *count = 0;
    let Some(row) = picture.rows().get(row) else {
        return BAD_ROW;
    };
    *count = row.entry_count();
    if out.len() < row.entry_count() {
        return SHORT_BUFFER;
    }
    write_entries(row, out);
    OK
}

/// Writes the numbers of a row's entries to the front of a list, which has room for them.
fn write_entries(row: &Row, out: &mut [EntryNumbers])
    requires { length row.now.entries ≤ length out.old }
    ensures { out.new ≡ map entry_numbers row.now.entries ++ drop (length row.now.entries) out.old }
{
    let mut number = 0usize;
    for entry in row.entries() {
        out[number] = entry_numbers(&entry);
        number += 1;
    }
}
