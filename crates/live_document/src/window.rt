//! A window over the rows that a document keeps.

ghost use Rattle.std.specs.Prelude.{◌≡◌, ◌<◌, ℕ, Some, length, slice_get, IfOk};
ghost use Rattle.cell_grid.specs.Rows.{shifted_entry};
ghost use Rattle.cell_grid.specs.Shifting.{MayShift};
ghost use Rattle.live_document.specs.Keeping.{rows_at};
ghost use Rattle.live_document.specs.Showing.{rows_from};
ghost use Rattle.live_document.specs.Reading.{IsReading};

use crate::laws_below::laws_below;
use crate::paragraph_rows::ParagraphRows;
use crate::reading::{go_to_row, rows_under};
use crate::shown::Shown;
use bg_types::Memory;
use cell_grid::{Cells, Entries, Entry, Row, Span};
use std::alloc::Global;
use std::marker::Model;
use text_buffer::{Buffer, Cursor};

/// The rows round a place, as `Document::show` laid them out. It borrows the document and copies nothing.
#[derive(Drop)]
pub struct Window<'a> {
    pub(crate) buffer: &'a Buffer<ParagraphRows>,
    pub(crate) shown: Shown,
}

impl<'a> Model for Window<'a> {
    ghost use Rattle.cell_grid.specs.Windows.{DrawnWindow};

    ghost Value = { DrawnWindow };

    ghost use Rattle.live_document.specs.Showing.{window_in, IsReadable};

    ghost view = { λ w. window_in w.buffer.now w.shown };

    ghost invariant = { λ w. IsReadable w.buffer.now w.shown };
}

impl<'a> Window<'a> {
    /// How many rows it has: none before the first `show`, and after a change.
    #[inline]
    pub fn len(&self) -> usize
        ensures { result ≡ length self.now.rows }
    {
        self.shown.count
    }

    /// Which of its rows is the row of the place that was asked for, from 0.
    #[inline]
    pub fn number(&self) -> usize
        ensures { result ≡ self.now.number }
    {
        self.shown.number
    }

    /// The row with this number, from 0 at the top.
    /// Cost: that of `Window::rows`, and O(1) for each paragraph that has a row in the window up to it.
    pub fn row(&self, number: usize) -> WindowRow<'a>
        requires { number < length self.now.rows }
        ensures { slice_get self.now.rows number ≡ Some result }
    {
        // The text has no more bytes than it may.
        let _bytes = self.buffer.bytes();
        let mut cursor = self.buffer.cursor(self.shown.first);
        let row = go_to_row(&mut cursor, self.shown.skip + number);
        row_under(&cursor, row)
    }

    /// Copies of its rows, where they stand in the text.
    /// Cost: that of `Window::rows` and `WindowRow::to_row` for each row, memory too.
    pub fn to_rows(&self, alloc: Global) -> Result<Vec<Row>, Memory>
        ensures { IfOk result (λ rows. rows.items ≡ self.now.rows) }
    {
        let mut rows = Vec::with_capacity(alloc, self.len())?;
        for row in self.rows() {
            rows.push(row.to_row(alloc)?)?;
        }
        Ok(rows)
    }

    /// Its rows from the top.
    /// Cost: O(64), and after an edit elsewhere O(n / 32) of the paragraphs; a step of it O(1).
    pub fn rows(&self) -> WindowRows<'a>
        ensures { result ≡ self.now.rows }
    {
        // The text has no more bytes than it may.
        let _bytes = self.buffer.bytes();
        WindowRows {
            cursor: self.buffer.cursor(self.shown.first),
            row: self.shown.skip,
            left: self.shown.count,
        }
    }
}

/// Iterates over the rows of a window, from the top, by steps of O(1). Takes no memory.
#[derive(Drop)]
pub struct WindowRows<'a> {
    /// At the paragraph from which the rows are counted.
    cursor: Cursor<'a, ParagraphRows>,
    /// How many rows from there on stand above the next one.
    row: usize,
    /// How many are still to come.
    left: usize,
}

impl<'a> Model for WindowRows<'a> {
    ghost use Rattle.std.specs.Prelude.{List, take, drop};
    ghost use Rattle.cell_grid.specs.Rows.{DrawnRow};

    // The rows still to come.
    ghost Value = { List DrawnRow };

    ghost use Rattle.live_document.specs.Showing.{rows_from};
    ghost use Rattle.live_document.specs.Reading.{IsReading};

    ghost view = { λ s. take s.left (drop s.row (rows_from s.cursor.paragraphs s.cursor.number)) };

    ghost invariant = { λ s. IsReading s.cursor s.row s.left };
}

impl<'a> Iterator for WindowRows<'a> {
    ghost use Rattle.std.specs.Iterator.{YieldsFirst, item_count};

    type Item = WindowRow<'a>;

    ghost next_gives = { YieldsFirst (λ left. left) };

    ghost remaining = { item_count (λ left. left) };

    fn next(&mut self) -> Option<WindowRow<'a>> {
        if self.left == 0 {
            return None;
        }
        let number = go_to_row(&mut self.cursor, self.row);
        let row = row_under(&self.cursor, number);
        self.row = number + 1;
        self.left -= 1;
        Some(row)
    }
}

/// A row of a cursor's paragraph, where it stands in the text.
fn row_under<'a>(cursor: &Cursor<'a, ParagraphRows>, row: usize) -> WindowRow<'a>
    requires reading { (left : ℕ) × IsReading cursor.now row left }
    requires inside { row < length (rows_at cursor.now.paragraphs cursor.now.number) }
    ensures { slice_get (rows_from cursor.now.paragraphs cursor.now.number) row ≡ Some result }
{
    laws_below();
    let para = cursor.paragraph();
    let rows = rows_under(cursor);
    WindowRow {
        row: &rows[row],
        bytes: para.first_byte() as u32,
        places: para.first_place() as u32,
    }
}

/// A row of a window: a row as it is kept, and how many bytes and places stand before its paragraph. Clauses see the row of
/// the text's grid.
#[derive(Drop)]
pub struct WindowRow<'a> {
    row: &'a Row,
    bytes: u32,
    places: u32,
}

impl<'a> Model for WindowRow<'a> {
    ghost use Rattle.cell_grid.specs.Rows.{DrawnRow, shifted};
    ghost use Rattle.cell_grid.specs.Shifting.{MayShiftRow};

    ghost Value = { DrawnRow };

    ghost view = { λ r. shifted r.bytes r.places r.row.now };

    ghost invariant = { λ r. MayShiftRow r.bytes r.places r.row.now };
}

impl<'a> WindowRow<'a> {
    /// A copy of it, where it stands in the text.
    /// Cost: that of `Row::shifted`, memory too.
    pub fn to_row(&self, alloc: Global) -> Result<Row, Memory>
        ensures { IfOk result (λ row. row ≡ self.now) }
    {
        self.row.shifted(alloc, self.bytes, self.places)
    }

    /// The place of its first code point. An empty row has its own place.
    #[inline]
    pub fn first_place(&self) -> usize
        ensures { result ≡ self.now.first_place }
    {
        self.row.first_place() + self.places as usize
    }

    /// The place after its last code point, a separator included.
    #[inline]
    pub fn last_place(&self) -> usize
        ensures { result ≡ self.now.last_place }
    {
        self.row.last_place() + self.places as usize
    }

    /// The level of its paragraph, 0 or 1.
    #[inline]
    pub fn para_level(&self) -> u8
        ensures { result ≡ self.now.para_level }
    {
        self.row.para_level()
    }

    /// How many columns it has, each with a cell.
    #[inline]
    pub fn width(&self) -> u16
        ensures { result ≡ length self.now.cells }
    {
        self.row.width()
    }

    /// Its cells from left to right, one for each column.
    /// Cost: that of `Row::cells`.
    pub fn cells(&self) -> Cells<'a>
        ensures { result ≡ self.now.cells }
    {
        self.row.cells()
    }

    /// How many entries it has, one for each cluster of the line.
    #[inline]
    pub fn entry_count(&self) -> usize
        ensures { result ≡ length self.now.entries }
    {
        self.row.entry_count()
    }

    /// Its entries from left to right, where they stand in the text.
    /// Cost: O(1), and so is a step.
    #[inline]
    pub fn entries(&self) -> WindowEntries<'a>
        ensures { result ≡ self.now.entries }
    {
        WindowEntries {
            entries: self.row.entries(),
            bytes: self.bytes,
            places: self.places,
        }
    }

    /// The entry with this number, counted from the left, from 0.
    /// Cost: that of `Row::entry`.
    pub fn entry(&self, number: usize) -> Entry
        requires { number < length self.now.entries }
        ensures { slice_get self.now.entries number ≡ Some result }
    {
        let entry = self.row.entry(number).unwrap();
        shifted(entry, self.bytes, self.places)
    }
}

/// An entry this many bytes and places later.
#[inline]
fn shifted(entry: Entry, bytes: u32, places: u32) -> Entry
    requires { MayShift bytes places entry.span }
    ensures { result ≡ shifted_entry bytes places entry }
{
    let span = entry.span;
    Entry {
        span: Span {
            first_byte: span.first_byte + bytes,
            end_byte: span.end_byte + bytes,
            first_place: span.first_place + places,
            end_place: span.end_place + places,
        },
        ..entry
    }
}

/// Iterates over the entries of a row of a window, from left to right, by steps of O(1). Takes no memory.
#[derive(Drop)]
pub struct WindowEntries<'a> {
    entries: Entries<'a>,
    bytes: u32,
    places: u32,
}

impl<'a> Model for WindowEntries<'a> {
    ghost use Rattle.std.specs.Prelude.{List, map};
    ghost use Rattle.std.specs.List.{All};
    ghost use Rattle.cell_grid.specs.declared.entry.Entry.{Entry};
    ghost use Rattle.cell_grid.specs.Rows.{shifted_entry};
    ghost use Rattle.cell_grid.specs.Shifting.{MayShift};

    // The entries still to come.
    ghost Value = { List Entry };

    ghost view = { λ s. map (shifted_entry s.bytes s.places) s.entries };

    ghost invariant = { λ s. All (λ e. MayShift s.bytes s.places e.span) s.entries };
}

impl<'a> Iterator for WindowEntries<'a> {
    ghost use Rattle.std.specs.Iterator.{YieldsFirst, item_count};

    type Item = Entry;

    ghost next_gives = { YieldsFirst (λ left. left) };

    ghost remaining = { item_count (λ left. left) };

    #[inline]
    fn next(&mut self) -> Option<Entry> {
        let entry = self.entries.next()?;
        Some(shifted(entry, self.bytes, self.places))
    }
}
