//! What is shown is printed as the rows of the whole text are.

ghost use Rattle.std.specs.Prelude.{◌≡◌, ◌<◌, ℕ, length};
ghost use Rattle.unicode_tables.specs.Tables.{TableValues};
ghost use Rattle.cell_grid.specs.Print.{own_sizes, printed_row, printed_sizes, row_text};
ghost use Rattle.cell_grid.specs.Printable.{AreSlices};
ghost use Rattle.live_document.specs.Keeping.{rows_at};
ghost use Rattle.live_document.specs.Showing.{shown_in, there_sizes, there_text, IsReadable};
ghost use Rattle.live_document.specs.Reading.{IsReading};

use crate::laws_below::laws_below;
use crate::paragraph_rows::ParagraphRows;
use crate::reading::{go_to_row, rows_under};
use crate::shown::Shown;
use cell_grid::Row;
use text_buffer::{Buffer, Cursor};

/// A row as it is kept, counted from its paragraph's start, and the paragraph's text.
#[derive(Clone, Copy)]
pub struct OwnText<'a> {
    pub text: &'a str,
    pub row: &'a Row,
}

/// A row of a cursor's paragraph, which prints in the paragraph's text as in the whole one.
pub fn text_under<'a>(cursor: &Cursor<'a, ParagraphRows>, row: usize) -> OwnText<'a>
    requires reading { (left : ℕ) × IsReading cursor.now row left }
    requires inside { row < length (rows_at cursor.now.paragraphs cursor.now.number) }
    ensures slices { AreSlices result.text.now result.row.now }
    ensures alike { (tables : TableValues) → there_text tables cursor.now.paragraphs cursor.now.number row ≡ row_text tables result.text.now result.row.now }
    ensures sizes { (tables : TableValues) → there_sizes tables cursor.now.paragraphs cursor.now.number row ≡ own_sizes tables result.text.now result.row.now }
{
    laws_below();
    let para = cursor.paragraph();
    let rows = rows_under(cursor);
    OwnText {
        text: para.text(),
        row: &rows[row],
    }
}

/// The row that is shown with this number.
pub fn text_shown<'a>(buffer: &'a Buffer<ParagraphRows>, shown: Shown, number: usize) -> OwnText<'a>
    requires readable { IsReadable buffer.now shown }
    requires row { number < shown.count }
    ensures slices { AreSlices result.text.now result.row.now }
    ensures alike { (tables : TableValues) → printed_row (shown_in tables buffer.now shown) number ≡ row_text tables result.text.now result.row.now }
    ensures sizes { (tables : TableValues) → printed_sizes (shown_in tables buffer.now shown) number ≡ own_sizes tables result.text.now result.row.now }
{
    // The text has no more bytes than it may.
    let _bytes = buffer.bytes();
    let mut cursor = buffer.cursor(shown.first);
    let row = go_to_row(&mut cursor, shown.skip + number);
    text_under(&cursor, row)
}
