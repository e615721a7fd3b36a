//! Rows that are kept are read one after the other, by a cursor over their paragraphs.

ghost use Rattle.std.specs.Prelude.{◌≡◌, ◌+◌, ◌^◌, ◌<◌, drop, length};
ghost use Rattle.live_document.specs.Keeping.{rows_at};
ghost use Rattle.live_document.specs.Showing.{rows_from};

use crate::paragraph_rows::ParagraphRows;
use cell_grid::Row;
use text_buffer::Cursor;

/// The rows that are kept of a cursor's paragraph, counted from its start; none where none are.
pub fn rows_under<'a>(cursor: &Cursor<'a, ParagraphRows>) -> &'a [Row]
    ensures { result.now ≡ rows_at cursor.now.paragraphs cursor.now.number }
{
    match cursor.kept() {
        Some(kept) => kept.as_slice(),
        None => &[],
    }
}

/// Goes on to the paragraph of a row that is counted from the cursor's own paragraph on, and answers which of the rows there it
/// is.
pub fn go_to_row(cursor: &mut Cursor<'_, ParagraphRows>, row: usize) -> usize
    requires { row < length (rows_from cursor.old.paragraphs cursor.old.number) }
    ensures paragraphs { cursor.new.paragraphs ≡ cursor.old.paragraphs }
    ensures inside { result < length (rows_at cursor.new.paragraphs cursor.new.number) }
    ensures few { result + 1 < 2 ^ 64 }
    ensures same { drop result (rows_from cursor.new.paragraphs cursor.new.number) ≡ drop row (rows_from cursor.old.paragraphs cursor.old.number) }
{
    let mut row = row;
    let mut count = rows_under(cursor).len();
    while row >= count {
        row -= count;
        cursor.next();
        count = rows_under(cursor).len();
    }
    row
}
