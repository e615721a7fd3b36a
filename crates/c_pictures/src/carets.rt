//! Carets in pictures.

ghost use Rattle.std.specs.Prelude.{◌<◌, ◌≤◌, length};
ghost use Rattle.std.specs.Str.{chars};
ghost use Rattle.caret.specs.Gaps.{IsCaretOf};
ghost use Rattle.caret.specs.Moves.{caret_under, right_of, left_of, up_of, down_of};
ghost use Rattle.caret.specs.Places.{caret_at};
ghost use Rattle.c_pictures.specs.Numbers.{caret_numbers, caret_of, no_caret};
ghost use Rattle.c_answers.specs.Numbers.{AreNumbersWritten};

use crate::numbers::{CaretNumbers, caret_numbers, caret_of};
use c_answers::{BAD_CARET, BAD_PLACE, BAD_ROW, OK};
use caret::{at_column_among, down_among, left_among, right_among, up_among};
use pictures::Picture;

/// Writes the caret at a place of the text.
pub fn tell_caret(picture: &Picture, place: usize, caret: &mut CaretNumbers) -> u32
    ensures { AreNumbersWritten (place ≤ length (chars picture.now.text)) (caret_numbers (caret_at picture.now place)) no_caret 107 caret.new result }
{
    if place > picture.len() {
        *caret = CaretNumbers::NONE;
        return BAD_PLACE;
    }
    *caret = caret_numbers(picture.at_place(place));
    OK
}

/// Writes the caret where a mouse points: in a row at the last gap that is not right of a column.
pub fn tell_caret_under(
    picture: &Picture,
    row: usize,
    column: usize,
    caret: &mut CaretNumbers,
) -> u32
    ensures { AreNumbersWritten (row < length picture.now.rows) (caret_numbers (caret_under picture.now.rows row column)) no_caret 108 caret.new result }
{
    if row >= picture.rows().len() {
        *caret = CaretNumbers::NONE;
        return BAD_ROW;
    }
    *caret = caret_numbers(at_column_among(picture.rows(), row, column));
    OK
}

/// Moves a caret one step to the right, as the eye sees it.
pub fn tell_right(picture: &Picture, caret: &mut CaretNumbers) -> u32
    ensures { AreNumbersWritten (IsCaretOf picture.now.rows (caret_of caret.old)) (caret_numbers (right_of picture.now.rows (caret_of caret.old))) caret.old 110 caret.new result }
{
    let from = caret_of(caret);
    if !picture.holds(from) {
        return BAD_CARET;
    }
    *caret = caret_numbers(right_among(picture.rows(), from));
    OK
}

/// Moves a caret one step to the left, as the eye sees it.
pub fn tell_left(picture: &Picture, caret: &mut CaretNumbers) -> u32
    ensures { AreNumbersWritten (IsCaretOf picture.now.rows (caret_of caret.old)) (caret_numbers (left_of picture.now.rows (caret_of caret.old))) caret.old 110 caret.new result }
{
    let from = caret_of(caret);
    if !picture.holds(from) {
        return BAD_CARET;
    }
    *caret = caret_numbers(left_among(picture.rows(), from));
    OK
}

/// Moves a caret one row up, as the eye sees it.
pub fn tell_up(picture: &Picture, caret: &mut CaretNumbers) -> u32
    ensures { AreNumbersWritten (IsCaretOf picture.now.rows (caret_of caret.old)) (caret_numbers (up_of picture.now.rows (caret_of caret.old))) caret.old 110 caret.new result }
{
    let from = caret_of(caret);
    if !picture.holds(from) {
        return BAD_CARET;
    }
    *caret = caret_numbers(up_among(picture.rows(), from));
    OK
}

/// Moves a caret one row down, as the eye sees it.
pub fn tell_down(picture: &Picture, caret: &mut CaretNumbers) -> u32
    ensures { AreNumbersWritten (IsCaretOf picture.now.rows (caret_of caret.old)) (caret_numbers (down_of picture.now.rows (caret_of caret.old))) caret.old 110 caret.new result }
{
    let from = caret_of(caret);
    if !picture.holds(from) {
        return BAD_CARET;
    }
    *caret = caret_numbers(down_among(picture.rows(), from));
    OK
}
