//! Carets in pictures.

ghost use Rattle.std.specs.Prelude.{◌≡◌, ◌<◌, ◌≤◌, None, length};
ghost use Rattle.std.specs.Option.{IfSome};
ghost use Rattle.std.specs.Str.{chars};
ghost use Rattle.caret.specs.Gaps.{IsCaretOf};
ghost use Rattle.caret.specs.Moves.{caret_under, right_of, left_of, up_of, down_of};
ghost use Rattle.caret.specs.Places.{caret_at};
ghost use Rattle.c_pictures.specs.Numbers.{caret_numbers, caret_of, no_caret};
ghost use Rattle.c_answers.specs.Numbers.{AreNumbersWritten};

use c_answers::EMPTY_HANDLE;
use c_pictures::{
    CaretNumbers, PictureHandle, tell_caret, tell_caret_under, tell_down, tell_left, tell_right,
    tell_up,
};
use std::alloc::Global;

/// Writes the caret at a place of the text.
#[unsafe(no_mangle)]
pub extern "C" fn bidigrid_caret_at(
    alloc: Global,
    picture: &mut PictureHandle,
    place: usize,
    caret: &mut CaretNumbers,
) -> u32
    ensures written { IfSome picture.old.held (λ g. AreNumbersWritten (place ≤ length (chars g.text)) (caret_numbers (caret_at g place)) no_caret 107 caret.new result) }
    ensures same { picture.new.held ≡ picture.old.held }
    ensures empty { picture.old.held ≡ None → (result ≡ 101) × (caret.new ≡ no_caret) }
{
    let Some(held) = picture.take(alloc) else {
        *caret = CaretNumbers::NONE;
        return EMPTY_HANDLE;
    };
    let answer = tell_caret(&held, place, caret);
    picture.put(alloc, held);
    answer
}

/// Writes the caret where a mouse points: in a row at the last gap that is not right of a column.
#[unsafe(no_mangle)]
pub extern "C" fn bidigrid_caret_under(
    alloc: Global,
    picture: &mut PictureHandle,
    row: usize,
    column: usize,
    caret: &mut CaretNumbers,
) -> u32
    ensures written { IfSome picture.old.held (λ g. AreNumbersWritten (row < length g.rows) (caret_numbers (caret_under g.rows row column)) no_caret 108 caret.new result) }
    ensures same { picture.new.held ≡ picture.old.held }
    ensures empty { picture.old.held ≡ None → (result ≡ 101) × (caret.new ≡ no_caret) }
{
    let Some(held) = picture.take(alloc) else {
        *caret = CaretNumbers::NONE;
        return EMPTY_HANDLE;
    };
    let answer = tell_caret_under(&held, row, column, caret);
    picture.put(alloc, held);
    answer
}

/// Moves a caret one step to the right, as the eye sees it.
#[unsafe(no_mangle)]
pub extern "C" fn bidigrid_caret_right(
    alloc: Global,
    picture: &mut PictureHandle,
    caret: &mut CaretNumbers,
) -> u32
    ensures written { IfSome picture.old.held (λ g. AreNumbersWritten (IsCaretOf g.rows (caret_of caret.old)) (caret_numbers (right_of g.rows (caret_of caret.old))) caret.old 110 caret.new result) }
    ensures same { picture.new.held ≡ picture.old.held }
    ensures empty { picture.old.held ≡ None → (result ≡ 101) × (caret.new ≡ caret.old) }
{
    let Some(held) = picture.take(alloc) else {
        return EMPTY_HANDLE;
    };
    let answer = tell_right(&held, caret);
    picture.put(alloc, held);
    answer
}

/// Moves a caret one step to the left, as the eye sees it.
#[unsafe(no_mangle)]
pub extern "C" fn bidigrid_caret_left(
    alloc: Global,
    picture: &mut PictureHandle,
    caret: &mut CaretNumbers,
) -> u32
    ensures written { IfSome picture.old.held (λ g. AreNumbersWritten (IsCaretOf g.rows (caret_of caret.old)) (caret_numbers (left_of g.rows (caret_of caret.old))) caret.old 110 caret.new result) }
    ensures same { picture.new.held ≡ picture.old.held }
    ensures empty { picture.old.held ≡ None → (result ≡ 101) × (caret.new ≡ caret.old) }
{
    let Some(held) = picture.take(alloc) else {
        return EMPTY_HANDLE;
    };
    let answer = tell_left(&held, caret);
    picture.put(alloc, held);
    answer
}

/// Moves a caret one row up, as the eye sees it.
#[unsafe(no_mangle)]
pub extern "C" fn bidigrid_caret_up(
    alloc: Global,
    picture: &mut PictureHandle,
    caret: &mut CaretNumbers,
) -> u32
    ensures written { IfSome picture.old.held (λ g. AreNumbersWritten (IsCaretOf g.rows (caret_of caret.old)) (caret_numbers (up_of g.rows (caret_of caret.old))) caret.old 110 caret.new result) }
    ensures same { picture.new.held ≡ picture.old.held }
    ensures empty { picture.old.held ≡ None → (result ≡ 101) × (caret.new ≡ caret.old) }
{
    let Some(held) = picture.take(alloc) else {
        return EMPTY_HANDLE;
    };
    let answer = tell_up(&held, caret);
    picture.put(alloc, held);
    answer
}

/// Moves a caret one row down, as the eye sees it.
#[unsafe(no_mangle)]
pub extern "C" fn bidigrid_caret_down(
    alloc: Global,
    picture: &mut PictureHandle,
    caret: &mut CaretNumbers,
) -> u32
    ensures written { IfSome picture.old.held (λ g. AreNumbersWritten (IsCaretOf g.rows (caret_of caret.old)) (caret_numbers (down_of g.rows (caret_of caret.old))) caret.old 110 caret.new result) }
    ensures same { picture.new.held ≡ picture.old.held }
    ensures empty { picture.old.held ≡ None → (result ≡ 101) × (caret.new ≡ caret.old) }
{
    let Some(held) = picture.take(alloc) else {
        return EMPTY_HANDLE;
    };
    let answer = tell_down(&held, caret);
    picture.put(alloc, held);
    answer
}
