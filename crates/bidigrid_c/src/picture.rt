//! Pictures: drawn, their rows and entries, freed.

ghost use Rattle.std.specs.Prelude.{◌≡◌, Some, None, drop, length, slice_get};
ghost use Rattle.std.specs.Option.{IfSome, MatchOption};
ghost use Rattle.c_pictures.specs.Drawing.{IsDrawnBy, IsRefusedDrawing};
ghost use Rattle.c_pictures.specs.Numbers.{row_numbers, no_row, entry_numbers, no_entry};
ghost use Rattle.c_answers.specs.Copying.{AreListed};

use c_answers::{EMPTY_HANDLE, OK};
use c_pictures::{
    EntryNumbers, PictureHandle, RowNumbers, TablesHandle, draw_text, tell_entries, tell_entry,
    tell_row,
};
use std::alloc::Global;

/// Draws a text. What the handle held is freed.
#[unsafe(no_mangle)]
pub extern "C" fn bidigrid_picture_new(
    alloc: Global,
    out: &mut PictureHandle,
    tables: &mut TablesHandle,
    width: u32,
    base: u32,
    text: &[u8],
) -> u32
    ensures ok { result ≡ 0 → IfSome tables.old.held (λ t. IfSome out.new.held (IsDrawnBy t width base text.now)) }
    ensures held { result ≡ 0 → out.new.held ≡ None → ⊥ }
    ensures err { (result ≡ 0 → ⊥) → out.new.held ≡ out.old.held }
    ensures fault { (result ≡ 0 → ⊥) → IfSome tables.old.held (λ _. IsRefusedDrawing width base text.now result) }
    ensures empty { tables.old.held ≡ None → result ≡ 101 }
    ensures tables { tables.new.held ≡ tables.old.held }
{
    let Some(held) = tables.take(alloc) else {
        return EMPTY_HANDLE;
    };
    let drawn = draw_text(alloc, &held, width, base, text);
    tables.put(alloc, held);
    match drawn {
        Ok(picture) => {
            out.put(alloc, picture);
            OK
        }
        Err(fault) => fault,
    }
}

/// Frees what a handle holds.
#[unsafe(no_mangle)]
pub extern "C" fn bidigrid_picture_free(alloc: Global, picture: &mut PictureHandle)
    ensures { picture.new.held ≡ None }
{
    if let Some(held) = picture.take(alloc) {
        drop(held);
    }
}

/// Writes how many rows a picture has, at least one.
#[unsafe(no_mangle)]
pub extern "C" fn bidigrid_picture_rows(
    alloc: Global,
    picture: &mut PictureHandle,
    count: &mut usize,
) -> u32
    ensures written { IfSome picture.old.held (λ g. (result ≡ 0) × (count.new ≡ length g.rows)) }
    ensures same { picture.new.held ≡ picture.old.held }
    ensures empty { picture.old.held ≡ None → (result ≡ 101) × (count.new ≡ 0) }
{
    let Some(held) = picture.take(alloc) else {
        *count = 0;
        return EMPTY_HANDLE;
    };
    *count = held.rows().len();
    picture.put(alloc, held);
    OK
}

/// Writes what a row has, counted from 0 at the top.
#[unsafe(no_mangle)]
pub extern "C" fn bidigrid_picture_row(
    alloc: Global,
    picture: &mut PictureHandle,
    number: usize,
    out: &mut RowNumbers,
) -> u32
    ensures written { IfSome picture.old.held (λ g. MatchOption (slice_get g.rows number) ((result ≡ 108) × (out.new ≡ no_row)) (λ r. (result ≡ 0) × (out.new ≡ row_numbers r))) }
    ensures same { picture.new.held ≡ picture.old.held }
    ensures empty { picture.old.held ≡ None → (result ≡ 101) × (out.new ≡ no_row) }
{
    let Some(held) = picture.take(alloc) else {
        *out = RowNumbers::NONE;
        return EMPTY_HANDLE;
    };
    let answer = tell_row(&held, number, out);
    picture.put(alloc, held);
    answer
}

/// Writes what an entry of a row has, counted from 0 at the left.
#[unsafe(no_mangle)]
pub extern "C" fn bidigrid_picture_entry(
    alloc: Global,
    picture: &mut PictureHandle,
    row: usize,
    number: usize,
    out: &mut EntryNumbers,
) -> u32
    ensures written { IfSome picture.old.held (λ g. MatchOption (slice_get g.rows row) ((result ≡ 108) × (out.new ≡ no_entry)) (λ r. MatchOption (slice_get r.entries number) ((result ≡ 109) × (out.new ≡ no_entry)) (λ e. (result ≡ 0) × (out.new ≡ entry_numbers e)))) }
    ensures same { picture.new.held ≡ picture.old.held }
    ensures empty { picture.old.held ≡ None → (result ≡ 101) × (out.new ≡ no_entry) }
{
    let Some(held) = picture.take(alloc) else {
        *out = EntryNumbers::NONE;
        return EMPTY_HANDLE;
    };
    let answer = tell_entry(&held, row, number, out);
    picture.put(alloc, held);
    answer
}

/// Writes what all entries of a row have, from the left.
#[unsafe(no_mangle)]
pub extern "C" fn bidigrid_picture_entries(
    alloc: Global,
    picture: &mut PictureHandle,
    row: usize,
    out: &mut [EntryNumbers],
    count: &mut usize,
) -> u32
    ensures written { IfSome picture.old.held (λ g. MatchOption (slice_get g.rows row) ((result ≡ 108) × (out.new ≡ out.old) × (count.new ≡ 0)) (λ r. AreListed entry_numbers r.entries out.old out.new count.new result)) }
    ensures same { picture.new.held ≡ picture.old.held }
    ensures empty { picture.old.held ≡ None → (result ≡ 101) × (out.new ≡ out.old) × (count.new ≡ 0) }
{
    let Some(held) = picture.take(alloc) else {
        *count = 0;
        return EMPTY_HANDLE;
    };
    let answer = tell_entries(&held, row, out, count);
    picture.put(alloc, held);
    answer
}
