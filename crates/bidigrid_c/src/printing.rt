//! Prints of pictures.

ghost use Rattle.std.specs.Prelude.{◌≡◌, None, slice_get};
ghost use Rattle.std.specs.Option.{IfSome, MatchOption};
ghost use Rattle.cell_grid.specs.Print.{printed, printed_row, printed_sizes};
ghost use Rattle.c_answers.specs.Copying.{IsCopied, IsLeft, IsPrinted};

use c_answers::EMPTY_HANDLE;
use c_pictures::{PictureHandle, tell_entry_sizes, tell_print, tell_row_print};
use std::alloc::Global;

/// Writes a picture: the cells of each row in UTF-8, and a line feed after each.
#[unsafe(no_mangle)]
pub extern "C" fn bidigrid_picture_print(
    alloc: Global,
    picture: &mut PictureHandle,
    out: &mut [u8],
    size: &mut usize,
) -> u32
    ensures written { IfSome picture.old.held (λ g. IsPrinted (printed g) out.old out.new size.new result) }
    ensures same { picture.new.held ≡ picture.old.held }
    ensures empty { picture.old.held ≡ None → (result ≡ 101) × IsLeft out.old out.new size.new }
{
    let Some(held) = picture.take(alloc) else {
        *size = 0;
        return EMPTY_HANDLE;
    };
    let answer = tell_print(&held, out, size);
    picture.put(alloc, held);
    answer
}

/// Writes a row: its cells in UTF-8, and a line feed.
#[unsafe(no_mangle)]
pub extern "C" fn bidigrid_picture_row_print(
    alloc: Global,
    picture: &mut PictureHandle,
    number: usize,
    out: &mut [u8],
    size: &mut usize,
) -> u32
    ensures written { IfSome picture.old.held (λ g. MatchOption (slice_get g.rows number) ((result ≡ 108) × IsLeft out.old out.new size.new) (λ _. IsPrinted (printed_row g number) out.old out.new size.new result)) }
    ensures same { picture.new.held ≡ picture.old.held }
    ensures empty { picture.old.held ≡ None → (result ≡ 101) × IsLeft out.old out.new size.new }
{
    let Some(held) = picture.take(alloc) else {
        *size = 0;
        return EMPTY_HANDLE;
    };
    let answer = tell_row_print(&held, number, out, size);
    picture.put(alloc, held);
    answer
}

/// Writes of each entry of a row, from the left, how many bytes its cells have in the row's print.
#[unsafe(no_mangle)]
pub extern "C" fn bidigrid_picture_entry_sizes(
    alloc: Global,
    picture: &mut PictureHandle,
    row: usize,
    sizes: &mut [usize],
    count: &mut usize,
) -> u32
    ensures written { IfSome picture.old.held (λ g. MatchOption (slice_get g.rows row) ((result ≡ 108) × IsLeft sizes.old sizes.new count.new) (λ _. IsCopied (printed_sizes g row) sizes.old sizes.new count.new result)) }
    ensures same { picture.new.held ≡ picture.old.held }
    ensures empty { picture.old.held ≡ None → (result ≡ 101) × IsLeft sizes.old sizes.new count.new }
{
    let Some(held) = picture.take(alloc) else {
        *count = 0;
        return EMPTY_HANDLE;
    };
    let answer = tell_entry_sizes(&held, row, sizes, count);
    picture.put(alloc, held);
    answer
}
