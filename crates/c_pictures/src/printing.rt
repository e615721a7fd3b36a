//! Prints of pictures.

ghost use Rattle.std.specs.Prelude.{◌≡◌, slice_get, MatchResult};
ghost use Rattle.std.specs.Option.{MatchOption};
ghost use Rattle.cell_grid.specs.Print.{printed, printed_row, printed_sizes};
ghost use Rattle.c_answers.specs.Copying.{IsCopied, IsLeft, IsPrinted, IsSize};

use bg_types::Memory;
use c_answers::{BAD_ROW, MEMORY, OK, SHORT_BUFFER, copy_out};
use pictures::Picture;

/// Writes a picture: the cells of each row in UTF-8, and a line feed after each.
#[tactic(auto, using(crate::proofs::Sized::printed_nowhere))]
pub fn tell_print(picture: &Picture, out: &mut [u8], size: &mut usize) -> u32
    ensures { IsPrinted (printed picture.now) out.old out.new size.new result }
{
    *size = 0;
    if out.is_empty() {
        return tell_size(picture.print_size(), size);
    }
    match picture.printed() {
        Ok(bytes) => copy_out(&bytes, out, size),
        Err(_) => MEMORY,
    }
}

/// Writes how many bytes there are, where there is no buffer for them.
pub fn tell_size(bytes: Result<usize, Memory>, size: &mut usize) -> u32
    ensures { MatchResult bytes (λ count. IsSize count size.new result) (λ _. (result ≡ 9) × (size.new ≡ 0)) }
{
    match bytes {
        Ok(0) => {
            *size = 0;
            OK
        }
        Ok(bytes) => {
            *size = bytes;
            SHORT_BUFFER
        }
        Err(_) => {
            *size = 0;
            MEMORY
        }
    }
}

/// Writes a row: its cells in UTF-8, and a line feed.
#[tactic(auto, using(crate::proofs::Sized::printed_nowhere))]
pub fn tell_row_print(picture: &Picture, number: usize, out: &mut [u8], size: &mut usize) -> u32
    ensures { MatchOption (slice_get picture.now.rows number) ((result ≡ 108) × IsLeft out.old out.new size.new) (λ _. IsPrinted (printed_row picture.now number) out.old out.new size.new result) }
{
    *size = 0;
    if number >= picture.rows().len() {
        return BAD_ROW;
    }
    if out.is_empty() {
        return tell_size(picture.row_print_size(number), size);
    }
    match picture.printed_row(number) {
        Ok(bytes) => copy_out(&bytes, out, size),
        Err(_) => MEMORY,
    }
}

/// Writes of each entry of a row, from the left, how many bytes its cells have in the row's print.
#[tactic(auto, using(crate::proofs::Sizes::sizes_counted))]
pub fn tell_entry_sizes(
    picture: &Picture,
    number: usize,
    sizes: &mut [usize],
    count: &mut usize,
) -> u32
    ensures { MatchOption (slice_get picture.now.rows number) ((result ≡ 108) × IsLeft sizes.old sizes.new count.new) (λ _. IsCopied (printed_sizes picture.now number) sizes.old sizes.new count.new result) }
{
    *count = 0;
    let Some(row) = picture.rows().get(number) else {
        return BAD_ROW;
    };
    let entries = row.entry_count();
    if sizes.len() < entries {
        *count = entries;
        return SHORT_BUFFER;
    }
    picture.row_entry_sizes(number, sizes);
    *count = entries;
    OK
}
