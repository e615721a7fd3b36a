//! Prints of what a document shows.

ghost use Rattle.std.specs.Prelude.{◌≡◌, slice_get};
ghost use Rattle.std.specs.Option.{MatchOption};
ghost use Rattle.cell_grid.specs.Print.{printed, printed_row, printed_sizes};
ghost use Rattle.live_document.specs.Documents.{shown_grid};
ghost use Rattle.c_answers.specs.Copying.{IsCopied, IsLeft, IsPrinted};

use crate::window_rows::row_shown;
use c_answers::{BAD_ROW, MEMORY, OK, SHORT_BUFFER, copy_out};
use c_pictures::tell_size;
use cell_grid::InMemory;
use live_document::Document;
use std::alloc::Global;

/// Writes all rows that are shown: the cells of each in UTF-8, and a line feed after each.
#[tactic(auto, using(c_pictures::proofs::Interface::printed_nowhere))]
pub fn tell_print(alloc: Global, document: &Document, out: &mut [u8], size: &mut usize) -> u32
    ensures { IsPrinted (printed (shown_grid document.now)) out.old out.new size.new result }
{
    if out.is_empty() {
        return tell_size(document.print_size(), size);
    }
    *size = 0;
    let mut sink = InMemory::new(alloc);
    match document.print(&mut sink) {
        Ok(()) => copy_out(&sink.bytes, out, size),
        Err(_) => MEMORY,
    }
}

/// Writes a row that is shown: its cells in UTF-8, and a line feed.
#[tactic(auto, using(c_pictures::proofs::Interface::printed_nowhere))]
pub fn tell_row_print(
    alloc: Global,
    document: &Document,
    number: usize,
    out: &mut [u8],
    size: &mut usize,
) -> u32
    ensures { MatchOption (slice_get document.now.window.rows number) ((result ≡ 108) × IsLeft out.old out.new size.new) (λ _. IsPrinted (printed_row (shown_grid document.now) number) out.old out.new size.new result) }
{
    *size = 0;
    if number >= document.window().len() {
        return BAD_ROW;
    }
    if out.is_empty() {
        return tell_size(document.row_print_size(number), size);
    }
    let mut sink = InMemory::new(alloc);
    match document.print_row(number, &mut sink) {
        Ok(()) => copy_out(&sink.bytes, out, size),
        Err(_) => MEMORY,
    }
}

/// Writes of each entry of a row that is shown, from the left, how many bytes its cells have in the row's print.
#[tactic(auto, using(c_pictures::proofs::Interface::sizes_counted))]
pub fn tell_entry_sizes(
    document: &Document,
    number: usize,
    sizes: &mut [usize],
    count: &mut usize,
) -> u32
    ensures { MatchOption (slice_get document.now.window.rows number) ((result ≡ 108) × IsLeft sizes.old sizes.new count.new) (λ _. IsCopied (printed_sizes (shown_grid document.now) number) sizes.old sizes.new count.new result) }
{
    *count = 0;
    let Some(row) = row_shown(document, number) else {
        return BAD_ROW;
    };
    let entries = row.entry_count();
    if sizes.len() < entries {
        *count = entries;
        return SHORT_BUFFER;
    }
    document.row_entry_sizes(number, sizes);
    *count = entries;
    OK
}
